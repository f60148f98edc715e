//! The fields of RISC-V instruction words, and the definitions of the machine that all other crates cite.
#![tactic(auto)]

mod access;
mod class;
mod csr;
mod form;
mod harts;
mod immediate;
mod memory;
mod mode;
mod name;
mod pieces;
mod ram;
mod row_table;
mod trap;
mod word;

pub use access::{Access, AccessKind, Accessed, Reserved};
pub use class::{Class, CsrChange, Extension};
pub use csr::{CSRS, Csr, CsrRow, csr_named, csr_number, csr_of, csr_row};
pub use harts::{MOST_HARTS, RESET_PC};
pub use immediate::{
    fits_b, fits_i, fits_j, fits_u, imm_b, imm_i, imm_j, imm_s, imm_u, put_imm_b, put_imm_i,
    put_imm_j, put_imm_s, put_imm_u,
};
pub use memory::NoMemory;
pub use mode::Mode;
pub use name::{Name, name_of};
pub use ram::{RAM_END, RAM_START, in_ram};
pub use row_table::{Form, Ins, Ops};
pub use trap::Trap;
pub use word::bits_of;

#[cfg(test)]
mod tests;
