//! Executables in the ELF64 format.
#![tactic(auto)]

mod apart;
mod checking;
mod fault;
mod fields;
mod headers;
mod placing;
mod reading;
mod writing;

pub use fault::{ElfFault, ElfField};
pub use reading::read_elf;
pub use writing::write_elf;

#[cfg(test)]
mod tests;
