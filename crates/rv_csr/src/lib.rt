//! The file of control and status registers of a hart: reads, writes, traps and returns.
#![tactic(auto)]

mod field;
mod file;
mod mode;
mod stack;

pub use file::{CsrFile, Illegal, reset_of};
pub use rv_fields::{Csr, Mode};

#[cfg(test)]
mod tests;
