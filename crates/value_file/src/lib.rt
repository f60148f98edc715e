//! The registers of one hart, whose starting values are chosen late: when a register is first needed, and no earlier.
#![tactic(auto)]

mod file;
mod register;

pub use file::ValueFile;

#[cfg(test)]
mod tests;
