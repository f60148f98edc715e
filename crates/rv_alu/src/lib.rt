//! What the rows of the instruction table compute from operands: results, the numbers that AMOs write, and whether
//! branches are taken.
#![tactic(auto)]

mod alu_rows;
mod amo_rows;
mod branch_rows;
mod computation;
mod division;
mod operation;
mod products;
mod width;

pub use alu_rows::{alu, is_alu};
pub use amo_rows::{amo, is_amo};
pub use branch_rows::{is_branch, taken};

#[cfg(test)]
mod tests;
#[cfg(test)]
mod vectors;
