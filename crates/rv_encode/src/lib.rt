//! Instruction words made of an instruction and its operands.
#![tactic(auto)]

mod encoding;
mod field;
mod fitting;
mod placing;

pub use encoding::encode;
pub use field::{Field, OutOfField};

#[cfg(test)]
mod tests;
#[cfg(test)]
mod vectors;
