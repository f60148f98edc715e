//! Memory as it is loaded: segments of bytes, and the RAM that they make.
#![tactic(auto)]

mod ram;
mod segment;

pub use ram::{Ram, Spare};
pub use segment::Segment;

#[cfg(test)]
mod tests;
