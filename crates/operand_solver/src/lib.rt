//! What a request's operands may be, and which of them drawn words choose.
#![tactic(auto)]

mod drawing;
mod operand;
mod solving;

pub use operand::NoRegister;
pub use solving::operands;

#[cfg(test)]
mod tests;
