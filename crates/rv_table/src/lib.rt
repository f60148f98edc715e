//! The instruction table, and what words say by it.
#![tactic(auto)]

mod class;
mod decoding;
mod naming;
mod opcodes;
mod rows;
mod table;

pub use class::class_of;
pub use decoding::decode;
pub use naming::by_name;
pub use rows::row;
pub use rv_fields::{Form, Ins, Ops};
pub use table::Row;

#[cfg(test)]
mod tests;
