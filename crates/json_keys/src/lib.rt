//! Reading a JSON value by its keys, and why an input file isn't read.
#![tactic(auto)]

mod input;
mod values;

pub use input::InputFault;
pub use values::{Members, document, natural_at, object_of, text_at, value_at};

#[cfg(test)]
mod tests;
