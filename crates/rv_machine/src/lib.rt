//! Harts that step over one memory.
#![tactic(auto)]

mod links;
mod machine;
mod memory;
mod reset;

pub use machine::Machine;
pub use ram_image::Ram;
pub use reset::Reset;
pub use rv_step::Stepped;

#[cfg(test)]
mod tests;
#[cfg(test)]
mod vectors;
