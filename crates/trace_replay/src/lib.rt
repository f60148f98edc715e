//! Whether a trace is what a program does from reset.
#![tactic(auto)]

mod boot;
mod comparing;
mod comparison;
mod judge;
mod replaying;
mod shown;
mod verdict;

pub use replaying::replay;
pub use rv_machine::Reset;
pub use verdict::{Difference, LineField, ReplayFault, Text, Verdict};

#[cfg(test)]
mod tests;
