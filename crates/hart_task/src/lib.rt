//! The task of one hart: it answers its template, request by request, and logs what it does.
#![tactic(auto)]

mod bus;
mod log;
mod stepping;
mod task;

pub use log::{HartLog, Turned};
pub use task::{Handling, HartTask, Making, Phase};

#[cfg(test)]
mod tests;
