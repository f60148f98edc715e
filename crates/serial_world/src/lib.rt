//! The world of one thread: it runs all harts of a job, a turn at a time.
#![tactic(auto)]

mod harts;
mod serial;
mod world;

pub use serial::{run_drawn, run_list};

#[cfg(test)]
mod tests;
