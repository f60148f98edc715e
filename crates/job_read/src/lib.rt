//! Reading a job.
#![tactic(auto)]

mod harts;
mod reading;
mod requests;

pub use json_keys::InputFault;
pub use reading::read_job;

#[cfg(test)]
mod tests;
