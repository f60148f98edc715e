//! What a job asks for: its harts and their requests.
#![tactic(auto)]

mod job;
mod limits;
mod plan;
mod register_set;
mod request;

pub use job::Job;
pub use limits::{MOST_CODE_PAGES, MOST_REQUESTS};
pub use plan::{HartPlan, Plan};
pub use register_set::RegisterSet;
pub use request::{InsChoice, Item, Pins, Request, Sys};

#[cfg(test)]
mod tests;
