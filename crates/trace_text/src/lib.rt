//! The text forms of a trace and of the order of steps.
#![tactic(auto)]

mod display;
mod line;
mod lines;
mod orders;
mod reading;
#[cfg(test)]
mod tests;
mod trace_lines;
mod traces;
mod turns;
mod writing;

pub use line::{Line, StepLine};
pub use orders::read_order;
pub use trace_lines::TraceLines;
pub use traces::read_trace;
pub use writing::{write_order, write_trace};
