//! What the harts did, put together: the lines by place, the order of the steps and the segments of the image.
#![tactic(auto)]

mod merging;
mod order;
mod run;
mod segments;

pub use merging::merge;
pub use run::Run;

#[cfg(test)]
mod tests;
