//! Choice trees, and the words that are drawn.
#![tactic(auto)]

mod draws;
mod kids;
mod names;
mod reading;
mod trees;

pub use draws::DrawWords;
pub use trees::{Leaf, Trees};

#[cfg(test)]
mod tests;
