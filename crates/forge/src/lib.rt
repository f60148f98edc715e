//! The generator as a whole: from a job to its three files, and from a command line to a status.
#![tactic(auto)]

mod command;
mod files;
mod line;
mod made;
mod making;
mod replaying;
mod serial;
mod stop;
#[cfg(test)]
mod tests;
mod top;
mod words;

pub use made::{Counts, Made};
pub use making::{make_serial, make_with};
pub use top::plain_top;
