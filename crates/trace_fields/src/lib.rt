//! The text forms of the fields of a trace's lines, and the reader that takes a line's fields one after another.
#![tactic(auto)]

mod access;
mod display;
mod entry;
mod fault;
mod fields;
mod numbers;
mod parts;
mod readings;
mod request;
mod trail;
mod trap;

pub use access::AccessText;
pub use display::{BytesText, Hex, OrNone, PathText, Word, Written};
pub use entry::EntryText;
pub use fault::LineFault;
pub use fields::Fields;
pub use parts::cut;
pub use request::{Cause, Kind};
pub use trail::TrailText;
pub use trap::TrapText;
