//! How Sv39 translates virtual addresses by page tables.
#![tactic(auto)]

mod bits;
mod cause;
mod entry;
mod next;
mod pages;
mod rights;
mod source;
mod table_walk;
mod trail;
mod walked;

pub use cause::{access_fault, misaligned, page_fault};
pub use pages::PageRange;
pub use rights::Rights;
pub use rv_fields::{Access, Mode};
pub use source::{PteAt, PteSource};
pub use table_walk::{translate, walk};
pub use trail::Trail;
pub use walked::Walked;

#[cfg(test)]
mod tests;
