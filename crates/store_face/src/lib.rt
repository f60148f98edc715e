//! Stores of files: where the program reads from and writes to.
#![tactic(auto)]

mod disk;
mod fault;
mod files;
mod memory;
mod store;
#[cfg(test)]
mod tests;

pub use disk::RealStore;
pub use fault::StoreFault;
pub use files::Files;
pub use memory::MemStore;
pub use store::Store;
