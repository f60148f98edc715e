//! One step of a hart over a bus.
#![tactic(auto)]

mod bus;
mod control;
mod hart;
mod instruction;
mod memory;
mod outcome;
mod stepping;

pub use bus::Bus;
pub use hart::{Hart, Stepped};
pub use rv_csr::CsrFile;
pub use rv_fields::{AccessKind, Accessed, Mode, Reserved, Trap};
pub use stepping::{rs1_of, step};
pub use sv_walk::{PteAt, PteSource, Trail};
