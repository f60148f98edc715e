use crate::mode::Mode;

/// The trap that a step took.
#[derive(Clone, Copy, Debug, PartialEq, Eq)]
pub struct Trap {
    pub cause: u64,
    /// The address of the instruction.
    pub epc: u64,
    /// What goes with the cause: an address, or the instruction's word.
    pub tval: u64,
    /// The mode that handles it.
    pub to: Mode,
}
