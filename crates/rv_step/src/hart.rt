use rv_csr::CsrFile;
use rv_fields::{Accessed, Mode, Reserved, Trap};
use sv_walk::Trail;

/// A hart: its registers are x0 to x31, of which x0 is 0.
#[derive(Clone, Copy, Debug, PartialEq, Eq)]
pub struct Hart {
    pub number: u8,
    /// The virtual address of the next instruction.
    pub pc: u64,
    pub x: [u64; 32],
    pub mode: Mode,
    pub csrs: CsrFile,
    pub reserved: Option<Reserved>,
}

/// What a step did. A fetch that faults has neither a physical address nor a word.
#[derive(Clone, Copy, Debug, PartialEq, Eq)]
pub struct Stepped {
    /// The virtual address of the instruction.
    pub pc: u64,
    /// The physical address of the instruction.
    pub pa: Option<u64>,
    pub word: Option<u32>,
    /// The register that was written, with its new value; none where that is x0.
    pub rd: Option<(u8, u64)>,
    /// What was read or written in memory.
    pub access: Option<Accessed>,
    /// The page table entries by which the address of a load or store is translated, from the root down.
    pub trail: Trail,
    pub trap: Option<Trap>,
}
