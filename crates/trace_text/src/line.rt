use rv_fields::Name;
use trace_fields::{AccessText, Cause, Kind, TrailText, TrapText};

/// What one step did.
#[derive(Clone, Copy, Debug, PartialEq, Eq)]
pub struct StepLine {
    pub hart: u8,
    /// The virtual address of the instruction.
    pub pc: u64,
    /// The physical address of the instruction.
    pub pa: u64,
    pub word: u32,
    /// The register that was written, with its new value; none where that is x0.
    pub rd: Option<(u8, u64)>,
    /// What it read or wrote in memory.
    pub access: Option<AccessText>,
    /// The page table entries by which the address of that is translated, from the root down.
    pub trail: TrailText,
    pub trap: Option<TrapText>,
}

/// A line of a trace. The forms of its fields are in `docs/FORMATS.md`.
#[derive(Debug, Drop, PartialEq, Eq)]
pub enum Line {
    /// Request `k` of the hart begins.
    Q {
        hart: u8,
        k: u32,
        kind: Kind,
    },
    /// The leaf was picked in the tree, by this drawn word.
    P {
        hart: u8,
        tree: Name,
        leaf: Name,
        word16: u64,
    },
    /// The node of the tree at the path, whose labels these are, has a new weight.
    W {
        hart: u8,
        tree: Name,
        path: Vec<Name>,
        weight: u32,
    },
    /// The register, x1 to x31, starts with this value: no step before has read or written it.
    X {
        hart: u8,
        reg: u32,
        value: u64,
    },
    /// The page of the object is given this frame.
    G {
        hart: u8,
        object: Name,
        page: u32,
        frame: u32,
    },
    /// The page table entry of the address space at this physical address is fixed.
    M {
        hart: u8,
        space: u32,
        at: u64,
        pte: u64,
    },
    /// Memory starts with these bytes, 1 to 8, from this physical address on.
    Y {
        hart: u8,
        at: u64,
        bytes: Vec<u8>,
    },
    /// The hart steps a word that its request has just made.
    S(StepLine),
    /// The hart steps a word that it has found.
    F(StepLine),
    /// The hart steps its last word, and is finished.
    E(StepLine),
    /// Request `k` of the hart is done.
    D {
        hart: u8,
        k: u32,
    },
    /// Request `k` of the hart is refused, behind a preamble of `pre` words: 0 or 8.
    R {
        hart: u8,
        k: u32,
        cause: Cause,
        pre: u32,
    },
}
