/// Why an address is translated.
#[derive(Clone, Copy, Debug, PartialEq, Eq)]
pub enum Access {
    Fetch,
    Load,
    Store,
}

/// What an instruction does with memory.
#[derive(Clone, Copy, Debug, PartialEq, Eq)]
pub enum AccessKind {
    Load,
    Store,
    Lr,
    Sc,
    Amo,
}

/// What a step read or wrote in memory.
#[derive(Clone, Copy, Debug, PartialEq, Eq)]
pub struct Accessed {
    pub kind: AccessKind,
    /// The virtual address.
    pub va: u64,
    /// The physical address.
    pub pa: u64,
    /// How many bytes: 1, 2, 4 or 8.
    pub size: u8,
    /// The number of that size that was read.
    pub read: Option<u64>,
    /// The number of that size that was written.
    pub wrote: Option<u64>,
}

/// What an LR leaves to its hart: the physical address and the number of bytes that an SC may store to.
#[derive(Clone, Copy, Debug, PartialEq, Eq)]
pub struct Reserved {
    pub pa: u64,
    pub size: u8,
}
