use crate::trail::Trail;

/// What a walk comes to.
#[derive(Clone, Copy, Debug, PartialEq, Eq)]
pub enum Walked {
    /// The physical address.
    Page { pa: u64, trail: Trail },
    /// The cause of a page fault or an access fault. The trail ends with the entry at fault, or before it where that lies
    /// outside RAM. It is empty for an address whose upper bits aren't copies of bit 38.
    Fault { cause: u64, trail: Trail },
    /// The walk needs the entry at this physical address, in a table of this level, and it isn't told. Entries of level 0
    /// lead to pages of 4 KiB.
    Unknown { at: u64, level: u8 },
}
