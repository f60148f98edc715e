/// A page table entry, and the physical address at which it stands.
#[derive(Clone, Copy, Debug, PartialEq, Eq)]
pub struct EntryText {
    pub at: u64,
    pub pte: u64,
}
