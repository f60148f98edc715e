/// What is told of a page table entry.
#[derive(Clone, Copy, Debug, PartialEq, Eq)]
pub enum PteAt {
    Value(u64),
    /// The entry isn't known.
    Unfixed,
    /// There is no RAM.
    Absent,
}

/// What tells page table entries by their physical addresses. It need not know all of them.
pub trait PteSource {
    ghost use Rattle.std.specs.Prelude.{◌≡◌};
    ghost use Rattle.rv_fields.specs.Sv39.{Entries};
    ghost use Rattle.sv_walk.specs.Views.{pte_told};

    /// The entries that are told.
    ghost entries: { Self → Entries };

    /// The entry of 8 bytes at the address.
    fn pte(&self, at: u64) -> PteAt
        ensures { pte_told result ≡ entries self.now at };
}
