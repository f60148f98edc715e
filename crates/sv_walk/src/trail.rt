ghost use Rattle.std.specs.Prelude.{◌≡◌, ◌+◌, ◌<◌, [], ◌∷◌, ◌++◌};
ghost use Rattle.sv_walk.specs.Views.{trail_seen, HoldsZeros};

/// The entries that a walk read, from the root down: how many they are, their physical addresses, and what stood there.
#[derive(Clone, Copy, Debug, PartialEq, Eq)]
pub struct Trail {
    pub len: u8,
    pub at: [u64; 4],
    pub pte: [u64; 4],
}

impl Trail {
    /// No entry.
    pub fn new() -> Trail
        ensures entries { trail_seen result ≡ [] }
        ensures len { result.len ≡ 0 }
        ensures zeros { HoldsZeros result }
    {
        Trail {
            len: 0,
            at: [0; 4],
            pte: [0; 4],
        }
    }

    /// The same entries, and one more.
    pub fn with(self, at: u64, pte: u64) -> Trail
        requires { self.len < 4 }
        ensures entries { trail_seen result ≡ trail_seen self ++ (record { at = at; pte = pte } ∷ []) }
        ensures len { result.len ≡ self.len + 1 }
        ensures zeros { HoldsZeros self → HoldsZeros result }
    {
        let place = self.len as usize;
        let mut longer = self;
        longer.at[place] = at;
        longer.pte[place] = pte;
        longer.len += 1;
        longer
    }
}
