use sv_walk::PteSource;

/// What a hart reads and writes memory through. It may hold a part of RAM alone.
pub trait Bus: PteSource {
    ghost use Rattle.std.specs.Prelude.{◌≡◌, ◌%◌, ◌*◌, ◌^◌, ◌<◌, ℕ, true, false, IsTrue, IsSome, IfSome, Some};
    ghost use Rattle.rv_fields.specs.Memory.{Seen, told, in_ram, IsSize, stored, granule, linked, unlinked};
    ghost use Rattle.rv_fields.specs.Sv39.{entries_in};

    /// The bytes and the links that the bus tells.
    ghost seen: { Self → Seen };

    /// It has room for a store and for a link at the physical address.
    ghost has_room: { Self → ℕ → Type 0 };

    /// The word at a physical address; none where there is no RAM.
    fn fetch(&self, pa: u64) -> Option<u32>
        requires { IsSome (told (seen self.now).byte pa 4) }
        ensures { told (seen self.now).byte pa 4 ≡ Some result };

    /// The number of `size` bytes at a physical address, the lowest first; none where there is no RAM.
    fn load(&self, pa: u64, size: u8) -> Option<u64>
        requires size { IsSize size }
        requires aligned { pa % size ≡ 0 }
        requires told { IsSome (told (seen self.now).byte pa size) }
        ensures value { told (seen self.now).byte pa size ≡ Some result }
        ensures small { IfSome result (λ number. number < 2 ^ (8 * size)) };

    /// Stores the lowest `size` bytes of the value, and takes away all other harts' links to their granule. False, and
    /// nothing is done, where there is no RAM.
    fn store(&mut self, hart: u8, pa: u64, size: u8, value: u64) -> bool
        requires size { IsSize size }
        requires aligned { pa % size ≡ 0 }
        requires room { IsTrue (in_ram pa size) → has_room self.old pa }
        ensures inside { result ≡ in_ram pa size }
        ensures stored { in_ram pa size ≡ true → seen self.new
            ≡ record { byte = stored (seen self.old).byte pa size value; link = unlinked hart (granule pa) (seen self.old).link } }
        ensures outside { in_ram pa size ≡ false → seen self.new ≡ seen self.old };

    /// Adds the hart's link to the granule of a physical address.
    fn link(&mut self, hart: u8, pa: u64)
        requires { has_room self.old pa }
        ensures { seen self.new
            ≡ record { byte = (seen self.old).byte; link = linked hart (granule pa) (seen self.old).link } };

    /// Whether the hart's link to the granule of a physical address stands.
    fn linked(&self, hart: u8, pa: u64) -> bool
        requires { IsSome ((seen self.now).link hart (granule pa)) }
        ensures { (seen self.now).link hart (granule pa) ≡ Some result };

    /// The page table entries are those that stand in memory.
    ghost tells_entries: { (bus : Self) → Self.entries bus ≡ entries_in (seen bus).byte };
}
