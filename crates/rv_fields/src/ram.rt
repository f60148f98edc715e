ghost use Rattle.std.specs.Prelude.{◌≡◌};
ghost use Rattle.rv_fields.specs.Memory.{in_ram};

/// The first address of RAM.
pub const RAM_START: u64 = 0x8000_0000;

/// The first address past RAM.
pub const RAM_END: u64 = 0x9000_0000;

/// Whether so many bytes from the address on lie in RAM.
pub fn in_ram(at: u64, size: u64) -> bool
    ensures { result ≡ in_ram at size }
{
    RAM_START <= at && at <= RAM_END && size <= RAM_END - at
}
