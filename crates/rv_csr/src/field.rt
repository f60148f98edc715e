//! Fields of registers.

ghost use Rattle.std.specs.Prelude.{◌≡◌, ◌+◌, ◌<◌, ◌≤◌, ◌^◌};
ghost use Rattle.rv_fields.specs.Field as machine;

/// So many neighbouring bits of a register, the lowest of them at place `low`.
#[derive(Clone, Copy)]
pub struct Field {
    pub low: u32,
    pub width: u32,
    ghost in_register: { low + width ≤ 64 },
    ghost some: { 0 < width },
    ghost not_all: { width < 64 },
}

impl Field {
    ghost use Rattle.std.specs.Prelude.{◌*◌, ◌-◌};
    ghost use Rattle.rv_csr.specs.Views.{field_seen};

    /// The number that stands in the field.
    #[tactic(auto, using(std::proofs::lemmas::Nat::one_shl), unfolding(rv_fields::specs::Field::field_of))]
    pub fn of(self, register: u64) -> u64
        ensures value { result ≡ machine.field_of (field_seen self) register }
        ensures small { result < 2 ^ self.width }
    {
        (register >> self.low) % (1 << self.width)
    }

    /// The register with this value in the field.
    pub fn with(self, register: u64, value: u64) -> u64
        ensures value { result ≡ machine.with_field (field_seen self) register value }
        ensures reads_back { value < 2 ^ self.width → machine.field_of (field_seen self) result ≡ value }
        ensures others { (other : machine.Field) → other.low + other.width ≤ 64 → machine.AreApart (field_seen self) other
            → machine.field_of other result ≡ machine.field_of other register }
    {
        masked(self.mask(), register, value << self.low)
    }

    /// The number whose bits are those of the field.
    #[tactic(auto, using(std::proofs::lemmas::Nat::one_shl, std::proofs::lemmas::Nat::shl_whole))]
    fn mask(self) -> u64
        ensures { result ≡ machine.field_mask (field_seen self) }
    {
        ((1 << self.width) - 1) << self.low
    }
}

/// The bits of the mask from the new number, and all others from the old one.
#[tactic(auto, unfolding(rv_fields::specs::Field::masked))]
pub fn masked(mask: u64, old: u64, new: u64) -> u64
    ensures { result ≡ machine.masked mask old new }
{
    old & !mask | new & mask
}
