ghost use Rattle.std.specs.Prelude.{◌≡◌, ◌<◌, ◌≤◌, ◌^◌};
ghost use Rattle.rv_fields.specs.Immediate as machine;

/// The number in some neighbouring bits of a number, the lowest of them at place `low`.
#[tactic(auto, using(std::proofs::lemmas::Nat::one_shl))]
pub fn bits_of(number: u64, low: u32, width: u32) -> u64
    requires low { low < 64 }
    requires width { width < 64 }
    ensures value { result ≡ machine.bits_of number low width }
    ensures small { result < 2 ^ width }
{
    (number >> low) % (1 << width)
}
