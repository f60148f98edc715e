ghost use Rattle.std.specs.Prelude.{◌≡◌, ◌<◌};
ghost use Rattle.rv_fields.specs.Immediate.{bits_of};

/// The number in some neighbouring bits of a word, the lowest of them at place `low`.
#[tactic(auto, using(std::proofs::lemmas::Nat::one_shl))]
pub fn bits_of(word: u32, low: u32, width: u32) -> u32
    requires low { low < 32 }
    requires width { width < 32 }
    ensures { result ≡ bits_of word low width }
{
    (word >> low) % (1 << width)
}
