ghost use Rattle.std.specs.Prelude.{◌≡◌, ◌+◌, ◌<◌, min};

use rand_core::Rng;
use rand_pcg::Lcg128Xsl64;
use std::marker::Model;

/// The words of one stream of a seed, drawn one after another: the outputs of the generator PCG XSL RR 128/64.
#[derive(Drop)]
pub struct DrawWords {
    seed: u64,
    stream: u64,
    /// How many words were drawn.
    drawn: u64,
    generator: Lcg128Xsl64,
}

impl Model for DrawWords {
    ghost use Rattle.std.specs.Prelude.{◌≡◌, ◌-◌, ◌^◌, ◌<◌};
    ghost use Rattle.choice_tree.specs.Draws.{Draws, generator_after, words_from};

    ghost Value = { Draws };

    ghost view = { λ w. record { seed = w.seed; stream = w.stream; drawn = w.drawn } };

    // The generator gives from here on what it gives after as many words as were counted.
    ghost invariant = { λ w. w.drawn < 2 ^ 64 - 1
        → words_from w.generator ≡ words_from (generator_after w.seed w.stream w.drawn) };
}

impl DrawWords {
    ghost use Rattle.choice_tree.specs.Draws.{word_of};

    /// The words of the stream from the first on.
    pub fn new(seed: u64, stream: u64) -> DrawWords
        ensures { result ≡ record { seed = seed; stream = stream; drawn = 0 } }
    {
        DrawWords {
            seed,
            stream,
            drawn: 0,
            generator: Lcg128Xsl64::new(u128::from(seed), u128::from(stream)),
        }
    }

    /// Draws the next word. It is counted, but for a count that is at its end.
    pub fn next(&mut self) -> u64
        ensures word { self.old.drawn < u64.MAX → result ≡ word_of self.old.seed self.old.stream self.old.drawn }
        ensures drawn { self.new.drawn ≡ min (self.old.drawn + 1) u64.MAX }
        ensures seed { self.new.seed ≡ self.old.seed }
        ensures stream { self.new.stream ≡ self.old.stream }
    {
        let word = self.generator.next_u64();
        self.drawn = self.drawn.saturating_add(1);
        word
    }

    /// How many words were drawn; a count at its end stands still.
    pub fn drawn(&self) -> u64
        ensures { result ≡ self.now.drawn }
    {
        self.drawn
    }
}
