//! Boots, as far as harts have come with them.
ghost use Rattle.std.specs.Prelude.{◌≡◌, ◌<◌, ◌+◌, ◌==◌, ◌&&◌, ◌∷◌, ◌++◌, [], ℕ, List, is_none, length, nat_le, if◌then◌else◌};
ghost use Rattle.rv_fields.specs.Effect.{Effect};
ghost use Rattle.rv_step.specs.Views.{effect_seen};
ghost use Rattle.boot_words.specs.Booting.{boot_steps};
ghost use Rattle.trace_replay.specs.Comparing.{begins_with_boot, is_mret};

use boot_words::{BOOT_STEPS, mret};
use rv_machine::Stepped;

/// The boot of one hart.
#[derive(Clone, Copy, Debug)]
pub(crate) struct Boot {
    /// The steps that it has made, up to those of a boot.
    steps: u8,
    /// Those of them before the first that trapped.
    pub(crate) untrapped: u8,
    /// Whether the last step of a boot was made, and was an mret.
    returned: bool,
}

impl Boot {
    ghost use Rattle.trace_replay.specs.Judging.{IsBootOf};

    /// Before the first step.
    pub(crate) fn new() -> Boot
        ensures { IsBootOf result [] }
    {
        Boot {
            steps: 0,
            untrapped: 0,
            returned: false,
        }
    }

    /// Whether as many steps were made as a boot has.
    pub(crate) fn is_over(&self) -> bool
        ensures steps { result ≡ nat_le boot_steps self.now.steps }
        ensures over { (effects : List Effect) → IsBootOf self.now effects → result ≡ nat_le boot_steps (length effects) }
    {
        self.steps >= BOOT_STEPS
    }

    /// Whether no step of the boot trapped, and the last one was an mret.
    pub(crate) fn passes(&self) -> bool
        ensures { (effects : List Effect) → IsBootOf self.now effects → result ≡ begins_with_boot effects }
    {
        self.untrapped == BOOT_STEPS && self.returned
    }

    /// The boot with one step more.
    pub(crate) fn with(&self, stepped: &Stepped) -> Boot
        requires { self.now.steps < boot_steps }
        ensures { (hart : ℕ) (effects : List Effect) → IsBootOf self.now effects
            → IsBootOf result (effects ++ effect_seen hart stepped.now ∷ []) }
    {
        Boot {
            steps: self.steps + 1,
            untrapped: self.untrapped_with(stepped),
            returned: self.returns_with(stepped),
        }
    }

    /// The steps before the first that trapped, with one step more.
    fn untrapped_with(&self, stepped: &Stepped) -> u8
        requires { self.now.steps < boot_steps }
        ensures { result ≡ (if (self.now.untrapped == self.now.steps) && is_none stepped.now.trap then self.now.untrapped + 1 else self.now.untrapped) }
    {
        if self.untrapped == self.steps && stepped.trap.is_none() {
            self.untrapped + 1
        } else {
            self.untrapped
        }
    }

    /// Whether one step more is the last of a boot, and an mret.
    fn returns_with(&self, stepped: &Stepped) -> bool
        requires { self.now.steps < boot_steps }
        ensures { (hart : ℕ) → result ≡ (nat_le boot_steps (self.now.steps + 1) && is_mret (effect_seen hart stepped.now)) }
    {
        self.steps + 1 >= BOOT_STEPS && stepped.word == Some(mret())
    }
}
