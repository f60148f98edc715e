//! What mstatus keeps of the time before a trap.

ghost use Rattle.std.specs.Prelude.{◌≡◌};
ghost use Rattle.rv_fields.specs.Trap as machine;

use crate::field::Field;
use crate::mode::mode_number;
use rv_fields::Mode;

/// The fields that a trap to a mode writes, and a return from it reads.
#[derive(Clone, Copy)]
pub struct Stack {
    /// Whether the mode's interrupts are enabled.
    pub enable: Field,
    /// Whether they were before the trap.
    pub enable_before: Field,
    /// The mode before the trap.
    pub mode_before: Field,
}

impl Stack {
    ghost use Rattle.rv_csr.specs.Views.{stack_seen};

    /// mstatus after a trap from the mode.
    #[tactic(auto, unfolding(rv_fields::specs::Trap::pushed))]
    pub fn pushed(self, status: u64, mode: Mode) -> u64
        ensures { result ≡ machine.pushed (stack_seen self) status mode }
    {
        let kept = self.enable_before.with(status, self.enable.of(status));
        self.mode_before
            .with(self.enable.with(kept, 0), mode_number(mode))
    }

    /// mstatus after a return.
    #[tactic(auto, unfolding(rv_fields::specs::Trap::popped))]
    pub fn popped(self, status: u64) -> u64
        ensures { result ≡ machine.popped (stack_seen self) status }
    {
        let back = self.enable.with(status, self.enable_before.of(status));
        self.mode_before
            .with(self.enable_before.with(back, 1), mode_number(Mode::U))
    }
}
