ghost use Rattle.std.specs.Prelude.{◌≡◌};
ghost use Rattle.trace_fields.specs.Letters.{letter_of_mode};

use rv_fields::{Mode, Trap};
use std::marker::Model;

/// The trap that a step took.
#[derive(Clone, Copy, Debug, PartialEq, Eq)]
pub struct TrapText {
    /// The number of the cause, below 16.
    pub cause: u64,
    pub epc: u64,
    pub tval: u64,
    /// The letter of the mode that handles it: `M` or `S`.
    pub to: u8,
}

impl Model for TrapText {
    ghost use Rattle.std.specs.Prelude.{◌≡◌};
    ghost use Rattle.rv_fields.specs.declared.trap.Trap.{Trap};
    ghost use Rattle.trace_fields.specs.Letters.{letter_of_mode, mode_of_letter};

    ghost Value = { Trap };

    ghost view = { λ t. record { cause = t.cause; epc = t.epc; tval = t.tval; to = mode_of_letter t.to } };

    ghost inverse = { λ t. record { cause = t.cause; epc = t.epc; tval = t.tval; to = letter_of_mode t.to } };

    ghost invariant = { λ t. letter_of_mode (mode_of_letter t.to) ≡ t.to };
}

impl TrapText {
    ghost use Rattle.std.specs.Prelude.{◌≡◌, ◌≢◌};
    ghost use Rattle.rv_fields.specs.declared.mode.Mode.TheVariants.{U};

    /// A trap that a step took, as a trace tells it. Mode U handles none.
    pub fn of(trap: Trap) -> TrapText
        requires handled { trap.to ≢ U }
        ensures { result ≡ trap }
    {
        TrapText {
            cause: trap.cause,
            epc: trap.epc,
            tval: trap.tval,
            to: letter_of_mode(trap.to),
        }
    }
}

/// The letter of the mode.
fn letter_of_mode(mode: Mode) -> u8
    ensures { result ≡ letter_of_mode mode }
{
    match mode {
        Mode::U => b'U',
        Mode::S => b'S',
        Mode::M => b'M',
    }
}
