//! The numbers of the modes in registers and in the registers' numbers.

ghost use Rattle.std.specs.Prelude.{◌≡◌};
ghost use Rattle.rv_fields.specs.Status as status;

use rv_fields::Mode;

pub fn mode_number(mode: Mode) -> u64
    ensures { result ≡ status.mode_number mode }
{
    match mode {
        Mode::U => 0,
        Mode::S => 1,
        Mode::M => 3,
    }
}

/// The mode of a number. 2 is the number of none, and counts as 0.
pub fn mode_of(number: u64) -> Mode
    ensures { result ≡ status.mode_of number }
{
    match number {
        3 => Mode::M,
        1 => Mode::S,
        _ => Mode::U,
    }
}
