ghost use Rattle.std.specs.Prelude.{◌≡◌, ◌≤◌, ◌<◌, ◌==◌, IfOk, get_or, is_ok, length, not};
ghost use Rattle.region_plan.specs.Views.{pins_seen};
ghost use Rattle.operand_solver.specs.Drawing.{allowed_to, operand_seen};
ghost use Rattle.operand_solver.specs.Operands.{behind_operand, if_has, operand, value_of_operand};

use crate::drawing::draw;
use choice_tree::DrawWords;
use region_plan::Pins;

/// No register serves some operand.
#[derive(Clone, Copy, Debug, PartialEq, Eq)]
pub struct NoRegister;

/// A register operand before any word is drawn.
#[derive(Clone, Copy, Debug, PartialEq, Eq)]
pub(crate) enum RegisterOperand {
    /// This register.
    Fixed(u8),
    /// One of all registers but those to avoid, as the next word says.
    Allowed,
}

impl RegisterOperand {
    /// The operand that an instruction has or lacks, with its pin where it has one.
    pub(crate) fn of(has: bool, pins: &Pins, pin: Option<u8>) -> Result<RegisterOperand, NoRegister>
        ensures served { is_ok result ≡ not (length (if_has has (operand (allowed_to (pins_seen pins.now)) pin)).members == 0) }
        ensures operand { IfOk result (λ o. operand_seen (allowed_to (pins_seen pins.now)) o ≡ if_has has (operand (allowed_to (pins_seen pins.now)) pin)) }
    {
        match pin {
            _ if !has => Ok(RegisterOperand::Fixed(0)),
            Some(register) if register < 32 && !pins.avoid.contains(register) => {
                Ok(RegisterOperand::Fixed(register))
            }
            None if 0 < count_allowed(pins) => Ok(RegisterOperand::Allowed),
            _ => Err(NoRegister),
        }
    }

    /// The register, by the next word where one is drawn.
    pub(crate) fn draw(self, pins: &Pins, words: &mut DrawWords) -> u8
        requires some { 0 < length (operand_seen (allowed_to (pins_seen pins.now)) self).members }
        requires few { words.old.drawn < u64.MAX }
        ensures register { result ≡ value_of_operand words.old (operand_seen (allowed_to (pins_seen pins.now)) self) }
        ensures left { words.new ≡ behind_operand words.old (operand_seen (allowed_to (pins_seen pins.now)) self) }
    {
        match self {
            RegisterOperand::Fixed(register) => register,
            RegisterOperand::Allowed => {
                nth_allowed(pins, (draw(words) % count_allowed(pins) as u64) as usize)
            }
        }
    }
}

/// How many registers there are but those to avoid.
fn count_allowed(pins: &Pins) -> usize
    ensures count { result ≡ length (allowed_to (pins_seen pins.now)) }
    ensures few { result ≤ 32 }
{
    let mut count = 0;
    for register in 0..32u8 {
        if !pins.avoid.contains(register) {
            count += 1;
        }
    }
    count
}

/// The one of this number among them, in rising order.
fn nth_allowed(pins: &Pins, number: usize) -> u8
    requires { number < length (allowed_to (pins_seen pins.now)) }
    ensures { result ≡ get_or (allowed_to (pins_seen pins.now)) number 0 }
{
    let mut left = number;
    for register in 0..32u8 {
        if !pins.avoid.contains(register) {
            if left == 0 {
                return register;
            }
            left -= 1;
        }
    }
    unreachable!("the number is below the count")
}
