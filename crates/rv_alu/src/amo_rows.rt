//! Rows that read a number in memory and write another in its place.

ghost use Rattle.std.specs.Prelude.{◌≡◌, ◌^◌, ◌<◌, IsTrue, IfSome, option_map};
ghost use Rattle.rv_fields.specs.Meaning.{is_amo, amo_of, amo_computation};
ghost use Rattle.rv_alu.specs.Views.{computation_seen};

use crate::computation::{Computation, doubleword, word};
use crate::operation::Operation;
use rv_fields::Ins;

/// Whether the row is an AMO. `lr` and `sc` are none.
pub fn is_amo(ins: Ins) -> bool
    ensures { result ≡ is_amo ins }
{
    amo_computation(ins).is_some()
}

/// The number that the row writes to memory, of the row's width, where it reads `old` there and rs2 is `operand`. For
/// `.w` the low 32 bits of both count, and the number is not extended.
pub fn amo(ins: Ins, old: u64, operand: u64) -> u64
    requires { IsTrue (is_amo ins) }
    ensures value { result ≡ amo_of ins old operand }
    ensures width { IfSome (amo_computation ins) (λ c. result < 2 ^ c.bits) }
{
    match amo_computation(ins) {
        Some(computation) => computation.result(old, operand),
        None => unreachable!(),
    }
}

/// What makes the number that the row writes.
fn amo_computation(ins: Ins) -> Option<Computation>
    ensures { option_map computation_seen result ≡ amo_computation ins }
{
    Some(match ins {
        Ins::AmoswapW => word(Operation::Second),
        Ins::AmoaddW => word(Operation::Sum),
        Ins::AmoxorW => word(Operation::ExclusiveOr),
        Ins::AmoandW => word(Operation::Conjunction),
        Ins::AmoorW => word(Operation::InclusiveOr),
        Ins::AmominW => word(Operation::Least),
        Ins::AmomaxW => word(Operation::Greatest),
        Ins::AmominuW => word(Operation::LeastUnsigned),
        Ins::AmomaxuW => word(Operation::GreatestUnsigned),
        Ins::AmoswapD => doubleword(Operation::Second),
        Ins::AmoaddD => doubleword(Operation::Sum),
        Ins::AmoxorD => doubleword(Operation::ExclusiveOr),
        Ins::AmoandD => doubleword(Operation::Conjunction),
        Ins::AmoorD => doubleword(Operation::InclusiveOr),
        Ins::AmominD => doubleword(Operation::Least),
        Ins::AmomaxD => doubleword(Operation::Greatest),
        Ins::AmominuD => doubleword(Operation::LeastUnsigned),
        Ins::AmomaxuD => doubleword(Operation::GreatestUnsigned),
        _ => return None,
    })
}
