//! Rows whose rd is computed from their operands alone.

ghost use Rattle.std.specs.Prelude.{◌≡◌, IsTrue, option_map};
ghost use Rattle.rv_fields.specs.Meaning.{is_alu, alu_of, alu_computation};
ghost use Rattle.rv_alu.specs.Views.{computation_seen};

use crate::computation::{Computation, doubleword, word};
use crate::operation::Operation;
use rv_fields::Ins;

/// Whether the row's rd is computed from its operands alone, and so by `alu`.
pub fn is_alu(ins: Ins) -> bool
    ensures { result ≡ is_alu ins }
{
    alu_computation(ins).is_some()
}

/// What the row gives to its rd, by the integer computations of RV64I and the M extension. `a` is the value of rs1, or
/// for `auipc` pc. `b` is the value of rs2 in form R, and in all others the immediate as a 64-bit number in two's
/// complement. `lui` gives `b`.
pub fn alu(ins: Ins, a: u64, b: u64) -> u64
    requires { IsTrue (is_alu ins) }
    ensures { result ≡ alu_of ins a b }
{
    match alu_computation(ins) {
        Some(computation) => computation.extended_result(a, b),
        None => unreachable!(),
    }
}

/// What the row computes.
fn alu_computation(ins: Ins) -> Option<Computation>
    ensures { option_map computation_seen result ≡ alu_computation ins }
{
    Some(match ins {
        Ins::Lui => doubleword(Operation::Second),
        Ins::Auipc | Ins::Addi | Ins::Add => doubleword(Operation::Sum),
        Ins::Sub => doubleword(Operation::Difference),
        Ins::Xori | Ins::Xor => doubleword(Operation::ExclusiveOr),
        Ins::Ori | Ins::Or => doubleword(Operation::InclusiveOr),
        Ins::Andi | Ins::And => doubleword(Operation::Conjunction),
        Ins::Slli | Ins::Sll => doubleword(Operation::LeftShift),
        Ins::Srli | Ins::Srl => doubleword(Operation::LogicalRightShift),
        Ins::Srai | Ins::Sra => doubleword(Operation::ArithmeticRightShift),
        Ins::Slti | Ins::Slt => doubleword(Operation::SetIfLess),
        Ins::Sltiu | Ins::Sltu => doubleword(Operation::SetIfLessUnsigned),
        Ins::Mul => doubleword(Operation::Product),
        Ins::Mulh => doubleword(Operation::UpperProduct),
        Ins::Mulhu => doubleword(Operation::UpperProductUnsigned),
        Ins::Mulhsu => doubleword(Operation::UpperProductSignedUnsigned),
        Ins::Div => doubleword(Operation::Quotient),
        Ins::Divu => doubleword(Operation::QuotientUnsigned),
        Ins::Rem => doubleword(Operation::Remainder),
        Ins::Remu => doubleword(Operation::RemainderUnsigned),
        Ins::Addiw | Ins::Addw => word(Operation::Sum),
        Ins::Subw => word(Operation::Difference),
        Ins::Slliw | Ins::Sllw => word(Operation::LeftShift),
        Ins::Srliw | Ins::Srlw => word(Operation::LogicalRightShift),
        Ins::Sraiw | Ins::Sraw => word(Operation::ArithmeticRightShift),
        Ins::Mulw => word(Operation::Product),
        Ins::Divw => word(Operation::Quotient),
        Ins::Divuw => word(Operation::QuotientUnsigned),
        Ins::Remw => word(Operation::Remainder),
        Ins::Remuw => word(Operation::RemainderUnsigned),
        _ => return None,
    })
}
