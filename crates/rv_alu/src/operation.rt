ghost use Rattle.std.specs.Prelude.{◌≡◌, ◌^◌, ◌<◌};
ghost use Rattle.rv_fields.specs.Immediate.{wrapped};
ghost use Rattle.rv_alu.specs.Views.{bits_seen, operation_seen};

use crate::division::{quotient, remainder};
use crate::products::{upper_product, upper_product_signed_unsigned, upper_product_unsigned};
use crate::width::Width;

/// An operation on two operands of some bits.
#[derive(Clone, Copy)]
pub enum Operation {
    /// The second operand alone.
    Second,
    Sum,
    Difference,
    ExclusiveOr,
    InclusiveOr,
    Conjunction,
    LeftShift,
    LogicalRightShift,
    ArithmeticRightShift,
    /// 1 where the first operand is less than the second, else 0.
    SetIfLess,
    SetIfLessUnsigned,
    Product,
    /// The bits of the product above those that `Product` gives.
    UpperProduct,
    UpperProductUnsigned,
    /// The same for a signed first and an unsigned second operand.
    UpperProductSignedUnsigned,
    Quotient,
    QuotientUnsigned,
    Remainder,
    RemainderUnsigned,
    Least,
    Greatest,
    LeastUnsigned,
    GreatestUnsigned,
}

impl Operation {
    /// What the operation gives for two operands of the width, modulo 2^64. Of it the width's bits count.
    pub fn apply(self, width: Width, a: u64, b: u64) -> u64
        requires first { a < 2 ^ bits_seen width }
        requires second { b < 2 ^ bits_seen width }
        ensures { result ≡ wrapped (operation_seen self (bits_seen width) a b) }
    {
        match self {
            Operation::Second => b,
            Operation::Sum => a.wrapping_add(b),
            Operation::Difference => a.wrapping_sub(b),
            Operation::ExclusiveOr => a ^ b,
            Operation::InclusiveOr => a | b,
            Operation::Conjunction => a & b,
            Operation::LeftShift => a << width.shift_amount(b),
            Operation::LogicalRightShift => a >> width.shift_amount(b),
            Operation::ArithmeticRightShift => {
                (width.signed(a) >> width.shift_amount(b)).cast_unsigned()
            }
            Operation::SetIfLess => u64::from(width.signed(a) < width.signed(b)),
            Operation::SetIfLessUnsigned => u64::from(a < b),
            Operation::Product => a.wrapping_mul(b),
            Operation::UpperProduct => upper_product(width, a, b),
            Operation::UpperProductUnsigned => upper_product_unsigned(width, a, b),
            Operation::UpperProductSignedUnsigned => upper_product_signed_unsigned(width, a, b),
            Operation::Quotient => quotient(width, a, b),
            Operation::QuotientUnsigned => a.checked_div(b).unwrap_or(u64::MAX),
            Operation::Remainder => remainder(width, a, b),
            Operation::RemainderUnsigned => a.checked_rem(b).unwrap_or(a),
            Operation::Least => width.signed(a).min(width.signed(b)).cast_unsigned(),
            Operation::Greatest => width.signed(a).max(width.signed(b)).cast_unsigned(),
            Operation::LeastUnsigned => a.min(b),
            Operation::GreatestUnsigned => a.max(b),
        }
    }
}
