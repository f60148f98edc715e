//! Division of numbers of some bits, also by zero.

ghost use Rattle.std.specs.Prelude.{◌≡◌, ◌^◌, ◌<◌};
ghost use Rattle.rv_fields.specs.Immediate.{wrapped};
ghost use Rattle.rv_fields.specs.Meaning.{quotient, remainder};
ghost use Rattle.rv_alu.specs.Views.{bits_seen};

use crate::width::Width;

/// The signed quotient modulo 2^64.
pub fn quotient(width: Width, dividend: u64, divisor: u64) -> u64
    requires dividend { dividend < 2 ^ bits_seen width }
    requires divisor { divisor < 2 ^ bits_seen width }
    ensures { result ≡ wrapped (quotient (bits_seen width) dividend divisor) }
{
    if divisor == 0 {
        u64::MAX
    } else {
        let quotient = width.signed(dividend).wrapping_div(width.signed(divisor));
        quotient.cast_unsigned()
    }
}

/// The signed remainder modulo 2^64.
pub fn remainder(width: Width, dividend: u64, divisor: u64) -> u64
    requires dividend { dividend < 2 ^ bits_seen width }
    requires divisor { divisor < 2 ^ bits_seen width }
    ensures { result ≡ wrapped (remainder (bits_seen width) dividend divisor) }
{
    if divisor == 0 {
        width.sign_extended(dividend)
    } else {
        let remainder = width.signed(dividend).wrapping_rem(width.signed(divisor));
        remainder.cast_unsigned()
    }
}
