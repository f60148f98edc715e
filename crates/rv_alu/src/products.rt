//! What stands above the low bits of products.

ghost use Rattle.std.specs.Prelude.{◌≡◌, ◌%◌, ◌^◌, ◌<◌};
ghost use Rattle.rv_fields.specs.Immediate.{wrapped};
ghost use Rattle.rv_fields.specs.Meaning.{upper_part, upper_product, upper_product_unsigned, upper_product_signed_unsigned};
ghost use Rattle.rv_alu.specs.Views.{bits_seen};

use crate::width::Width;

/// The upper part of the product of signed factors, modulo 2^64.
pub fn upper_product(width: Width, a: u64, b: u64) -> u64
    requires first { a < 2 ^ bits_seen width }
    requires second { b < 2 ^ bits_seen width }
    ensures { result ≡ wrapped (upper_product (bits_seen width) a b) }
{
    upper_part(
        width,
        i128::from(width.signed(a)) * i128::from(width.signed(b)),
    )
}

/// The same for unsigned factors.
pub fn upper_product_unsigned(width: Width, a: u64, b: u64) -> u64
    ensures { result ≡ wrapped (upper_product_unsigned (bits_seen width) a b) }
{
    low_doubleword((u128::from(a) * u128::from(b)) >> width.bits())
}

/// The same for a signed and an unsigned factor.
pub fn upper_product_signed_unsigned(width: Width, a: u64, b: u64) -> u64
    requires { a < 2 ^ bits_seen width }
    ensures { result ≡ wrapped (upper_product_signed_unsigned (bits_seen width) a b) }
{
    upper_part(width, i128::from(width.signed(a)) * i128::from(b))
}

/// What stands above the width's bits, modulo 2^64.
fn upper_part(width: Width, product: i128) -> u64
    ensures { result ≡ wrapped (upper_part (bits_seen width) product) }
{
    low_doubleword((product >> width.bits()).cast_unsigned())
}

/// The low 64 bits.
fn low_doubleword(number: u128) -> u64
    ensures { result ≡ number % 2 ^ 64 }
{
    (number % (1 << 64)) as u64
}
