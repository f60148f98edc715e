//! The numbers that fields spell.
ghost use Rattle.std.specs.Prelude.{◌≡◌, ◌<◌, ◌≤◌, ◌^◌, true, false, MatchOption, SomeIff};
ghost use Rattle.std.specs.Str.Parse.{IsNumeral, digits_value, without_leading_plus};
ghost use Rattle.trace_fields.specs.Numbers.{number_below, decimal_below, hex_below, wide_hex_reading, word_reading, byte_reading, is_plain, is_lower};
ghost use Rattle.trace_fields.specs.Fields.{is_decimal};

/// The number below the bound that the field spells in decimal digits.
pub(crate) fn decimal_below(field: &[u8], bound: u64) -> Option<u64>
    ensures { result ≡ decimal_below bound field.now }
{
    let number = number_of(field, 10)?;
    if number < bound { Some(number) } else { None }
}

/// The number from 1 on and below the bound that the field spells in decimal digits.
pub(crate) fn count_below(field: &[u8], bound: usize) -> Option<usize>
    ensures { MatchOption result (is_decimal 1 bound field.now ≡ false)
        (λ count. (is_decimal 1 bound field.now ≡ true) × (0 < count) × (count < bound) × (count ≡ digits_value 10 field.now)) }
{
    let count = decimal_below(field, bound as u64)? as usize;
    if count == 0 { None } else { Some(count) }
}

/// The number that the field spells in hexadecimal digits.
pub(crate) fn hex_of(field: &[u8]) -> Option<u64>
    ensures { result ≡ hex_below (2 ^ 64) field.now }
{
    number_of(field, 16)
}

/// The number of so many bits at most that the field spells in hexadecimal digits.
pub(crate) fn hex_of_bits(field: &[u8], bits: u32) -> Option<u64>
    requires { bits ≤ 64 }
    ensures { result ≡ hex_below (2 ^ bits) field.now }
{
    let number = hex_of(field)?;
    if bits == u64::BITS || number >> bits == 0 {
        Some(number)
    } else {
        None
    }
}

/// The word that the field spells in eight hexadecimal digits.
pub(crate) fn word_of(field: &[u8]) -> Option<u32>
    ensures { result ≡ word_reading field.now }
{
    Some(wide_hex_of(field, 8)? as u32)
}

/// The byte that the field spells in two hexadecimal digits.
pub(crate) fn byte_of(field: &[u8]) -> Option<u8>
    ensures { result ≡ byte_reading field.now }
{
    Some(wide_hex_of(field, 2)? as u8)
}

/// The number that the field spells in just so many hexadecimal digits.
fn wide_hex_of(field: &[u8], width: usize) -> Option<u64>
    requires some { 0 < width }
    requires narrow { width ≤ 16 }
    ensures { result ≡ wide_hex_reading width field.now }
{
    if field.len() == width && !field.starts_with(b"+") && is_lower(field) {
        parsed(field, 16)
    } else {
        None
    }
}

/// The number of 64 bits that the field spells in digits of the base, without a leading zero, letters in lower case.
fn number_of(field: &[u8], base: u32) -> Option<u64>
    requires some { 2 ≤ base }
    requires most { base ≤ 16 }
    ensures { result ≡ number_below base (2 ^ 64) field.now }
{
    if is_plain(field) && is_lower(field) {
        parsed(field, base)
    } else {
        None
    }
}

/// The number of 64 bits that the field's digits of the base write, behind one plus sign at most.
fn parsed(field: &[u8], base: u32) -> Option<u64>
    requires some { 2 ≤ base }
    requires most { base ≤ 16 }
    ensures { let digits = without_leading_plus field.now in
        SomeIff result (IsNumeral base digits × (digits_value base digits < 2 ^ 64)) (digits_value base digits) }
{
    let text = std::str::from_utf8(field).ok()?;
    u64::from_str_radix(text, base).ok()
}

/// Whether the field begins with no plus sign, and with a zero only where nothing follows.
fn is_plain(field: &[u8]) -> bool
    ensures { result ≡ is_plain field.now }
{
    match field {
        [] => true,
        [first, rest @ ..] => *first != b'+' && (*first != b'0' || rest.is_empty()),
    }
}

/// Whether no byte is a letter in upper case.
fn is_lower(field: &[u8]) -> bool
    ensures { result ≡ is_lower field.now }
{
    field.iter().all(|byte| !byte.is_ascii_uppercase())
}

#[cfg(test)]
mod tests;
