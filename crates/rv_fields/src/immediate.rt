ghost use Rattle.std.specs.Prelude.{◌≡◌, ◌*◌, ◌%◌, ◌^◌, ◌<◌, ◌≤◌, ◌<ℤ◌, ◌≤ℤ◌, pos, unsigned_abs, IsTrue};
ghost use Rattle.rv_fields.specs.Immediate.{imm_i, imm_s, imm_b, imm_u, imm_j, fits_i, fits_b, fits_u, fits_j, put_imm_i, put_imm_s, put_imm_b, put_imm_u, put_imm_j, bits_of, signed_of, modulo, pieces_i, pieces_s, pieces_b, pieces_u, pieces_j};

use crate::pieces::{Piece, gathered, with_pieces};

fn pieces_i() -> [Piece; 1]
    ensures { result ≡ pieces_i }
{
    [Piece::new(20, 12, 0)]
}

fn pieces_s() -> [Piece; 2]
    ensures { result ≡ pieces_s }
{
    [Piece::new(25, 7, 5), Piece::new(7, 5, 0)]
}

fn pieces_b() -> [Piece; 4]
    ensures { result ≡ pieces_b }
{
    [
        Piece::new(31, 1, 12),
        Piece::new(25, 6, 5),
        Piece::new(8, 4, 1),
        Piece::new(7, 1, 11),
    ]
}

fn pieces_u() -> [Piece; 1]
    ensures { result ≡ pieces_u }
{
    [Piece::new(12, 20, 12)]
}

fn pieces_j() -> [Piece; 4]
    ensures { result ≡ pieces_j }
{
    [
        Piece::new(31, 1, 20),
        Piece::new(21, 10, 1),
        Piece::new(20, 1, 11),
        Piece::new(12, 8, 12),
    ]
}

/// A number below `2 * half`, read in two's complement.
fn signed(half: u32, number: u32) -> i64
    requires half { half ≤ 2 ^ 31 }
    requires number { number < 2 * half }
    ensures { result ≡ signed_of half number }
{
    if number < half {
        i64::from(number)
    } else {
        i64::from(number) - 2 * i64::from(half)
    }
}

/// What is left of the value modulo `size`.
fn modulo(size: i64, value: i64) -> u32
    requires least { pos 0 <ℤ size }
    requires most { size ≤ℤ pos (2 ^ 32) }
    ensures { result ≡ modulo (unsigned_abs size) value }
{
    value.rem_euclid(size) as u32
}

/// The immediate of a word of form I.
pub fn imm_i(word: u32) -> i64
    ensures { result ≡ imm_i word }
{
    signed(1 << 11, gathered(&pieces_i(), word))
}

/// The immediate of a word of form S.
pub fn imm_s(word: u32) -> i64
    ensures { result ≡ imm_s word }
{
    signed(1 << 11, gathered(&pieces_s(), word))
}

/// The immediate of a word of form B.
pub fn imm_b(word: u32) -> i64
    ensures { result ≡ imm_b word }
{
    signed(1 << 12, gathered(&pieces_b(), word))
}

/// The immediate of a word of form U.
pub fn imm_u(word: u32) -> i64
    ensures { result ≡ imm_u word }
{
    signed(1 << 31, gathered(&pieces_u(), word))
}

/// The immediate of a word of form J.
pub fn imm_j(word: u32) -> i64
    ensures { result ≡ imm_j word }
{
    signed(1 << 20, gathered(&pieces_j(), word))
}

/// Whether forms I and S can hold the value.
pub fn fits_i(value: i64) -> bool
    ensures { result ≡ fits_i value }
{
    -(1 << 11) <= value && value < 1 << 11
}

/// Whether form B can hold the value.
pub fn fits_b(value: i64) -> bool
    ensures { result ≡ fits_b value }
{
    -(1 << 12) <= value && value < 1 << 12 && value % 2 == 0
}

/// Whether form U can hold the value.
pub fn fits_u(value: i64) -> bool
    ensures { result ≡ fits_u value }
{
    -(1 << 31) <= value && value < 1 << 31 && value % (1 << 12) == 0
}

/// Whether form J can hold the value.
pub fn fits_j(value: i64) -> bool
    ensures { result ≡ fits_j value }
{
    -(1 << 20) <= value && value < 1 << 20 && value % 2 == 0
}

/// The word with this immediate in form I.
pub fn put_imm_i(word: u32, value: i64) -> u32
    requires { IsTrue (fits_i value) }
    ensures word { result ≡ put_imm_i word value }
    ensures reads_back { imm_i result ≡ value }
    ensures others { bits_of result 0 20 ≡ bits_of word 0 20 }
{
    with_pieces(&pieces_i(), word, modulo(1 << 12, value))
}

/// The word with this immediate in form S.
pub fn put_imm_s(word: u32, value: i64) -> u32
    requires { IsTrue (fits_i value) }
    ensures word { result ≡ put_imm_s word value }
    ensures reads_back { imm_s result ≡ value }
    ensures lowest { bits_of result 0 7 ≡ bits_of word 0 7 }
    ensures between { bits_of result 12 13 ≡ bits_of word 12 13 }
{
    with_pieces(&pieces_s(), word, modulo(1 << 12, value))
}

/// The word with this immediate in form B.
pub fn put_imm_b(word: u32, value: i64) -> u32
    requires { IsTrue (fits_b value) }
    ensures word { result ≡ put_imm_b word value }
    ensures reads_back { imm_b result ≡ value }
    ensures lowest { bits_of result 0 7 ≡ bits_of word 0 7 }
    ensures between { bits_of result 12 13 ≡ bits_of word 12 13 }
{
    with_pieces(&pieces_b(), word, modulo(1 << 13, value))
}

/// The word with this immediate in form U.
pub fn put_imm_u(word: u32, value: i64) -> u32
    requires { IsTrue (fits_u value) }
    ensures word { result ≡ put_imm_u word value }
    ensures reads_back { imm_u result ≡ value }
    ensures others { bits_of result 0 12 ≡ bits_of word 0 12 }
{
    with_pieces(&pieces_u(), word, modulo(1 << 32, value))
}

/// The word with this immediate in form J.
pub fn put_imm_j(word: u32, value: i64) -> u32
    requires { IsTrue (fits_j value) }
    ensures word { result ≡ put_imm_j word value }
    ensures reads_back { imm_j result ≡ value }
    ensures others { bits_of result 0 12 ≡ bits_of word 0 12 }
{
    with_pieces(&pieces_j(), word, modulo(1 << 21, value))
}
