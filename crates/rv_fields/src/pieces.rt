//! The bits of an immediate, which stand in pieces in the word.
ghost use Rattle.std.specs.Prelude.{◌≡◌, ◌+◌, ◌^◌, ◌<◌, ◌≤◌, IsTrue};
ghost use Rattle.std.specs.List.{list_all};
ghost use Rattle.rv_fields.specs.Immediate.{gathered, scattered, with_pieces, is_in_word};

use crate::word::bits_of;

/// Neighbouring bits of an immediate.
#[derive(Clone, Copy)]
pub struct Piece {
    /// The place of the lowest of them in the word.
    pub place: u32,
    /// How many they are.
    pub width: u32,
    /// Which of the immediate's bits the lowest of them is.
    pub bit: u32,
}

impl Piece {
    pub fn new(place: u32, width: u32, bit: u32) -> Piece
        ensures { result ≡ record { place = place; width = width; bit = bit } }
    {
        Piece { place, width, bit }
    }
}

/// The number whose bits the word has in these pieces.
pub fn gathered(pieces: &[Piece], word: u32) -> u32
    requires pieces { IsTrue (list_all is_in_word pieces.now) }
    requires size { gathered pieces.now word < 2 ^ 32 }
    ensures { result ≡ gathered pieces.now word }
{
    match pieces {
        [] => 0,
        [first, rest @ ..] => {
            let bits = bits_of(word, first.place, first.width);
            (bits << first.bit) + gathered(rest, word)
        }
    }
}

/// The word that has the number's bits in these pieces, and no other bit.
fn scattered(pieces: &[Piece], number: u32) -> u32
    requires pieces { IsTrue (list_all is_in_word pieces.now) }
    requires size { scattered pieces.now number < 2 ^ 32 }
    ensures { result ≡ scattered pieces.now number }
{
    match pieces {
        [] => 0,
        [first, rest @ ..] => {
            let bits = bits_of(number, first.bit, first.width);
            (bits << first.place) + scattered(rest, number)
        }
    }
}

/// The word with the number's bits in these pieces in place of its own.
pub fn with_pieces(pieces: &[Piece], word: u32, number: u32) -> u32
    requires pieces { IsTrue (list_all is_in_word pieces.now) }
    requires gathered { gathered pieces.now word < 2 ^ 32 }
    requires own { scattered pieces.now (gathered pieces.now word) ≤ word }
    requires size { with_pieces pieces.now word number < 2 ^ 32 }
    ensures { result ≡ with_pieces pieces.now word number }
{
    let others = word - scattered(pieces, gathered(pieces, word));
    others + scattered(pieces, number)
}
