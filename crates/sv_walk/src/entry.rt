//! Page table entries: V is bit 0, R 1, W 2, X 3, U 4, G 5, A 6 and D 7; the page number is bits 53 to 10; the bits above
//! are reserved, and bits 9 and 8 are software's.

ghost use Rattle.std.specs.Prelude.{◌≡◌, ◌<◌, ◌^◌};
ghost use Rattle.rv_fields.specs.Sv39 as machine;

use crate::bits::bits_of;

pub fn is_valid(pte: u64) -> bool
    ensures { result ≡ machine.is_valid pte }
{
    has_bit(0, pte)
}

pub fn is_readable(pte: u64) -> bool
    ensures { result ≡ machine.is_readable pte }
{
    has_bit(1, pte)
}

pub fn is_writable(pte: u64) -> bool
    ensures { result ≡ machine.is_writable pte }
{
    has_bit(2, pte)
}

pub fn is_executable(pte: u64) -> bool
    ensures { result ≡ machine.is_executable pte }
{
    has_bit(3, pte)
}

pub fn is_of_user(pte: u64) -> bool
    ensures { result ≡ machine.is_of_user pte }
{
    has_bit(4, pte)
}

/// Whether A is set. Hardware doesn't set it here: an entry without it faults.
pub fn is_accessed(pte: u64) -> bool
    ensures { result ≡ machine.is_accessed pte }
{
    has_bit(6, pte)
}

/// Whether D is set. Hardware doesn't set it here: a store by an entry without it faults.
pub fn is_dirty(pte: u64) -> bool
    ensures { result ≡ machine.is_dirty pte }
{
    has_bit(7, pte)
}

/// The number of the page or table of 4 KiB to which the entry leads.
pub fn page_number(pte: u64) -> u64
    ensures value { result ≡ machine.page_number pte }
    ensures small { result < 2 ^ 44 }
{
    bits_of(pte, 10, 44)
}

/// Whether it has the form of an entry: V is set, W isn't without R, and no reserved bit is set.
pub fn is_formed(pte: u64) -> bool
    ensures { result ≡ machine.is_formed pte }
{
    is_valid(pte) && (is_readable(pte) || !is_writable(pte)) && pte / (1 << 54) == 0
}

/// Whether it leads to a table of the level below, and not to a page.
pub fn is_pointer(pte: u64) -> bool
    ensures { result ≡ machine.is_pointer pte }
{
    !is_readable(pte) && !is_executable(pte)
}

/// Whether a pointer has none of U, A and D, which are reserved there.
pub fn is_good_pointer(pte: u64) -> bool
    ensures { result ≡ machine.is_good_pointer pte }
{
    !(is_of_user(pte) || is_accessed(pte) || is_dirty(pte))
}

fn has_bit(place: u32, pte: u64) -> bool
    requires { place < 64 }
    ensures { result ≡ machine.has_bit place pte }
{
    bits_of(pte, place, 1) == 1
}
