//! What follows from a page table entry.

ghost use Rattle.std.specs.Prelude.{◌≡◌, ℕ, ◌+◌, ◌*◌, ◌%◌, ◌==◌, ◌<◌, ◌^◌, Option, Some, []};
ghost use Rattle.rv_fields.specs.Sv39 as machine;
ghost use Rattle.sv_walk.specs.Views.{rights_seen, next_walked, LeadsBelow};

use crate::cause::page_fault;
use crate::entry::{is_formed, is_good_pointer, is_pointer, page_number};
use crate::rights::{Rights, allows};
use rv_fields::Access;

/// What follows from a page table entry.
#[derive(Clone, Copy)]
pub enum Next {
    /// The physical address.
    Reached(u64),
    /// The cause of a fault.
    Faults(u64),
    /// The page number of the table of the level below.
    Table(u64),
}

/// What follows from an entry of a level.
pub fn pte_walked(access: Access, rights: &Rights, va: u64, level: u8, pte: u64) -> Next
    requires { level < 3 }
    ensures next { (below : ℕ → Option machine.Walked) → next_walked result below ≡ machine.pte_walked access (rights_seen rights.now) va level pte below }
    ensures below { LeadsBelow level result }
{
    if !is_formed(pte) {
        Next::Faults(page_fault(access))
    } else if is_pointer(pte) {
        pointer_walked(access, level, pte)
    } else {
        leaf_translated(access, rights, va, level, pte)
    }
}

/// What follows from a pointer of a level. Below level 0 there is no table.
fn pointer_walked(access: Access, level: u8, pte: u64) -> Next
    ensures next { (below : ℕ → Option machine.Walked) → next_walked result below ≡ machine.pointer_walked access level pte below }
    ensures below { LeadsBelow level result }
{
    if level == 0 {
        Next::Faults(page_fault(access))
    } else if is_good_pointer(pte) {
        Next::Table(page_number(pte))
    } else {
        Next::Faults(page_fault(access))
    }
}

/// What follows from a leaf of a level. Above level 0 the page number has to be a multiple of the page's size.
fn leaf_translated(access: Access, rights: &Rights, va: u64, level: u8, pte: u64) -> Next
    requires { level < 3 }
    ensures next { (below : ℕ → Option machine.Walked) → next_walked result below
        ≡ Some (record { trail = []; result = machine.leaf_translated access (rights_seen rights.now) va level pte }) }
    ensures below { LeadsBelow level result }
{
    if !allows(access, rights, pte) {
        Next::Faults(page_fault(access))
    } else if is_aligned(level, pte) {
        Next::Reached(page_number(pte) * 4096 + page_offset(va, level))
    } else {
        Next::Faults(page_fault(access))
    }
}

/// Whether the page number is a multiple of the number of 4 KiB pages that a leaf of the level spans.
fn is_aligned(level: u8, pte: u64) -> bool
    requires { level < 3 }
    ensures { result ≡ (machine.page_number pte % 2 ^ (9 * level) == 0) }
{
    page_number(pte) % power(9 * level) == 0
}

/// Where an address stands in a page of the level.
fn page_offset(va: u64, level: u8) -> u64
    requires { level < 3 }
    ensures value { result ≡ va % 2 ^ (12 + 9 * level) }
    ensures small { result < 2 ^ 30 }
{
    va % power(12 + 9 * level)
}

/// The power of two.
#[tactic(auto, using(std::proofs::lemmas::Nat::one_shl))]
fn power(exponent: u8) -> u64
    requires { exponent < 64 }
    ensures { result ≡ 2 ^ exponent }
{
    1 << exponent
}
