//! Walks of page tables, as "Sv39: Page-Based 39-bit Virtual-Memory System" of the privileged manual defines them. Hardware
//! doesn't write A and D here.

ghost use Rattle.std.specs.Prelude.{◌≡◌, suc, ◌+◌, ◌<◌, ◌≤◌, ◌^◌, option_map};
ghost use Rattle.rv_fields.specs.Field.{field_of};
ghost use Rattle.rv_fields.specs.Status.{satp_mode};
ghost use Rattle.rv_fields.specs.Sv39 as machine;
ghost use Rattle.sv_walk.specs.Views.{rights_seen, trail_seen, walked_seen, behind_trail, HoldsZeros, WithTrail};
ghost use Rattle.sv_walk.specs.Needs.{IfUnknown, Needs};

use crate::bits::bits_of;
use crate::cause::{access_fault, page_fault};
use crate::next::{Next, pte_walked};
use crate::rights::Rights;
use crate::source::{PteAt, PteSource};
use crate::trail::Trail;
use crate::walked::Walked;
use rv_fields::{Access, Mode};

/// Where the page tables of satp lead a virtual address, whatever the mode. An address whose bits 63 to 39 aren't all as
/// bit 38 is a page fault, and no entry is read.
pub fn walk<M: PteSource>(source: &M, satp: u64, va: u64, access: Access, rights: &Rights) -> Walked
    requires { field_of satp_mode satp ≡ 8 }
    ensures walked { walked_seen result ≡ machine.walk (M.entries source.now) satp (rights_seen rights.now) access va }

    // Entries that tell more, and let the walk come to a result, tell the one that is named.
    ensures unknown { IfUnknown (Needs (λ entries. machine.walk entries satp (rights_seen rights.now) access va) (M.entries source.now) va) result }
    ensures short { WithTrail (λ trail. trail.len ≤ 3) result }
    ensures zeros { WithTrail HoldsZeros result }
{
    walk_tables(source, satp, va, access, rights)
}

/// Where a virtual address leads: to itself in mode M or where satp's mode is 0, and else where the tables lead it.
pub fn translate<M: PteSource>(
    source: &M,
    satp: u64,
    va: u64,
    access: Access,
    rights: &Rights,
) -> Walked
    ensures walked { walked_seen result ≡ machine.translate (M.entries source.now) satp (rights_seen rights.now) access va }
    ensures unknown { IfUnknown (Needs (λ entries. machine.translate entries satp (rights_seen rights.now) access va) (M.entries source.now) va) result }
    ensures short { WithTrail (λ trail. trail.len ≤ 3) result }
    ensures zeros { WithTrail HoldsZeros result }
{
    if is_bare(rights.mode, satp) {
        Walked::Page {
            pa: va,
            trail: Trail::new(),
        }
    } else {
        walk_tables(source, satp, va, access, rights)
    }
}

/// A walk by the tables of satp, whatever its mode.
fn walk_tables<M: PteSource>(
    source: &M,
    satp: u64,
    va: u64,
    access: Access,
    rights: &Rights,
) -> Walked
    ensures walked { walked_seen result ≡ machine.walk (M.entries source.now) satp (rights_seen rights.now) access va }
    ensures unknown { IfUnknown (Needs (λ entries. machine.walk entries satp (rights_seen rights.now) access va) (M.entries source.now) va) result }
    ensures short { WithTrail (λ trail. trail.len ≤ 3) result }
    ensures zeros { WithTrail HoldsZeros result }
{
    if is_canonical(va) {
        walk_from(source, access, rights, va, 2, root_of(satp), Trail::new())
    } else {
        Walked::Fault {
            cause: page_fault(access),
            trail: Trail::new(),
        }
    }
}

/// The rest of a walk: that from the table of this page number, at a level, after the entries that were read before.
fn walk_from<M: PteSource>(
    source: &M,
    access: Access,
    rights: &Rights,
    va: u64,
    level: u8,
    table: u64,
    before: Trail,
) -> Walked
    requires table { table < 2 ^ 44 }
    requires room { before.len + level < 3 }
    requires zeros { HoldsZeros before }
    ensures walked { walked_seen result ≡ option_map (behind_trail (trail_seen before)) (machine.walk_from (M.entries source.now) access (rights_seen rights.now) va (suc level) table) }
    ensures unknown { IfUnknown (Needs (λ entries. machine.walk_from entries access (rights_seen rights.now) va (suc level) table) (M.entries source.now) va) result }
    ensures short { WithTrail (λ trail. trail.len ≤ 3) result }
    ensures zeros { WithTrail HoldsZeros result }
{
    let at = entry_at(va, level, table);
    match source.pte(at) {
        PteAt::Unfixed => Walked::Unknown { at, level },
        PteAt::Absent => Walked::Fault {
            cause: access_fault(access),
            trail: before,
        },
        PteAt::Value(pte) => {
            let trail = before.with(at, pte);
            match pte_walked(access, rights, va, level, pte) {
                Next::Reached(pa) => Walked::Page { pa, trail },
                Next::Faults(cause) => Walked::Fault { cause, trail },
                Next::Table(below) => {
                    walk_from(source, access, rights, va, level - 1, below, trail)
                }
            }
        }
    }
}

/// Where an address has its entry in the table of this page number, at a level.
fn entry_at(va: u64, level: u8, table: u64) -> u64
    requires level { level < 3 }
    requires table { table < 2 ^ 44 }
    ensures { result ≡ machine.entry_at va level table }
{
    table * 4096 + 8 * bits_of(va, 12 + 9 * level as u32, 9)
}

/// Whether bits 63 to 39 of the address are as bit 38.
fn is_canonical(va: u64) -> bool
    ensures { result ≡ machine.is_canonical va }
{
    let upper = va / (1 << 38);
    upper == 0 || upper == (1 << 26) - 1
}

/// The page number of the root in satp.
fn root_of(satp: u64) -> u64
    ensures value { result ≡ machine.root_of satp }
    ensures small { result < 2 ^ 44 }
{
    bits_of(satp, 0, 44)
}

/// Whether nothing is translated.
#[tactic(auto, unfolding(rv_fields::specs::Field::field_of))]
fn is_bare(mode: Mode, satp: u64) -> bool
    ensures { result ≡ machine.is_bare mode satp }
{
    match mode {
        Mode::M => true,
        Mode::S | Mode::U => bits_of(satp, 60, 4) == 0,
    }
}
