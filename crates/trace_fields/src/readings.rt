//! What the fields of a trace tell.
ghost use Rattle.std.specs.Prelude.{◌≡◌, ◌≢◌, ◌∷◌, [], ◌≤◌, ◌<◌, ◌*◌, option_map, IfOk, IfSome, Some, MatchOption, true, false};
ghost use Rattle.std.specs.Str.Parse.{digits_value};
ghost use Rattle.trace_fields.specs.Trails.{entry_seen};
ghost use Rattle.trace_fields.specs.Text.{none_text, kind_text, cause_text};
ghost use Rattle.trace_fields.specs.Fields.{is_word, is_another_hart};
ghost use Rattle.trace_fields.specs.Readings.{read_by_text, kind_reading, cause_reading, count_reading, letter_reading, number_reading, sizes, preambles, register_reading, space_reading, hex_reading, sized, optional, path_reading, bytes_reading, pairs_of, write_reading, access_reading, entry_reading, trail_reading, trap_reading};

use crate::access::AccessText;
use crate::entry::EntryText;
use crate::numbers::{byte_of, count_below, decimal_below, hex_of, hex_of_bits};
use crate::parts::Parts;
use crate::request::{Cause, Kind};
use crate::trail::TrailText;
use crate::trap::TrapText;
use rv_fields::{Name, name_of};
use std::alloc::{AllocError, Global};

const KINDS: [Kind; 9] = [
    Kind::Ins,
    Kind::Mem,
    Kind::Jump,
    Kind::Csr,
    Kind::Sys,
    Kind::Value,
    Kind::Loop,
    Kind::Pick,
    Kind::Set,
];

const CAUSES: [Cause; 8] = [
    Cause::EmptyChoice,
    Cause::BudgetSpent,
    Cause::NoRegister,
    Cause::NoAddress,
    Cause::NoTarget,
    Cause::WindowFull,
    Cause::NoFreePage,
    Cause::NoPlace,
];

/// A decimal that counts something is below this.
const COUNT_BOUND: u64 = 1 << 32;

/// Registers are numbered below this.
const REGISTER_BOUND: usize = 32;

/// Address spaces are numbered below this.
const SPACE_BOUND: u64 = 16;

/// The causes of traps are numbered below this.
const TRAP_BOUND: u64 = 16;

/// No path has more labels.
const MOST_LABELS: usize = 8;

/// No line of bytes has more.
const MOST_BYTES: usize = 8;

/// Whether the field tells that there is nothing.
fn is_none(field: &[u8]) -> bool
    ensures { result ≡ is_word none_text field.now }
{
    field == b"-".as_slice()
}

/// The register, x1 to x31, that the field names.
pub(crate) fn register_of(field: &[u8]) -> Option<u8>
    ensures { result ≡ register_reading field.now }
{
    Some(count_below(field, REGISTER_BOUND)? as u8)
}

/// The one of these letters that the field is.
fn letter_of(letters: &[u8], field: &[u8]) -> Option<u8>
    ensures { result ≡ letter_reading letters.now field.now }
{
    match field {
        [letter] if letters.contains(letter) => Some(*letter),
        _ => None,
    }
}

/// The size of an access in bytes.
fn size_of(field: &[u8]) -> Option<u8>
    ensures { result ≡ number_reading sizes field.now }
{
    match count_of(field)? {
        size @ (1 | 2 | 4 | 8) => Some(size as u8),
        _ => None,
    }
}

/// The number of words of a preamble.
pub(crate) fn preamble_of(field: &[u8]) -> Option<u32>
    ensures { result ≡ number_reading preambles field.now }
{
    match count_of(field)? {
        words @ (0 | 8) => Some(words),
        _ => None,
    }
}

/// A number that counts something.
pub(crate) fn count_of(field: &[u8]) -> Option<u32>
    ensures { result ≡ count_reading field.now }
{
    Some(decimal_below(field, COUNT_BOUND)? as u32)
}

/// The register that was written, and its new value.
fn write_of(field: &[u8]) -> Option<(u8, u64)>
    ensures { result ≡ write_reading field.now }
{
    let mut parts = Parts::of(field, b':');
    let register = parts.next()?;
    let value = parts.next()?;
    if parts.next().is_some() {
        return None;
    }
    Some((register_of(register)?, hex_of(value)?))
}

/// A page table entry with its address.
fn entry_of(field: &[u8]) -> Option<EntryText>
    ensures { option_map entry_seen result ≡ entry_reading field.now }
{
    let mut parts = Parts::of(field, b':');
    let at = parts.next()?;
    let pte = parts.next()?;
    if parts.next().is_some() {
        return None;
    }
    Some(EntryText {
        at: hex_of(at)?,
        pte: hex_of(pte)?,
    })
}

/// The trap that a step took.
fn trap_of(field: &[u8]) -> Option<TrapText>
    ensures { result ≡ trap_reading field.now }
{
    let mut parts = Parts::of(field, b':');
    let cause = parts.next()?;
    let epc = parts.next()?;
    let tval = parts.next()?;
    let to = parts.next()?;
    if parts.next().is_some() {
        return None;
    }
    Some(TrapText {
        cause: decimal_below(cause, TRAP_BOUND)?,
        epc: hex_of(epc)?,
        tval: hex_of(tval)?,
        to: letter_of(b"MS", to)?,
    })
}

/// What a step read or wrote in memory.
fn access_of(field: &[u8]) -> Option<AccessText>
    ensures { result ≡ access_reading field.now }
{
    let mut parts = Parts::of(field, b':');
    let kind = parts.next()?;
    let va = parts.next()?;
    let pa = parts.next()?;
    let size = parts.next()?;
    let read = parts.next()?;
    let wrote = parts.next()?;
    if parts.next().is_some() {
        return None;
    }
    let kind = letter_of(b"lsrca", kind)?;
    let va = hex_of(va)?;
    let pa = hex_of(pa)?;
    let size = size_of(size)?;
    Some(AccessText {
        kind,
        va,
        pa,
        size,
        read: sized(size, read)?,
        wrote: sized(size, wrote)?,
    })
}

/// A number of so many bytes, or none.
fn sized(size: u8, field: &[u8]) -> Option<Option<u64>>
    requires { size ≤ 8 }
    ensures { result ≡ optional (sized size) field.now }
{
    if is_none(field) {
        Some(None)
    } else {
        hex_of_bits(field, 8 * u32::from(size)).map(Some)
    }
}

/// The register that was written, where one was.
pub(crate) fn optional_write_of(field: &[u8]) -> Option<Option<(u8, u64)>>
    ensures { result ≡ optional write_reading field.now }
{
    if is_none(field) {
        Some(None)
    } else {
        write_of(field).map(Some)
    }
}

/// What a step read or wrote in memory, where it did.
pub(crate) fn optional_access_of(field: &[u8]) -> Option<Option<AccessText>>
    ensures { result ≡ optional access_reading field.now }
{
    if is_none(field) {
        Some(None)
    } else {
        access_of(field).map(Some)
    }
}

/// The trap that a step took, where it took one.
pub(crate) fn optional_trap_of(field: &[u8]) -> Option<Option<TrapText>>
    ensures { result ≡ optional trap_reading field.now }
{
    if is_none(field) {
        Some(None)
    } else {
        trap_of(field).map(Some)
    }
}

/// An address space.
pub(crate) fn space_of(field: &[u8]) -> Option<u32>
    ensures { result ≡ space_reading field.now }
{
    Some(decimal_below(field, SPACE_BOUND)? as u32)
}

/// The kind of request whose name the field is.
pub(crate) fn kind_of(field: &[u8]) -> Option<Kind>
    ensures { result ≡ kind_reading field.now }
{
    kind_among(&KINDS, field)
}

fn kind_among(kinds: &[Kind], field: &[u8]) -> Option<Kind>
    ensures { result ≡ read_by_text kind_text kinds.now field.now }
{
    kinds
        .iter()
        .copied()
        .find(|kind| kind.name().as_bytes() == field)
}

/// The cause whose name the field is.
pub(crate) fn cause_of(field: &[u8]) -> Option<Cause>
    ensures { result ≡ cause_reading field.now }
{
    cause_among(&CAUSES, field)
}

fn cause_among(causes: &[Cause], field: &[u8]) -> Option<Cause>
    ensures { result ≡ read_by_text cause_text causes.now field.now }
{
    causes
        .iter()
        .copied()
        .find(|cause| cause.name().as_bytes() == field)
}

/// The entries of a trail.
pub(crate) fn trail_of(field: &[u8]) -> Option<TrailText>
    ensures { result ≡ trail_reading field.now }
{
    let mut trail = TrailText::new();
    if is_none(field) {
        return Some(trail);
    }
    let mut entries = Parts::of(field, b',');
    while let Some(entry) = entries.next() {
        trail = trail.with_entry(entry_of(entry)?)?;
    }
    Some(trail)
}

/// The labels of a path.
pub(crate) fn path_of(alloc: Global, field: &[u8]) -> Result<Option<Vec<Name>>, AllocError>
    ensures { IfOk result (λ path. option_map (λ p. p.items) path ≡ path_reading field.now) }
{
    let mut path = Vec::new(alloc);
    let mut labels = Parts::of(field, b'/');
    while let Some(label) = labels.next() {
        let Some(name) = name_of(label) else {
            return Ok(None);
        };
        if path.len() == MOST_LABELS {
            return Ok(None);
        }
        path.push(name)?;
    }
    Ok(Some(path))
}

/// The bytes with which memory starts.
pub(crate) fn bytes_of(alloc: Global, field: &[u8]) -> Result<Option<Vec<u8>>, AllocError>
    ensures { IfOk result (λ bytes. option_map (λ b. b.items) bytes ≡ bytes_reading field.now) }
{
    if field.is_empty() {
        return Ok(None);
    }
    let mut bytes = Vec::new(alloc);
    let mut left = field;
    while let Some((digits, rest)) = first_pair(left) {
        let Some(byte) = byte_of(digits) else {
            return Ok(None);
        };
        if bytes.len() == MOST_BYTES {
            return Ok(None);
        }
        bytes.push(byte)?;
        left = rest;
    }
    Ok(Some(bytes))
}

/// The first two bytes of a text, or the last one, and what stands behind them; none where the text is empty.
fn first_pair(text: &[u8]) -> Option<(&[u8], &[u8])>
    ensures { MatchOption result (pairs_of text.now ≡ []) (λ parts. pairs_of text.now ≡ parts.0.now ∷ pairs_of parts.1.now) }
{
    if text.is_empty() {
        None
    } else {
        Some(text.split_at(text.len().min(2)))
    }
}

/// The hart that the field names, one of so many and not the last.
pub(crate) fn other_hart(field: &[u8], harts: u8, last: Option<u8>) -> Option<u8>
    ensures { MatchOption result (is_another_hart harts last field.now ≡ false)
        (λ hart. (is_another_hart harts last field.now ≡ true) × (hart < harts) × (hart ≡ digits_value 10 field.now) × IfSome last (λ before. before ≢ hart)) }
{
    let hart = decimal_below(field, u64::from(harts))? as u8;
    if last == Some(hart) { None } else { Some(hart) }
}
