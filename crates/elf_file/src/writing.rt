ghost use Rattle.std.specs.Prelude.{◌≡◌, ℕ, ◌≤◌, ◌<◌, ◌-◌, ◌+◌, ◌^◌, ◌++◌, length, All, IsTrue, OnOk, OnErr, Some};
ghost use Rattle.std.specs.List.{flat_map};
ghost use Rattle.ram_image.specs.Segments.{stretches, are_sound, memory_of};
ghost use Rattle.elf_file.specs.Writing.{elf_of, placed, headers_size, program_header};
ghost use Rattle.elf_file.specs.Loading.{load};
ghost use Rattle.elf_file.specs.Placing.{view, padded_bytes, laid_from, BeginsWith, IsSmall};

use crate::headers::{file_header, headers_size, program_header};
use crate::placing::Placed;
use ram_image::Segment;
use rv_fields::NoMemory;

/// Appends the program headers of the segments.
fn append_program_headers(segments: &[Segment], into: &mut Vec<u8>) -> Result<(), NoMemory>
    requires count { length segments.now ≤ 72 }
    requires small { All IsSmall segments.now }
    ensures headers { OnOk result (into.new.items ≡ into.old.items ++ flat_map program_header (placed (headers_size (length segments.now)) (stretches segments.now))) }
    ensures kept { BeginsWith into.old.items into.new.items }
{
    let mut end = headers_size(segments.len());
    for segment in segments {
        let placed = Placed::behind(end, segment);
        into.extend_from_slice(&program_header(&placed))?;
        end = placed.end();
    }
    Ok(())
}

/// Appends a segment's bytes to the file that begins at `start`, behind zeros up to their place.
fn append_bytes(placed: &Placed, start: usize, into: &mut Vec<u8>) -> Result<(), NoMemory>
    requires room { placed.now.offset < 2 ^ 62 }
    requires started { start ≤ length into.old.items }
    requires before { length into.old.items ≤ start + placed.now.offset }
    ensures bytes { OnOk result (into.new.items ≡ into.old.items ++ padded_bytes (length into.old.items - start) (view placed.now)) }
    ensures kept { BeginsWith into.old.items into.new.items }
{
    if !placed.bytes.is_empty() {
        into.resize(start + placed.offset, 0)?;
        into.extend_from_slice(placed.bytes)?;
    }
    Ok(())
}

/// Appends the bytes of the segments to the file that begins at `start`.
fn append_segments(segments: &[Segment], start: usize, into: &mut Vec<u8>) -> Result<(), NoMemory>
    requires count { length segments.now ≤ 72 }
    requires small { All IsSmall segments.now }
    requires started { length into.old.items ≡ start + headers_size (length segments.now) }
    ensures bytes { OnOk result (into.new.items ≡ into.old.items ++ laid_from (headers_size (length segments.now)) (placed (headers_size (length segments.now)) (stretches segments.now))) }
    ensures kept { BeginsWith into.old.items into.new.items }
{
    let mut end = headers_size(segments.len());
    for segment in segments {
        let placed = Placed::behind(end, segment);
        append_bytes(&placed, start, into)?;
        end = placed.end();
    }
    Ok(())
}

/// Appends the executable of the segments, or a part of it where memory runs out.
fn append_elf(segments: &[Segment], into: &mut Vec<u8>) -> Result<(), NoMemory>
    requires count { length segments.now ≤ 72 }
    requires small { All IsSmall segments.now }
    ensures file { OnOk result (into.new.items ≡ into.old.items ++ elf_of (stretches segments.now)) }
    ensures kept { BeginsWith into.old.items into.new.items }
{
    let start = into.len();
    into.extend_from_slice(&file_header(segments.len() as u16))?;
    append_program_headers(segments, into)?;
    append_segments(segments, start, into)
}

/// Writes the executable of the segments at the end of `into`. Each segment's bytes begin at a new page of the
/// file, and end with the last that isn't zero, whatever zeros the segment has behind it.
pub fn write_elf(segments: &[Segment], into: &mut Vec<u8>) -> Result<(), NoMemory>
    requires count { length segments.now ≤ 72 }
    requires sound { IsTrue (are_sound (stretches segments.now)) }
    ensures file { OnOk result (into.new.items ≡ into.old.items ++ elf_of (stretches segments.now)) }
    ensures loaded { (a : ℕ) → load (elf_of (stretches segments.now)) a ≡ Some (memory_of (stretches segments.now) a) }
    ensures unchanged { OnErr result (into.new.items ≡ into.old.items) }
{
    let start = into.len();
    let written = append_elf(segments, into);
    if written.is_err() {
        into.truncate(start);
    }
    written
}
