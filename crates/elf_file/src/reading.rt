ghost use Rattle.std.specs.Prelude.{◌≡◌, ℕ, ◌≤◌, ◌⊎◌, ◌+◌, ◌*◌, ◌≢◌, List, length, take, drop, map, All, IsTrue, IfOk, IfErr, MatchResult, OnOk, Some, None, if◌then◌else◌};
ghost use Rattle.std.specs.List.{flat_map};
ghost use Rattle.ram_image.specs.Segments.{Stretch, lies_in_ram, are_sound, memory_of};
ghost use Rattle.ram_image.specs.Ram.{memory};
ghost use Rattle.rv_fields.specs.Memory.{in_ram};
ghost use Rattle.elf_file.specs.Headers.{header_offset, header_count, loads};
ghost use Rattle.elf_file.specs.Faults.{first_failed, file_fault, header_span, segment_tests, Finds};
ghost use Rattle.elf_file.specs.Loading.{segment_in, load};
ghost use Rattle.elf_file.specs.Writing.{elf_of};
ghost use Rattle.elf_file.specs.declared.fault.ElfFault.TheVariants.{Memory};

use crate::apart::check_apart;
use crate::checking::{check_header, check_segment};
use crate::fault::ElfFault;
use crate::fields::{ProgramHeader, header_at, header_count};
use crate::headers::LOAD;
use ram_image::Ram;
use rv_fields::NoMemory;
use std::alloc::Global;

/// Reads the memory that the file is loaded as: each segment that it has to load, at its physical address, and zeros
/// elsewhere. Other kinds of program headers, and all sections, are passed over.
///
/// The time is linear in the file's length and in that of the segments in memory, but for a look-up among the
/// segments for each.
pub fn read_elf(alloc: Global, bytes: &[u8]) -> Result<Ram, ElfFault>
    ensures memory { IfOk result (λ ram. (a : ℕ) → load bytes.now a ≡ Some (memory ram a)) }
    ensures fault { Finds result (file_fault bytes.now) }
    ensures unloaded { IfErr result (λ fault. fault ≢ Memory → (a : ℕ) → load bytes.now a ≡ None) }

    // What was written is read again.
    ensures written { (segments : List Stretch) → length segments ≤ 72 → IsTrue (are_sound segments) → bytes.now ≡ elf_of segments
        → MatchResult result (λ ram. (a : ℕ) → memory ram a ≡ memory_of segments a) (λ fault. fault ≡ Memory) }
{
    let headers = read_headers(alloc, bytes)?;
    Ok(lay_segments(alloc, bytes, &headers)?)
}

/// Reads the headers of the segments that the file has to load.
fn read_headers(alloc: Global, bytes: &[u8]) -> Result<Vec<ProgramHeader>, ElfFault>
    ensures loads { IfOk result (λ headers. headers.items ≡ loads bytes.now) }
    ensures fault { Finds result (file_fault bytes.now) }
{
    check_header(bytes)?;
    let headers = read_loads(alloc, bytes)?;
    check_apart(alloc, &headers)?;
    Ok(headers)
}

/// Reads the headers of the segments to load, each of which has no fault by itself.
fn read_loads(alloc: Global, bytes: &[u8]) -> Result<Vec<ProgramHeader>, ElfFault>
    requires whole { 64 ≤ length bytes.now }
    requires there { (56 * header_count bytes.now ≡ 0) ⊎ (header_offset bytes.now + 56 * header_count bytes.now ≤ length bytes.now) }
    ensures loads { IfOk result (λ headers. headers.items ≡ loads bytes.now) }
    ensures ram { IfOk result (λ headers. All (λ h. IsTrue (lies_in_ram (header_span h))) headers.items) }
    ensures fault { Finds result (first_failed (flat_map (segment_tests bytes.now) (loads bytes.now))) }
{
    let mut headers = Vec::new(alloc);
    for number in 0..u32::from(header_count(bytes)) {
        let header = header_at(bytes, number);
        if header.kind == LOAD {
            check_segment(bytes, &header)?;
            headers.push(header)?;
        }
    }
    Ok(headers)
}

/// Lays the bytes of the segments over zeros. Where segments share addresses, the first of them counts.
fn lay_segments(alloc: Global, bytes: &[u8], headers: &[ProgramHeader]) -> Result<Ram, NoMemory>
    ensures { IfOk result (λ ram. (a : ℕ) → memory ram a
        ≡ (if in_ram a 1 then memory_of (map (segment_in bytes.now) headers.now) a else 0)) }
{
    let mut ram = Ram::zeros(alloc)?;
    for header in headers.iter().rev() {
        let segment = bytes_from(bytes, header.offset as usize, header.filesz as usize);
        ram.lay(alloc, header.paddr, segment, header.memsz)?;
    }
    Ok(ram)
}

/// So many bytes from the offset on, or those that there are.
fn bytes_from(bytes: &[u8], offset: usize, size: usize) -> &[u8]
    ensures { result.now ≡ take size (drop offset bytes.entry.now) }
{
    let rest = &bytes[offset.min(bytes.len())..];
    &rest[..size.min(rest.len())]
}
