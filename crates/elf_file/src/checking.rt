ghost use Rattle.std.specs.Prelude.{◌≡◌, ◌≤◌, ◌⊎◌, ◌+◌, ◌*◌, [], ◌∷◌, length, OnOk, IsTrue};
ghost use Rattle.std.specs.Result.{result_err};
ghost use Rattle.ram_image.specs.Segments.{lies_in_ram};
ghost use Rattle.elf_file.specs.Headers.{header_offset, header_count};
ghost use Rattle.elf_file.specs.Faults.{first_failed, field_test, length_test, header_tests, header_span, segment_tests};

use crate::fault::{ElfFault, ElfField};
use crate::fields::{
    ProgramHeader, field_u8, field_u16, field_u32, field_u64, header_count, header_offset,
};
use crate::headers::{ENTRY_SIZE, EXECUTABLE, HEADER_SIZE, MAGIC, RISCV};
use rv_fields::{RESET_PC, in_ram};

/// Finds the first fault of the file's header, and of the place where the program headers stand.
#[tactic(auto, unfolding(crate::specs::Faults::header_tests))]
pub fn check_header(bytes: &[u8]) -> Result<(), ElfFault>
    ensures fault { result_err result ≡ first_failed (header_tests bytes.now) }
    ensures whole { OnOk result (64 ≤ length bytes.now) }
    ensures there { OnOk result ((56 * header_count bytes.now ≡ 0) ⊎ (header_offset bytes.now + 56 * header_count bytes.now ≤ length bytes.now)) }
{
    check_bytes(bytes, 0, HEADER_SIZE as u64)?;
    if field_u32(bytes, 0) != MAGIC {
        return Err(ElfFault::NotElf);
    }
    check_field(ElfField::Class, u64::from(field_u8(bytes, 4)), 2)?;
    check_field(ElfField::Encoding, u64::from(field_u8(bytes, 5)), 1)?;
    check_field(ElfField::Version, u64::from(field_u8(bytes, 6)), 1)?;
    check_field(
        ElfField::FileType,
        u64::from(field_u16(bytes, 16)),
        u64::from(EXECUTABLE),
    )?;
    check_field(
        ElfField::Machine,
        u64::from(field_u16(bytes, 18)),
        u64::from(RISCV),
    )?;
    check_field(ElfField::Entry, field_u64(bytes, 24), RESET_PC)?;
    check_field(ElfField::Flags, u64::from(field_u32(bytes, 48)), 0)?;
    check_field(
        ElfField::PhEntSize,
        u64::from(field_u16(bytes, 54)),
        ENTRY_SIZE as u64,
    )?;
    check_bytes(
        bytes,
        header_offset(bytes),
        ENTRY_SIZE as u64 * u64::from(header_count(bytes)),
    )
}

/// Finds the first fault that a segment to load has by itself.
#[tactic(auto, unfolding(crate::specs::Faults::segment_tests))]
pub fn check_segment(bytes: &[u8], header: &ProgramHeader) -> Result<(), ElfFault>
    ensures fault { result_err result ≡ first_failed (segment_tests bytes.now header.now) }
    ensures ram { OnOk result (IsTrue (lies_in_ram (header_span header.now))) }
{
    if header.filesz > header.memsz {
        return Err(ElfFault::NotThis {
            field: ElfField::FileSize,
            value: header.filesz,
        });
    }
    if !lies_in_ram(header.paddr, header.memsz) {
        return Err(ElfFault::OutsideRam {
            segment: header.number,
        });
    }
    check_bytes(bytes, header.offset, header.filesz)
}

/// Whether so many addresses from the one on are all in RAM. No addresses are.
fn lies_in_ram(at: u64, size: u64) -> bool
    ensures { result ≡ lies_in_ram (record { at = at; size = size }) }
{
    size == 0 || in_ram(at, size)
}

/// Finds a fault where the value of a field isn't the wanted one.
fn check_field(field: ElfField, value: u64, wanted: u64) -> Result<(), ElfFault>
    ensures { result_err result ≡ first_failed (field_test field value wanted ∷ []) }
{
    if value == wanted {
        Ok(())
    } else {
        Err(ElfFault::NotThis { field, value })
    }
}

/// Finds a fault where so many bytes don't stand at the offset. No bytes may stand anywhere.
fn check_bytes(bytes: &[u8], offset: u64, size: u64) -> Result<(), ElfFault>
    ensures fault { result_err result ≡ first_failed (length_test bytes.now offset size ∷ []) }
    ensures there { OnOk result ((size ≡ 0) ⊎ (offset + size ≤ length bytes.now)) }
{
    let len = bytes.len() as u64;
    if size == 0 || (size <= len && offset <= len - size) {
        Ok(())
    } else {
        Err(ElfFault::Short { at: len })
    }
}
