ghost use Rattle.std.specs.Prelude.{◌≡◌, ◌≤◌, ◌+◌, ◌*◌, length};
ghost use Rattle.elf_file.specs.Headers.{field, header_offset, header_count, header_in, header_at};

use crate::headers::ENTRY_SIZE;
use byteorder::{ByteOrder, LittleEndian};

/// What a program header says of a segment: where its bytes lie in the file, and where it lies in memory.
#[derive(Clone, Copy, Debug, PartialEq, Eq)]
pub struct ProgramHeader {
    /// Its place among the program headers, from 0.
    pub number: u32,
    pub kind: u32,
    pub flags: u32,
    pub offset: u64,
    /// The physical address of the segment's first byte.
    pub paddr: u64,
    /// The number of its bytes in the file.
    pub filesz: u64,
    /// The number of its bytes in memory.
    pub memsz: u64,
}

/// The number in the byte at the offset.
pub fn field_u8(bytes: &[u8], at: usize) -> u8
    requires { at + 1 ≤ length bytes.now }
    ensures { result ≡ field bytes.now at 1 }
{
    bytes[at]
}

/// The number in the two bytes at the offset.
pub fn field_u16(bytes: &[u8], at: usize) -> u16
    requires { at + 2 ≤ length bytes.now }
    ensures { result ≡ field bytes.now at 2 }
{
    LittleEndian::read_u16(&bytes[at..])
}

/// The number in the four bytes at the offset.
pub fn field_u32(bytes: &[u8], at: usize) -> u32
    requires { at + 4 ≤ length bytes.now }
    ensures { result ≡ field bytes.now at 4 }
{
    LittleEndian::read_u32(&bytes[at..])
}

/// The number in the eight bytes at the offset.
pub fn field_u64(bytes: &[u8], at: usize) -> u64
    requires { at + 8 ≤ length bytes.now }
    ensures { result ≡ field bytes.now at 8 }
{
    LittleEndian::read_u64(&bytes[at..])
}

/// The offset at which the program headers begin, as the file's header tells it.
pub fn header_offset(bytes: &[u8]) -> u64
    requires { 64 ≤ length bytes.now }
    ensures { result ≡ header_offset bytes.now }
{
    field_u64(bytes, 32)
}

/// The number of program headers, as the file's header tells it.
pub fn header_count(bytes: &[u8]) -> u16
    requires { 64 ≤ length bytes.now }
    ensures { result ≡ header_count bytes.now }
{
    field_u16(bytes, 56)
}

/// The program header of the number.
#[tactic(auto, unfolding(crate::specs::Headers::header_at))]
pub fn header_at(bytes: &[u8], number: u32) -> ProgramHeader
    requires whole { 64 ≤ length bytes.now }
    requires there { header_offset bytes.now + 56 * (number + 1) ≤ length bytes.now }
    ensures { result ≡ header_at bytes.now number }
{
    let first = header_offset(bytes) as usize;
    header_in(bytes, first + ENTRY_SIZE * number as usize, number)
}

/// The program header that begins at the offset, which is the one of this number.
fn header_in(bytes: &[u8], at: usize, number: u32) -> ProgramHeader
    requires { at + 56 ≤ length bytes.now }
    ensures { result ≡ header_in bytes.now at number }
{
    ProgramHeader {
        number,
        kind: field_u32(bytes, at),
        flags: field_u32(bytes, at + 4),
        offset: field_u64(bytes, at + 8),
        paddr: field_u64(bytes, at + 24),
        filesz: field_u64(bytes, at + 32),
        memsz: field_u64(bytes, at + 40),
    }
}
