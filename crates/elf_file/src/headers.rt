ghost use Rattle.std.specs.Prelude.{◌≡◌, ◌≤◌};
ghost use Rattle.elf_file.specs.Writing.{headers_size, file_header, program_header};
ghost use Rattle.elf_file.specs.Placing.{view};

use crate::placing::{PAGE, Placed};
use byteorder::{ByteOrder, LittleEndian};
use rv_fields::RESET_PC;

/// The length of the file's header.
pub const HEADER_SIZE: usize = 64;

/// The length of a program header.
pub const ENTRY_SIZE: usize = 56;

/// The first bytes of an ELF file: 64 bits, little endian, version 1, no ABI.
const IDENT: [u8; 16] = [0x7f, b'E', b'L', b'F', 2, 1, 1, 0, 0, 0, 0, 0, 0, 0, 0, 0];

/// The first four bytes, read as a number.
pub const MAGIC: u32 = 0x464c_457f;

/// The type of an executable.
pub const EXECUTABLE: u16 = 2;

/// The number of RISC-V among the machines.
pub const RISCV: u16 = 243;

const VERSION: u32 = 1;

/// The kind of a program header whose segment is loaded.
pub const LOAD: u32 = 1;

/// The header of a file with so many program headers right behind it, and with no sections.
pub fn file_header(count: u16) -> [u8; HEADER_SIZE]
    ensures { result ≡ file_header count }
{
    let mut header = [0; HEADER_SIZE];
    header[..16].copy_from_slice(&IDENT);
    LittleEndian::write_u16(&mut header[16..], EXECUTABLE);
    LittleEndian::write_u16(&mut header[18..], RISCV);
    LittleEndian::write_u32(&mut header[20..], VERSION);
    LittleEndian::write_u64(&mut header[24..], RESET_PC);
    LittleEndian::write_u64(&mut header[32..], HEADER_SIZE as u64);
    LittleEndian::write_u16(&mut header[52..], HEADER_SIZE as u16);
    LittleEndian::write_u16(&mut header[54..], ENTRY_SIZE as u16);
    LittleEndian::write_u16(&mut header[56..], count);
    header
}

/// The length of the header with so many program headers behind it.
pub fn headers_size(count: usize) -> usize
    requires { count ≤ 72 }
    ensures { result ≡ headers_size count }
{
    HEADER_SIZE + ENTRY_SIZE * count
}

/// The program header of a segment.
pub fn program_header(placed: &Placed) -> [u8; ENTRY_SIZE]
    ensures { result ≡ program_header (view placed.now) }
{
    let mut header = [0; ENTRY_SIZE];
    LittleEndian::write_u32(&mut header, LOAD);
    LittleEndian::write_u32(&mut header[4..], placed.segment.flags);
    LittleEndian::write_u64(&mut header[8..], placed.offset as u64);
    LittleEndian::write_u64(&mut header[16..], placed.segment.at);
    LittleEndian::write_u64(&mut header[24..], placed.segment.at);
    LittleEndian::write_u64(&mut header[32..], placed.bytes.len() as u64);
    LittleEndian::write_u64(&mut header[40..], placed.segment.size);
    LittleEndian::write_u64(&mut header[48..], PAGE as u64);
    header
}
