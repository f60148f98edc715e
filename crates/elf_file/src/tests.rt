ghost use Rattle.std.specs.Prelude.{◌≡◌, ℕ, ◌+◌, ◌-◌, ◌<◌, ◌≤◌, length, IfOk, IsTrue};
ghost use Rattle.ram_image.specs.Segments.{stretches, are_sound};

use super::*;
use ram_image::Segment;
use rv_fields::{NoMemory, RAM_START};
use std::alloc::{AllocError, Global};
use std::test::*;

/// The header of a file with three program headers, as the specification of ELF64 lays it out.
const HEADER: [u8; 64] = [
    0x7f, 0x45, 0x4c, 0x46, 2, 1, 1, 0, 0, 0, 0, 0, 0, 0, 0, 0, // magic number, class, data, version, ABI
    2, 0, 0xf3, 0, 1, 0, 0, 0, // type, machine, version
    0, 0, 0, 0x80, 0, 0, 0, 0, // entry
    0x40, 0, 0, 0, 0, 0, 0, 0, // offset of the program headers
    0, 0, 0, 0, 0, 0, 0, 0, // offset of the section headers
    0, 0, 0, 0, 0x40, 0, 0x38, 0, 3, 0, // flags, sizes of this header and of a program header, how many
    0, 0, 0, 0, 0, 0, // the same of section headers, and their names
];

const PROGRAM_HEADERS: [[u8; 56]; 3] = [
    [
        1, 0, 0, 0, 5, 0, 0, 0, // type, flags
        0, 0x10, 0, 0, 0, 0, 0, 0, // offset
        0, 0, 0, 0x80, 0, 0, 0, 0, 0, 0, 0, 0x80, 0, 0, 0, 0, // virtual and physical address
        0x71, 0x14, 0, 0, 0, 0, 0, 0, 0, 0x20, 0, 0, 0, 0, 0, 0, // sizes in the file and in memory
        0, 0x10, 0, 0, 0, 0, 0, 0, // alignment
    ],
    [
        1, 0, 0, 0, 5, 0, 0, 0, //
        0, 0x30, 0, 0, 0, 0, 0, 0, //
        0, 0, 2, 0x80, 0, 0, 0, 0, 0, 0, 2, 0x80, 0, 0, 0, 0, //
        0x18, 0x10, 0, 0, 0, 0, 0, 0, 0, 0x20, 0, 0, 0, 0, 0, 0, //
        0, 0x10, 0, 0, 0, 0, 0, 0,
    ],
    [
        1, 0, 0, 0, 5, 0, 0, 0, //
        0, 0x50, 0, 0, 0, 0, 0, 0, //
        0, 0, 0, 0x84, 0, 0, 0, 0, 0, 0, 0, 0x84, 0, 0, 0, 0, //
        5, 0, 0, 0, 0, 0, 0, 0, 0, 0x10, 0, 0, 0, 0, 0, 0, //
        0, 0x10, 0, 0, 0, 0, 0, 0,
    ],
];

/// So many bytes, of which only the last isn't zero.
fn ending_with(alloc: Global, last: u8, len: usize) -> Result<Vec<u8>, AllocError>
    requires { 0 < len }
    ensures { IfOk result (λ v. length v.items ≡ len) }
{
    let mut bytes = vec![in alloc; 0; len]?;
    bytes[len - 1] = last;
    Ok(bytes)
}

/// Three segments to read and execute, of which the last begins with `addi x1, x0, 5` and a jump to itself.
fn example(alloc: Global) -> Result<[Segment; 3], AllocError>
    ensures { IfOk result (λ segments. IsTrue (are_sound (stretches segments))) }
{
    Ok([
        Segment {
            at: RAM_START,
            bytes: ending_with(alloc, 7, 0x1471)?,
            size: 0x2000,
            flags: 5,
        },
        Segment {
            at: 0x8002_0000,
            bytes: ending_with(alloc, 9, 0x1018)?,
            size: 0x2000,
            flags: 5,
        },
        Segment {
            at: 0x8400_0000,
            bytes: Vec::from_slice(alloc, &[0x93, 0, 0x50, 0, 0x6f, 0, 0, 0])?,
            size: 0x1000,
            flags: 5,
        },
    ])
}

/// A byte, and a segment behind it of zeros alone.
fn zeros_last(alloc: Global) -> Result<[Segment; 2], AllocError>
    ensures { IfOk result (λ segments. IsTrue (are_sound (stretches segments))) }
{
    Ok([
        Segment {
            at: RAM_START,
            bytes: ending_with(alloc, 1, 1)?,
            size: 0x1000,
            flags: 4,
        },
        Segment {
            at: 0x8000_1000,
            bytes: vec![in alloc; 0; 16]?,
            size: 0x3000,
            flags: 6,
        },
    ])
}

/// These bytes stand at the offset.
fn has(file: &[u8], offset: usize, bytes: &[u8]) -> bool {
    file.get(offset..)
        .is_some_and(|rest| rest.starts_with(bytes))
}

#[test]
fn three_segments(rt: HostRuntime) -> Result<(), Fail> {
    let segments = example(rt.alloc())?;
    let mut file = Vec::new(rt.alloc());
    write_elf(&segments, &mut file)?;
    assert_eq!(rt; file.len(), 20485);
    assert!(rt; has(&file, 0, &HEADER));
    assert!(rt; has(&file, 64, &PROGRAM_HEADERS[0]));
    assert!(rt; has(&file, 120, &PROGRAM_HEADERS[1]));
    assert!(rt; has(&file, 176, &PROGRAM_HEADERS[2]));
    assert!(rt; has(&file, 232, &[0; 0x1000 - 232]));
    assert!(rt; has(&file, 0x246f, &[0, 7, 0]));
    assert!(rt; has(&file, 0x4016, &[0, 9, 0]));
    assert!(rt; has(&file, 0x5000, &[0x93, 0, 0x50, 0, 0x6f]));
    Ok(())
}

#[test]
fn zeros_add_no_byte(rt: HostRuntime) -> Result<(), Fail> {
    let segments = zeros_last(rt.alloc())?;
    let mut file = Vec::new(rt.alloc());
    write_elf(&segments, &mut file)?;
    assert_eq!(rt; file.len(), 0x1001);
    // The offset, and behind the addresses the sizes in the file and in memory.
    assert!(rt; has(&file, 128, &[0, 0x20, 0, 0, 0, 0, 0, 0]));
    assert!(rt;
        has(
            &file,
            152,
            &[0, 0, 0, 0, 0, 0, 0, 0, 0, 0x30, 0, 0, 0, 0, 0, 0]
        )
    );
    Ok(())
}

#[test]
fn no_segments(rt: HostRuntime) -> Result<(), Fail> {
    let mut file = vec![in rt.alloc(); 0xaa]?;
    write_elf(&[], &mut file)?;
    assert_eq!(rt; file.len(), 65);
    assert!(rt; has(&file, 0, &[0xaa, 0x7f, 0x45, 0x4c, 0x46]));
    assert!(rt; has(&file, 53, &[0x40, 0, 0x38, 0, 0, 0, 0, 0, 0, 0, 0, 0]));
    Ok(())
}

/// The file of the three segments.
fn example_file(alloc: Global) -> Result<Vec<u8>, NoMemory> {
    let segments = example(alloc)?;
    let mut file = Vec::new(alloc);
    write_elf(&segments, &mut file)?;
    Ok(file)
}

/// What reading the file says.
fn answer(alloc: Global, file: &[u8]) -> Result<String, AllocError> {
    match read_elf(alloc, file) {
        Ok(_) => format!(in alloc; "loaded"),
        Err(fault) => format!(in alloc; "{fault}"),
    }
}

/// What reading the file says where it has these bytes at the offset.
fn answer_with(alloc: Global, file: &[u8], at: usize, bytes: &[u8]) -> Result<String, AllocError>
    requires { at + length bytes.now ≤ length file.now }
{
    let mut changed = Vec::from_slice(alloc, file)?;
    changed[at..at + bytes.len()].copy_from_slice(bytes);
    answer(alloc, &changed)
}

/// Offsets in the file of the three segments, other bytes there, and what reading it says then. The program headers
/// begin at 64, 120 and 176. In each the kind stands at 0, the offset at 8, the virtual address at 16, the physical
/// address at 24, the size in the file at 32, the size in memory at 40, and the alignment at 48.
const CHANGES: [(usize, &[u8], &str); 26] = [
    (0, &[0x7e], "not ELF"),
    (4, &[1], "class is 1"),
    (5, &[2], "data is 2"),
    (6, &[0], "version is 0"),
    (16, &[3], "type is 3"),
    (18, &[62, 0], "machine is 62"),
    (24, &[4], "entry is 2147483652"),
    (48, &[1], "flags is 1"),
    (54, &[64], "phentsize is 64"),
    (56, &[0xff, 0xff], "short at 20485"),
    (
        32,
        &[0xff, 0xff, 0xff, 0xff, 0xff, 0xff, 0xff, 0xff],
        "short at 20485",
    ),
    (4, &[1, 2, 0], "class is 1"),
    // A segment by itself.
    (104, &[0x70, 0x14], "filesz is 5233"),
    (147, &[0x70], "segment 1 outside memory"),
    (147, &[0x90], "segment 1 outside memory"),
    (216, &[0, 0, 0, 0x0c, 0, 0, 0, 0], "loaded"),
    (
        216,
        &[1, 0, 0, 0x0c, 0, 0, 0, 0],
        "segment 2 outside memory",
    ),
    (184, &[1], "short at 20485"),
    // Two segments.
    (144, &[0xff, 0x1f, 0, 0x80], "segments 0 and 1 overlap"),
    (144, &[0, 0x20, 0, 0x80], "loaded"),
    (200, &[0, 0x10, 2, 0x80], "segments 1 and 2 overlap"),
    (160, &[0, 0, 2, 4, 0, 0, 0, 0], "segments 1 and 2 overlap"),
    // A kind that isn't loaded, and what isn't looked at.
    (64, &[6], "loaded"),
    (136, &[1, 2, 3, 4, 5, 6, 7, 8], "loaded"),
    (168, &[1], "loaded"),
    (40, &[9, 9, 9, 9, 9, 9, 9, 9], "loaded"),
];

#[test]
fn tells_the_fault_of_each_change(rt: HostRuntime) -> Result<(), Fail> {
    let file = example_file(rt.alloc())?;
    assert_eq!(rt; answer(rt.alloc(), &file)?.as_str(), "loaded");
    for (at, bytes, says) in CHANGES {
        assert!(rt; at < 1000 && bytes.len() <= 8 && file.len() > 1008);
        assert_eq!(rt; answer_with(rt.alloc(), &file, at, bytes)?.as_str(), says);
    }
    Ok(())
}

#[test]
fn every_proper_prefix_has_a_fault(rt: HostRuntime) -> Result<(), Fail> {
    let file = example_file(rt.alloc())?;
    for len in 0..file.len() {
        assert!(rt; read_elf(rt.alloc(), &file[..len]).is_err());
    }
    Ok(())
}

#[test]
fn reads_the_bytes_that_were_written(rt: HostRuntime) -> Result<(), Fail> {
    let file = example_file(rt.alloc())?;
    let ram = read_elf(rt.alloc(), &file)?;
    assert_eq!(rt; ram.load(0x8000_146f, 4), Some(0x0000_0700));
    assert_eq!(rt; ram.load(0x8002_1017, 1), Some(9));
    assert_eq!(rt; ram.load(0x8400_0000, 8), Some(0x0000_006f_0050_0093));
    assert_eq!(rt; ram.load(0x8fff_fff8, 8), Some(0));
    Ok(())
}

/// A file with two program headers to load: bytes of no segment lie past its end, and the second segment, which has
/// no addresses, lies outside memory.
const EMPTY_SEGMENTS: [[u8; 56]; 2] = [
    [
        1, 0, 0, 0, 6, 0, 0, 0, //
        0, 0, 0, 0, 0, 0, 0, 0xff, //
        0, 0, 0, 0, 0, 0, 0, 0, 0, 0, 0, 0x80, 0, 0, 0, 0, //
        0, 0, 0, 0, 0, 0, 0, 0, 0, 0x10, 0, 0, 0, 0, 0, 0, //
        0, 0x10, 0, 0, 0, 0, 0, 0,
    ],
    [
        1, 0, 0, 0, 6, 0, 0, 0, //
        0, 0x10, 0, 0, 0, 0, 0, 0, //
        0, 0, 0, 0, 0, 0, 0, 0, 4, 0, 0, 0, 0, 0, 0, 0, //
        0, 0, 0, 0, 0, 0, 0, 0, 0, 0, 0, 0, 0, 0, 0, 0, //
        0, 0x10, 0, 0, 0, 0, 0, 0,
    ],
];

#[test]
fn no_bytes_lie_anywhere(rt: HostRuntime) -> Result<(), Fail> {
    let mut file = Vec::from_slice(rt.alloc(), &HEADER)?;
    file.extend_from_slice(&EMPTY_SEGMENTS[0])?;
    file.extend_from_slice(&EMPTY_SEGMENTS[1])?;
    assert_eq!(rt; file.len(), 176);
    assert_eq!(rt; answer(rt.alloc(), &file)?.as_str(), "short at 176");
    file[56] = 2;
    assert_eq!(rt; answer(rt.alloc(), &file)?.as_str(), "loaded");
    // No program headers, which begin past the file's end.
    file[39] = 1;
    assert_eq!(rt; answer(rt.alloc(), &file)?.as_str(), "short at 176");
    file[56] = 0;
    assert_eq!(rt; answer(rt.alloc(), &file)?.as_str(), "loaded");
    Ok(())
}

#[test]
fn out_of_memory_is_told(rt: HostRuntime) -> Result<(), Fail> {
    assert_eq!(rt;
        format!(in rt.alloc(); "{}", ElfFault::from(NoMemory))?.as_str(),
        "out of memory"
    );
    Ok(())
}
