ghost use Rattle.std.specs.Prelude.{◌≡◌, Some};
ghost use Rattle.elf_file.specs.declared.fault.ElfFault.TheVariants.{Memory};

use rv_fields::NoMemory;
use std::alloc::AllocFailed;
use std::error::Error;
use std::fmt;

/// What an ELF file may say of itself that keeps it from being loaded here.
#[derive(Clone, Copy, Debug, PartialEq, Eq)]
pub enum ElfField {
    /// 2 for 64 bits.
    Class,
    /// 1 for little endian.
    Encoding,
    /// The version in the file's identification, 1.
    Version,
    /// 2 for an executable.
    FileType,
    /// 243 for RISC-V.
    Machine,
    /// The address of the first instruction, the start of RAM.
    Entry,
    /// 0: no extension and no floating point is asked for.
    Flags,
    /// The length of a program header, 56.
    PhEntSize,
    /// The number of a segment's bytes in the file, which is no more than that in memory.
    FileSize,
}

impl fmt::Display for ElfField {
    ghost use Rattle.elf_file.specs.Messages.{elf_field_name};

    ghost output = { λ field. Some (elf_field_name field) };

    fn fmt<W: fmt::Write>(&self, f: &mut fmt::Formatter<W>) -> fmt::Result {
        f.write_str(match self {
            ElfField::Class => "class",
            ElfField::Encoding => "data",
            ElfField::Version => "version",
            ElfField::FileType => "type",
            ElfField::Machine => "machine",
            ElfField::Entry => "entry",
            ElfField::Flags => "flags",
            ElfField::PhEntSize => "phentsize",
            ElfField::FileSize => "filesz",
        })
    }
}

/// Why an ELF file isn't loaded. Segments are numbered from 0 over all program headers of the file, those that aren't
/// to be loaded too.
#[derive(Clone, Copy, Debug, PartialEq, Eq)]
pub enum ElfFault {
    /// The file ends before something that it is to have. `at` is its length.
    Short { at: u64 },
    /// It doesn't begin as an ELF file does.
    NotElf,
    /// The field has this value, with which the file can't be loaded here.
    NotThis { field: ElfField, value: u64 },
    /// Some address of the segment isn't in RAM.
    OutsideRam { segment: u32 },
    /// The segments share an address, and `a` is the earlier one.
    Clash { a: u32, b: u32 },
    /// Out of memory.
    Memory,
}

impl fmt::Display for ElfFault {
    ghost use Rattle.elf_file.specs.Messages.{elf_message};

    ghost output = { λ fault. Some (elf_message fault) };

    fn fmt<W: fmt::Write>(&self, f: &mut fmt::Formatter<W>) -> fmt::Result {
        match *self {
            ElfFault::Short { at } => write!(f, "short at {at}"),
            ElfFault::NotElf => write!(f, "not ELF"),
            ElfFault::NotThis { field, value } => write!(f, "{field} is {value}"),
            ElfFault::OutsideRam { segment } => write!(f, "segment {segment} outside memory"),
            ElfFault::Clash { a, b } => write!(f, "segments {a} and {b} overlap"),
            ElfFault::Memory => write!(f, "out of memory"),
        }
    }
}

impl Error for ElfFault {}

impl From<NoMemory> for ElfFault {
    ghost from_gives = { λ _ fault. fault ≡ Memory };

    fn from(_refused: NoMemory) -> ElfFault {
        ElfFault::Memory
    }
}

impl<T: Drop> From<AllocFailed<T>> for ElfFault {
    ghost from_gives = { λ _ fault. fault ≡ Memory };

    fn from(_refused: AllocFailed<T>) -> ElfFault {
        ElfFault::Memory
    }
}
