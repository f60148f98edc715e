//! The three files of a replay: how tests write a program, and what the verdict on them says.

ghost use Rattle.std.specs.Prelude.{◌≤◌, length};
ghost use Rattle.rv_fields.specs.Play.{most_harts};

use crate::{Reset, replay};
use boot_words::{
    DISPATCHER_AT, M_HANDLER_AT, boot_block, boot_block_at, boot_csrs_at, code_start, dispatcher,
    handler,
};
use rv_fields::{Mode, NoMemory, RESET_PC};
use std::alloc::Global;
use std::process::Abort;
use std::test::*;

/// Zeros in every register.
pub const ZEROS: Reset = Reset {
    x: [0; 31],
    csrs: [0; 19],
};

/// Ones in every register.
pub const ONES: Reset = Reset {
    x: [u64::MAX; 31],
    csrs: [u64::MAX; 19],
};

/// Where the bytes of the first segment stand in a file.
const CONTENTS_AT: u64 = 0x1000;

/// What a boot leaves of what differs between the programs.
#[derive(Clone, Copy)]
pub struct Start<'a> {
    pub mstatus: u64,
    pub mepc: u64,
    pub satp: u64,
    /// x1 and so on; those behind are 0.
    pub x: &'a [u64],
}

/// A hart of mode M whose code begins at the address.
pub fn in_mode_m(mepc: u64, x: &[u64]) -> Start<'_> {
    Start {
        mstatus: 0x1800,
        mepc,
        satp: 0,
        x,
    }
}

/// Words from an address on.
#[derive(Clone, Copy)]
pub struct Part<'a> {
    pub at: u64,
    pub words: &'a [u32],
}

/// An ELF file that grows.
#[derive(Drop)]
pub struct Elf {
    /// The program headers, 56 bytes for each segment.
    headers: Vec<u8>,
    /// The bytes of the segments, one behind the other.
    contents: Vec<u8>,
}

impl Elf {
    pub fn new(alloc: Global) -> Elf {
        Elf {
            headers: Vec::new(alloc),
            contents: Vec::new(alloc),
        }
    }

    /// Adds a segment of these bytes. The first field is the type 1 and the flags 5, each of four bytes.
    fn add(&mut self, at: u64, bytes: &[u8]) -> Result<(), NoMemory> {
        let offset = CONTENTS_AT + self.contents.len() as u64;
        let size = bytes.len() as u64;
        for field in [0x5_0000_0001, offset, at, at, size, size, 0x1000] {
            self.headers.extend_from_slice(&u64::to_le_bytes(field))?;
        }
        self.contents.extend_from_slice(bytes)?;
        Ok(())
    }

    /// Adds a segment of these words.
    pub fn add_words(&mut self, alloc: Global, at: u64, words: &[u32]) -> Result<(), NoMemory> {
        let mut bytes = Vec::new(alloc);
        for word in words {
            bytes.extend_from_slice(&word.to_le_bytes())?;
        }
        self.add(at, &bytes)
    }

    /// Adds the table from which a hart boots: 15 CSRs, and then x1 and so on.
    fn add_table(&mut self, alloc: Global, at: u64, start: &Start) -> Result<(), NoMemory> {
        let mut values = Vec::new(alloc);
        values.extend_from_slice(&[start.mstatus, 0, 0, 0, M_HANDLER_AT, 0, start.mepc])?;
        values.extend_from_slice(&[0x3f_ffff_f000, 0, 0, 0, 0, start.satp])?;
        values.extend_from_slice(&[0x3f_ffff_ffff_ffff, 0x1f])?;
        values.extend_from_slice(start.x)?;
        let mut bytes = Vec::new(alloc);
        for value in values.iter() {
            bytes.extend_from_slice(&value.to_le_bytes())?;
        }
        self.add(at, &bytes)
    }

    /// Adds the boot block of a hart, and the table behind it.
    pub fn add_boot(
        &mut self,
        alloc: Global,
        hart: u8,
        block: &[u32],
        start: &Start,
    ) -> Result<(), NoMemory> {
        self.add_words(alloc, boot_block_at(hart), block)?;
        self.add_table(alloc, boot_csrs_at(hart), start)
    }

    /// The file. Its header is eight times eight bytes: two of the identification; type 2, machine 243 and version 1; the
    /// entry; 64, where the program headers begin; 0; 64 and 56, the sizes of both kinds of headers; and the number of segments.
    pub fn finish(self, alloc: Global) -> Result<Vec<u8>, NoMemory> {
        let count = self.headers.len() as u64 / 56;
        let mut file = Vec::new(alloc);
        for field in [
            0x0001_0102_464c_457f,
            0,
            0x1_00f3_0002,
            RESET_PC,
            64,
            0,
            0x38_0040_0000_0000,
            count,
        ] {
            file.extend_from_slice(&u64::to_le_bytes(field))?;
        }
        file.extend_from_slice(&self.headers)?;
        file.resize(CONTENTS_AT as usize, 0)?;
        file.extend_from_slice(&self.contents)?;
        Ok(file)
    }
}

/// A program for harts that start like this, with these parts beside what every program has.
pub fn program(alloc: Global, starts: &[Start], parts: &[Part]) -> Result<Vec<u8>, NoMemory>
    requires { length starts.now ≤ most_harts }
{
    let mut elf = begun(alloc, starts)?;
    for part in parts {
        elf.add_words(alloc, part.at, part.words)?;
    }
    elf.finish(alloc)
}

/// What every program has: the dispatcher, the handler of mode M, and the boots.
fn begun(alloc: Global, starts: &[Start]) -> Result<Elf, NoMemory>
    requires { length starts.now ≤ most_harts }
{
    let mut elf = Elf::new(alloc);
    elf.add_words(alloc, DISPATCHER_AT, &dispatcher(starts.len() as u8))?;
    elf.add_words(alloc, M_HANDLER_AT, &handler(Mode::M))?;
    for (hart, start) in starts.iter().enumerate() {
        elf.add_boot(alloc, hart as u8, &boot_block(), start)?;
    }
    Ok(elf)
}

/// `addi x1, x0, 5` and `jal x0, 0`.
pub const SUM: [u32; 2] = [0x0050_0093, 0x0000_006f];

/// The program of the first example.
pub fn first_example(alloc: Global) -> Result<Vec<u8>, NoMemory> {
    let start = in_mode_m(code_start(0), &[]);
    let code = Part {
        at: code_start(0),
        words: &SUM,
    };
    program(alloc, &[start], &[code])
}

/// Its order.
pub const ORDER: &str = "order 1 1\n0 72\n";

/// Its trace.
pub const TRACE: &str = "trace 1 1
q 0 0 ins
s 0 84000000 84000000 00500093 1:5 - - -
d 0 0
e 0 84000004 84000004 0000006f - - - -
";

/// The verdict on the files from this reset is printed so.
pub fn says_from(
    rt: &impl Abort,
    alloc: Global,
    reset: &Reset,
    elf: &[u8],
    order: &str,
    trace: &str,
    text: &str,
) -> Result<(), Fail> {
    let verdict = replay(alloc, elf, order.as_bytes(), trace.as_bytes(), reset)?;
    let printed = format!(in alloc; "{verdict}")?;
    assert_eq!(rt; printed.as_str(), text, "of {order}{trace}");
    Ok(())
}

/// The same from zeros.
pub fn says(
    rt: &impl Abort,
    alloc: Global,
    elf: &[u8],
    order: &str,
    trace: &str,
    text: &str,
) -> Result<(), Fail> {
    says_from(rt, alloc, &ZEROS, elf, order, trace, text)
}
