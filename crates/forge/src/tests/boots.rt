//! Boots of written programs, from resets of several kinds.

ghost use Rattle.std.specs.Prelude.{◌≡◌, length};

use super::harts::{job_of, no_trees, text_of};
use crate::{Made, make_serial};
use boot_words::{BOOT_STEPS, code_start, mret};
use choice_tree::DrawWords;
use elf_file::read_elf;
use rv_machine::{Machine, Reset, Stepped};
use std::alloc::Global;
use std::process::Abort;
use std::test::Fail;

/// `add x3, x1, x2`, the first instruction of each hart.
const FIRST: u32 = 0x0020_81b3;

/// `jal x0, 0`, the last instruction of the dispatcher, and where it stands.
const WAIT: u32 = 0x0000_006f;

const WAIT_AT: u64 = 0x8000_001c;

/// The values that stand in the registers of harts at reset, one after another.
#[derive(Drop)]
enum Filling {
    Each(u64),
    Drawn(DrawWords),
}

impl Filling {
    fn next(&mut self) -> u64 {
        match self {
            Filling::Each(value) => *value,
            Filling::Drawn(words) => words.next(),
        }
    }

    fn reset(&mut self) -> Reset {
        let mut x = [0; 31];
        for value in &mut x {
            *value = self.next();
        }
        let mut csrs = [0; 19];
        for value in &mut csrs {
            *value = self.next();
        }
        Reset { x, csrs }
    }
}

/// A machine of so many harts that begin at reset.
#[derive(Drop)]
struct Booting {
    machine: Machine,
    harts: u8,
    ghost count: { length machine.harts.items ≡ harts },
}

impl Booting {
    /// So many harts over the memory that the ELF file is loaded as.
    fn new(
        rt: &impl Abort,
        alloc: Global,
        elf: &[u8],
        harts: u8,
        filling: &mut Filling,
    ) -> Result<Booting, Fail> {
        let ram = read_elf(alloc, elf)?;
        let mut resets = Vec::new(alloc);
        for _ in 0..harts {
            resets.push(filling.reset())?;
        }
        assert!(rt; resets.len() == usize::from(harts));
        let machine = Machine::new(alloc, ram, &resets)?;
        Ok(Booting { machine, harts })
    }

    /// Makes a turn of the hart, and asserts that it doesn't trap.
    fn turn(&mut self, rt: &impl Abort, alloc: Global, hart: u8) -> Result<Stepped, Fail> {
        assert!(rt; hart < self.harts);
        let stepped = self.machine.turn(alloc, hart)?;
        let pc = stepped.pc;
        assert!(rt; stepped.trap.is_none(), "hart {hart} at {pc:x}");
        Ok(stepped)
    }

    /// Boots the hart, and makes its first turn behind the boot.
    fn boot(&mut self, rt: &impl Abort, alloc: Global, hart: u8) -> Result<Stepped, Fail> {
        for _ in 1..BOOT_STEPS {
            self.turn(rt, alloc, hart)?;
        }
        let last = self.turn(rt, alloc, hart)?;
        assert_eq!(rt; last.word, Some(mret()), "hart {hart}");
        self.turn(rt, alloc, hart)
    }

    /// Asserts that the hart goes from the dispatcher's third instruction to the last, and stays there.
    fn assert_waits(&mut self, rt: &impl Abort, alloc: Global, hart: u8) -> Result<(), Fail> {
        for _ in 0..3 {
            self.turn(rt, alloc, hart)?;
        }
        for turn in 3..20 {
            let stepped = self.turn(rt, alloc, hart)?;
            assert_eq!(rt;
                (stepped.pc, stepped.word),
                (WAIT_AT, Some(WAIT)),
                "hart {hart}, turn {turn}"
            );
        }
        Ok(())
    }
}

/// The files of a job of so many harts, each of which adds two registers that nothing touched before.
fn made_for(alloc: Global, harts: u8) -> Result<Made, Fail> {
    let text = text_of(alloc, u32::from(harts), 1)?;
    let job = job_of(alloc, &text)?;
    let trees = no_trees(alloc)?;
    Ok(make_serial(alloc, &job, &trees, 7)?)
}

/// Asserts that behind its boot the hart did what the trace tells of it first.
fn assert_begins(
    rt: &impl Abort,
    alloc: Global,
    made: &Made,
    hart: u8,
    stepped: &Stepped,
) -> Result<(), Fail> {
    let start = code_start(hart);
    assert_eq!(rt;
        (stepped.pc, stepped.word),
        (start, Some(FIRST)),
        "hart {hart}"
    );
    let (register, sum) = stepped.rd.ok_or("no register written")?;
    assert_eq!(rt; register, 3);
    let line = format!(in alloc; "s {hart} {start:x} {start:x} 002081b3 3:{sum:x} - - -\n")?;
    let trace = str::from_utf8(&made.trace)?;
    assert!(rt; trace.contains(line.as_str()), "{line}");
    Ok(())
}

/// Asserts that each hart of a program boots from resets of these values, and that one past the last waits.
fn assert_boots(rt: &impl Abort, alloc: Global, filling: &mut Filling) -> Result<(), Fail> {
    for harts in [1, 2, 3, 16] {
        let made = made_for(alloc, harts)?;
        let mut booting = Booting::new(rt, alloc, &made.elf, harts + 1, filling)?;
        for hart in 0..harts {
            let stepped = booting.boot(rt, alloc, hart)?;
            assert_begins(rt, alloc, &made, hart, &stepped)?;
        }
        booting.assert_waits(rt, alloc, harts)?;
    }
    Ok(())
}

#[test]
fn harts_boot_from_zeros(rt: HostRuntime) -> Result<(), Fail> {
    assert_boots(&rt, rt.alloc(), &mut Filling::Each(0))
}

#[test]
fn harts_boot_from_ones(rt: HostRuntime) -> Result<(), Fail> {
    assert_boots(&rt, rt.alloc(), &mut Filling::Each(u64::MAX))
}

#[test]
fn harts_boot_from_drawn_values(rt: HostRuntime) -> Result<(), Fail> {
    let mut filling = Filling::Drawn(DrawWords::new(7, 0));
    assert_boots(&rt, rt.alloc(), &mut filling)
}
