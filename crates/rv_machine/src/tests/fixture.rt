//! How tests set up a machine, and read what it holds.

ghost use Rattle.std.specs.Prelude.{◌≡◌, ◌<◌, length, slice_index};

use crate::{Machine, Reset};
use ram_image::{Ram, Segment};
use rv_fields::NoMemory;
use rv_step::{Hart, Stepped};
use std::alloc::Global;
use std::process::Abort;
use std::test::*;

/// A segment of these bytes.
pub fn segment(alloc: Global, at: u64, bytes: &[u8]) -> Result<Segment, NoMemory> {
    Ok(Segment {
        at,
        bytes: Vec::from_slice(alloc, bytes)?,
        size: bytes.len() as u64,
        flags: 7,
    })
}

/// A machine of so many harts over this memory, each hart as after a reset with zeros.
pub fn machine_over(
    rt: &impl Abort,
    alloc: Global,
    segments: &[Segment],
    harts: u8,
) -> Result<Machine, Fail> {
    let ram = Ram::from_segments(alloc, segments)?;
    let mut resets = Vec::new(alloc);
    for _ in 0..harts {
        resets.push(Reset {
            x: [0; 31],
            csrs: [0; 19],
        })?;
    }
    assert!(rt; resets.len() <= 256);
    Ok(Machine::new(alloc, ram, &resets)?)
}

/// The hart as it stands.
pub fn hart_of(rt: &impl Abort, machine: &Machine, number: u8) -> Hart {
    assert!(rt; usize::from(number) < machine.harts.len());
    machine.harts[usize::from(number)]
}

/// Puts this hart in the place of the one with its number.
pub fn put_hart(rt: &impl Abort, machine: &mut Machine, hart: Hart) {
    assert!(rt; hart.x[0] == 0);
    assert!(rt; usize::from(hart.number) < machine.harts.len());
    replace(machine, hart);
}

fn replace(machine: &mut Machine, hart: Hart)
    requires member { hart.number < length machine.old.harts.items }
    requires zero { slice_index hart.x 0 ≡ 0 }
{
    machine.harts[usize::from(hart.number)] = hart;
}

/// Steps the hart with the number.
pub fn turn(
    rt: &impl Abort,
    alloc: Global,
    machine: &mut Machine,
    number: u8,
) -> Result<Stepped, Fail> {
    assert!(rt; usize::from(number) < machine.harts.len());
    Ok(machine.turn(alloc, number)?)
}

/// The doubleword at a physical address, where there is RAM.
pub fn doubleword(machine: &Machine, at: u64) -> Option<u64> {
    machine.memory.ram.load(at, 8)
}
