//! Single steps, against the outcomes of another implementation.

use super::cases::Case;
use super::fixture::{doubleword, hart_of, machine_over, put_hart, segment, turn};
use crate::Machine;
use crate::vectors::{
    AMOS, BARE, CSR_READS, CSR_WRITES, FENCES, FETCHES, JUMPS, LOADS, PAGED, PAGES, REGISTERS,
    RESERVATIONS, RETURNS, STORES, TRAPS,
};
use rv_csr::{Csr, CsrFile, reset_of};
use rv_fields::Mode;
use rv_step::{Hart, Stepped};
use std::alloc::Global;
use std::process::Abort;
use std::test::*;
use sv_walk::Trail;

/// Where an LR stands that makes the reservation before a step.
const LR_AT: u64 = 0x8fff_0000;

/// `lr.w x0, (x10)`.
const LR_W: u32 = 0x1005_202f;

/// `lr.d x0, (x10)`.
const LR_D: u32 = 0x1005_302f;

/// The machine before the case's step.
fn machine_before(rt: &impl Abort, alloc: Global, case: &Case) -> Result<Machine, Fail> {
    // where two segments share an address, the first counts
    let mut segments = Vec::new(alloc);
    if let Some((at, word)) = case.word {
        segments.push(segment(alloc, at, &word.to_le_bytes())?)?;
    }
    for (at, value) in case.before.memory.iter().rev() {
        segments.push(segment(alloc, *at, &value.to_le_bytes())?)?;
    }
    if let Some(reserved) = case.before.reserved {
        let word = if reserved.size == 4 { LR_W } else { LR_D };
        segments.push(segment(alloc, LR_AT, &word.to_le_bytes())?)?;
    }
    let mut machine = machine_over(rt, alloc, &segments, 1)?;
    if let Some(reserved) = case.before.reserved {
        let mut x = REGISTERS;
        x[10] = reserved.pa;
        let reserving = Hart {
            number: 0,
            pc: LR_AT,
            x,
            mode: Mode::M,
            csrs: reset_of(0, &[0; 19]),
            reserved: None,
        };
        put_hart(rt, &mut machine, reserving);
        turn(rt, alloc, &mut machine, 0)?;
        assert_eq!(rt; hart_of(rt, &machine, 0).reserved, case.before.reserved);
    }
    put_hart(rt, &mut machine, hart_before(rt, case));
    Ok(machine)
}

fn hart_before(rt: &impl Abort, case: &Case) -> Hart {
    let mut hart = Hart {
        number: 0,
        pc: case.before.pc,
        x: REGISTERS,
        mode: case.before.mode,
        csrs: reset_of(0, &[0; 19]),
        reserved: case.before.reserved,
    };
    put_registers(rt, &mut hart.x, &case.before.x);
    put_csrs(rt, &mut hart.csrs, &case.before.csrs);
    hart
}

/// The hart that the case wants behind the step.
fn hart_after(rt: &impl Abort, case: &Case) -> Hart {
    let mut hart = hart_before(rt, case);
    hart.pc = case.after.pc;
    hart.mode = case.after.mode;
    hart.reserved = case.after.reserved;
    put_registers(rt, &mut hart.x, &case.after.x);
    put_csrs(rt, &mut hart.csrs, &case.after.csrs);
    if let Some(trap) = case.trap {
        let (cause, epc, tval) = match trap.to {
            Mode::M => (Csr::Mcause, Csr::Mepc, Csr::Mtval),
            _ => (Csr::Scause, Csr::Sepc, Csr::Stval),
        };
        let told = [(cause, trap.cause), (epc, trap.epc), (tval, trap.tval)];
        put_csrs(rt, &mut hart.csrs, &told);
    }
    hart
}

fn put_registers(rt: &impl Abort, x: &mut [u64; 32], values: &[(u8, u64)]) {
    for (register, value) in values {
        assert!(rt; 0 < *register);
        assert!(rt; *register < 32);
        x[usize::from(*register)] = *value;
    }
}

fn put_csrs(rt: &impl Abort, csrs: &mut CsrFile, values: &[(Csr, u64)]) {
    for (csr, value) in values {
        assert!(rt; csrs.write(*csr, Mode::M, *value).is_ok());
    }
}

/// What the case wants the step to tell.
fn told(rt: &impl Abort, case: &Case) -> Stepped {
    let fetched = if case.is_fetched { case.word } else { None };
    Stepped {
        pc: case.before.pc,
        pa: fetched.map(|(pa, _)| pa),
        word: fetched.map(|(_, word)| word),
        rd: case.after.x.first().copied(),
        access: case.access,
        trail: trail_of(rt, &case.trail),
        trap: case.trap,
    }
}

fn trail_of(rt: &impl Abort, entries: &[(u64, u64)]) -> Trail {
    let mut trail = Trail {
        len: 0,
        at: [0; 4],
        pte: [0; 4],
    };
    for (at, pte) in entries {
        assert!(rt; trail.len < 4);
        trail.at[usize::from(trail.len)] = *at;
        trail.pte[usize::from(trail.len)] = *pte;
        trail.len += 1;
    }
    trail
}

/// Every doubleword that the case names holds what it wants behind the step.
fn holds(rt: &impl Abort, machine: &Machine, case: &Case) {
    let title = &case.title;
    let (before, after) = (&case.before.memory, &case.after.memory);
    for (at, _) in before.iter().chain(after.iter()) {
        let wanted = last_at(*at, after).or(last_at(*at, before));
        assert_eq!(rt; doubleword(machine, *at), wanted, "{title}, at {at:x}");
    }
}

/// The last doubleword with this address.
fn last_at(at: u64, doublewords: &[(u64, u64)]) -> Option<u64> {
    let mut last = None;
    for (place, value) in doublewords {
        if *place == at {
            last = Some(*value);
        }
    }
    last
}

/// The step of the case has the outcome that stands with it.
fn step_as_told(rt: &impl Abort, alloc: Global, case: &Case) -> Result<(), Fail> {
    let title = &case.title;
    let mut machine = machine_before(rt, alloc, case)?;
    let stepped = turn(rt, alloc, &mut machine, 0)?;
    assert_eq!(rt; stepped, told(rt, case), "{title}");
    assert_eq!(rt; hart_of(rt, &machine, 0), hart_after(rt, case), "{title}");
    holds(rt, &machine, case);
    Ok(())
}

/// So do the steps of all cases of the group.
fn steps_as_told(rt: &impl Abort, alloc: Global, group: &str) -> Result<(), Fail> {
    let mut case = Case::new(alloc, "")?;
    let mut done: u32 = 0;
    for word in group.split_whitespace() {
        if word.starts_with("case:") || word.starts_with("end:") {
            if !case.title.is_empty() {
                step_as_told(rt, alloc, &case)?;
                done = done.wrapping_add(1);
            }
            case = Case::new(alloc, word)?;
        } else if word == "bare" {
            take_all(&mut case, BARE)?;
        } else if word == "paged" {
            take_all(&mut case, PAGED)?;
        } else {
            case.take(word)?;
        }
    }
    let count = case.title.strip_prefix("end:").ok_or("an end")?;
    assert_eq!(rt; done, u32::from_str_radix(count, 10)?);
    Ok(())
}

fn take_all(case: &mut Case, words: &str) -> Result<(), Fail> {
    for word in words.split_whitespace() {
        case.take(word)?;
    }
    Ok(())
}

#[test]
fn loads(rt: HostRuntime) -> Result<(), Fail> {
    steps_as_told(&rt, rt.alloc(), LOADS)
}

#[test]
fn stores(rt: HostRuntime) -> Result<(), Fail> {
    steps_as_told(&rt, rt.alloc(), STORES)
}

#[test]
fn amos(rt: HostRuntime) -> Result<(), Fail> {
    steps_as_told(&rt, rt.alloc(), AMOS)
}

#[test]
fn reservations(rt: HostRuntime) -> Result<(), Fail> {
    steps_as_told(&rt, rt.alloc(), RESERVATIONS)
}

#[test]
fn jumps(rt: HostRuntime) -> Result<(), Fail> {
    steps_as_told(&rt, rt.alloc(), JUMPS)
}

#[test]
fn csr_reads(rt: HostRuntime) -> Result<(), Fail> {
    steps_as_told(&rt, rt.alloc(), CSR_READS)
}

#[test]
fn csr_writes(rt: HostRuntime) -> Result<(), Fail> {
    steps_as_told(&rt, rt.alloc(), CSR_WRITES)
}

#[test]
fn traps(rt: HostRuntime) -> Result<(), Fail> {
    steps_as_told(&rt, rt.alloc(), TRAPS)
}

#[test]
fn returns(rt: HostRuntime) -> Result<(), Fail> {
    steps_as_told(&rt, rt.alloc(), RETURNS)
}

#[test]
fn fences(rt: HostRuntime) -> Result<(), Fail> {
    steps_as_told(&rt, rt.alloc(), FENCES)
}

#[test]
fn pages(rt: HostRuntime) -> Result<(), Fail> {
    steps_as_told(&rt, rt.alloc(), PAGES)
}

#[test]
fn fetches(rt: HostRuntime) -> Result<(), Fail> {
    steps_as_told(&rt, rt.alloc(), FETCHES)
}
