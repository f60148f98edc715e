//! Files that aren't in their forms, and the types of the answers.

use super::files::{ORDER, TRACE, ZEROS, first_example};
use crate::{LineField, ReplayFault, Verdict, replay};
use elf_file::ElfFault;
use std::alloc::Global;
use std::process::Abort;
use std::test::*;
use trace_fields::LineFault;

/// An order that is wrong in its second line.
const WRONG_ORDER: &str = "order 1 1\n0 01\n";

/// A trace of 17 harts.
const WRONG_TRACE: &str = "trace 1 17\n";

/// A trace that differs in its third line, and whose fifth has no field for a trap.
const WRONG_BEHIND: &str = "trace 1 1
q 0 0 ins
s 0 84000000 84000000 00500093 1:6 - - -
d 0 0
e 0 84000004 84000004 0000006f - - -
";

/// The fault of the field of the line.
fn at(line: u64, field: u32) -> LineFault {
    LineFault::At { line, field }
}

/// The files have this fault.
fn has_fault(
    rt: &impl Abort,
    alloc: Global,
    elf: &[u8],
    order: &str,
    trace: &str,
    fault: ReplayFault,
) {
    let answer = replay(alloc, elf, order.as_bytes(), trace.as_bytes(), &ZEROS);
    assert_eq!(rt; answer, Err(fault), "of {order}{trace}");
}

#[test]
fn the_fault_of_the_first_file(rt: HostRuntime) -> Result<(), Fail> {
    let alloc = rt.alloc();
    let elf = first_example(alloc)?;
    let mut cut = first_example(alloc)?;
    cut.truncate(63);
    let short = ReplayFault::Elf(ElfFault::Short { at: 63 });
    has_fault(&rt, alloc, &cut, ORDER, TRACE, short);
    has_fault(&rt, alloc, &cut, WRONG_ORDER, WRONG_TRACE, short);
    let fault = ReplayFault::Order(at(2, 2));
    has_fault(&rt, alloc, &elf, WRONG_ORDER, TRACE, fault);
    has_fault(&rt, alloc, &elf, WRONG_ORDER, WRONG_TRACE, fault);
    let fault = ReplayFault::Trace(at(1, 3));
    has_fault(&rt, alloc, &elf, ORDER, WRONG_TRACE, fault);
    Ok(())
}

#[test]
fn a_fault_behind_a_difference(rt: HostRuntime) -> Result<(), Fail> {
    let alloc = rt.alloc();
    let elf = first_example(alloc)?;
    let fault = ReplayFault::Trace(at(5, 9));
    has_fault(&rt, alloc, &elf, ORDER, WRONG_BEHIND, fault);
    has_fault(&rt, alloc, &elf, "order 1 1\n", WRONG_BEHIND, fault);
    has_fault(&rt, alloc, &elf, "order 1 2\n0 70\n", WRONG_BEHIND, fault);
    Ok(())
}

#[test]
fn the_parts_of_a_difference(rt: HostRuntime) -> Result<(), Fail> {
    let alloc = rt.alloc();
    let elf = first_example(alloc)?;
    let changed = "trace 1 1\nq 0 0 ins\ns 0 84000000 84000000 00500093 1:6 - - -\n";
    let verdict = replay(alloc, &elf, ORDER.as_bytes(), changed.as_bytes(), &ZEROS)?;
    let printed = format!(in alloc; "{verdict}")?;
    assert_eq!(rt; printed.as_str(), "line 3 field rd told 1:6 found 1:5");
    match verdict {
        Verdict::Agrees { .. } => assert!(rt; false),
        Verdict::Differs(difference) => {
            assert_eq!(rt; difference.line, 3);
            assert_eq!(rt; difference.field, LineField::Rd);
            assert_eq!(rt; difference.told.bytes(), b"1:6".as_slice());
            assert_eq!(rt; difference.found.bytes(), b"1:5".as_slice());
        }
    }
    Ok(())
}
