//! Words of their own: the traps that they take, what their handler does, and where the hart goes on.

use super::replays::REPLAY;
use super::{assert_ends, assert_holds, assert_made};
use rv_fields::{Mode, Trap};
use std::alloc::Global;
use std::test::*;
use store_face::MemStore;
use trace_fields::TrapText;
use trace_text::{Line, read_trace};

/// A job of one hart that steps the word 0.
const ZERO_JOB: &[u8] =
    br#"{"version":1,"harts":[{"mode":"M","code_pages":1,"template":[{"sys":"zero"}]}]}"#;

/// Its trace. The value that x31 starts with is the first word of stream 1 of seed 7, as another implementation of the
/// generator gives it.
const ZERO_TRACE: &[u8] = b"trace 1 1
q 0 0 sys
s 0 84000000 84000000 00000000 - - - 2:84000000:0:M
x 0 31 e0bc229a2c4fd98a
f 0 80020000 80020000 340f9ff3 31:0 - - -
f 0 80020004 80020004 34102ff3 31:84000000 - - -
f 0 80020008 80020008 004f8f93 31:84000004 - - -
f 0 8002000c 8002000c 341f9073 - - - -
f 0 80020010 80020010 340f9ff3 31:e0bc229a2c4fd98a - - -
f 0 80020014 80020014 30200073 - - - -
d 0 0
e 0 84000004 84000004 0000006f - - - -
";

/// A job whose first hart has each word of its own, and reads what the handler leaves: the address behind the last trap, in
/// mscratch too, with which it swaps x31. The other hart takes a
/// trap meanwhile.
const SYS_JOB: &[u8] = br#"{"version":1,"harts":[{"mode":"M","code_pages":1,"template":[
{"ins":"addi","rd":31,"rs1":0,"imm":7},
{"csr":"mscratch","op":"csrrw","rd":0,"rs1":31},
{"sys":"ecall"},
{"sys":"sfence"},
{"sys":"ebreak"},
{"csr":"mepc","op":"read","rd":1},
{"csr":"mscratch","op":"read","rd":2},
{"sys":"zero"},
{"ins":"addi","rd":3,"rs1":31,"imm":0}]},
{"mode":"M","code_pages":1,"template":[{"sys":"zero"}]}]}"#;

/// What the first hart's own words do: where they stand, their words as the GNU assembler spells them, what they write, and
/// the cause and the number that goes with it of their traps.
const OWN: [(u64, u32, Option<(u8, u64)>, Option<(u64, u64)>); 9] = [
    (0x8400_0000, 0x0070_0f93, Some((31, 7)), None),
    (0x8400_0004, 0x340f_9073, None, None),
    (0x8400_0008, 0x0000_0073, None, Some((11, 0))),
    (0x8400_000c, 0x1200_0073, None, None),
    (0x8400_0010, 0x0010_0073, None, Some((3, 0x8400_0010))),
    (0x8400_0014, 0x3410_20f3, Some((1, 0x8400_0014)), None),
    (0x8400_0018, 0x3400_2173, Some((2, 0x8400_0014)), None),
    (0x8400_001c, 0x0000_0000, None, Some((2, 0))),
    (0x8400_0020, 0x000f_8193, Some((3, 7)), None),
];

/// The trace of a store.
fn lines_of(alloc: Global, store: &MemStore) -> Result<Vec<Line>, Fail> {
    let (_, lines) = read_trace(alloc, store.files.get("r").ok_or("no trace")?)?;
    Ok(lines)
}

/// The trap of a word of the first hart.
fn trap_at(pc: u64, trap: Option<(u64, u64)>) -> Option<TrapText> {
    let (cause, tval) = trap?;
    Some(TrapText::of(Trap {
        cause,
        epc: pc,
        tval,
        to: Mode::M,
    }))
}

#[test]
fn the_word_0_runs_the_handler(rt: HostRuntime) -> Result<(), Fail> {
    let line = "harts 1 steps 8 done 1 refused 0\n";
    let mut store = assert_made(&rt, rt.alloc(), ZERO_JOB, "7", line)?;
    assert_holds(&rt, &store, "o", b"order 1 1\n0 78\n")?;
    assert_holds(&rt, &store, "r", ZERO_TRACE)?;
    assert_ends(&rt, rt.alloc(), &REPLAY, &mut store, 0, "agrees 8 steps\n")
}

#[test]
fn each_word_of_its_own_does_what_the_manual_says(rt: HostRuntime) -> Result<(), Fail> {
    let line = "harts 2 steps 36 done 10 refused 0\n";
    let mut store = assert_made(&rt, rt.alloc(), SYS_JOB, "7", line)?;
    assert_ends(&rt, rt.alloc(), &REPLAY, &mut store, 0, "agrees 36 steps\n")?;
    let mut own = OWN.iter();
    for line in &lines_of(rt.alloc(), &store)? {
        if let Line::S(step) = line
            && step.hart == 0
        {
            let (pc, word, rd, trap) = *own.next().ok_or("a word more")?;
            assert_eq!(rt; (step.pc, step.word, step.rd), (pc, word, rd));
            assert_eq!(rt; step.trap, trap_at(pc, trap));
        }
    }
    assert!(rt; own.next().is_none());
    Ok(())
}
