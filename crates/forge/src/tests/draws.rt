//! Operands that are drawn, and requests that no choice of registers serves. The words of stream 1 of seed 7 are as another
//! implementation of the generator gives them: e0bc229a2c4fd98a, 883be818776e53b8, 166c9b0f3fe07816, 480c85117a16869d and
//! 84c80416f0b9a470 are the first.

use super::replays::REPLAY;
use super::{TREES, WORDS, assert_ends, assert_holds, assert_made, holding};
use std::test::*;

/// A job of one hart that leaves all operands of a sum open.
const SUM_JOB: &[u8] =
    br#"{"version":1,"harts":[{"mode":"M","code_pages":1,"template":[{"ins":"add"}]}]}"#;

/// Its trace: x10, x24 and x22 are drawn by the first three words, and the values of x24 and x22 are the next two.
const SUM_TRACE: &[u8] = b"trace 1 1
q 0 0 ins
x 0 24 480c85117a16869d
x 0 22 84c80416f0b9a470
s 0 84000000 84000000 016c0533 10:ccd489286ad02b0d - - -
d 0 0
e 0 84000004 84000004 0000006f - - - -
";

/// A job of one hart with a sum that avoids all registers, and then with an instruction that avoids none.
const AVOIDING_JOB: &[u8] = br#"{"version":1,"harts":[{"mode":"M","code_pages":1,"template":[
{"ins":"add","avoid":[0,1,2,3,4,5,6,7,8,9,10,11,12,13,14,15,16,17,18,19,20,21,22,23,24,25,26,27,28,29,30,31]},
{"ins":"addi"}]}]}"#;

/// Its trace. The refused request draws nothing: the first three words are x10, x24 and 22 of the other one.
const AVOIDING_TRACE: &[u8] = b"trace 1 1
q 0 0 ins
r 0 0 no-register 0
q 0 1 ins
x 0 24 480c85117a16869d
s 0 84000000 84000000 016c0513 10:480c85117a1686b3 - - -
d 0 1
e 0 84000004 84000004 0000006f - - - -
";

/// A job of one hart whose one request gives a register to avoid.
const GIVEN_JOB: &[u8] =
    br#"{"version":1,"harts":[{"mode":"M","code_pages":1,"template":[{"csr":"mscratch","op":"csrrw","rd":0,"rs1":5,"avoid":[5]}]}]}"#;

const GIVEN_TRACE: &[u8] = b"trace 1 1
q 0 0 csr
r 0 0 no-register 0
e 0 84000000 84000000 0000006f - - - -
";

#[test]
fn operands_are_drawn_in_their_order(rt: HostRuntime) -> Result<(), Fail> {
    let line = "harts 1 steps 2 done 1 refused 0\n";
    let mut store = assert_made(&rt, rt.alloc(), SUM_JOB, "7", line)?;
    assert_holds(&rt, &store, "r", SUM_TRACE)?;
    assert_ends(&rt, rt.alloc(), &REPLAY, &mut store, 0, "agrees 2 steps\n")
}

#[test]
fn a_request_that_no_register_serves_is_refused(rt: HostRuntime) -> Result<(), Fail> {
    for (job, line, order, trace) in [
        (
            AVOIDING_JOB,
            "harts 1 steps 2 done 1 refused 1\n",
            &b"order 1 1\n0 72\n"[..],
            AVOIDING_TRACE,
        ),
        (
            GIVEN_JOB,
            "harts 1 steps 1 done 0 refused 1\n",
            &b"order 1 1\n0 71\n"[..],
            GIVEN_TRACE,
        ),
    ] {
        let mut store = holding(rt.alloc(), job, TREES)?;
        assert_ends(&rt, rt.alloc(), &WORDS, &mut store, 2, line)?;
        assert_holds(&rt, &store, "o", order)?;
        assert_holds(&rt, &store, "r", trace)?;
        assert!(rt; store.files.get("e").is_some(), "{line}");
    }
    Ok(())
}
