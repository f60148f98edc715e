use super::*;
use crate::vectors::{
    IMMEDIATE_PAIRS, IMMEDIATE_RESULTS, PAIRS, RESULTS, SHIFT_PAIRS, SHIFT_RESULTS, TAKEN,
    UPPER_RESULTS, WORD_SHIFT_PAIRS, WORD_SHIFT_RESULTS, WRITTEN,
};
use rv_fields::Ins;
use std::process::Abort;
use std::test::*;

/// The row gives these results for the pairs.
fn gives(rt: &impl Abort, ins: Ins, pairs: &[(u64, u64)], results: &[u64]) {
    assert!(rt; is_alu(ins));
    assert_eq!(rt; pairs.len(), results.len());
    for ((a, b), wanted) in pairs.iter().zip(results) {
        assert_eq!(rt; alu(ins, *a, *b), *wanted);
    }
}

#[test]
fn rows_with_registers_compute(rt: HostRuntime) {
    for (ins, results) in &RESULTS {
        gives(&rt, *ins, &PAIRS, results);
    }
}

#[test]
fn rows_with_immediates_compute(rt: HostRuntime) {
    for (ins, results) in &IMMEDIATE_RESULTS {
        gives(&rt, *ins, &IMMEDIATE_PAIRS, results);
    }
}

#[test]
fn shifts_by_immediates_compute(rt: HostRuntime) {
    for (ins, results) in &SHIFT_RESULTS {
        gives(&rt, *ins, &SHIFT_PAIRS, results);
    }
    for (ins, results) in &WORD_SHIFT_RESULTS {
        gives(&rt, *ins, &WORD_SHIFT_PAIRS, results);
    }
}

#[test]
fn upper_immediates_compute(rt: HostRuntime) {
    for (ins, pc, immediate, wanted) in &UPPER_RESULTS {
        gives(&rt, *ins, &[(*pc, *immediate)], &[*wanted]);
    }
}

#[test]
fn amos_write(rt: HostRuntime) {
    for (ins, results) in &WRITTEN {
        assert!(rt; is_amo(*ins));
        for ((old, operand), wanted) in PAIRS.iter().zip(results) {
            assert_eq!(rt; amo(*ins, *old, *operand), *wanted);
        }
    }
}

#[test]
fn branches_are_taken(rt: HostRuntime) {
    for (ins, results) in &TAKEN {
        assert!(rt; is_branch(*ins));
        for ((a, b), wanted) in PAIRS.iter().zip(results) {
            assert_eq!(rt; taken(*ins, *a, *b), *wanted);
        }
    }
}

#[test]
fn other_rows_are_none_of_these(rt: HostRuntime) {
    for ins in [
        Ins::Jal,
        Ins::Jalr,
        Ins::Ld,
        Ins::Sd,
        Ins::Fence,
        Ins::LrW,
        Ins::ScD,
        Ins::Csrrw,
    ] {
        assert!(rt; !is_alu(ins));
        assert!(rt; !is_amo(ins));
        assert!(rt; !is_branch(ins));
    }
}
