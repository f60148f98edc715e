use super::*;
use crate::vectors::Vector;
use rv_fields::{Ins, Ops};
use rv_table::{by_name, decode};
use std::test::*;

const NONE: Ops = Ops {
    rd: 0,
    rs1: 0,
    rs2: 0,
    imm: 0,
    aqrl: 0,
};

fn misfit(field: Field, value: i64) -> Result<u32, OutOfField> {
    Err(OutOfField { field, value })
}

#[test]
fn words_are_spelled(rt: HostRuntime) {
    let five = Ops {
        rd: 1,
        imm: 5,
        ..NONE
    };
    assert_eq!(rt; encode(Ins::Addi, &five), Ok(0x0050_0093));
    let greatest = Ops { imm: 2047, ..five };
    assert_eq!(rt; encode(Ins::Addi, &greatest), Ok(0x7ff0_0093));
    let least = Ops { imm: -2048, ..five };
    assert_eq!(rt; encode(Ins::Addi, &least), Ok(0x8000_0093));
    assert_eq!(rt; encode(Ins::Jal, &NONE), Ok(0x0000_006f));
    let far = Ops { imm: 4092, ..NONE };
    assert_eq!(rt; encode(Ins::Jal, &far), Ok(0x7fd0_006f));
}

#[test]
fn immediates_that_do_not_fit_are_refused(rt: HostRuntime) {
    let large = Ops {
        rd: 1,
        imm: 2048,
        ..NONE
    };
    assert_eq!(rt; encode(Ins::Addi, &large), misfit(Field::Imm, 2048));
    let odd = Ops { imm: 3, ..NONE };
    assert_eq!(rt; encode(Ins::Jal, &odd), misfit(Field::Imm, 3));
    assert_eq!(rt; encode(Ins::Beq, &odd), misfit(Field::Imm, 3));
    assert_eq!(rt; encode(Ins::Lui, &odd), misfit(Field::Imm, 3));
    assert_eq!(rt; encode(Ins::Add, &odd), misfit(Field::Imm, 3));
    let below = Ops { imm: -1, ..NONE };
    assert_eq!(rt; encode(Ins::Slli, &below), misfit(Field::Imm, -1));
    let shift = Ops { imm: 63, ..NONE };
    assert_eq!(rt; encode(Ins::Slliw, &shift), misfit(Field::Imm, 63));
    let csr = Ops { imm: 4096, ..NONE };
    assert_eq!(rt; encode(Ins::Csrrw, &csr), misfit(Field::Imm, 4096));
    assert_eq!(rt; encode(Ins::Csrrsi, &csr), misfit(Field::Imm, 4096));
}

#[test]
fn the_first_misfit_is_told(rt: HostRuntime) {
    let all = Ops {
        rd: 32,
        rs1: 33,
        rs2: 34,
        imm: 4096,
        aqrl: 4,
    };
    assert_eq!(rt; encode(Ins::AmoaddW, &all), misfit(Field::Rd, 32));
    assert_eq!(rt; encode(Ins::Beq, &all), misfit(Field::Rd, 32));
    let from_rs1 = Ops { rd: 0, ..all };
    assert_eq!(rt; encode(Ins::Jal, &from_rs1), misfit(Field::Rs1, 33));
    let from_rs2 = Ops { rs1: 0, ..from_rs1 };
    assert_eq!(rt; encode(Ins::Add, &from_rs2), misfit(Field::Rs2, 34));
    let from_imm = Ops { rs2: 0, ..from_rs2 };
    assert_eq!(rt; encode(Ins::ScD, &from_imm), misfit(Field::Imm, 4096));
    let from_aqrl = Ops { imm: 0, ..from_imm };
    assert_eq!(rt; encode(Ins::LrW, &from_aqrl), misfit(Field::AqRl, 4));
    assert_eq!(rt; encode(Ins::Ecall, &from_aqrl), misfit(Field::AqRl, 4));
}

/// Whether the assembler's word is what the operands encode to, and decodes to them.
fn agrees(vector: &Vector) -> bool {
    let Vector(name, [rd, rs1, rs2], imm, aqrl, word) = *vector;
    let ops = Ops {
        rd,
        rs1,
        rs2,
        imm,
        aqrl,
    };
    by_name(name).is_some_and(|ins| encode(ins, &ops) == Ok(word)
        && decode(word) == Some((ins, ops)))
}

fn all_agree(vectors: &[Vector]) -> bool {
    vectors.iter().all(agrees)
}

#[test]
fn upper_immediates_and_jumps_are_as_assembled(rt: HostRuntime) {
    assert!(rt; all_agree(&vectors::U));
    assert!(rt; all_agree(&vectors::J));
}

#[test]
fn immediates_are_as_assembled(rt: HostRuntime) {
    assert!(rt; all_agree(&vectors::I));
}

#[test]
fn branches_and_stores_are_as_assembled(rt: HostRuntime) {
    assert!(rt; all_agree(&vectors::B));
    assert!(rt; all_agree(&vectors::S));
}

#[test]
fn shifts_are_as_assembled(rt: HostRuntime) {
    assert!(rt; all_agree(&vectors::H6));
    assert!(rt; all_agree(&vectors::H5));
}

#[test]
fn registers_are_as_assembled(rt: HostRuntime) {
    assert!(rt; all_agree(&vectors::R));
}

#[test]
fn atomics_are_as_assembled(rt: HostRuntime) {
    assert!(rt; all_agree(&vectors::A));
    assert!(rt; all_agree(&vectors::L));
}

#[test]
fn system_instructions_are_as_assembled(rt: HostRuntime) {
    assert!(rt; all_agree(&vectors::C));
    assert!(rt; all_agree(&vectors::K));
    assert!(rt; all_agree(&vectors::V));
    assert!(rt; all_agree(&vectors::N));
}
