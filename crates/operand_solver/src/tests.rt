ghost use Rattle.std.specs.Prelude.{IsTrue};
ghost use Rattle.region_plan.specs.Pinned.{fits_word, pinned_ops};
ghost use Rattle.region_plan.specs.Views.{pins_seen};

use super::*;
use choice_tree::DrawWords;
use region_plan::{Pins, RegisterSet};
use rv_fields::{Ins, Ops};
use std::process::Abort;
use std::test::*;

/// The operands of a word without order bits.
fn ops(rd: u8, rs1: u8, rs2: u8, imm: i64) -> Ops {
    Ops {
        rd,
        rs1,
        rs2,
        imm,
        aqrl: 0,
    }
}

/// All registers but one.
fn all_but(kept: u8) -> RegisterSet {
    let mut set = RegisterSet::empty();
    for register in 0..32u8 {
        if register != kept {
            set = set.with(register);
        }
    }
    set
}

/// Asserts what is drawn from the first words of stream 1 of seed 7, and how many of them. Another implementation of the
/// generator gives these words: e0bc229a2c4fd98a, 883be818776e53b8, 166c9b0f3fe07816.
fn assert_drawn(
    rt: &impl Abort,
    ins: Ins,
    pins: Pins,
    expected: Result<Ops, NoRegister>,
    drawn: u64,
)
    requires { IsTrue (fits_word ins (pinned_ops (pins_seen pins))) }
{
    let mut words = DrawWords::new(7, 1);
    assert_eq!(rt; operands(ins, &pins, &mut words), expected);
    assert_eq!(rt; words.drawn(), drawn);
}

#[test]
fn draws_what_is_not_given(rt: HostRuntime) {
    let none = Pins::none();
    assert_drawn(&rt, Ins::Add, none, Ok(ops(10, 24, 22, 0)), 3);
    assert_drawn(&rt, Ins::Lui, none, Ok(ops(10, 0, 0, -449_085_440)), 2);
    assert_drawn(&rt, Ins::Slliw, none, Ok(ops(10, 24, 0, 22)), 3);
    assert_drawn(&rt, Ins::Fence, none, Ok(ops(0, 0, 0, 138)), 1);
}

#[test]
fn keeps_what_is_given(rt: HostRuntime) {
    let rd = Pins {
        rd: Some(5),
        ..Pins::none()
    };
    assert_drawn(&rt, Ins::Addi, rd, Ok(ops(5, 10, 0, -1096)), 2);
    let rs1 = Pins {
        rs1: Some(0),
        ..Pins::none()
    };
    assert_drawn(&rt, Ins::Slli, rs1, Ok(ops(10, 0, 0, 56)), 2);
    let imm = Pins {
        imm: Some(-2048),
        ..Pins::none()
    };
    assert_drawn(&rt, Ins::Addi, imm, Ok(ops(10, 24, 0, -2048)), 2);
    let read = Pins {
        imm: Some(0x340),
        zero_rs1: true,
        ..Pins::none()
    };
    assert_drawn(&rt, Ins::Csrrs, read, Ok(ops(10, 0, 0, 0x340)), 1);
}

#[test]
fn draws_none_to_avoid(rt: HostRuntime) {
    let no_x0 = Pins {
        avoid: RegisterSet::empty().with(0),
        ..Pins::none()
    };
    assert_drawn(&rt, Ins::Add, no_x0, Ok(ops(7, 15, 28, 0)), 3);
    // One that is left takes its word all the same.
    let only_x5 = Pins {
        avoid: all_but(5),
        ..Pins::none()
    };
    assert_drawn(&rt, Ins::Add, only_x5, Ok(ops(5, 5, 5, 0)), 3);
}

#[test]
fn draws_nothing_where_no_register_serves(rt: HostRuntime) {
    let none_left = all_but(0).with(0);
    let given = Pins {
        rs2: Some(5),
        avoid: RegisterSet::empty().with(5),
        ..Pins::none()
    };
    assert_drawn(&rt, Ins::Add, given, Err(NoRegister), 0);
    let avoids = Pins {
        avoid: none_left,
        ..Pins::none()
    };
    assert_drawn(&rt, Ins::Addi, avoids, Err(NoRegister), 0);
    assert_drawn(&rt, Ins::Fence, avoids, Ok(ops(0, 0, 0, 138)), 1);
}
