ghost use Rattle.std.specs.Prelude.{◌≡◌, length, IfOk};

use crate::{
    boot_block, boot_block_at, boot_csrs_at, boot_registers_at, boot_values, code_start,
    dispatcher, handler,
};
use region_plan::{HartPlan, Plan};
use rv_fields::Mode;
use std::test::*;
use value_file::ValueFile;

/// Two harts of mode M.
fn two_harts(rt: HostRuntime) -> Result<Plan, Fail>
    ensures { IfOk result (λ plan. length plan.harts.items ≡ 2) }
{
    let hart = HartPlan {
        mode: Mode::M,
        code_pages: 1,
    };
    Ok(Plan::new(vec![in rt.alloc(); hart, hart]?))
}

#[test]
fn the_dispatcher_of_one_hart(rt: HostRuntime) {
    let words = [
        0xf140_22f3,
        0x0010_0313,
        0x0062_fa63,
        0x00c2_9293,
        0x0000_1317,
        0x0053_0333,
        0xff03_0067,
        0x0000_006f,
    ];
    assert_eq!(rt; dispatcher(1), words);
}

#[test]
fn words_of_the_boot_block(rt: HostRuntime) {
    let words = boot_block();
    assert_eq!(rt; words.len(), 63);
    assert_eq!(rt; words[0], 0x0000_0f97);
    assert_eq!(rt; words[1], 0x400f_bf03);
    assert_eq!(rt; words[2], 0x300f_1073);
    assert_eq!(rt; words[31], 0x478f_b083);
    assert_eq!(rt; words[61], 0x568f_bf83);
    assert_eq!(rt; words[62], 0x3020_0073);
}

#[test]
fn the_handlers(rt: HostRuntime) {
    let m = [
        0x340f_9ff3,
        0x3410_2ff3,
        0x004f_8f93,
        0x341f_9073,
        0x340f_9ff3,
        0x3020_0073,
    ];
    let s = [
        0x140f_9ff3,
        0x1410_2ff3,
        0x004f_8f93,
        0x141f_9073,
        0x140f_9ff3,
        0x1020_0073,
    ];
    assert_eq!(rt; handler(Mode::M), m);
    assert_eq!(rt; handler(Mode::S), s);
}

#[test]
fn the_values_of_hart_0(rt: HostRuntime) -> Result<(), Fail> {
    let plan = two_harts(rt)?;
    let mut registers = ValueFile::new();
    assert!(rt; !registers.touched(1));
    registers.fix(1, 7);
    registers.write(1, 8);
    registers.write(2, 9);
    assert!(rt; !registers.touched(31));
    registers.fix(31, u64::MAX);
    let values = boot_values(&plan, 0, &registers);
    let csrs = [
        0x1800,
        0,
        0,
        0,
        0x8002_0000,
        0,
        0x8400_0000,
        0x3f_ffff_f000,
        0,
        0,
        0,
        0,
        0,
        0x3f_ffff_ffff_ffff,
        0x1f,
    ];
    assert_eq!(rt; values.csrs, csrs);
    let mut x = [0; 31];
    x[0] = 7;
    x[30] = u64::MAX;
    assert_eq!(rt; values.x, x);
    Ok(())
}

#[test]
fn hart_1_starts_in_its_own_window(rt: HostRuntime) -> Result<(), Fail> {
    let values = boot_values(&two_harts(rt)?, 1, &ValueFile::new());
    assert_eq!(rt; values.csrs[6], 0x8410_0000);
    assert_eq!(rt; code_start(1), 0x8410_0000);
    Ok(())
}

#[test]
fn the_places_of_hart_1(rt: HostRuntime) {
    assert_eq!(rt; boot_block_at(1), 0x8000_2000);
    assert_eq!(rt; boot_csrs_at(1), 0x8000_2400);
    assert_eq!(rt; boot_registers_at(1), 0x8000_2478);
}
