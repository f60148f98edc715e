use super::*;
use rv_fields::{Ins, Mode};
use std::test::*;

/// A hart in mode M with so many pages of code.
fn hart(code_pages: u32) -> HartPlan {
    HartPlan {
        mode: Mode::M,
        code_pages,
    }
}

/// `addi x1,x0,-5`.
fn item() -> Item {
    Item::One(Request::Ins {
        ins: InsChoice::Named(Ins::Addi),
        pins: Pins {
            rd: Some(1),
            rs1: Some(0),
            imm: Some(-5),
            ..Pins::none()
        },
    })
}

#[test]
fn keeps_templates_in_order(rt: HostRuntime) -> Result<(), Fail> {
    let plan = Plan::new(vec![in rt.alloc(); hart(1), hart(2)]?);
    let first = vec![in rt.alloc(); item()]?;
    let second = vec![in rt.alloc()]?;
    let job = Job::new(plan, vec![in rt.alloc(); first, second]?);
    assert_eq!(rt; job.hart_count(), 2);
    assert_eq!(rt; job.template(0), [item()].as_slice());
    assert!(rt; job.template(1).is_empty());
    assert_eq!(rt; *job.plan().hart(1), hart(2));
    Ok(())
}

#[test]
fn a_set_has_the_registers_that_were_put_in(rt: HostRuntime) -> Result<(), Fail> {
    let set = RegisterSet::empty().with(31).with(0).with(7).with(31);
    for (register, is_in) in [
        (0, true),
        (1, false),
        (7, true),
        (8, false),
        (30, false),
        (31, true),
    ] {
        assert_eq!(rt; set.contains(register), is_in, "x{register}");
    }
    Ok(())
}
