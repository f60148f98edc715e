use super::*;
use crate::request::{Cause, Kind};
use rv_fields::{AccessKind, Accessed, Mode, Trap};
use std::test::*;

#[test]
fn each_kind(rt: HostRuntime) {
    for (kind, name) in [
        (Kind::Ins, "ins"),
        (Kind::Mem, "mem"),
        (Kind::Jump, "jump"),
        (Kind::Csr, "csr"),
        (Kind::Sys, "sys"),
        (Kind::Value, "value"),
        (Kind::Loop, "loop"),
        (Kind::Pick, "pick"),
        (Kind::Set, "set"),
    ] {
        assert_eq!(rt; kind.name(), name);
    }
}

#[test]
fn each_cause(rt: HostRuntime) {
    for (cause, name) in [
        (Cause::EmptyChoice, "empty-choice"),
        (Cause::BudgetSpent, "budget-spent"),
        (Cause::NoRegister, "no-register"),
        (Cause::NoAddress, "no-address"),
        (Cause::NoTarget, "no-target"),
        (Cause::WindowFull, "window-full"),
        (Cause::NoFreePage, "no-free-page"),
        (Cause::NoPlace, "no-place"),
    ] {
        assert_eq!(rt; cause.name(), name);
    }
}

#[test]
fn a_kind_and_a_cause_as_shown(rt: HostRuntime) -> Result<(), Fail> {
    let shown = format!(in rt.alloc(); "{} {}", Kind::Loop, Cause::NoFreePage)?;
    assert_eq!(rt; shown.as_str(), "loop no-free-page");
    Ok(())
}

#[test]
fn an_access_of_each_kind(rt: HostRuntime) -> Result<(), Fail> {
    for (kind, text) in [
        (AccessKind::Load, "l:1000:80001000:8:ff:-"),
        (AccessKind::Store, "s:1000:80001000:8:ff:-"),
        (AccessKind::Lr, "r:1000:80001000:8:ff:-"),
        (AccessKind::Sc, "c:1000:80001000:8:ff:-"),
        (AccessKind::Amo, "a:1000:80001000:8:ff:-"),
    ] {
        let access = AccessText::of(Accessed {
            kind,
            va: 0x1000,
            pa: 0x8000_1000,
            size: 8,
            read: Some(0xff),
            wrote: None,
        });
        let shown = format!(in rt.alloc(); "{access}")?;
        assert_eq!(rt; shown.as_str(), text);
    }
    Ok(())
}

#[test]
fn a_trap_to_each_mode(rt: HostRuntime) -> Result<(), Fail> {
    let trap = Trap {
        cause: 13,
        epc: 0x8400_0010,
        tval: 0xdead,
        to: Mode::S,
    };
    let to_machine = Trap {
        to: Mode::M,
        ..trap
    };
    let (s, m) = (TrapText::of(trap), TrapText::of(to_machine));
    let shown = format!(in rt.alloc(); "{s} {m}")?;
    assert_eq!(rt; shown.as_str(), "13:84000010:dead:S 13:84000010:dead:M");
    Ok(())
}
