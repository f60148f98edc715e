use super::*;
use std::test::*;

#[test]
fn registers_have_numbers(rt: HostRuntime) {
    assert_eq!(rt; csr_number(Csr::Sstatus), 0x100);
    assert_eq!(rt; csr_number(Csr::Medeleg), 0x302);
    assert_eq!(rt; csr_number(Csr::Mhartid), 0xf14);
    assert_eq!(rt; csr_of(0x180), Some(Csr::Satp));
    assert_eq!(rt; csr_of(0x3b0), Some(Csr::Pmpaddr0));
    assert_eq!(rt; csr_of(0x301), None);
    assert_eq!(rt; csr_of(0x1300), None);
}

#[test]
fn registers_have_names(rt: HostRuntime) {
    assert_eq!(rt; csr_named("mscratch"), Some(Csr::Mscratch));
    assert_eq!(rt; csr_named("pmpcfg0"), Some(Csr::Pmpcfg0));
    assert_eq!(rt; csr_named("MSCRATCH"), None);
    assert_eq!(rt; csr_named("mscratc"), None);
    assert_eq!(rt; csr_named(""), None);
}

#[test]
fn rows_have_masks(rt: HostRuntime) {
    let mstatus = csr_row(Csr::Mstatus);
    assert_eq!(rt; mstatus.name, "mstatus");
    assert_eq!(rt; mstatus.writable, 0x7e_19aa);
    assert_eq!(rt; mstatus.constant, 0xa_0000_0000);
    assert_eq!(rt; csr_row(Csr::Mepc).writable, 0xffff_ffff_ffff_fffc);
    assert_eq!(rt; csr_row(Csr::Mie).writable, 0);
    assert_eq!(rt; CSRS.len(), 19);
}
