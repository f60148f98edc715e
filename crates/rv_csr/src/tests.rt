use super::*;
use std::test::*;

/// What boot writes for a hart in mode M, in its order.
const BOOT: [(Csr, u64); 15] = [
    (Csr::Mstatus, 0x1800),
    (Csr::Medeleg, 0),
    (Csr::Mideleg, 0),
    (Csr::Mie, 0),
    (Csr::Mtvec, 0x8002_0000),
    (Csr::Mscratch, 0),
    (Csr::Mepc, 0x8400_0000),
    (Csr::Stvec, 0x3f_ffff_f000),
    (Csr::Sscratch, 0),
    (Csr::Sepc, 0),
    (Csr::Scause, 0),
    (Csr::Stval, 0),
    (Csr::Satp, 0),
    (Csr::Pmpaddr0, 0x3f_ffff_ffff_ffff),
    (Csr::Pmpcfg0, 0x1f),
];

/// The registers after these writes in mode M, all of them 0 before.
fn after(writes: &[(Csr, u64)]) -> Result<CsrFile, Illegal> {
    let mut file = reset_of(0, &[0; 19]);
    for (csr, value) in writes {
        file.write(*csr, Mode::M, *value)?;
    }
    Ok(file)
}

/// The registers with this mstatus after the other writes of boot.
fn booted(status: u64, medeleg: u64) -> Result<CsrFile, Illegal> {
    let mut file = after(&BOOT)?;
    file.write(Csr::Mstatus, Mode::M, status)?;
    file.write(Csr::Medeleg, Mode::M, medeleg)?;
    Ok(file)
}

#[test]
fn reset_takes_any_values(rt: HostRuntime) -> Result<(), Fail> {
    let ones = reset_of(5, &[u64::MAX; 19]);
    assert_eq!(rt; ones.read(Csr::Mstatus, Mode::M)?, 0xa_007c_19a2);
    assert_eq!(rt; ones.read(Csr::Sstatus, Mode::M)?, 0x2_000c_0122);
    assert_eq!(rt; ones.read(Csr::Stvec, Mode::M)?, 0xffff_ffff_ffff_fffc);
    assert_eq!(rt; ones.read(Csr::Mcause, Mode::M)?, 0xffff_ffff_ffff_ffff);
    assert_eq!(rt; ones.read(Csr::Satp, Mode::M)?, 0);
    assert_eq!(rt; ones.read(Csr::Medeleg, Mode::M)?, 0xb3ff);
    assert_eq!(rt; ones.read(Csr::Mie, Mode::M)?, 0);
    assert_eq!(rt; ones.read(Csr::Mhartid, Mode::M)?, 5);
    assert_ne!(rt; ones, reset_of(5, &[0; 19]));
    Ok(())
}

#[test]
fn boot_sets_mstatus(rt: HostRuntime) -> Result<(), Fail> {
    let mut file = reset_of(0, &[u64::MAX; 19]);
    for (csr, value) in BOOT.iter() {
        file.write(*csr, Mode::M, *value)?;
        assert_eq!(rt; file.read(Csr::Mstatus, Mode::M)?, 0xa_0000_1800);
    }
    assert_eq!(rt; file.read(Csr::Pmpaddr0, Mode::M)?, 0);
    assert_eq!(rt; file.read(Csr::Pmpcfg0, Mode::M)?, 0);
    assert_eq!(rt; file.mret(), (Mode::M, 0x8400_0000));
    assert_eq!(rt; file.read(Csr::Mstatus, Mode::M)?, 0xa_0000_0080);
    assert_eq!(rt; file.read(Csr::Sstatus, Mode::M)?, 0x2_0000_0000);
    Ok(())
}

#[test]
fn mret_goes_to_the_mode_before(rt: HostRuntime) -> Result<(), Fail> {
    // MPP, SUM and TVM as boot writes them for a hart in mode S
    let mut file = booted(0x14_0800, 0)?;
    assert_eq!(rt; file.mret(), (Mode::S, 0x8400_0000));
    assert_eq!(rt; file.read(Csr::Mstatus, Mode::M)?, 0xa_0014_0080);
    assert_eq!(rt; file.read(Csr::Sstatus, Mode::S)?, 0x2_0004_0000);
    let mut file = booted(0, 0)?;
    assert_eq!(rt; file.mret(), (Mode::U, 0x8400_0000));
    assert_eq!(rt; file.read(Csr::Mstatus, Mode::M)?, 0xa_0000_0080);
    // MPRV and MPIE set
    let mut file = booted(0x2_1880, 0)?;
    assert_eq!(rt; file.mret(), (Mode::M, 0x8400_0000));
    assert_eq!(rt; file.read(Csr::Mstatus, Mode::M)?, 0xa_0002_0088);
    let mut file = booted(0x2_0880, 0)?;
    assert_eq!(rt; file.mret(), (Mode::S, 0x8400_0000));
    assert_eq!(rt; file.read(Csr::Mstatus, Mode::M)?, 0xa_0000_0088);
    Ok(())
}

#[test]
fn sret_goes_to_the_mode_before(rt: HostRuntime) -> Result<(), Fail> {
    // MPRV, SPIE and SPP set
    let mut file = booted(0x2_0120, 0)?;
    file.write(Csr::Sepc, Mode::S, 0x1_0007)?;
    assert_eq!(rt; file.sret(), (Mode::S, 0x1_0004));
    assert_eq!(rt; file.read(Csr::Mstatus, Mode::M)?, 0xa_0000_0022);
    assert_eq!(rt; file.sret(), (Mode::U, 0x1_0004));
    assert_eq!(rt; file.read(Csr::Mstatus, Mode::M)?, 0xa_0000_0022);
    Ok(())
}

#[test]
fn traps_go_to_s_where_they_are_delegated(rt: HostRuntime) -> Result<(), Fail> {
    // an environment call from mode U, with SIE set
    let mut file = booted(0x2, 0x100)?;
    assert_eq!(rt;
        file.enter_trap(Mode::U, 8, 0x10_0000, 0),
        (Mode::S, 0x3f_ffff_f000)
    );
    assert_eq!(rt; file.read(Csr::Sepc, Mode::S)?, 0x10_0000);
    assert_eq!(rt; file.read(Csr::Scause, Mode::S)?, 8);
    assert_eq!(rt; file.read(Csr::Stval, Mode::S)?, 0);
    assert_eq!(rt; file.read(Csr::Mstatus, Mode::M)?, 0xa_0000_0020);
    assert_eq!(rt; file.read(Csr::Mcause, Mode::M)?, 0);
    // from mode S
    let mut file = booted(0, 0xb3ff)?;
    assert_eq!(rt;
        file.enter_trap(Mode::S, 13, 0x10_0004, 0x1000),
        (Mode::S, 0x3f_ffff_f000)
    );
    assert_eq!(rt; file.read(Csr::Stval, Mode::S)?, 0x1000);
    assert_eq!(rt; file.read(Csr::Mstatus, Mode::M)?, 0xa_0000_0100);
    Ok(())
}

#[test]
fn traps_go_to_m_else(rt: HostRuntime) -> Result<(), Fail> {
    // an illegal instruction in mode U, with MPIE set as boot leaves it
    let mut file = booted(0x80, 0x100)?;
    assert_eq!(rt;
        file.enter_trap(Mode::U, 2, 0x10_0000, 0x1234_5678),
        (Mode::M, 0x8002_0000)
    );
    assert_eq!(rt; file.read(Csr::Mepc, Mode::M)?, 0x10_0000);
    assert_eq!(rt; file.read(Csr::Mcause, Mode::M)?, 2);
    assert_eq!(rt; file.read(Csr::Mtval, Mode::M)?, 0x1234_5678);
    assert_eq!(rt; file.read(Csr::Mstatus, Mode::M)?, 0xa_0000_0000);
    // in mode M, with MIE set, whatever is delegated
    let mut file = booted(0x8, 0xb3ff)?;
    assert_eq!(rt;
        file.enter_trap(Mode::M, 2, 0x8400_0000, 0),
        (Mode::M, 0x8002_0000)
    );
    assert_eq!(rt; file.read(Csr::Mstatus, Mode::M)?, 0xa_0000_1880);
    // a cause past the bits of medeleg
    let mut file = booted(0, 0xb3ff)?;
    assert_eq!(rt; file.enter_trap(Mode::U, 64, 0, 0), (Mode::M, 0x8002_0000));
    Ok(())
}

#[test]
fn writes_keep_to_their_bits(rt: HostRuntime) -> Result<(), Fail> {
    let mut file = after(&[(Csr::Medeleg, u64::MAX), (Csr::Pmpaddr0, u64::MAX)])?;
    assert_eq!(rt; file.read(Csr::Medeleg, Mode::M)?, 0xb3ff);
    assert_eq!(rt; file.read(Csr::Pmpaddr0, Mode::M)?, 0);
    // 2 is no mode: MPP stays
    file.write(Csr::Mstatus, Mode::M, 0x1800)?;
    file.write(Csr::Mstatus, Mode::M, 0x1080)?;
    assert_eq!(rt; file.read(Csr::Mstatus, Mode::M)?, 0xa_0000_1880);
    // sstatus doesn't reach MPP and MPIE
    file.write(Csr::Sstatus, Mode::S, 0x102)?;
    assert_eq!(rt; file.read(Csr::Mstatus, Mode::M)?, 0xa_0000_1982);
    assert_eq!(rt; file.read(Csr::Sstatus, Mode::S)?, 0x2_0000_0102);
    Ok(())
}

#[test]
fn satp_takes_two_kinds_of_translation(rt: HostRuntime) -> Result<(), Fail> {
    let mut file = after(&[(Csr::Satp, 0x8000_0000_0008_0030)])?;
    assert_eq!(rt; file.read(Csr::Satp, Mode::S)?, 0x8000_0000_0008_0030);
    file.write(Csr::Satp, Mode::S, 0x1000_0000_0000_0001)?;
    assert_eq!(rt; file.read(Csr::Satp, Mode::S)?, 0x8000_0000_0008_0030);
    file.write(Csr::Satp, Mode::S, 0x0000_0000_0000_0001)?;
    assert_eq!(rt; file.read(Csr::Satp, Mode::S)?, 1);
    Ok(())
}

#[test]
fn registers_are_kept_from_modes(rt: HostRuntime) -> Result<(), Fail> {
    let mut file = after(&[(Csr::Mstatus, 0x10_0000), (Csr::Sscratch, 7)])?;
    assert_eq!(rt; file.read(Csr::Sscratch, Mode::U), Err(Illegal));
    assert_eq!(rt; file.read(Csr::Sscratch, Mode::S), Ok(7));
    assert_eq!(rt; file.read(Csr::Mscratch, Mode::S), Err(Illegal));
    assert_eq!(rt; file.write(Csr::Sscratch, Mode::U, 8), Err(Illegal));
    assert_eq!(rt; file.read(Csr::Sscratch, Mode::M), Ok(7));
    // TVM is set
    assert_eq!(rt; file.read(Csr::Satp, Mode::S), Err(Illegal));
    assert_eq!(rt; file.write(Csr::Satp, Mode::S, 0), Err(Illegal));
    assert_eq!(rt; file.write(Csr::Satp, Mode::M, 3), Ok(()));
    assert_eq!(rt; file.read(Csr::Satp, Mode::M), Ok(3));
    // its number makes it read-only
    assert_eq!(rt; file.write(Csr::Mhartid, Mode::M, 1), Err(Illegal));
    assert_eq!(rt; file.read(Csr::Mhartid, Mode::M), Ok(0));
    Ok(())
}
