use super::*;
use std::test::*;

/// `addi x1, x0, 5`
const ADDI: u32 = 0x0050_0093;

/// `sd x29, -1366(x30)`
const SD: u32 = 0xabdf_3523;

/// `bgeu x10, x21, . + 2730`
const BGEU: u32 = 0x2b55_75e3;

/// `lui x31, 0xaaaaa`
const LUI: u32 = 0xaaaa_afb7;

/// `jal x10, . - 699052`
const JAL: u32 = 0xd545_556f;

#[test]
fn immediates_are_read(rt: HostRuntime) {
    assert_eq!(rt; imm_i(ADDI), 5);
    assert_eq!(rt; imm_i(0x7ff0_0093), 2047);
    assert_eq!(rt; imm_i(0x8000_0093), -2048);
    assert_eq!(rt; imm_s(SD), -1366);
    assert_eq!(rt; imm_b(BGEU), 2730);
    assert_eq!(rt; imm_u(LUI), -1_431_658_496);
    assert_eq!(rt; imm_j(JAL), -699_052);
    assert_eq!(rt; imm_j(0xffdf_f06f), -4);
}

#[test]
fn immediates_are_put(rt: HostRuntime) {
    assert_eq!(rt; put_imm_i(0x93, 5), ADDI);
    assert_eq!(rt; put_imm_i(ADDI, -2048), 0x8000_0093);
    assert_eq!(rt; put_imm_s(0x01df_3023, -1366), SD);
    assert_eq!(rt; put_imm_s(SD, 0), 0x01df_3023);
    assert_eq!(rt; put_imm_b(0x0155_7063, 2730), BGEU);
    assert_eq!(rt; put_imm_b(BGEU, 0), 0x0155_7063);
    assert_eq!(rt; put_imm_u(0x0fb7, -1_431_658_496), LUI);
    assert_eq!(rt; put_imm_u(LUI, 4096), 0x0000_1fb7);
    assert_eq!(rt; put_imm_j(0x056f, -699_052), JAL);
    assert_eq!(rt; put_imm_j(JAL, 0), 0x0000_056f);
}

#[test]
fn immediates_fit(rt: HostRuntime) {
    assert!(rt; fits_i(2047) && fits_i(-2048));
    assert!(rt; !fits_i(2048) && !fits_i(-2049));
    assert!(rt; fits_b(4094) && fits_b(-4096));
    assert!(rt; !fits_b(4096) && !fits_b(-4098) && !fits_b(1));
    assert!(rt; fits_u(0x7fff_f000) && fits_u(-0x8000_0000));
    assert!(rt; !fits_u(0x8000_0000) && !fits_u(-0x8000_1000) && !fits_u(0x0800));
    assert!(rt; fits_j(1_048_574) && fits_j(-1_048_576));
    assert!(rt; !fits_j(1_048_576) && !fits_j(-1_048_578) && !fits_j(4093));
}

#[test]
fn registers_are_read(rt: HostRuntime) {
    assert_eq!(rt; bits_of(ADDI, 7, 5), 1);
    assert_eq!(rt; bits_of(ADDI, 15, 5), 0);
}

/// Whether the bytes are a name, which holds them.
fn names(bytes: &[u8]) -> bool {
    name_of(bytes).is_some_and(|name| name.bytes() == bytes)
}

#[test]
fn names_are_told_from_other_bytes(rt: HostRuntime) {
    assert!(rt; names(b"a"));
    assert!(rt; names(b"sfence.vma"));
    assert!(rt; names(b"abcdefghijklmnopqrstuvwx"));
    assert!(rt; names(b"yz_.0123456789"));
    assert!(rt; !names(b""));
    assert!(rt; !names(b"abcdefghijklmnopqrstuvwxy"));
    assert!(rt; !names(b"Add"));
    assert!(rt; !names(b"a-b"));
    assert!(rt; !names("\u{e9}".as_bytes()));
}

#[test]
fn equal_names_have_equal_bytes(rt: HostRuntime) {
    assert!(rt; name_of(b"ab") == name_of(b"ab"));
    assert!(rt; name_of(b"ab") != name_of(b"abc"));
    assert!(rt; name_of(b"ab") != name_of(b"ba"));
}

#[test]
fn names_are_shown(rt: HostRuntime) -> Result<(), Fail> {
    let name = name_of(b"sfence.vma").unwrap();
    assert_eq!(rt; name.as_str(), "sfence.vma");
    let text = format!(in rt.alloc(); "<{name}>")?;
    assert_eq!(rt; text.as_str(), "<sfence.vma>");
    Ok(())
}

#[test]
fn out_of_memory_is_told(rt: HostRuntime) -> Result<(), Fail> {
    let text = format!(in rt.alloc(); "{NoMemory}")?;
    assert_eq!(rt; text.as_str(), "out of memory");
    Ok(())
}
