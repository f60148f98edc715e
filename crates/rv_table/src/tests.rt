use super::*;
use std::test::*;

const NONE: Ops = Ops {
    rd: 0,
    rs1: 0,
    rs2: 0,
    imm: 0,
    aqrl: 0,
};

/// Words that are of no row.
const STRANGE: [u32; 20] = [
    0x0000_0000,
    0xffff_ffff,
    // compressed: c.li a0,0 and c.ret
    0x0000_4501,
    0x0000_8082,
    // flw, fadd.s, fmadd.s
    0x0000_2007,
    0x0000_0053,
    0x0000_0043,
    // an add, a slli, a slliw and a mulw with another funct7 or funct3
    0x2000_0033,
    0x0400_1013,
    0x0200_101b,
    0x0200_103b,
    // a jalr and a branch with another funct3, fence.i
    0x0000_1067,
    0x0000_2063,
    0x0000_100f,
    // lr.w with rs2, an amoadd of a byte
    0x1010_202f,
    0x0000_002f,
    // ecall with rd, wfi, and sfence.vma with rd
    0x0000_00f3,
    0x1050_0073,
    0x1200_00f3,
    // a CSR instruction with funct3 4
    0x0000_4073,
];

#[test]
fn words_decode(rt: HostRuntime) {
    let five = Ops {
        rd: 1,
        imm: 5,
        ..NONE
    };
    assert_eq!(rt; decode(0x0050_0093), Some((Ins::Addi, five)));
    let least = Ops { imm: -2048, ..five };
    assert_eq!(rt; decode(0x8000_0093), Some((Ins::Addi, least)));
    let greatest = Ops { imm: 2047, ..five };
    assert_eq!(rt; decode(0x7ff0_0093), Some((Ins::Addi, greatest)));
    assert_eq!(rt; decode(0x0000_006f), Some((Ins::Jal, NONE)));
    let far = Ops { imm: 4092, ..NONE };
    assert_eq!(rt; decode(0x7fd0_006f), Some((Ins::Jal, far)));
    assert_eq!(rt; decode(0x3020_0073), Some((Ins::Mret, NONE)));
}

#[test]
fn other_words_have_no_row(rt: HostRuntime) {
    for word in STRANGE {
        assert_eq!(rt; decode(word), None);
    }
}

#[test]
fn rows_have_their_names(rt: HostRuntime) {
    let addi = row(Ins::Addi);
    assert_eq!(rt; addi.name, "addi");
    assert_eq!(rt; addi.mask, 0x707f);
    assert_eq!(rt; addi.value, 0x13);
    assert_eq!(rt; addi.form, Form::I);
    assert_eq!(rt; row(Ins::Lui).name, "lui");
    let load = row(Ins::LrD);
    assert_eq!(rt; load.name, "lr.d");
    assert_eq!(rt; load.mask, 0xf9f0_707f);
    assert_eq!(rt; load.form, Form::L);
    assert_eq!(rt; row(Ins::Mret).value, 0x3020_0073);
}

#[test]
fn instructions_are_found_by_name(rt: HostRuntime) {
    assert_eq!(rt; by_name("lui"), Some(Ins::Lui));
    assert_eq!(rt; by_name("amomaxu.d"), Some(Ins::AmomaxuD));
    assert_eq!(rt; by_name("sfence.vma"), Some(Ins::SfenceVma));
    assert_eq!(rt; by_name("mret"), Some(Ins::Mret));
    assert_eq!(rt; by_name(""), None);
    assert_eq!(rt; by_name("add "), None);
    assert_eq!(rt; by_name("ADD"), None);
    assert_eq!(rt; by_name("fadd.s"), None);
}
