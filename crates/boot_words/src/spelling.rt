//! The words of instructions.

ghost use Rattle.std.specs.Prelude.{◌≡◌, ◌<◌, ◌^◌, None};
ghost use Rattle.rv_fields.specs.RowTable.{form_of};
ghost use Rattle.rv_encode.specs.Fitting.{misfit};
ghost use Rattle.boot_words.specs.Boot.{instruction, mret, read_csr, spelled, swap_csr, table_load};

use rv_encode::encode;
use rv_fields::{Csr, Ins, Ops, csr_number};

/// The word of an instruction whose form can hold these operands; those that it lacks are 0.
pub fn spelled(ins: Ins, rd: u8, rs1: u8, rs2: u8, imm: i64) -> u32
    requires { misfit (form_of ins) (instruction ins rd rs1 rs2 imm).ops ≡ None }
    ensures { result ≡ spelled (instruction ins rd rs1 rs2 imm) }
{
    let ops = Ops {
        rd,
        rs1,
        rs2,
        imm,
        aqrl: 0,
    };
    encode(ins, &ops).unwrap()
}

/// `csrrs rd, csr, x0`.
pub fn read_csr(rd: u8, csr: Csr) -> u32
    requires { rd < 32 }
    ensures { result ≡ spelled (read_csr rd csr) }
{
    spelled(Ins::Csrrs, rd, 0, 0, i64::from(csr_number(csr)))
}

/// `csrrw rd, csr, rs1`.
pub fn swap_csr(rd: u8, csr: Csr, rs1: u8) -> u32
    requires rd { rd < 32 }
    requires rs1 { rs1 < 32 }
    ensures { result ≡ spelled (swap_csr rd csr rs1) }
{
    spelled(Ins::Csrrw, rd, rs1, 0, i64::from(csr_number(csr)))
}

/// `ld rd, offset(x31)`.
pub fn table_load(rd: u8, offset: u16) -> u32
    requires register { rd < 32 }
    requires positive { offset < 2 ^ 11 }
    ensures { result ≡ spelled (table_load rd offset) }
{
    spelled(Ins::Ld, rd, 31, 0, i64::from(offset))
}

/// `mret`.
pub fn mret() -> u32
    ensures { result ≡ spelled mret }
{
    spelled(Ins::Mret, 0, 0, 0, 0)
}
