ghost use Rattle.std.specs.Prelude.{◌≡◌, map};
ghost use Rattle.rv_fields.specs.RowTable.{all_ins};
ghost use Rattle.rv_table.specs.Listing.{listed_entry, defined};

use rv_fields::{Form, Ins};

/// One row of the table. A word is of the row where the bits of `mask` in it are `value`.
#[derive(Clone, Copy, Debug, Drop)]
pub struct Row {
    /// The name in assembly, as `addi`.
    pub name: &'static str,
    pub mask: u32,
    pub value: u32,
    pub form: Form,
}

/// A line of the table: an instruction with its form, its name, and the bits that tell its words from others.
#[derive(Clone, Copy)]
pub struct Entry(pub Ins, pub Form, pub &'static str, pub u32);

/// The instruction table, by the instructions' numbers.
const INSTRUCTIONS: [Entry; 96] = [
    Entry(Ins::Lui, Form::U, "lui", 0x0000_0037),
    Entry(Ins::Auipc, Form::U, "auipc", 0x0000_0017),
    Entry(Ins::Jal, Form::J, "jal", 0x0000_006f),
    Entry(Ins::Jalr, Form::I, "jalr", 0x0000_0067),
    Entry(Ins::Lb, Form::I, "lb", 0x0000_0003),
    Entry(Ins::Lh, Form::I, "lh", 0x0000_1003),
    Entry(Ins::Lw, Form::I, "lw", 0x0000_2003),
    Entry(Ins::Ld, Form::I, "ld", 0x0000_3003),
    Entry(Ins::Lbu, Form::I, "lbu", 0x0000_4003),
    Entry(Ins::Lhu, Form::I, "lhu", 0x0000_5003),
    Entry(Ins::Lwu, Form::I, "lwu", 0x0000_6003),
    Entry(Ins::Addi, Form::I, "addi", 0x0000_0013),
    Entry(Ins::Slti, Form::I, "slti", 0x0000_2013),
    Entry(Ins::Sltiu, Form::I, "sltiu", 0x0000_3013),
    Entry(Ins::Xori, Form::I, "xori", 0x0000_4013),
    Entry(Ins::Ori, Form::I, "ori", 0x0000_6013),
    Entry(Ins::Andi, Form::I, "andi", 0x0000_7013),
    Entry(Ins::Addiw, Form::I, "addiw", 0x0000_001b),
    Entry(Ins::Fence, Form::I, "fence", 0x0000_000f),
    Entry(Ins::Beq, Form::B, "beq", 0x0000_0063),
    Entry(Ins::Bne, Form::B, "bne", 0x0000_1063),
    Entry(Ins::Blt, Form::B, "blt", 0x0000_4063),
    Entry(Ins::Bge, Form::B, "bge", 0x0000_5063),
    Entry(Ins::Bltu, Form::B, "bltu", 0x0000_6063),
    Entry(Ins::Bgeu, Form::B, "bgeu", 0x0000_7063),
    Entry(Ins::Sb, Form::S, "sb", 0x0000_0023),
    Entry(Ins::Sh, Form::S, "sh", 0x0000_1023),
    Entry(Ins::Sw, Form::S, "sw", 0x0000_2023),
    Entry(Ins::Sd, Form::S, "sd", 0x0000_3023),
    Entry(Ins::Slli, Form::H6, "slli", 0x0000_1013),
    Entry(Ins::Srli, Form::H6, "srli", 0x0000_5013),
    Entry(Ins::Srai, Form::H6, "srai", 0x4000_5013),
    Entry(Ins::Slliw, Form::H5, "slliw", 0x0000_101b),
    Entry(Ins::Srliw, Form::H5, "srliw", 0x0000_501b),
    Entry(Ins::Sraiw, Form::H5, "sraiw", 0x4000_501b),
    Entry(Ins::Add, Form::R, "add", 0x0000_0033),
    Entry(Ins::Sub, Form::R, "sub", 0x4000_0033),
    Entry(Ins::Sll, Form::R, "sll", 0x0000_1033),
    Entry(Ins::Slt, Form::R, "slt", 0x0000_2033),
    Entry(Ins::Sltu, Form::R, "sltu", 0x0000_3033),
    Entry(Ins::Xor, Form::R, "xor", 0x0000_4033),
    Entry(Ins::Srl, Form::R, "srl", 0x0000_5033),
    Entry(Ins::Sra, Form::R, "sra", 0x4000_5033),
    Entry(Ins::Or, Form::R, "or", 0x0000_6033),
    Entry(Ins::And, Form::R, "and", 0x0000_7033),
    Entry(Ins::Addw, Form::R, "addw", 0x0000_003b),
    Entry(Ins::Subw, Form::R, "subw", 0x4000_003b),
    Entry(Ins::Sllw, Form::R, "sllw", 0x0000_103b),
    Entry(Ins::Srlw, Form::R, "srlw", 0x0000_503b),
    Entry(Ins::Sraw, Form::R, "sraw", 0x4000_503b),
    Entry(Ins::Mul, Form::R, "mul", 0x0200_0033),
    Entry(Ins::Mulh, Form::R, "mulh", 0x0200_1033),
    Entry(Ins::Mulhsu, Form::R, "mulhsu", 0x0200_2033),
    Entry(Ins::Mulhu, Form::R, "mulhu", 0x0200_3033),
    Entry(Ins::Div, Form::R, "div", 0x0200_4033),
    Entry(Ins::Divu, Form::R, "divu", 0x0200_5033),
    Entry(Ins::Rem, Form::R, "rem", 0x0200_6033),
    Entry(Ins::Remu, Form::R, "remu", 0x0200_7033),
    Entry(Ins::Mulw, Form::R, "mulw", 0x0200_003b),
    Entry(Ins::Divw, Form::R, "divw", 0x0200_403b),
    Entry(Ins::Divuw, Form::R, "divuw", 0x0200_503b),
    Entry(Ins::Remw, Form::R, "remw", 0x0200_603b),
    Entry(Ins::Remuw, Form::R, "remuw", 0x0200_703b),
    Entry(Ins::ScW, Form::A, "sc.w", 0x1800_202f),
    Entry(Ins::AmoswapW, Form::A, "amoswap.w", 0x0800_202f),
    Entry(Ins::AmoaddW, Form::A, "amoadd.w", 0x0000_202f),
    Entry(Ins::AmoxorW, Form::A, "amoxor.w", 0x2000_202f),
    Entry(Ins::AmoandW, Form::A, "amoand.w", 0x6000_202f),
    Entry(Ins::AmoorW, Form::A, "amoor.w", 0x4000_202f),
    Entry(Ins::AmominW, Form::A, "amomin.w", 0x8000_202f),
    Entry(Ins::AmomaxW, Form::A, "amomax.w", 0xa000_202f),
    Entry(Ins::AmominuW, Form::A, "amominu.w", 0xc000_202f),
    Entry(Ins::AmomaxuW, Form::A, "amomaxu.w", 0xe000_202f),
    Entry(Ins::ScD, Form::A, "sc.d", 0x1800_302f),
    Entry(Ins::AmoswapD, Form::A, "amoswap.d", 0x0800_302f),
    Entry(Ins::AmoaddD, Form::A, "amoadd.d", 0x0000_302f),
    Entry(Ins::AmoxorD, Form::A, "amoxor.d", 0x2000_302f),
    Entry(Ins::AmoandD, Form::A, "amoand.d", 0x6000_302f),
    Entry(Ins::AmoorD, Form::A, "amoor.d", 0x4000_302f),
    Entry(Ins::AmominD, Form::A, "amomin.d", 0x8000_302f),
    Entry(Ins::AmomaxD, Form::A, "amomax.d", 0xa000_302f),
    Entry(Ins::AmominuD, Form::A, "amominu.d", 0xc000_302f),
    Entry(Ins::AmomaxuD, Form::A, "amomaxu.d", 0xe000_302f),
    Entry(Ins::LrW, Form::L, "lr.w", 0x1000_202f),
    Entry(Ins::LrD, Form::L, "lr.d", 0x1000_302f),
    Entry(Ins::Csrrw, Form::C, "csrrw", 0x0000_1073),
    Entry(Ins::Csrrs, Form::C, "csrrs", 0x0000_2073),
    Entry(Ins::Csrrc, Form::C, "csrrc", 0x0000_3073),
    Entry(Ins::Csrrwi, Form::K, "csrrwi", 0x0000_5073),
    Entry(Ins::Csrrsi, Form::K, "csrrsi", 0x0000_6073),
    Entry(Ins::Csrrci, Form::K, "csrrci", 0x0000_7073),
    Entry(Ins::SfenceVma, Form::V, "sfence.vma", 0x1200_0073),
    Entry(Ins::Ecall, Form::N, "ecall", 0x0000_0073),
    Entry(Ins::Ebreak, Form::N, "ebreak", 0x0010_0073),
    Entry(Ins::Sret, Form::N, "sret", 0x1020_0073),
    Entry(Ins::Mret, Form::N, "mret", 0x3020_0073),
];

/// The table's lines.
pub fn entries() -> &'static [Entry]
    ensures { map listed_entry result.now ≡ map defined all_ins }
{
    &INSTRUCTIONS
}
