//! The plain types of the instruction table, which the definitions of the machine speak of.

/// An instruction, named as its row of the table.
#[derive(Clone, Copy, Debug, PartialEq, Eq)]
pub enum Ins {
    Lui,
    Auipc,
    Jal,
    Jalr,
    Lb,
    Lh,
    Lw,
    Ld,
    Lbu,
    Lhu,
    Lwu,
    Addi,
    Slti,
    Sltiu,
    Xori,
    Ori,
    Andi,
    Addiw,
    Fence,
    Beq,
    Bne,
    Blt,
    Bge,
    Bltu,
    Bgeu,
    Sb,
    Sh,
    Sw,
    Sd,
    Slli,
    Srli,
    Srai,
    Slliw,
    Srliw,
    Sraiw,
    Add,
    Sub,
    Sll,
    Slt,
    Sltu,
    Xor,
    Srl,
    Sra,
    Or,
    And,
    Addw,
    Subw,
    Sllw,
    Srlw,
    Sraw,
    Mul,
    Mulh,
    Mulhsu,
    Mulhu,
    Div,
    Divu,
    Rem,
    Remu,
    Mulw,
    Divw,
    Divuw,
    Remw,
    Remuw,
    ScW,
    AmoswapW,
    AmoaddW,
    AmoxorW,
    AmoandW,
    AmoorW,
    AmominW,
    AmomaxW,
    AmominuW,
    AmomaxuW,
    ScD,
    AmoswapD,
    AmoaddD,
    AmoxorD,
    AmoandD,
    AmoorD,
    AmominD,
    AmomaxD,
    AmominuD,
    AmomaxuD,
    LrW,
    LrD,
    Csrrw,
    Csrrs,
    Csrrc,
    Csrrwi,
    Csrrsi,
    Csrrci,
    SfenceVma,
    Ecall,
    Ebreak,
    Sret,
    Mret,
}

/// Where the operands of an instruction stand in its word.
#[derive(Clone, Copy, Debug, PartialEq, Eq)]
pub enum Form {
    /// rd and an immediate that is a multiple of 4,096.
    U,
    /// rd and an even immediate of 21 bits.
    J,
    /// rd, rs1 and an immediate of 12 bits.
    I,
    /// rs1, rs2 and an even immediate of 13 bits.
    B,
    /// rs1, rs2 and an immediate of 12 bits.
    S,
    /// rd, rs1 and a shift amount below 64.
    H6,
    /// rd, rs1 and a shift amount below 32.
    H5,
    /// rd, rs1 and rs2.
    R,
    /// rd, rs1, rs2 and the ordering bits aq and rl.
    A,
    /// rd, rs1 and the ordering bits aq and rl.
    L,
    /// rd, rs1 and the number of a CSR.
    C,
    /// rd, a number below 32 in rs1's place, and the number of a CSR.
    K,
    /// rs1 and rs2.
    V,
    /// No operand.
    N,
}

/// The operands of an instruction; those that its form lacks are 0.
#[derive(Clone, Copy, Debug, PartialEq, Eq)]
pub struct Ops {
    pub rd: u8,
    /// The number in rs1's place.
    pub rs1: u8,
    pub rs2: u8,
    /// The immediate with its sign, the shift amount, or the number of the CSR.
    pub imm: i64,
    /// Twice the bit aq, plus the bit rl.
    pub aqrl: u8,
}
