use crate::access::AccessKind;

/// What a row of the instruction table does. Rows of one class have one meaning, but for what they compute.
#[derive(Clone, Copy, Debug, PartialEq, Eq)]
pub enum Class {
    /// It computes the value of rd.
    Computes,
    /// It branches, where its condition holds.
    Branches,
    /// It jumps from pc on.
    Jumps,
    /// It jumps from rs1 on.
    JumpsByRegister,
    /// It accesses memory: so many bytes. A number that it reads gets to rd with its sign, or with zeros before it.
    Accesses {
        kind: AccessKind,
        size: u8,
        extended: Extension,
    },
    /// It gives rd the value of a CSR, and changes that CSR, but where it would set or clear bits by x0 or by 0.
    ChangesCsr(CsrChange),
    /// It orders accesses to memory.
    Fences,
    /// It orders accesses to page tables.
    FencesTranslation,
    CallsEnvironment,
    Breaks,
    ReturnsFromM,
    ReturnsFromS,
}

/// What stands before a number in a register that has more bits.
#[derive(Clone, Copy, Debug, PartialEq, Eq)]
pub enum Extension {
    Sign,
    Zeros,
}

/// How an instruction changes a CSR: by its operand, or by the bits of its operand.
#[derive(Clone, Copy, Debug, PartialEq, Eq)]
pub enum CsrChange {
    Swap,
    Set,
    Clear,
}
