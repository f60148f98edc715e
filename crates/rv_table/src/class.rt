//! What each row of the instruction table does.

ghost use Rattle.std.specs.Prelude.{◌≡◌};
ghost use Rattle.rv_fields.specs.Class.{class_of};
ghost use Rattle.rv_fields.specs.declared.class.Class.TheVariants.{Accesses};

use rv_fields::{AccessKind, Class, CsrChange, Extension, Ins};

/// The class of the row.
pub fn class_of(ins: Ins) -> Class
    ensures { result ≡ class_of ins }
{
    match ins {
        Ins::Lui | Ins::Auipc => Class::Computes,
        Ins::Addi | Ins::Slti | Ins::Sltiu | Ins::Xori | Ins::Ori | Ins::Andi | Ins::Addiw =>
            Class::Computes,
        Ins::Slli | Ins::Srli | Ins::Srai | Ins::Slliw | Ins::Srliw | Ins::Sraiw => Class::Computes,
        Ins::Add
        | Ins::Sub
        | Ins::Sll
        | Ins::Slt
        | Ins::Sltu
        | Ins::Xor
        | Ins::Srl
        | Ins::Sra
        | Ins::Or
        | Ins::And => Class::Computes,
        Ins::Addw | Ins::Subw | Ins::Sllw | Ins::Srlw | Ins::Sraw => Class::Computes,
        Ins::Mul | Ins::Mulh | Ins::Mulhsu | Ins::Mulhu | Ins::Mulw => Class::Computes,
        Ins::Div
        | Ins::Divu
        | Ins::Rem
        | Ins::Remu
        | Ins::Divw
        | Ins::Divuw
        | Ins::Remw
        | Ins::Remuw => Class::Computes,
        Ins::Jal => Class::Jumps,
        Ins::Jalr => Class::JumpsByRegister,
        Ins::Lb => accesses(AccessKind::Load, 1, Extension::Sign),
        Ins::Lh => accesses(AccessKind::Load, 2, Extension::Sign),
        Ins::Lw => accesses(AccessKind::Load, 4, Extension::Sign),
        Ins::Ld => accesses(AccessKind::Load, 8, Extension::Sign),
        Ins::Lbu => accesses(AccessKind::Load, 1, Extension::Zeros),
        Ins::Lhu => accesses(AccessKind::Load, 2, Extension::Zeros),
        Ins::Lwu => accesses(AccessKind::Load, 4, Extension::Zeros),
        Ins::Fence => Class::Fences,
        Ins::Beq | Ins::Bne | Ins::Blt | Ins::Bge | Ins::Bltu | Ins::Bgeu => Class::Branches,
        Ins::Sb => accesses(AccessKind::Store, 1, Extension::Zeros),
        Ins::Sh => accesses(AccessKind::Store, 2, Extension::Zeros),
        Ins::Sw => accesses(AccessKind::Store, 4, Extension::Zeros),
        Ins::Sd => accesses(AccessKind::Store, 8, Extension::Zeros),
        Ins::ScW => accesses(AccessKind::Sc, 4, Extension::Zeros),
        Ins::AmoswapW
        | Ins::AmoaddW
        | Ins::AmoxorW
        | Ins::AmoandW
        | Ins::AmoorW
        | Ins::AmominW
        | Ins::AmomaxW
        | Ins::AmominuW
        | Ins::AmomaxuW => accesses(AccessKind::Amo, 4, Extension::Sign),
        Ins::ScD => accesses(AccessKind::Sc, 8, Extension::Zeros),
        Ins::AmoswapD
        | Ins::AmoaddD
        | Ins::AmoxorD
        | Ins::AmoandD
        | Ins::AmoorD
        | Ins::AmominD
        | Ins::AmomaxD
        | Ins::AmominuD
        | Ins::AmomaxuD => accesses(AccessKind::Amo, 8, Extension::Sign),
        Ins::LrW => accesses(AccessKind::Lr, 4, Extension::Sign),
        Ins::LrD => accesses(AccessKind::Lr, 8, Extension::Sign),
        Ins::Csrrw | Ins::Csrrwi => Class::ChangesCsr(CsrChange::Swap),
        Ins::Csrrs | Ins::Csrrsi => Class::ChangesCsr(CsrChange::Set),
        Ins::Csrrc | Ins::Csrrci => Class::ChangesCsr(CsrChange::Clear),
        Ins::SfenceVma => Class::FencesTranslation,
        Ins::Ecall => Class::CallsEnvironment,
        Ins::Ebreak => Class::Breaks,
        Ins::Sret => Class::ReturnsFromS,
        Ins::Mret => Class::ReturnsFromM,
    }
}

/// The class of rows that access so many bytes of memory.
fn accesses(kind: AccessKind, size: u8, extended: Extension) -> Class
    ensures { result ≡ Accesses kind size extended }
{
    Class::Accesses {
        kind,
        size,
        extended,
    }
}
