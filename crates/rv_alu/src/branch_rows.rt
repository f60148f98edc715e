//! Branches.

ghost use Rattle.std.specs.Prelude.{◌≡◌, IsTrue};
ghost use Rattle.rv_fields.specs.Meaning.{is_branch, is_taken};

use rv_fields::Ins;

/// Whether the row is a branch.
pub fn is_branch(ins: Ins) -> bool
    ensures { result ≡ is_branch ins }
{
    matches!(
        ins,
        Ins::Beq | Ins::Bne | Ins::Blt | Ins::Bge | Ins::Bltu | Ins::Bgeu
    )
}

/// Whether the branch is taken, by the values of rs1 and rs2.
pub fn taken(ins: Ins, a: u64, b: u64) -> bool
    requires { IsTrue (is_branch ins) }
    ensures { result ≡ is_taken ins a b }
{
    match ins {
        Ins::Beq => a == b,
        Ins::Bne => a != b,
        Ins::Blt => a.cast_signed() < b.cast_signed(),
        Ins::Bge => a.cast_signed() >= b.cast_signed(),
        Ins::Bltu => a < b,
        Ins::Bgeu => a >= b,
        _ => unreachable!(),
    }
}
