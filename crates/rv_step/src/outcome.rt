//! What instructions leave.

ghost use Rattle.std.specs.Prelude.{◌≡◌};
ghost use Rattle.rv_fields.specs.Step.{goes, traps, illegal, jump, branch, behind, moved_by};
ghost use Rattle.rv_step.specs.declared.hart.Hart.{Hart};
ghost use Rattle.rv_step.specs.Views.{hart_seen, outcome_seen};
ghost use Rattle.rv_step.specs.Frames.{access_of, OutcomeLeaves};

use crate::hart::Hart;
use rv_fields::Accessed;
use rv_table::Ops;
use sv_walk::Trail;

/// What an instruction that retires leaves beside the hart's mode, its CSRs and its reservation, which the hart has
/// then.
#[derive(Clone, Copy)]
pub(crate) struct Done {
    /// The value of rd, if it gives one.
    pub value: Option<u64>,
    /// The address of the next instruction.
    pub next: u64,
    pub access: Option<Accessed>,
    /// The page table entries by which the access is translated.
    pub trail: Trail,
}

/// What comes of an instruction. One that raises a trap leaves the hart as it is.
#[derive(Clone, Copy)]
pub(crate) enum Outcome {
    Retires(Done),
    Raises { cause: u64, tval: u64, trail: Trail },
}

impl Hart {
    /// It gives rd a value, or none, and goes on at this address.
    pub(crate) fn goes(&self, value: Option<u64>, next: u64) -> Outcome
        ensures outcome { outcome_seen self.now result ≡ goes (hart_seen self.now) value next }
        ensures nothing { access_of result ≡ None }
        ensures frame { OutcomeLeaves self.now self.now result }
    {
        Outcome::Retires(Done {
            value,
            next,
            access: None,
            trail: Trail::new(),
        })
    }

    /// A jump to the target, which has to be a multiple of 4.
    pub(crate) fn jump(&self, value: Option<u64>, target: u64) -> Outcome
        ensures outcome { outcome_seen self.now result ≡ jump (hart_seen self.now) value target }
        ensures nothing { access_of result ≡ None }
        ensures frame { OutcomeLeaves self.now self.now result }
    {
        if target % 4 == 0 {
            self.goes(value, target)
        } else {
            traps(0, target)
        }
    }

    pub(crate) fn branch(&self, taken: bool, target: u64) -> Outcome
        ensures outcome { outcome_seen self.now result ≡ branch (hart_seen self.now) taken target }
        ensures nothing { access_of result ≡ None }
        ensures frame { OutcomeLeaves self.now self.now result }
    {
        if taken {
            self.jump(None, target)
        } else {
            self.goes(None, self.behind())
        }
    }

    /// The address behind the hart's instruction.
    pub(crate) fn behind(&self) -> u64
        ensures { result ≡ behind self.now.pc }
    {
        self.pc.wrapping_add(4)
    }
}

pub(crate) fn traps(cause: u64, tval: u64) -> Outcome
    ensures outcome { (h : Hart) → outcome_seen h result ≡ traps cause tval }
    ensures nothing { access_of result ≡ None }
    ensures frame { (h : Hart) → OutcomeLeaves h h result }
{
    Outcome::Raises {
        cause,
        tval,
        trail: Trail::new(),
    }
}

/// An instruction that the word is not, for this hart.
pub(crate) fn illegal(word: u32) -> Outcome
    ensures outcome { (h : Hart) → outcome_seen h result ≡ illegal word }
    ensures nothing { access_of result ≡ None }
    ensures frame { (h : Hart) → OutcomeLeaves h h result }
{
    traps(2, word.into())
}

/// The address with the immediate added, modulo 2^64.
pub(crate) fn moved_by(ops: &Ops, from: u64) -> u64
    ensures { result ≡ moved_by ops.now from }
{
    from.wrapping_add_signed(ops.imm)
}
