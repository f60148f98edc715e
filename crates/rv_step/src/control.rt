//! CSR instructions, and returns from traps.

ghost use Rattle.std.specs.Prelude.{◌≡◌, ◌^◌, if◌then◌else◌};
ghost use Rattle.rv_fields.specs.Immediate.{modulo};
ghost use Rattle.rv_fields.specs.Status.{tvm, tsr};
ghost use Rattle.rv_fields.specs.Step.{csr_operand, changed_to, writes, csr_written, csr_read, csr_changed, csr_named_by, returned_from_m, returned_from_s, is_kept_from, illegal, goes, behind, outcome_by};
ghost use Rattle.rv_step.specs.Views.{hart_seen, outcome_seen};
ghost use Rattle.rv_step.specs.Frames.{OutcomeLeaves};

use crate::hart::Hart;
use crate::outcome::{Outcome, illegal};
use rv_csr::Csr;
use rv_fields::{CsrChange, Mode, csr_of};
use rv_table::{Form, Ops};

impl Hart {
    /// Reads the CSR that the instruction names, and changes it by the operand.
    pub(crate) fn change_csr(
        &mut self,
        change: CsrChange,
        ops: &Ops,
        operand: u64,
        word: u32,
    ) -> Outcome
        ensures outcome { outcome_seen self.new result
            ≡ csr_changed (hart_seen self.old) change ops.now operand word (csr_named_by ops.now) }
        ensures frame { OutcomeLeaves self.old self.new result }
    {
        match csr_named_by(ops) {
            None => illegal(word),
            Some(csr) if writes(change, ops) => self.write_csr(change, operand, word, csr),
            Some(csr) => self.read_csr(word, csr),
        }
    }

    fn write_csr(&mut self, change: CsrChange, operand: u64, word: u32, csr: Csr) -> Outcome
        ensures outcome { outcome_seen self.new result ≡ csr_written (hart_seen self.old) change operand word csr }
        ensures frame { OutcomeLeaves self.old self.new result }
    {
        let Ok(old) = self.csrs.read(csr, self.mode) else {
            return illegal(word);
        };
        let new = changed_to(change, old, operand);
        match self.csrs.write(csr, self.mode, new) {
            Ok(()) => self.goes(Some(old), self.behind()),
            Err(_) => illegal(word),
        }
    }

    fn read_csr(&self, word: u32, csr: Csr) -> Outcome
        ensures { outcome_seen self.now result ≡ csr_read (hart_seen self.now) word csr }
    {
        match self.csrs.read(csr, self.mode) {
            Ok(value) => self.goes(Some(value), self.behind()),
            Err(_) => illegal(word),
        }
    }

    /// Returns from a trap to M, which only mode M may.
    pub(crate) fn return_from_m(&mut self, word: u32) -> Outcome
        ensures outcome { outcome_seen self.new result ≡ returned_from_m (hart_seen self.old) word self.old.mode }
        ensures frame { OutcomeLeaves self.old self.new result }
    {
        match self.mode {
            Mode::M => {
                let (mode, pc) = self.csrs.mret();
                self.mode = mode;
                self.goes(None, pc)
            }
            Mode::S | Mode::U => illegal(word),
        }
    }

    /// Returns from a trap to S.
    pub(crate) fn return_from_s(&mut self, word: u32) -> Outcome
        ensures outcome { outcome_seen self.new result ≡ returned_from_s (hart_seen self.old) word }
        ensures frame { OutcomeLeaves self.old self.new result }
    {
        if self.csrs.keeps_sret_from(self.mode) {
            return illegal(word);
        }
        let (mode, pc) = self.csrs.sret();
        self.mode = mode;
        self.goes(None, pc)
    }

    /// Orders accesses to page tables: there is nothing to do, but some modes may not.
    pub(crate) fn fence_translation(&self, word: u32) -> Outcome
        ensures { outcome_seen self.now result ≡ (if is_kept_from self.now.mode tvm self.now.csrs.mstatus
            then illegal word else goes (hart_seen self.now) None (behind self.now.pc)) }
    {
        if self.csrs.keeps_sfence_from(self.mode) {
            illegal(word)
        } else {
            self.goes(None, self.behind())
        }
    }
}

/// The CSR of the number in the immediate's place.
fn csr_named_by(ops: &Ops) -> Option<Csr>
    ensures { result ≡ csr_named_by ops.now }
{
    csr_of(csr_number_of(ops.imm))
}

/// The number of a CSR in the immediate's place.
fn csr_number_of(imm: i64) -> u16
    ensures { result ≡ modulo (2 ^ 12) imm }
{
    imm.rem_euclid(1 << 12) as u16
}

/// The operand of a CSR instruction: rs1, or the number that form K has in its place.
pub(crate) fn csr_operand(form: Form, ops: &Ops, rs1: u64) -> u64
    ensures { result ≡ csr_operand form ops.now rs1 }
{
    match form {
        Form::K => ops.rs1.into(),
        _ => rs1,
    }
}

/// The value that a CSR gets.
fn changed_to(change: CsrChange, old: u64, operand: u64) -> u64
    ensures { result ≡ changed_to change old operand }
{
    match change {
        CsrChange::Swap => operand,
        CsrChange::Set => old | operand,
        CsrChange::Clear => old & !operand,
    }
}

/// Whether the instruction writes its CSR: csrrs and csrrc don't where 0 stands in the place of rs1.
fn writes(change: CsrChange, ops: &Ops) -> bool
    ensures { result ≡ writes change ops.now }
{
    match change {
        CsrChange::Swap => true,
        CsrChange::Set | CsrChange::Clear => ops.rs1 != 0,
    }
}
