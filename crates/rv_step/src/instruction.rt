//! What instructions do.

ghost use Rattle.std.specs.Prelude.{◌≡◌, IsTrue, IsSome, Some};
ghost use Rattle.rv_fields.specs.Meaning.{is_alu, computed, first_operand, second_operand};
ghost use Rattle.rv_fields.specs.Memory.{after_access};
ghost use Rattle.rv_fields.specs.RowTable.{form_of};
ghost use Rattle.rv_fields.specs.Status.{mode_number};
ghost use Rattle.rv_fields.specs.Step.{outcome};
ghost use Rattle.rv_step.specs.Views.{hart_seen, outcome_seen, decoded_seen};
ghost use Rattle.rv_step.specs.Frames.{OutcomeLeaves, access_of, HasRoomIfTold};

use crate::bus::Bus;
use crate::control::csr_operand;
use crate::hart::Hart;
use crate::memory::Target;
use crate::outcome::{Outcome, moved_by, traps};
use rv_alu::{alu, taken};
use rv_fields::{Class, Mode};
use rv_table::{Form, Ins, Ops, class_of};

/// An instruction: its row with the row's form, its operands, the values of the registers that it reads, and its word.
#[derive(Clone, Copy)]
pub(crate) struct Instruction {
    pub ins: Ins,
    pub form: Form,
    pub ops: Ops,
    pub rs1: u64,
    pub rs2: u64,
    pub word: u32,
}

impl Hart {
    /// What comes of the instruction.
    #[tactic(auto, using(crate::proofs::Parts::by_class))]
    pub(crate) fn outcome<B: Bus>(&mut self, bus: &mut B, instruction: &Instruction) -> Outcome
        requires form { instruction.now.form ≡ form_of instruction.now.ins }
        requires told { IsSome (outcome (B.seen bus.old) (hart_seen self.old) (decoded_seen instruction.now) instruction.now.word instruction.now.rs1 instruction.now.rs2) }
        requires room { HasRoomIfTold (B.has_room bus.old) (outcome (B.seen bus.old) (hart_seen self.old) (decoded_seen instruction.now) instruction.now.word instruction.now.rs1 instruction.now.rs2) }
        ensures outcome { outcome (B.seen bus.old) (hart_seen self.old) (decoded_seen instruction.now) instruction.now.word instruction.now.rs1 instruction.now.rs2 ≡ Some (outcome_seen self.new result) }
        ensures bus { B.seen bus.new ≡ after_access self.old.number (access_of result) (B.seen bus.old) }
        ensures frame { OutcomeLeaves self.old self.new result }
    {
        let Instruction {
            ins,
            form,
            ops,
            rs1,
            rs2,
            word,
        } = *instruction;
        match class_of(ins) {
            Class::Computes => self.goes(Some(computed(instruction, self.pc)), self.behind()),
            Class::Branches => self.branch(taken(ins, rs1, rs2), moved_by(&ops, self.pc)),
            Class::Jumps => self.jump(Some(self.behind()), moved_by(&ops, self.pc)),
            Class::JumpsByRegister => {
                self.jump(Some(self.behind()), moved_by(&ops, rs1) / 2 * 2)
            }
            Class::Accesses {
                kind,
                size,
                extended,
            } => self.access(
                bus,
                &Target {
                    ins,
                    rs2,
                    kind,
                    size,
                    extended,
                    va: moved_by(&ops, rs1),
                },
            ),
            Class::ChangesCsr(change) => {
                self.change_csr(change, &ops, csr_operand(form, &ops, rs1), word)
            }
            Class::Fences => self.goes(None, self.behind()),
            Class::FencesTranslation => self.fence_translation(word),
            Class::CallsEnvironment => traps(8 + mode_number(self.mode), 0),
            Class::Breaks => traps(3, self.pc),
            Class::ReturnsFromM => self.return_from_m(word),
            Class::ReturnsFromS => self.return_from_s(word),
        }
    }
}

/// What a row that computes gives to its rd.
fn computed(instruction: &Instruction, pc: u64) -> u64
    requires form { instruction.now.form ≡ form_of instruction.now.ins }
    requires alu { IsTrue (is_alu instruction.now.ins) }
    ensures { result ≡ computed instruction.now.ins instruction.now.ops pc instruction.now.rs1 instruction.now.rs2 }
{
    let Instruction {
        ins,
        form,
        ops,
        rs1,
        rs2,
        ..
    } = *instruction;
    let first = first_operand(form, pc, rs1);
    alu(ins, first, second_operand(form, &ops, rs2))
}

/// The first operand of a row of the form that computes.
fn first_operand(form: Form, pc: u64, rs1: u64) -> u64
    ensures { result ≡ first_operand form pc rs1 }
{
    match form {
        Form::U => pc,
        _ => rs1,
    }
}

/// The second operand of a row of the form that computes.
fn second_operand(form: Form, ops: &Ops, rs2: u64) -> u64
    ensures { result ≡ second_operand form ops.now rs2 }
{
    match form {
        Form::R => rs2,
        _ => ops.imm.cast_unsigned(),
    }
}

/// The number of the mode in CSRs and causes.
fn mode_number(mode: Mode) -> u64
    ensures { result ≡ mode_number mode }
{
    match mode {
        Mode::U => 0,
        Mode::S => 1,
        Mode::M => 3,
    }
}
