ghost use Rattle.std.specs.Prelude.{◌≡◌, ◌<◌, IsTrue, IsSome, IfSome, Some, None, slice_index};
ghost use Rattle.rv_fields.specs.Decode.{rs1_of_form, decoded};
ghost use Rattle.rv_fields.specs.Laws.{StepsWhereAllTold, SameOverMore, SameWhateverOpen, SameWhereTold, TellsWhatIs, EachLeaves};
ghost use Rattle.rv_fields.specs.Memory.{after_access};
ghost use Rattle.rv_fields.specs.Ranges.{RangesStay, BytesStay};
ghost use Rattle.rv_fields.specs.RowTable.{form_of};
ghost use Rattle.rv_fields.specs.Step.{step, step_at, step_decoded, trap_taken, retired, rd_written, with_write};
ghost use Rattle.rv_fields.specs.Sv39.{reached};
ghost use Rattle.sv_walk.specs.Views.{trail_seen};
ghost use Rattle.rv_step.specs.Views.{hart_seen, stepped_seen, done_seen};
ghost use Rattle.rv_step.specs.Frames.{HasRoomForStep};

use crate::bus::Bus;
use crate::hart::{Hart, Stepped};
use crate::instruction::Instruction;
use crate::outcome::{Done, Outcome};
use rv_fields::{Access, Trap};
use rv_table::{Form, Ins, Ops, decode, row};
use sv_walk::{Trail, Walked, access_fault, translate};

/// Steps the hart once, as the tables of the RISC-V manuals say: it fetches the word at pc and does what that says, or
/// takes a trap.
pub fn step<B: Bus>(hart: &mut Hart, bus: &mut B) -> Stepped
    requires zero { slice_index hart.old.x 0 ≡ 0 }
    // The bus tells all that the step needs.
    requires told { IsSome (step (B.seen bus.old) (hart_seen hart.old)) }
    // It has room for what the step writes or links.
    requires room { HasRoomForStep (B.has_room bus.old) (step (B.seen bus.old) (hart_seen hart.old)) }
    ensures step { step (B.seen bus.old) (hart_seen hart.old) ≡ Some (stepped_seen hart.new result) }
    ensures bus { B.seen bus.new ≡ after_access hart.old.number result.access (B.seen bus.old) }
    ensures register { IfSome result.rd (λ w. (0 < w.0) × (w.0 < 32)) }
    ensures zero { slice_index hart.new.x 0 ≡ 0 }
    ensures number { hart.new.number ≡ hart.old.number }

    // What steps are, over any memory and for any hart. Where all is told there is one.
    ensures total { StepsWhereAllTold }
    // More told, the same step, whatever stands in mcause and mtval, if its word names neither.
    ensures more { SameOverMore }
    ensures any_cause { SameWhateverOpen }
    // It asks for no more than its effect tells, and for the entries by which pc is translated; and these are so.
    ensures needs { SameWhereTold }
    ensures tells { TellsWhatIs }
    // It changes no register but the one that its effect names, and numbers stay in their ranges.
    ensures leaves { EachLeaves }
    ensures ranges { RangesStay }
    ensures bytes { BytesStay }
{
    step_once(hart, bus)
}

/// The step.
#[tactic(auto, unfolding(rv_fields::specs::Step::step))]
fn step_once<B: Bus>(hart: &mut Hart, bus: &mut B) -> Stepped
    requires zero { slice_index hart.old.x 0 ≡ 0 }
    // The bus tells all that the step needs.
    requires told { IsSome (step (B.seen bus.old) (hart_seen hart.old)) }
    // It has room for what the step writes or links.
    requires room { HasRoomForStep (B.has_room bus.old) (step (B.seen bus.old) (hart_seen hart.old)) }
    ensures step { step (B.seen bus.old) (hart_seen hart.old) ≡ Some (stepped_seen hart.new result) }
    ensures bus { B.seen bus.new ≡ after_access hart.old.number result.access (B.seen bus.old) }
    ensures register { IfSome result.rd (λ w. (0 < w.0) × (w.0 < 32)) }
    ensures zero { slice_index hart.new.x 0 ≡ 0 }
    ensures number { hart.new.number ≡ hart.old.number }
{
    let rights = hart.rights(hart.mode);
    match translate(bus, hart.csrs.satp(), hart.pc, Access::Fetch, &rights) {
        Walked::Page { pa, .. } => step_at(hart, bus, pa),
        Walked::Fault { cause, .. } => hart.take_trap(None, None, cause, hart.pc, Trail::new()),
        Walked::Unknown { .. } => unreachable!("a step is told"),
    }
}

/// Steps by the word at the physical address of pc.
fn step_at<B: Bus>(hart: &mut Hart, bus: &mut B, pa: u64) -> Stepped
    requires zero { slice_index hart.old.x 0 ≡ 0 }
    requires told { IsSome (step_at (B.seen bus.old) (hart_seen hart.old) (reached pa)) }
    requires room { HasRoomForStep (B.has_room bus.old) (step_at (B.seen bus.old) (hart_seen hart.old) (reached pa)) }
    ensures step { step_at (B.seen bus.old) (hart_seen hart.old) (reached pa) ≡ Some (stepped_seen hart.new result) }
    ensures bus { B.seen bus.new ≡ after_access hart.old.number result.access (B.seen bus.old) }
    ensures register { IfSome result.rd (λ w. (0 < w.0) × (w.0 < 32)) }
    ensures zero { slice_index hart.new.x 0 ≡ 0 }
    ensures number { hart.new.number ≡ hart.old.number }
{
    match bus.fetch(pa) {
        Some(word) => step_word(hart, bus, pa, word),
        None => {
            let cause = access_fault(Access::Fetch);
            hart.take_trap(None, None, cause, hart.pc, Trail::new())
        }
    }
}

/// Steps by the word, which stands at the physical address.
#[tactic(auto, unfolding(rv_fields::specs::Step::step_decoded))]
fn step_word<B: Bus>(hart: &mut Hart, bus: &mut B, pa: u64, word: u32) -> Stepped
    requires zero { slice_index hart.old.x 0 ≡ 0 }
    requires told { IsSome (step_decoded (B.seen bus.old) (hart_seen hart.old) pa word (decoded word)) }
    requires room { HasRoomForStep (B.has_room bus.old) (step_decoded (B.seen bus.old) (hart_seen hart.old) pa word (decoded word)) }
    ensures step { step_decoded (B.seen bus.old) (hart_seen hart.old) pa word (decoded word) ≡ Some (stepped_seen hart.new result) }
    ensures bus { B.seen bus.new ≡ after_access hart.old.number result.access (B.seen bus.old) }
    ensures register { IfSome result.rd (λ w. (0 < w.0) × (w.0 < 32)) }
    ensures zero { slice_index hart.new.x 0 ≡ 0 }
    ensures number { hart.new.number ≡ hart.old.number }
{
    let Some((ins, ops)) = decode(word) else {
        return hart.take_trap(Some(pa), Some(word), 2, word.into(), Trail::new());
    };
    let instruction = hart.read(ins, ops, word);
    match hart.outcome(bus, &instruction) {
        Outcome::Retires(done) => hart.retire(pa, word, ops.rd, &done),
        Outcome::Raises { cause, tval, trail } => {
            hart.take_trap(Some(pa), Some(word), cause, tval, trail)
        }
    }
}

impl Hart {
    /// The instruction with the values of the registers that it reads.
    fn read(&self, ins: Ins, ops: Ops, word: u32) -> Instruction
        requires registers { (ops.rs1 < 32) × (ops.rs2 < 32) }
        ensures { result ≡ record {
          ins = ins;
          form = form_of ins;
          ops = ops;
          rs1 = slice_index self.now.x (rs1_of_form (form_of ins) ops);
          rs2 = slice_index self.now.x ops.rs2;
          word = word;
        } }
    {
        let form = row(ins).form;
        Instruction {
            ins,
            form,
            ops,
            rs1: self.x[rs1_of(form, &ops) as usize],
            rs2: self.x[ops.rs2 as usize],
            word,
        }
    }

    /// Goes on behind an instruction with this rd.
    fn retire(&mut self, pa: u64, word: u32, rd: u8, done: &Done) -> Stepped
        requires zero { slice_index self.old.x 0 ≡ 0 }
        requires register { rd < 32 }
        ensures step { stepped_seen self.new result ≡ retired (hart_seen self.old) pa word rd (done_seen self.old done.now) }
        ensures access { result.access ≡ done.now.access }
        ensures register { IfSome result.rd (λ w. (0 < w.0) × (w.0 < 32)) }
        ensures zero { slice_index self.new.x 0 ≡ 0 }
        ensures number { self.new.number ≡ self.old.number }
    {
        let stepped = Stepped {
            pc: self.pc,
            pa: Some(pa),
            word: Some(word),
            rd: rd_written(rd, done.value),
            access: done.access,
            trail: done.trail,
            trap: None,
        };
        self.pc = done.next;
        write(&mut self.x, stepped.rd);
        stepped
    }

    /// Takes a trap: it goes on at the handler.
    #[tactic(auto, unfolding(rv_fields::specs::Step::trap_taken))]
    fn take_trap(
        &mut self,
        pa: Option<u64>,
        word: Option<u32>,
        cause: u64,
        tval: u64,
        trail: Trail,
    ) -> Stepped
        ensures step { stepped_seen self.new result ≡ trap_taken (hart_seen self.old) pa word cause tval (trail_seen trail) }
        ensures x { self.new.x ≡ self.old.x }
        ensures number { self.new.number ≡ self.old.number }
        ensures rd { result.rd ≡ None }
        ensures access { result.access ≡ None }
    {
        let pc = self.pc;
        let (to, handler) = self.csrs.enter_trap(self.mode, cause, pc, tval);
        self.pc = handler;
        self.mode = to;
        Stepped {
            pc,
            pa,
            word,
            rd: None,
            access: None,
            trail,
            trap: Some(Trap {
                cause,
                epc: pc,
                tval,
                to,
            }),
        }
    }
}

/// The register that an instruction of the form reads as rs1: x0 where a number stands in its place.
pub fn rs1_of(form: Form, ops: &Ops) -> u8
    ensures { result ≡ rs1_of_form form ops.now }
{
    match form {
        Form::K => 0,
        _ => ops.rs1,
    }
}

/// The register that is written, and its value. None where there is no value, or the register is x0.
fn rd_written(rd: u8, value: Option<u64>) -> Option<(u8, u64)>
    ensures write { result ≡ rd_written rd value }
    ensures register { IfSome result (λ w. (0 < w.0) × (w.0 ≡ rd)) }
{
    match value {
        Some(value) if rd > 0 => Some((rd, value)),
        _ => None,
    }
}

/// Writes a register, if one is given.
fn write(x: &mut [u64; 32], write: Option<(u8, u64)>)
    requires { IfSome write (λ w. (0 < w.0) × (w.0 < 32)) }
    ensures write { (λ r. Some (slice_index x.new r)) ≡ with_write (λ r. Some (slice_index x.old r)) write }
    ensures zero { slice_index x.new 0 ≡ slice_index x.old 0 }
{
    if let Some((rd, value)) = write {
        x[rd as usize] = value;
    }
}
