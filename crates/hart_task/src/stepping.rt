ghost use Rattle.std.specs.Prelude.{◌≡◌, ◌+◌, ◌<◌, IsTrue, IfErr, IfOk, IfSome, Some, is_ok, slice_index};
ghost use Rattle.rv_fields.specs.Memory.{in_ram};
ghost use Rattle.rv_fields.specs.Step.{step};
ghost use Rattle.region_plan.specs.Rules.{IsMakeableRequest};
ghost use Rattle.region_plan.specs.Pinned.{fits_word, pinned_ops};
ghost use Rattle.region_plan.specs.Request.{named_ins};
ghost use Rattle.region_plan.specs.Views.{choice_seen, pins_seen, request_seen, sys_seen};
ghost use Rattle.trace_text.specs.Traces.{IsStep};
ghost use Rattle.trace_text.specs.Views.{step_seen};
ghost use Rattle.rv_step.specs.Views.{hart_seen};
ghost use Rattle.hart_task.specs.Asking.{asked_word, is_served, of_ins, worded};
ghost use Rattle.hart_task.specs.Beginning.{sys_word};
ghost use Rattle.hart_task.specs.Bus.{word_seen};
ghost use Rattle.hart_task.specs.Plain.{StepsPlainly};

use crate::bus::OneWord;
use choice_tree::DrawWords;
use operand_solver::{NoRegister, operands};
use region_plan::{InsChoice, Pins, Request, Sys};
use rv_encode::encode;
use rv_fields::Ins;
use rv_step::{Hart, step};
use rv_table::row;
use trace_fields::{TrailText, TrapText};
use trace_text::StepLine;

/// The word that the request makes, whose operands the next words of the stream choose.
pub(crate) fn word_of(request: Request, words: &mut DrawWords) -> Result<u32, NoRegister>
    requires makeable { IsMakeableRequest (request_seen request) }
    requires few { words.old.drawn + 4 < u64.MAX }
    ensures served { is_ok result ≡ is_served (asked_word (request_seen request)) }
    ensures drawn { IfOk result (λ word. record { word = word; left = words.new } ≡ worded (asked_word (request_seen request)) words.old) }
    ensures undrawn { IfErr result (λ e. words.new ≡ words.old) }
{
    match request {
        Request::Ins { ins, pins } => ins_word(named(ins), &pins, words),
        Request::Csr { csr, ins, pins } => ins_word(ins, &pins.of_csr(csr), words),
        Request::Sys(sys) => Ok(sys_word(sys)),
    }
}

/// The word of the instruction, with the operands that are given, and others drawn.
fn ins_word(ins: Ins, pins: &Pins, words: &mut DrawWords) -> Result<u32, NoRegister>
    requires fits { IsTrue (fits_word ins (pinned_ops (pins_seen pins.now))) }
    requires few { words.old.drawn + 4 < u64.MAX }
    ensures served { is_ok result ≡ is_served (of_ins ins (pins_seen pins.now)) }
    ensures drawn { IfOk result (λ word. record { word = word; left = words.new } ≡ worded (of_ins ins (pins_seen pins.now)) words.old) }
    ensures undrawn { IfErr result (λ e. words.new ≡ words.old) }
{
    let ops = operands(ins, pins, words)?;
    Ok(encode(ins, &ops).unwrap())
}

fn named(choice: InsChoice) -> Ins
    ensures { choice_seen choice ≡ named_ins result }
{
    let InsChoice::Named(ins) = choice;
    ins
}

fn sys_word(sys: Sys) -> u32
    ensures { result ≡ sys_word (sys_seen sys) }
{
    match sys {
        Sys::Ecall => row(Ins::Ecall).value,
        Sys::Ebreak => row(Ins::Ebreak).value,
        Sys::Zero => 0,
        Sys::Sfence => row(Ins::SfenceVma).value,
    }
}

/// Steps the word, which stands at the hart's pc.
pub(crate) fn step_word(hart: &mut Hart, word: u32) -> StepLine
    requires zero { slice_index hart.old.x 0 ≡ 0 }
    requires in_ram { IsTrue (in_ram hart.old.pc 4) }
    requires plain { StepsPlainly (hart_seen hart.old) word }
    ensures step { step (word_seen hart.old.pc word) (hart_seen hart.old)
        ≡ Some (record { effect = step_seen result; hart = hart_seen hart.new }) }
    ensures ranges { IsStep (step_seen result) }
    ensures register { IfSome result.rd (λ w. (0 < w.0) × (w.0 < 32)) }
    ensures zero { slice_index hart.new.x 0 ≡ 0 }
{
    let pc = hart.pc;
    let mut bus = OneWord {
        at: pc,
        word,
        link: None,
    };
    let stepped = step(hart, &mut bus);
    StepLine {
        hart: hart.number,
        pc,
        pa: pc,
        word,
        rd: stepped.rd,
        access: None,
        trail: TrailText::new(),
        trap: stepped.trap.map(TrapText::of),
    }
}
