//! Harts that boot, and the trace beside what they do then.
ghost use Rattle.std.specs.Prelude.{◌≡◌, ◌≢◌, ◌≤◌, ◌<◌, ◌+◌, ◌∷◌, ◌++◌, [], All, List, length, IfOk, IfErr, IfSome, OnOk, option_map};
ghost use Rattle.rv_fields.specs.declared.mode.Mode.TheVariants.{U};
ghost use Rattle.rv_fields.specs.Effect.{Effect};
ghost use Rattle.rv_fields.specs.Play.{most_harts};
ghost use Rattle.rv_step.specs.Views.{effect_seen};
ghost use Rattle.rv_machine.specs.Views.{machine_seen};
ghost use Rattle.trace_text.specs.Lines.{Line, effects_of};
ghost use Rattle.trace_text.specs.Reading.{Unread, unread, unread_fault};
ghost use Rattle.boot_words.specs.Passing.{behind_boots};
ghost use Rattle.trace_replay.specs.Comparing.{boots_differ, first_difference, steps_at, steps_differ};
ghost use Rattle.trace_replay.specs.Verdicts.{IsOf};

use crate::boot::Boot;
use crate::comparison::Comparison;
use crate::verdict::{Difference, LineField, ReplayFault, Verdict};
use rv_fields::{MOST_HARTS, NoMemory};
use rv_machine::{Machine, Stepped};
use std::alloc::Global;
use trace_text::TraceLines;

/// Harts that are booting, and the trace beside what they do behind their boots.
#[derive(Drop)]
pub(crate) struct Judge<'a> {
    pub(crate) boots: [Boot; MOST_HARTS],
    pub(crate) comparison: Comparison<'a>,
}

impl<'a> Judge<'a> {
    ghost use Rattle.trace_replay.specs.Judging.{AreBoots, HasJudgedSoFar, HasPlayed, IsFinished};
    ghost use Rattle.trace_replay.specs.Verdicts.{IsTraceFault, difference_seen};

    /// Before the first step.
    pub(crate) fn new(lines: TraceLines<'a>) -> Judge<'a>
        ensures { HasJudgedSoFar (unread lines.entry) [] result }
    {
        Judge {
            boots: [Boot::new(); MOST_HARTS],
            comparison: Comparison::new(lines),
        }
    }

    /// Steps the harts of the machine in the order, and then reads what is left of the trace.
    pub(crate) fn play(
        &mut self,
        alloc: Global,
        machine: &mut Machine,
        order: &[u8],
    ) -> Result<(), ReplayFault>
        requires few { length machine.old.harts.items ≤ most_harts }
        requires named { All (λ hart. hart < length machine.old.harts.items) order.now }
        ensures played { OnOk result ((start : Unread) → HasJudgedSoFar start [] self.old → HasPlayed start (machine_seen machine.old) order.now self.new) }
        ensures fault { IfErr result (λ fault. (start : Unread) → HasJudgedSoFar start [] self.old → IsTraceFault (unread_fault start) fault) }
    {
        for hart in order {
            let stepped = machine.turn(alloc, *hart)?;
            self.take(alloc, *hart, &stepped)?;
        }
        self.comparison.finish(alloc)
    }

    /// Takes a step of the hart: one of its boot, or one to compare.
    fn take(&mut self, alloc: Global, hart: u8, stepped: &Stepped) -> Result<(), ReplayFault>
        requires hart { hart < most_harts }
        requires short { stepped.now.trail.len ≤ 4 }
        requires handled { IfSome stepped.now.trap (λ trap. trap.to ≢ U) }
        ensures judged { OnOk result ((start : Unread) (effects : List Effect) → HasJudgedSoFar start effects self.old
            → HasJudgedSoFar start (effects ++ effect_seen hart stepped.now ∷ []) self.new) }
        ensures fault { IfErr result (λ fault. (start : Unread) (effects : List Effect) → HasJudgedSoFar start effects self.old
            → IsTraceFault (unread_fault start) fault) }
    {
        let place = usize::from(hart);
        let boot = self.boots[place];
        if boot.is_over() {
            return self.comparison.compare(alloc, hart, stepped);
        }
        self.boots[place] = boot.with(stepped);
        Ok(())
    }

    /// What comes of it: the numbers of harts are compared first, then the boots, then the steps.
    pub(crate) fn verdict(
        self,
        alloc: Global,
        harts: u8,
        told_harts: u8,
    ) -> Result<Verdict, NoMemory>
        requires few { harts ≤ most_harts }
        ensures { IfOk result (λ verdict. (lines : List Line) (effects : List Effect) → AreBoots self.entry.boots effects
            → self.entry.comparison.steps ≡ length (effects_of lines)
            → option_map difference_seen self.entry.comparison.first ≡ steps_differ (2 + length lines) (steps_at 2 lines) (behind_boots [] effects)
            → IsOf verdict (length (effects_of lines)) (first_difference told_harts harts lines effects)) }
    {
        if told_harts != harts {
            let difference = Difference::of(alloc, 1, LineField::Harts, told_harts, harts)?;
            return Ok(Verdict::Differs(difference));
        }
        if let Some(difference) = self.boot_difference(alloc, harts)? {
            return Ok(Verdict::Differs(difference));
        }
        Ok(match self.comparison.first {
            Some(difference) => Verdict::Differs(difference),
            None => Verdict::Agrees {
                steps: self.comparison.steps,
            },
        })
    }

    /// The first of so many harts whose boot doesn't pass, with its steps before the first that trapped.
    fn boot_difference(&self, alloc: Global, harts: u8) -> Result<Option<Difference>, NoMemory>
        requires few { harts ≤ most_harts }
        ensures { IfOk result (λ first. (effects : List Effect) → AreBoots self.now.boots effects
            → option_map difference_seen first ≡ boots_differ 0 harts effects) }
    {
        for hart in 0..harts {
            let boot = &self.boots[usize::from(hart)];
            if !boot.passes() {
                let found = boot.untrapped;
                return Ok(Some(Difference::of(alloc, 1, LineField::Boot, hart, found)?));
            }
        }
        Ok(None)
    }
}
