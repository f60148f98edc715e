//! A trace beside the steps that it is to tell.
ghost use Rattle.std.specs.Prelude.{◌≡◌, ◌≢◌, ◌≤◌, ◌<◌, ◌+◌, ◌∷◌, ◌++◌, [], ℕ, List, Some, None, IfOk, IfErr, IfSome, OnOk, MatchResult, length, option_map};
ghost use Rattle.std.specs.Option.{option_or};
ghost use Rattle.rv_fields.specs.declared.mode.Mode.TheVariants.{U};
ghost use Rattle.rv_fields.specs.Effect.{Effect};
ghost use Rattle.rv_step.specs.Views.{effect_seen};
ghost use Rattle.trace_text.specs.Reading.{Unread, unread, unread_fault};
ghost use Rattle.trace_text.specs.Lines.{effect_of, effects_of};
ghost use Rattle.trace_text.specs.Text.{step_fields};
ghost use Rattle.trace_text.specs.Views.{line_seen};
ghost use Rattle.trace_replay.specs.Comparing.{compared_fields, field_differs, fields_differ, unmade};
ghost use Rattle.trace_replay.specs.Shown.{field_text, shown_seen};
ghost use Rattle.trace_replay.specs.Verdicts.{difference_seen};

use crate::comparison::Comparison;
use crate::shown::{FieldOf, Shown};
use crate::verdict::{Difference, LineField, ReplayFault, Text};
use rv_fields::NoMemory;
use rv_machine::Stepped;
use std::alloc::Global;
use std::fmt;
use trace_text::{Line, TraceLines};

/// The fields of a step line in which steps are compared, in the order of their columns.
const FIELDS: [LineField; 8] = [
    LineField::Hart,
    LineField::Pc,
    LineField::Pa,
    LineField::Word,
    LineField::Rd,
    LineField::Access,
    LineField::Trail,
    LineField::Trap,
];

/// What stands for a step that one side lacks.
const NO_STEP: &str = "none";

impl Difference {
    ghost use Rattle.trace_replay.specs.Judging.{IsShown};

    /// The difference in the field of the line, where these are shown.
    pub(crate) fn of<T: fmt::Display + Drop, F: fmt::Display + Drop>(
        alloc: Global,
        line: u64,
        field: LineField,
        told: T,
        found: F,
    ) -> Result<Difference, NoMemory>
        ensures { IfOk result (IsShown line field (T.output told) (F.output found)) }
    {
        let told = Text {
            text: format!(in alloc; "{told}")?,
        };
        let found = Text {
            text: format!(in alloc; "{found}")?,
        };
        Ok(Difference {
            line,
            field,
            told,
            found,
        })
    }
}

impl<'a> Comparison<'a> {
    ghost use Rattle.trace_replay.specs.Judging.{IsCompared, IsComparedBy, IsFinished, ReadsNextLine};
    ghost use Rattle.trace_replay.specs.Verdicts.{IsTraceFault};

    /// Before the first line behind the trace's head, and before the first step.
    pub(crate) fn new(lines: TraceLines<'a>) -> Comparison<'a>
        ensures { IsCompared (unread lines.entry) [] result }
    {
        Comparison {
            lines,
            steps: 0,
            first: None,
        }
    }

    /// Compares a step of the hart with the next step line, where nothing differed yet.
    pub(crate) fn compare(
        &mut self,
        alloc: Global,
        hart: u8,
        stepped: &Stepped,
    ) -> Result<(), ReplayFault>
        requires short { stepped.now.trail.len ≤ 4 }
        requires handled { IfSome stepped.now.trap (λ trap. trap.to ≢ U) }
        ensures compared { OnOk result ((start : Unread) (behind : List Effect) → IsCompared start behind self.old
            → IsCompared start (behind ++ effect_seen hart stepped.now ∷ []) self.new) }
        ensures fault { IfErr result (λ fault. (start : Unread) (behind : List Effect) → IsCompared start behind self.old
            → IsTraceFault (unread_fault start) fault) }
    {
        if self.first.is_none() {
            self.first = self.next_difference(alloc, &Shown::found(hart, stepped))?;
        }
        Ok(())
    }

    /// Reads the trace to its end. A step line that is left tells of a step that nobody made.
    pub(crate) fn finish(&mut self, alloc: Global) -> Result<(), ReplayFault>
        ensures finished { OnOk result ((start : Unread) (behind : List Effect) → IsCompared start behind self.old → IsFinished start behind self.new) }
        ensures fault { IfErr result (λ fault. (start : Unread) (behind : List Effect) → IsCompared start behind self.old
            → IsTraceFault (unread_fault start) fault) }
    {
        while let Some(line) = self.next_line(alloc)? {
            self.take_unmade(alloc, line)?;
        }
        Ok(())
    }

    /// Takes a line that stands where no step is made any more.
    fn take_unmade(&mut self, alloc: Global, line: Line) -> Result<(), NoMemory>
        requires { self.old.steps + 1 < self.old.lines.number }
        ensures first { OnOk result ((number : ℕ) → number + 1 ≡ self.old.lines.number → option_map difference_seen self.new.first
            ≡ option_or (option_map difference_seen self.old.first) (option_map (unmade number) (effect_of (line_seen line)))) }
        ensures lines { self.new.lines ≡ self.old.lines }
        ensures steps { OnOk result (self.new.steps ≡ self.old.steps + length (effects_of (line_seen line ∷ []))) }
    {
        if let Some(told) = step_of(line) {
            self.steps += 1;
            self.lack_step(alloc, &told)?;
        }
        Ok(())
    }

    /// Nobody made the step that the line before the next one tells.
    fn lack_step(&mut self, alloc: Global, told: &Shown) -> Result<(), NoMemory>
        ensures first { OnOk result ((line : ℕ) → line + 1 ≡ self.old.lines.number → option_map difference_seen self.new.first
            ≡ option_or (option_map difference_seen self.old.first) (Some (unmade line (shown_seen told.now)))) }
        ensures lines { self.new.lines ≡ self.old.lines }
        ensures steps { self.new.steps ≡ self.old.steps }
    {
        if self.first.is_none() {
            let line = self.lines.number() - 1;
            let unmade = Difference::of(alloc, line, LineField::Hart, told.hart, NO_STEP)?;
            self.first = Some(unmade);
        }
        Ok(())
    }

    /// The first field in which the next step line differs from the step.
    fn next_difference(
        &mut self,
        alloc: Global,
        found: &Shown,
    ) -> Result<Option<Difference>, ReplayFault>
        requires same { self.old.first ≡ None }
        ensures compared { IfOk result (λ first. (start : Unread) (behind : List Effect) → IsCompared start behind self.old
            → IsComparedBy start (behind ++ shown_seen found.now ∷ []) self.new.lines self.new.steps first) }
        ensures fault { IfErr result (λ fault. (start : Unread) (behind : List Effect) → IsCompared start behind self.old
            → IsTraceFault (unread_fault start) fault) }
    {
        while let Some(line) = self.next_line(alloc)? {
            if let Some(told) = step_of(line) {
                self.steps += 1;
                let line = self.lines.number() - 1;
                return Ok(step_difference(alloc, line, &told, found)?);
            }
        }
        let line = self.lines.number();
        let lacking = Difference::of(alloc, line, LineField::Hart, NO_STEP, found.hart)?;
        Ok(Some(lacking))
    }

    /// Reads the next line.
    fn next_line(&mut self, alloc: Global) -> Result<Option<Line>, ReplayFault>
        ensures next { MatchResult result
            (λ next. ReadsNextLine (option_map line_seen next) (unread self.old.lines) (unread self.new.lines))
            (IsTraceFault (unread_fault (unread self.old.lines))) }
        ensures steps { self.new.steps ≡ self.old.steps }
        ensures first { self.new.first ≡ self.old.first }
    {
        self.lines.next(alloc).map_err(ReplayFault::of_trace)
    }
}

/// The step that the line tells, if it is a step line.
fn step_of(line: Line) -> Option<Shown>
    ensures { option_map shown_seen result ≡ effect_of (line_seen line) }
{
    step_in(&line)
}

/// As `step_of`.
fn step_in(line: &Line) -> Option<Shown>
    ensures { option_map shown_seen result ≡ effect_of (line_seen line.now) }
{
    match line {
        Line::S(step) | Line::F(step) | Line::E(step) => Some(Shown::told(step)),
        _ => None,
    }
}

/// The first field in which the line of this number differs from a step.
fn step_difference(
    alloc: Global,
    line: u64,
    told: &Shown,
    found: &Shown,
) -> Result<Option<Difference>, NoMemory>
    ensures { IfOk result (λ first. option_map difference_seen first
        ≡ fields_differ line compared_fields (step_fields (shown_seen told.now)) (step_fields (shown_seen found.now))) }
{
    for field in FIELDS {
        let difference = field_difference(alloc, line, field, told, found)?;
        if difference.is_some() {
            return Ok(difference);
        }
    }
    Ok(None)
}

/// The difference in the field of the line of this number from a step, if they are spelled otherwise.
fn field_difference(
    alloc: Global,
    line: u64,
    field: LineField,
    told: &Shown,
    found: &Shown,
) -> Result<Option<Difference>, NoMemory>
    ensures { IfOk result (λ difference. option_map difference_seen difference
        ≡ field_differs line field (field_text field (shown_seen told.now)) (field_text field (shown_seen found.now))) }
{
    if told.has_same(field, found) {
        return Ok(None);
    }
    let told = FieldOf { field, step: told };
    let found = FieldOf { field, step: found };
    let difference = Difference::of(alloc, line, field, told, found)?;
    let differs = difference.told != difference.found;
    Ok(if differs { Some(difference) } else { None })
}
