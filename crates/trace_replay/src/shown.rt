//! Steps in the types that a trace shows them by.
ghost use Rattle.std.specs.Prelude.{◌≡◌, ◌≢◌, ◌≤◌, IfSome, IsTrue, Some};
ghost use Rattle.rv_fields.specs.declared.mode.Mode.TheVariants.{U};
ghost use Rattle.rv_step.specs.Views as steps;
ghost use Rattle.sv_walk.specs.Views.{trail_seen};
ghost use Rattle.trace_text.specs.Views.{step_seen};
ghost use Rattle.trace_replay.specs.Shown.{field_text, shown_seen};

use crate::verdict::LineField;
use rv_machine::Stepped;
use std::fmt;
use sv_walk::Trail;
use trace_fields::{AccessText, EntryText, Hex, OrNone, TrailText, TrapText, Word, Written};
use trace_text::StepLine;

/// What is compared of a step.
#[derive(Clone, Copy, Debug)]
pub(crate) struct Shown {
    pub(crate) hart: u8,
    pc: u64,
    pa: Option<u64>,
    word: Option<u32>,
    rd: Option<(u8, u64)>,
    access: Option<AccessText>,
    trail: TrailText,
    trap: Option<TrapText>,
}

impl Shown {
    /// What a step line tells.
    pub(crate) fn told(step: &StepLine) -> Shown
        ensures { shown_seen result ≡ step_seen step.now }
    {
        Shown {
            hart: step.hart,
            pc: step.pc,
            pa: Some(step.pa),
            word: Some(step.word),
            rd: step.rd,
            access: step.access,
            trail: step.trail,
            trap: step.trap,
        }
    }

    /// What a step of the hart did.
    pub(crate) fn found(hart: u8, stepped: &Stepped) -> Shown
        requires short { stepped.now.trail.len ≤ 4 }
        requires handled { IfSome stepped.now.trap (λ trap. trap.to ≢ U) }
        ensures { shown_seen result ≡ steps.effect_seen hart stepped.now }
    {
        Shown {
            hart,
            pc: stepped.pc,
            pa: stepped.pa,
            word: stepped.word,
            rd: stepped.rd,
            access: stepped.access.map(AccessText::of),
            trail: trail_of(&stepped.trail),
            trap: stepped.trap.map(TrapText::of),
        }
    }

    /// Whether both spell the field alike, as far as that is seen without spelling it.
    #[tactic(auto, using(crate::proofs::Sames::same_number, crate::proofs::Sames::same_numbers))]
    pub(crate) fn has_same(&self, field: LineField, other: &Shown) -> bool
        ensures { IsTrue result → field_text field (shown_seen self.now) ≡ field_text field (shown_seen other.now) }
    {
        match field {
            LineField::Harts | LineField::Boot => true,
            LineField::Hart => self.hart == other.hart,
            LineField::Pc => self.pc == other.pc,
            LineField::Pa => self.pa == other.pa,
            LineField::Word => self.word == other.word,
            LineField::Rd => self.rd == other.rd,
            LineField::Access => self.access.is_none() && other.access.is_none(),
            LineField::Trail => self.trail.entries().is_empty() && other.trail.entries().is_empty(),
            LineField::Trap => self.trap.is_none() && other.trap.is_none(),
        }
    }
}

/// The entries that a walk read.
fn trail_of(trail: &Trail) -> TrailText
    requires { trail.now.len ≤ 4 }
    ensures { result ≡ trail_seen trail.now }
{
    let mut shown = TrailText::new();
    for place in 0..usize::from(trail.len) {
        let entry = EntryText {
            at: trail.at[place],
            pte: trail.pte[place],
        };
        shown = shown.with_entry(entry).unwrap_or(shown);
    }
    shown
}

/// One field of a step, as a trace spells it.
#[derive(Clone, Copy)]
pub(crate) struct FieldOf<'a> {
    pub(crate) field: LineField,
    pub(crate) step: &'a Shown,
}

impl fmt::Display for FieldOf<'_> {
    ghost output = { λ shown. Some (field_text shown.field (shown_seen shown.step.now)) };

    fn fmt<W: fmt::Write>(&self, f: &mut fmt::Formatter<W>) -> fmt::Result {
        let step = self.step;
        match self.field {
            LineField::Harts | LineField::Boot => Ok(()),
            LineField::Hart => write!(f, "{}", step.hart),
            LineField::Pc => write!(f, "{}", Hex(step.pc)),
            LineField::Pa => write!(f, "{}", OrNone(step.pa.map(Hex))),
            LineField::Word => write!(f, "{}", OrNone(step.word.map(Word))),
            LineField::Rd => write!(f, "{}", OrNone(step.rd.map(Written))),
            LineField::Access => write!(f, "{}", OrNone(step.access)),
            LineField::Trail => write!(f, "{}", step.trail),
            LineField::Trap => write!(f, "{}", OrNone(step.trap)),
        }
    }
}
