//! What `{}` shows of a trace's lines.
ghost use Rattle.std.specs.Prelude.{◌≡◌, Some};
ghost use Rattle.trace_fields.specs.Text.{joined_by, space_byte};
ghost use Rattle.trace_text.specs.Text.{step_fields, line_body};
ghost use Rattle.trace_text.specs.Lines.{hart_of};
ghost use Rattle.trace_text.specs.Views.{line_seen, step_seen};

use crate::line::{Line, StepLine};
use std::fmt;
use trace_fields::{BytesText, OrNone, PathText, Word, Written};

/// Shows the fields of a step line, from the hart on, parted by single spaces.
impl fmt::Display for StepLine {
    ghost output = { λ step. Some (joined_by space_byte (step_fields (step_seen step))) };

    fn fmt<W: fmt::Write>(&self, f: &mut fmt::Formatter<W>) -> fmt::Result {
        let StepLine {
            hart,
            pc,
            pa,
            word,
            rd,
            access,
            trail,
            trap,
        } = *self;
        let word = Word(word);
        let rd = OrNone(rd.map(Written));
        let access = OrNone(access);
        let trap = OrNone(trap);
        write!(f, "{hart} {pc:x} {pa:x}")?;
        write!(f, " {word} {rd} {access}")?;
        write!(f, " {trail} {trap}")
    }
}

impl Line {
    /// The hart that the line is of.
    fn hart(&self) -> u8
        ensures { result ≡ hart_of (line_seen self.now) }
    {
        match self {
            Line::Q { hart, .. }
            | Line::P { hart, .. }
            | Line::W { hart, .. }
            | Line::X { hart, .. }
            | Line::G { hart, .. }
            | Line::M { hart, .. }
            | Line::Y { hart, .. }
            | Line::D { hart, .. }
            | Line::R { hart, .. } => *hart,
            Line::S(step) | Line::F(step) | Line::E(step) => step.hart,
        }
    }
}

/// Shows the line as it stands in a trace, without the newline that ends it there.
impl fmt::Display for Line {
    ghost output = { λ line. Some (line_body (line_seen line)) };

    fn fmt<W: fmt::Write>(&self, f: &mut fmt::Formatter<W>) -> fmt::Result {
        let hart = self.hart();
        match self {
            Line::Q { k, kind, .. } => write!(f, "q {hart} {k} {kind}"),
            Line::P {
                tree,
                leaf,
                word16,
                ..
            } => write!(f, "p {hart} {tree} {leaf} {word16:x}"),
            Line::W {
                tree,
                path,
                weight,
                ..
            } => write!(f, "w {hart} {tree} {} {weight}", PathText(path)),
            Line::X { reg, value, .. } => write!(f, "x {hart} {reg} {value:x}"),
            Line::G {
                object,
                page,
                frame,
                ..
            } => write!(f, "g {hart} {object} {page} {frame}"),
            Line::M { space, at, pte, .. } => write!(f, "m {hart} {space} {at:x} {pte:x}"),
            Line::Y { at, bytes, .. } => write!(f, "y {hart} {at:x} {}", BytesText(bytes)),
            Line::S(step) => write!(f, "s {step}"),
            Line::F(step) => write!(f, "f {step}"),
            Line::E(step) => write!(f, "e {step}"),
            Line::D { k, .. } => write!(f, "d {hart} {k}"),
            Line::R { k, cause, pre, .. } => write!(f, "r {hart} {k} {cause} {pre}"),
        }
    }
}
