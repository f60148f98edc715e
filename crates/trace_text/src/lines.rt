//! The lines of a trace, each read behind the field that tells its form.
ghost use Rattle.std.specs.Prelude.{◌≡◌, ◌<◌, MatchResult};
ghost use Rattle.trace_fields.specs.Taking.{left, IsWrongBy};
ghost use Rattle.trace_text.specs.Text.{step_fields};
ghost use Rattle.trace_text.specs.Traces.{request_form, picked_form, weighed_form, fixed_form, given_form, settled_form, touched_form, step_tests, done_form, refused_form, tests_behind, IsStep};
ghost use Rattle.trace_text.specs.Views.{step_seen};
ghost use Rattle.trace_text.specs.LineReading.{ReadsLine};

use crate::line::{Line, StepLine};
use std::alloc::Global;
use trace_fields::{Fields, LineFault};

/// A request begins.
pub(crate) fn request(fields: &mut Fields, harts: u8) -> Result<Line, LineFault>
    requires { (left fields.old).number ≡ 2 }
    ensures { ReadsLine request_form harts fields.old result }
{
    let hart = fields.hart(harts)?;
    let k = fields.count()?;
    let kind = fields.kind()?;
    fields.end()?;
    Ok(Line::Q { hart, k, kind })
}

/// A leaf was picked.
pub(crate) fn picked(fields: &mut Fields, harts: u8) -> Result<Line, LineFault>
    requires { (left fields.old).number ≡ 2 }
    ensures { ReadsLine picked_form harts fields.old result }
{
    let hart = fields.hart(harts)?;
    let tree = fields.name()?;
    let leaf = fields.name()?;
    let word16 = fields.hex()?;
    fields.end()?;
    Ok(Line::P {
        hart,
        tree,
        leaf,
        word16,
    })
}

/// A node has a new weight.
pub(crate) fn weighed(alloc: Global, fields: &mut Fields, harts: u8) -> Result<Line, LineFault>
    requires { (left fields.old).number ≡ 2 }
    ensures { ReadsLine weighed_form harts fields.old result }
{
    let hart = fields.hart(harts)?;
    let tree = fields.name()?;
    let path = fields.path(alloc)?;
    let weight = fields.count()?;
    fields.end()?;
    Ok(Line::W {
        hart,
        tree,
        path,
        weight,
    })
}

/// A register starts with a value.
pub(crate) fn fixed(fields: &mut Fields, harts: u8) -> Result<Line, LineFault>
    requires { (left fields.old).number ≡ 2 }
    ensures { ReadsLine fixed_form harts fields.old result }
{
    let hart = fields.hart(harts)?;
    let reg = fields.register()?;
    let value = fields.hex()?;
    fields.end()?;
    Ok(Line::X { hart, reg, value })
}

/// A page is given a frame.
pub(crate) fn given(fields: &mut Fields, harts: u8) -> Result<Line, LineFault>
    requires { (left fields.old).number ≡ 2 }
    ensures { ReadsLine given_form harts fields.old result }
{
    let hart = fields.hart(harts)?;
    let object = fields.name()?;
    let page = fields.count()?;
    let frame = fields.count()?;
    fields.end()?;
    Ok(Line::G {
        hart,
        object,
        page,
        frame,
    })
}

/// A page table entry is fixed.
pub(crate) fn settled(fields: &mut Fields, harts: u8) -> Result<Line, LineFault>
    requires { (left fields.old).number ≡ 2 }
    ensures { ReadsLine settled_form harts fields.old result }
{
    let hart = fields.hart(harts)?;
    let space = fields.space()?;
    let at = fields.hex()?;
    let pte = fields.hex()?;
    fields.end()?;
    Ok(Line::M {
        hart,
        space,
        at,
        pte,
    })
}

/// Memory starts with bytes.
pub(crate) fn touched(alloc: Global, fields: &mut Fields, harts: u8) -> Result<Line, LineFault>
    requires { (left fields.old).number ≡ 2 }
    ensures { ReadsLine touched_form harts fields.old result }
{
    let hart = fields.hart(harts)?;
    let at = fields.hex()?;
    let bytes = fields.bytes(alloc)?;
    fields.end()?;
    Ok(Line::Y { hart, at, bytes })
}

/// What a step did, from the hart on.
pub(crate) fn step(fields: &mut Fields, harts: u8) -> Result<StepLine, LineFault>
    requires { (left fields.old).number ≡ 2 }
    ensures { MatchResult result
        (λ step. ((left fields.old).fields ≡ step_fields (step_seen step)) × (step.hart < harts) × IsStep (step_seen step))
        (λ fault. IsWrongBy (tests_behind harts step_tests) (left fields.old) fault) }
{
    let hart = fields.hart(harts)?;
    let pc = fields.hex()?;
    let pa = fields.hex()?;
    let word = fields.word()?;
    let rd = fields.write()?;
    let access = fields.access()?;
    let trail = fields.trail()?;
    let trap = fields.trap()?;
    fields.end()?;
    Ok(StepLine {
        hart,
        pc,
        pa,
        word,
        rd,
        access,
        trail,
        trap,
    })
}

/// A request is done.
pub(crate) fn done(fields: &mut Fields, harts: u8) -> Result<Line, LineFault>
    requires { (left fields.old).number ≡ 2 }
    ensures { ReadsLine done_form harts fields.old result }
{
    let hart = fields.hart(harts)?;
    let k = fields.count()?;
    fields.end()?;
    Ok(Line::D { hart, k })
}

/// A request is refused.
pub(crate) fn refused(fields: &mut Fields, harts: u8) -> Result<Line, LineFault>
    requires { (left fields.old).number ≡ 2 }
    ensures { ReadsLine refused_form harts fields.old result }
{
    let hart = fields.hart(harts)?;
    let k = fields.count()?;
    let cause = fields.cause()?;
    let pre = fields.preamble()?;
    fields.end()?;
    Ok(Line::R {
        hart,
        k,
        cause,
        pre,
    })
}
