ghost use Rattle.std.specs.Prelude.{◌≡◌, ◌++◌, IfOk, OnOk};
ghost use Rattle.std.specs.Option.{option_map};
ghost use Rattle.rv_fields.specs.Effect.{Effect};
ghost use Rattle.trace_text.specs.Lines.{effect_of, effects_of};
ghost use Rattle.trace_text.specs.Views.{line_seen, lines_seen};
ghost use Rattle.run_merge.specs.Justified as justified;
ghost use Rattle.boot_words.specs.Passing.{boots_from};
ghost use Rattle.run_merge.specs.Order.{whole_order};

use boot_words::BOOT_STEPS;
use rv_fields::NoMemory;
use std::alloc::Global;
use trace_text::Line;

/// The order in which so many harts step: their boots, one after another, and then the steps of the lines.
pub(crate) fn order_of(alloc: Global, harts: u8, lines: &[Line]) -> Result<Vec<u8>, NoMemory>
    ensures { IfOk result (λ order. order.items ≡ whole_order harts (effects_of (lines_seen lines.now))) }
{
    let mut order = Vec::new(alloc);
    add_boots(&mut order, harts)?;
    add_steps(&mut order, lines)?;
    Ok(order)
}

/// Adds the boots of so many harts, in rising order.
fn add_boots(order: &mut Vec<u8>, harts: u8) -> Result<(), NoMemory>
    ensures { OnOk result (order.new.items ≡ order.old.items ++ boots_from 0 harts) }
{
    for hart in 0..harts {
        order.resize(order.len() + BOOT_STEPS as usize, hart)?;
    }
    Ok(())
}

/// Adds the harts of the steps that the lines tell.
fn add_steps(order: &mut Vec<u8>, lines: &[Line]) -> Result<(), NoMemory>
    ensures { OnOk result (order.new.items ≡ order.old.items ++ justified.order_of (effects_of (lines_seen lines.now))) }
{
    for line in lines {
        match stepping_hart(line) {
            Some(hart) => order.push(hart)?,
            None => {}
        }
    }
    Ok(())
}

/// The hart whose step the line tells.
fn stepping_hart(line: &Line) -> Option<u8>
    ensures { result ≡ option_map (λ (e : Effect). e.hart) (effect_of (line_seen line.now)) }
{
    match line {
        Line::S(step) | Line::F(step) | Line::E(step) => Some(step.hart),
        _ => None,
    }
}
