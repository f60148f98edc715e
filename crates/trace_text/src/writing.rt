ghost use Rattle.std.specs.Prelude.{◌≡◌, ◌++◌, length, take, Some, OnOk, OnErr};
ghost use Rattle.std.specs.Fmt.{AppendsText, with_newline};
ghost use Rattle.trace_text.specs.Views.{lines_seen};
ghost use Rattle.trace_text.specs.Text.{trace_text, order_text};

use crate::line::Line;
use crate::turns::Turns;
use rv_fields::NoMemory;
use std::fmt;

/// Writes the trace of so many harts at the end of `into`.
pub fn write_trace(harts: u8, lines: &[Line], into: &mut Vec<u8>) -> Result<(), NoMemory>
    ensures text { OnOk result (into.new.items ≡ into.old.items ++ trace_text harts (lines_seen lines.now)) }
    ensures unchanged { OnErr result (into.new.items ≡ into.old.items) }
{
    let before = into.len();
    let appended = append_trace(harts, lines, into);
    if appended.is_err() {
        into.truncate(before);
    }
    appended
}

/// Writes the order in which so many harts step at the end of `into`: the hart of each step, in turn.
pub fn write_order(harts: u8, order: &[u8], into: &mut Vec<u8>) -> Result<(), NoMemory>
    ensures text { OnOk result (into.new.items ≡ into.old.items ++ order_text harts order.now) }
    ensures unchanged { OnErr result (into.new.items ≡ into.old.items) }
{
    let before = into.len();
    let appended = append_order(harts, order, into);
    if appended.is_err() {
        into.truncate(before);
    }
    appended
}

/// As `write_trace`, but an error may leave some of the text behind what was there.
fn append_trace(harts: u8, lines: &[Line], into: &mut Vec<u8>) -> Result<(), NoMemory>
    ensures text { OnOk result (into.new.items ≡ into.old.items ++ trace_text harts (lines_seen lines.now)) }
    ensures front { take (length into.old.items) into.new.items ≡ into.old.items }
{
    let mut buffer = String::new(*into.allocator());
    append_line(format_args!("trace 1 {harts}"), &mut buffer, into)?;
    for line in lines {
        append_line(line, &mut buffer, into)?;
    }
    Ok(())
}

/// As `write_order`, but an error may leave some of the text behind what was there.
#[tactic(auto, using(crate::proofs::Runs::front_stays))]
fn append_order(harts: u8, order: &[u8], into: &mut Vec<u8>) -> Result<(), NoMemory>
    ensures text { OnOk result (into.new.items ≡ into.old.items ++ order_text harts order.now) }
    ensures front { take (length into.old.items) into.new.items ≡ into.old.items }
{
    let mut buffer = String::new(*into.allocator());
    append_line(format_args!("order 1 {harts}"), &mut buffer, into)?;
    let Some((first, rest)) = order.split_first() else {
        return Ok(());
    };
    let mut turns = Turns {
        hart: *first,
        count: 1,
    };
    for hart in rest {
        if *hart != turns.hart {
            append_line(turns, &mut buffer, into)?;
            turns = Turns {
                hart: *hart,
                count: 0,
            };
        }
        turns.count += 1;
    }
    append_line(turns, &mut buffer, into)?;
    Ok(())
}

/// Puts what `{}` shows of the line, and a newline, at the end of `into`. The line is made whole
/// in the buffer first, so an error leaves no part of it behind.
fn append_line<D: fmt::Display + Drop>(
    line: D,
    buffer: &mut String,
    into: &mut Vec<u8>,
) -> Result<(), NoMemory>
    ensures text { OnOk result (AppendsText into.old.items into.new.items (with_newline (D.output line))) }
    ensures unchanged { OnErr result (into.new.items ≡ into.old.items) }
{
    buffer.clear();
    writeln!(buffer, "{line}")?;
    into.extend_from_slice(buffer.as_bytes())?;
    Ok(())
}
