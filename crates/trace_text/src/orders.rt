ghost use Rattle.std.specs.Prelude.{◌≡◌, ◌≢◌, ℕ, ◌<◌, ◌≤◌, ◌+◌, ◌++◌, ◌∷◌, [], ◌^◌, length, replicate, OnOk, List, Some, None, All, IfSome, IfOk, IfErr, MatchResult};
ghost use Rattle.std.specs.List.{flat_map};
ghost use Rattle.std.specs.Fmt.{decimal};
ghost use Rattle.trace_text.specs.Text.{order_text, turns_of, turns_text};
ghost use Rattle.trace_fields.specs.Fields.{fields_in, first_wrong};
ghost use Rattle.trace_text.specs.Orders.{IsOrder, turns_so_far, order_fault, order_tests, number_in, most_steps};
ghost use Rattle.trace_text.specs.Reading.{turns_fault};
ghost use Rattle.trace_fields.specs.Taking.{IsFault, IsWrongBy, whole_line};

use crate::reading::{HEADER_FIELDS, at_end, header};
use crate::turns::Turns;
use std::alloc::{AllocError, Global};
use trace_fields::{Fields, LineFault, cut};

/// No order has more steps.
const MOST_STEPS: usize = 1_048_576;

/// The number of fields of a line behind the first.
const TURNS_FIELDS: u32 = 2;

/// Reads the text of an order: the number of harts, and the hart of each step in turn.
pub fn read_order(alloc: Global, bytes: &[u8]) -> Result<(u8, Vec<u8>), LineFault>
    // What is read is an order, and the bytes are its text.
    ensures read { IfOk result (λ read. IsOrder read.0 read.1.items × (bytes.now ≡ order_text read.0 read.1.items)) }
    // The text of an order is read as that order, unless memory runs out.
    ensures again { (harts : ℕ) → (order : List ℕ) → IsOrder harts order → bytes.now ≡ order_text harts order
        → MatchResult result (λ read. (read.0 ≡ harts) × (read.1.items ≡ order)) (λ fault. fault ≡ LineFault.Memory) }
    // Bytes that are no order's text have their first fault for an answer, unless memory runs out.
    ensures fault { IfErr result (λ fault. IsFault (order_fault bytes.now) fault) }
{
    read_lines(alloc, bytes)
}

/// As `read_order`.
fn read_lines(alloc: Global, bytes: &[u8]) -> Result<(u8, Vec<u8>), LineFault>
    ensures { MatchResult result
        (λ read. IsOrder read.0 read.1.items × (bytes.now ≡ order_text read.0 read.1.items))
        (λ fault. IsFault (order_fault bytes.now) fault) }
{
    let Some((first, behind)) = cut(bytes, b'\n') else {
        return Err(at_end(1, header(bytes, "order").err(), HEADER_FIELDS));
    };
    let harts = header(first, "order")?;
    let order = read_turns(alloc, harts, behind)?;
    Ok((harts, order))
}

/// Reads the lines behind the first.
fn read_turns(alloc: Global, harts: u8, lines: &[u8]) -> Result<Vec<u8>, LineFault>
    ensures { MatchResult result
        (λ order. All (λ hart. hart < harts) order.items × (length order.items ≤ most_steps) × (lines.now ≡ flat_map turns_text (turns_of order.items)))
        (λ fault. IsFault (turns_fault harts lines.now) fault) }
{
    let mut rest = lines;
    let mut order = Vec::new(alloc);
    let mut last = None;
    let mut line = 2;
    while let Some((first, behind)) = cut(rest, b'\n') {
        let turns = turns_of(line, first, harts, last, order.len())?;
        append_turns(turns, &mut order)?;
        last = Some(turns.hart);
        rest = behind;
        line += 1;
    }
    if !rest.is_empty() {
        let turns = turns_of(line, rest, harts, last, order.len());
        return Err(at_end(line, turns.err(), TURNS_FIELDS));
    }
    Ok(order)
}

/// Adds so many steps of one hart at the end.
fn append_turns(turns: Turns, order: &mut Vec<u8>) -> Result<(), AllocError>
    requires { length order.old.items + turns.count < 2 ^ 32 }
    ensures { OnOk result (order.new.items ≡ order.old.items ++ replicate turns.count turns.hart) }
{
    order.resize(order.len() + turns.count, turns.hart)?;
    Ok(())
}

/// The steps that a line behind so many steps tells, where the line before is of the hart `last`.
fn turns_of(
    line: u64,
    text: &[u8],
    harts: u8,
    last: Option<u8>,
    steps: usize,
) -> Result<Turns, LineFault>
    requires { steps ≤ most_steps }
    ensures { let fields = fields_in text.now in
        let tests = order_tests (turns_so_far harts last steps) fields in
        MatchResult result
        (λ told. (first_wrong 1 tests fields ≡ None) × (told.hart ≡ number_in fields 0) × (told.count ≡ number_in fields 1)
        × (fields ≡ decimal told.hart ∷ decimal told.count ∷ []) × (told.hart < harts) × (1 ≤ told.count) × (told.count + steps ≤ most_steps)
        × IfSome last (λ before. before ≢ told.hart))
        (λ fault. IsWrongBy tests (whole_line line fields) fault) }
{
    let mut fields = Fields::of(line, text);
    let hart = fields.other_hart(harts, last)?;
    let count = fields.count_below(MOST_STEPS - steps + 1)?;
    fields.end()?;
    Ok(Turns { hart, count })
}
