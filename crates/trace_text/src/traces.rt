ghost use Rattle.std.specs.Prelude.{◌≡◌, ℕ, ◌<◌, ◌≤◌, ◌+◌, ◌∷◌, [], length, List, Some, None, IfOk, IfErr, MatchResult};
ghost use Rattle.trace_text.specs.Text.{trace_text, line_fields};
ghost use Rattle.trace_fields.specs.Fields.{fields_in};
ghost use Rattle.trace_text.specs.Forms.{lines_of_text};
ghost use Rattle.trace_text.specs.Lines as model;
ghost use Rattle.trace_text.specs.Traces.{IsTrace, IsLine, trace_fault, trace_tests};
ghost use Rattle.trace_fields.specs.Taking.{IsFault, IsWrongBy, whole_line};
ghost use Rattle.trace_text.specs.Views.{line_seen, lines_seen};

use crate::line::Line;
use crate::lines;
use crate::reading::{HEADER_FIELDS, at_end, header};
use crate::trace_lines::TraceLines;
use std::alloc::Global;
use trace_fields::{Fields, LineFault, cut};

impl<'a> TraceLines<'a> {
    ghost use Rattle.trace_text.specs.Reading.{Begins, ReadsNext, unread};

    /// Reads the first line of a trace, which tells the number of harts.
    pub fn of(bytes: &'a [u8]) -> Result<TraceLines<'a>, LineFault>
        ensures { MatchResult result (λ lines. Begins bytes.now (unread lines)) (λ fault. IsFault (trace_fault bytes.now) fault) }
    {
        let Some((first, rest)) = cut(bytes, b'\n') else {
            return Err(at_end(1, header(bytes, "trace").err(), HEADER_FIELDS));
        };
        let harts = header(first, "trace")?;
        Ok(TraceLines {
            harts,
            number: 2,
            rest,
        })
    }

    /// The number of harts that the trace tells, 1 to 16.
    pub fn harts(&self) -> u8
        ensures { result ≡ (unread self.now).harts }
    {
        self.harts
    }

    /// The number of the line that is read next, where there is one. The first line has the number 1.
    pub fn number(&self) -> u64
        ensures { result ≡ (unread self.now).number }
    {
        self.number
    }

    /// Reads the next line; none where all lines are read. After a fault the same line is the next.
    pub fn next(&mut self, alloc: Global) -> Result<Option<Line>, LineFault>
        ensures next { ReadsNext (unread self.old) (unread self.new) result }
        ensures stays { IfErr result (λ fault. unread self.new ≡ unread self.old) }
    {
        let Some((first, behind)) = cut(self.rest, b'\n') else {
            return self.end(alloc);
        };
        let line = read_line(alloc, self.number, self.harts, first)?;
        self.rest = behind;
        self.number += 1;
        Ok(Some(line))
    }

    /// Where no newline is left, all lines are read, or the last one isn't ended.
    fn end(&self, alloc: Global) -> Result<Option<Line>, LineFault>
        requires { let text = (unread self.now).text in lines_of_text text ≡ text ∷ [] }
        ensures { ReadsNext (unread self.now) (unread self.now) result }
    {
        match self.rest {
            [] => Ok(None),
            open => Err(fault_at_end(self.number, read_line(alloc, self.number, self.harts, open))),
        }
    }
}

/// Reads the text of a trace: the number of harts, and the lines.
pub fn read_trace(alloc: Global, bytes: &[u8]) -> Result<(u8, Vec<Line>), LineFault>
    // What is read is a trace, and the bytes are its text.
    ensures read { IfOk result (λ read. IsTrace read.0 (lines_seen read.1.items) × (bytes.now ≡ trace_text read.0 (lines_seen read.1.items))) }
    // The text of a trace is read as that trace, unless memory runs out.
    ensures again { (harts : ℕ) → (lines : List model.Line) → IsTrace harts lines → bytes.now ≡ trace_text harts lines
        → MatchResult result (λ read. (read.0 ≡ harts) × (lines_seen read.1.items ≡ lines)) (λ fault. fault ≡ LineFault.Memory) }
    // Bytes that are no trace's text have their first fault for an answer, unless memory runs out.
    ensures fault { IfErr result (λ fault. IsFault (trace_fault bytes.now) fault) }
{
    read_all(alloc, bytes)
}

/// As `read_trace`.
fn read_all(alloc: Global, bytes: &[u8]) -> Result<(u8, Vec<Line>), LineFault>
    ensures { MatchResult result
        (λ read. IsTrace read.0 (lines_seen read.1.items) × (bytes.now ≡ trace_text read.0 (lines_seen read.1.items)))
        (λ fault. IsFault (trace_fault bytes.now) fault) }
{
    let mut unread = TraceLines::of(bytes)?;
    let mut lines = Vec::new(alloc);
    while let Some(line) = unread.next(alloc)? {
        lines.push(line).map_err(|_| LineFault::Memory)?;
    }
    Ok((unread.harts(), lines))
}

/// The fault of a line that no newline ends.
fn fault_at_end(number: u64, read: Result<Line, LineFault>) -> LineFault
    ensures { MatchResult read (λ line. result ≡ LineFault.At number (length (line_fields (line_seen line)) + 1)) (λ fault. result ≡ fault) }
{
    match read {
        Ok(line) => at_end(number, None, field_count(&line)),
        Err(fault) => fault,
    }
}

/// The number of fields of a line.
fn field_count(line: &Line) -> u32
    ensures count { result ≡ length (line_fields (line_seen line.now)) }
    ensures few { result ≤ 9 }
{
    match line {
        Line::D { .. } => 3,
        Line::Q { .. } | Line::X { .. } | Line::Y { .. } => 4,
        Line::P { .. } | Line::W { .. } | Line::G { .. } | Line::M { .. } | Line::R { .. } => 5,
        Line::S(_) | Line::F(_) | Line::E(_) => 9,
    }
}

/// The line of this number, which has this text.
fn read_line(alloc: Global, number: u64, harts: u8, text: &[u8]) -> Result<Line, LineFault>
    ensures { let fields = fields_in text.now in
        MatchResult result
        (λ line. (fields ≡ line_fields (line_seen line)) × IsLine harts (line_seen line))
        (λ fault. IsWrongBy (trace_tests (Some harts) fields) (whole_line number fields) fault) }
{
    let mut fields = Fields::of(number, text);
    let fault = fields.fault();
    let [key] = fields.next()? else {
        return Err(fault);
    };
    match *key {
        b'q' => lines::request(&mut fields, harts),
        b'p' => lines::picked(&mut fields, harts),
        b'w' => lines::weighed(alloc, &mut fields, harts),
        b'x' => lines::fixed(&mut fields, harts),
        b'g' => lines::given(&mut fields, harts),
        b'm' => lines::settled(&mut fields, harts),
        b'y' => lines::touched(alloc, &mut fields, harts),
        b's' => Ok(Line::S(lines::step(&mut fields, harts)?)),
        b'f' => Ok(Line::F(lines::step(&mut fields, harts)?)),
        b'e' => Ok(Line::E(lines::step(&mut fields, harts)?)),
        b'd' => lines::done(&mut fields, harts),
        b'r' => lines::refused(&mut fields, harts),
        _ => Err(fault),
    }
}
