ghost use Rattle.std.specs.Prelude.{◌≡◌, ◌≢◌, Option, Some, string_bytes};
ghost use Rattle.trace_fields.specs.Fields.{Place};
ghost use Rattle.trace_fields.specs.Taking.{IsFault};
ghost use Rattle.trace_replay.specs.declared.verdict.ReplayFault.TheVariants.{Memory};
ghost use Rattle.trace_replay.specs.Judging.{handed_on};
ghost use Rattle.trace_replay.specs.Verdicts.{IsTraceFault};

use elf_file::ElfFault;
use rv_fields::NoMemory;
use std::fmt;
use trace_fields::LineFault;

/// What of a line of a trace is compared. A difference in `Harts`, the number of harts, or in the `Boot` of a hart is told of the first line.
#[derive(Clone, Copy, Debug, PartialEq, Eq)]
pub enum LineField {
    Harts,
    Boot,
    Hart,
    Pc,
    Pa,
    Word,
    Rd,
    Access,
    Trail,
    Trap,
}

impl fmt::Display for LineField {
    ghost use Rattle.std.specs.Prelude.{Some};
    ghost use Rattle.trace_replay.specs.Comparing.{field_name};

    ghost output = { λ field. Some (field_name field) };

    fn fmt<W: fmt::Write>(&self, f: &mut fmt::Formatter<W>) -> fmt::Result {
        f.write_str(match self {
            LineField::Harts => "harts",
            LineField::Boot => "boot",
            LineField::Hart => "hart",
            LineField::Pc => "pc",
            LineField::Pa => "pa",
            LineField::Word => "word",
            LineField::Rd => "rd",
            LineField::Access => "access",
            LineField::Trail => "trail",
            LineField::Trap => "trap",
        })
    }
}

/// What a trace tells of a field, or what was found in its place, in the spelling of a trace.
#[derive(Debug, Drop, PartialEq, Eq)]
pub struct Text {
    pub(crate) text: String,
}

impl Text {
    pub fn bytes(&self) -> &[u8]
        ensures { result.now ≡ string_bytes self.now.text }
    {
        self.text.as_bytes()
    }
}

/// A field of a line that is spelled otherwise: the line of the trace, which counts from 1, the field, and both spellings.
#[derive(Debug, Drop, PartialEq, Eq)]
pub struct Difference {
    pub line: u64,
    pub field: LineField,
    pub told: Text,
    pub found: Text,
}

impl fmt::Display for Difference {
    ghost use Rattle.trace_replay.specs.Verdicts.{difference_seen, difference_text};

    ghost output = { λ difference. Some (difference_text (difference_seen difference)) };

    fn fmt<W: fmt::Write>(&self, f: &mut fmt::Formatter<W>) -> fmt::Result {
        write!(f, "line {} field {}", self.line, self.field)?;
        write!(
            f,
            " told {} found {}",
            self.told.text.as_str(),
            self.found.text.as_str()
        )
    }
}

/// Whether a trace tells what the program does.
#[derive(Debug, Drop, PartialEq, Eq)]
pub enum Verdict {
    /// It does. The trace has so many step lines.
    Agrees { steps: u64 },
    /// It doesn't. This is the first difference.
    Differs(Difference),
}

impl fmt::Display for Verdict {
    ghost use Rattle.trace_replay.specs.Verdicts.{verdict_text};

    ghost output = { λ verdict. Some (verdict_text verdict) };

    fn fmt<W: fmt::Write>(&self, f: &mut fmt::Formatter<W>) -> fmt::Result {
        match self {
            Verdict::Agrees { steps } => write!(f, "agrees {steps} steps"),
            Verdict::Differs(difference) => write!(f, "{difference}"),
        }
    }
}

/// Why files are not compared: the fault of the first of them that isn't in its form, or that memory ran out. The faults that are
/// handed on are never out of memory themselves.
#[derive(Clone, Copy, Debug, PartialEq, Eq)]
pub enum ReplayFault {
    Elf(ElfFault),
    Order(LineFault),
    Trace(LineFault),
    Memory,
}

impl ReplayFault {
    pub(crate) fn of_elf(fault: ElfFault) -> ReplayFault
        ensures memory { fault ≡ ElfFault.Memory → result ≡ ReplayFault.Memory }
        ensures other { fault ≢ ElfFault.Memory → result ≡ ReplayFault.Elf fault }
    {
        ReplayFault::Elf(fault).handed_on()
    }

    pub(crate) fn of_order(fault: LineFault) -> ReplayFault
        ensures memory { fault ≡ LineFault.Memory → result ≡ ReplayFault.Memory }
        ensures other { fault ≢ LineFault.Memory → result ≡ ReplayFault.Order fault }
    {
        ReplayFault::Order(fault).handed_on()
    }

    pub(crate) fn of_trace(fault: LineFault) -> ReplayFault
        ensures memory { fault ≡ LineFault.Memory → result ≡ ReplayFault.Memory }
        ensures other { fault ≢ LineFault.Memory → result ≡ ReplayFault.Trace fault }
        ensures place { (place : Option Place) → IsFault place fault → IsTraceFault place result }
    {
        ReplayFault::Trace(fault).handed_on()
    }

    /// As it is handed on: being out of memory is told as such, whichever file was read.
    fn handed_on(self) -> ReplayFault
        ensures { result ≡ handed_on self }
    {
        match self {
            ReplayFault::Elf(ElfFault::Memory)
            | ReplayFault::Order(LineFault::Memory)
            | ReplayFault::Trace(LineFault::Memory) => ReplayFault::Memory,
            fault => fault,
        }
    }
}

impl From<NoMemory> for ReplayFault {
    ghost from_gives = { λ _ fault. fault ≡ Memory };

    fn from(_: NoMemory) -> ReplayFault {
        ReplayFault::Memory
    }
}
