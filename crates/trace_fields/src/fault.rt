ghost use Rattle.std.specs.Prelude.{◌≡◌};

use std::alloc::AllocError;
use std::fmt;

/// Why a text was not read.
#[derive(Clone, Copy, Debug, PartialEq, Eq)]
pub enum LineFault {
    /// The text isn't in its form. This is the first field that is wrong, missing or too many in the first line
    /// that has one. Lines and fields count from 1.
    At { line: u64, field: u32 },
    /// Out of memory.
    Memory,
}

impl fmt::Display for LineFault {
    ghost use Rattle.std.specs.Prelude.{Some};
    ghost use Rattle.trace_fields.specs.Messages.{line_message};

    ghost output = { λ fault. Some (line_message fault) };

    fn fmt<W: fmt::Write>(&self, f: &mut fmt::Formatter<W>) -> fmt::Result {
        match *self {
            LineFault::At { line, field } => write!(f, "line {line} field {field}"),
            LineFault::Memory => write!(f, "out of memory"),
        }
    }
}

impl From<AllocError> for LineFault {
    ghost use Rattle.trace_fields.specs.declared.fault.LineFault.TheVariants.{Memory};

    ghost from_gives = { λ _ fault. fault ≡ Memory };

    fn from(_: AllocError) -> LineFault {
        LineFault::Memory
    }
}
