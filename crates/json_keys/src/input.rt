ghost use Rattle.std.specs.Prelude.{◌≡◌, Some};
ghost use Rattle.json_keys.specs.declared.input.InputFault.TheVariants.{Memory};

use std::alloc::{AllocError, AllocFailed};
use std::error::Error;
use std::fmt;

/// Why an input file isn't read.
#[derive(Clone, Copy, Debug, PartialEq, Eq)]
pub enum InputFault {
    /// It holds what this program can't do yet, or nothing that it knows.
    NotBuilt,
    /// Out of memory.
    Memory,
}

impl fmt::Display for InputFault {
    ghost use Rattle.json_keys.specs.Input.{input_message};

    ghost output = { λ fault. Some (input_message fault) };

    fn fmt<W: fmt::Write>(&self, f: &mut fmt::Formatter<W>) -> fmt::Result {
        f.write_str(match self {
            InputFault::NotBuilt => "not built yet",
            InputFault::Memory => "out of memory",
        })
    }
}

impl Error for InputFault {}

impl From<AllocError> for InputFault {
    ghost from_gives = { λ _ fault. fault ≡ Memory };

    fn from(_refused: AllocError) -> InputFault {
        InputFault::Memory
    }
}

impl<T: Drop> From<AllocFailed<T>> for InputFault {
    ghost from_gives = { λ _ fault. fault ≡ Memory };

    fn from(_refused: AllocFailed<T>) -> InputFault {
        InputFault::Memory
    }
}
