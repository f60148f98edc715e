ghost use Rattle.std.specs.Prelude.{◌≡◌, Some};
ghost use Rattle.forge.specs.declared.stop.Reason.TheVariants as reasons;
ghost use Rattle.forge.specs.declared.stop.Stop.TheVariants.{Memory};

use elf_file::ElfFault;
use json_keys::InputFault;
use rv_fields::NoMemory;
use std::alloc::AllocFailed;
use std::fmt;
use store_face::StoreFault;
use trace_fields::LineFault;

/// The line that names the commands, also those that are to come, without its newline.
pub(crate) const USAGE: &str =
    "usage: make|make-serial JOB TREES SEED ELF ORDER TRACE; replay ELF ORDER TRACE; big N JOB TREES; check JOB TREES";

/// Why a file isn't accepted.
#[derive(Clone, Copy, Debug, PartialEq, Eq)]
pub(crate) enum Reason {
    /// It holds what this program can't do yet, or nothing that it knows.
    NotBuilt,
    /// It can't be loaded.
    Elf(ElfFault),
    /// It isn't the text of an order or of a trace.
    Line(LineFault),
}

impl fmt::Display for Reason {
    ghost use Rattle.forge.specs.Stops.{reason_body};

    ghost output = { λ reason. Some (reason_body reason) };

    fn fmt<W: fmt::Write>(&self, f: &mut fmt::Formatter<W>) -> fmt::Result {
        match self {
            Reason::NotBuilt => write!(f, "not built yet"),
            Reason::Elf(fault) => write!(f, "{fault}"),
            Reason::Line(fault) => write!(f, "{fault}"),
        }
    }
}

/// Why a command ends without success.
#[derive(Clone, Copy, Debug, PartialEq, Eq)]
pub(crate) enum Stop<'a> {
    /// The words are not a command.
    Usage,
    /// The file of the name can't be read.
    Unread(&'a str),
    /// The file of the name can't be written.
    Unwritten(&'a str),
    /// What the file of the name holds isn't accepted.
    Refused { name: &'a str, reason: Reason },
    /// The file of the name has more bytes than so many.
    TooLong { name: &'a str, most: usize },
    /// Out of memory.
    Memory,
}

impl<'a> Stop<'a> {
    ghost use Rattle.forge.specs.Ends.{status_of};
    ghost use Rattle.forge.specs.Stops.{ending_of};

    /// The exit status.
    pub(crate) fn status(self) -> u8
        ensures { result ≡ status_of (ending_of self.entry) }
    {
        match self {
            Stop::Usage => 3,
            Stop::Unread(_) => 4,
            Stop::Unwritten(_) => 5,
            Stop::Refused { .. } => 6,
            Stop::TooLong { .. } => 7,
            Stop::Memory => 8,
        }
    }

    /// At a read of the name.
    pub(crate) fn at_read(name: &'a str, fault: StoreFault) -> Stop<'a>
        ensures failed { fault ≡ StoreFault.Failed → result ≡ Stop.Unread name.entry }
        ensures memory { fault ≡ StoreFault.Memory → result ≡ Stop.Memory }
    {
        match fault {
            StoreFault::Failed => Stop::Unread(name),
            StoreFault::Memory => Stop::Memory,
        }
    }

    /// At a write of the name.
    pub(crate) fn at_write(name: &'a str, fault: StoreFault) -> Stop<'a>
        ensures failed { fault ≡ StoreFault.Failed → result ≡ Stop.Unwritten name.entry }
        ensures memory { fault ≡ StoreFault.Memory → result ≡ Stop.Memory }
    {
        match fault {
            StoreFault::Failed => Stop::Unwritten(name),
            StoreFault::Memory => Stop::Memory,
        }
    }

    /// At the content of the file of the name.
    pub(crate) fn at_content(name: &'a str, fault: InputFault) -> Stop<'a>
        ensures not_built { fault ≡ InputFault.NotBuilt → result ≡ Stop.Refused name.entry reasons.NotBuilt }
        ensures memory { fault ≡ InputFault.Memory → result ≡ Stop.Memory }
    {
        match fault {
            InputFault::NotBuilt => Stop::Refused {
                name,
                reason: Reason::NotBuilt,
            },
            InputFault::Memory => Stop::Memory,
        }
    }
}

impl From<NoMemory> for Stop<'_> {
    ghost from_gives = { λ _ stop. stop ≡ Memory };

    fn from(_: NoMemory) -> Self {
        Stop::Memory
    }
}

impl<T: Drop> From<AllocFailed<T>> for Stop<'_> {
    ghost from_gives = { λ _ stop. stop ≡ Memory };

    fn from(_: AllocFailed<T>) -> Self {
        Stop::Memory
    }
}

/// Shows the line that tells of the stop, without its newline.
impl fmt::Display for Stop<'_> {
    ghost use Rattle.forge.specs.Stops.{stop_body};

    ghost output = { λ stop. Some (stop_body stop) };

    fn fmt<W: fmt::Write>(&self, f: &mut fmt::Formatter<W>) -> fmt::Result {
        match self {
            Stop::Usage => f.write_str(USAGE),
            Stop::Unread(name) => write!(f, "cannot read {name}"),
            Stop::Unwritten(name) => write!(f, "cannot write {name}"),
            Stop::Refused { name, reason } => write!(f, "{name}: {reason}"),
            Stop::TooLong { name, most } => write!(f, "{name}: longer than {most} bytes"),
            Stop::Memory => write!(f, "out of memory"),
        }
    }
}
