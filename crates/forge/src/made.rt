ghost use Rattle.std.specs.Prelude.{◌≡◌, Some};
ghost use Rattle.forge.specs.Ends.{made_status};

use std::fmt;

/// What a trace tells in numbers.
#[derive(Clone, Copy, Debug, PartialEq, Eq)]
pub struct Counts {
    pub harts: u64,
    /// The steps of all harts after their boots.
    pub steps: u64,
    /// The requests that are done.
    pub done: u64,
    /// The requests that were refused.
    pub refused: u64,
}

impl Counts {
    /// The exit status of the run: 0, or 2 where a request was refused.
    pub(crate) fn status(self) -> u8
        ensures { result ≡ made_status self.refused }
    {
        if self.refused == 0 { 0 } else { 2 }
    }
}

impl fmt::Display for Counts {
    ghost use Rattle.forge.specs.Stops.{counts_body};

    ghost output = { λ counts. Some (counts_body counts) };

    fn fmt<W: fmt::Write>(&self, f: &mut fmt::Formatter<W>) -> fmt::Result {
        let Counts {
            harts,
            steps,
            done,
            refused,
        } = *self;
        write!(f, "harts {harts} steps {steps}")?;
        write!(f, " done {done} refused {refused}")
    }
}

/// The three files of a run, and what its trace tells in numbers.
#[derive(Debug, Drop)]
pub struct Made {
    pub elf: Vec<u8>,
    pub order: Vec<u8>,
    pub trace: Vec<u8>,
    pub counts: Counts,
}
