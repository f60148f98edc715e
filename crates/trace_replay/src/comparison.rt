ghost use Rattle.std.specs.Prelude.{◌<◌};

use crate::verdict::Difference;
use trace_text::TraceLines;

/// A trace beside the steps behind the boots, as far as both have come.
#[derive(Debug, Drop)]
pub(crate) struct Comparison<'a> {
    pub(crate) lines: TraceLines<'a>,
    /// The step lines that were read.
    pub(crate) steps: u64,
    /// The first difference, where there is one.
    pub(crate) first: Option<Difference>,

    ghost fewer: { steps < lines.number },
}
