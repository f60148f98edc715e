ghost use Rattle.std.specs.Prelude.{◌≡◌, ◌≤◌, length};
ghost use Rattle.std.specs.List.{All};
ghost use Rattle.rv_fields.specs.Play.{most_harts};
ghost use Rattle.run_merge.specs.declared.run.HartProgram.{HartProgram};

use region_plan::Plan;
use trace_text::Line;
use value_file::ValueFile;

/// What a hart brings to the program: the words of its window from the first on, and the values that its registers
/// start with.
#[derive(Drop)]
pub(crate) struct HartProgram {
    pub words: Vec<u32>,
    pub values: ValueFile,
}

/// What the harts of a job did.
#[derive(Drop)]
pub struct Run {
    pub(crate) lines: Vec<Line>,
    pub(crate) order: Vec<u8>,
    pub(crate) plan: Plan,
    pub(crate) harts: Vec<HartProgram>,
    ghost planned: { length plan.harts.items ≡ length harts.items },
    ghost some: { 1 ≤ length harts.items },
    ghost most: { length harts.items ≤ most_harts },
    // The words of each hart stand in one page.
    ghost room: { All (λ (hart : HartProgram). length hart.words.items ≤ 1024) harts.items },
}

impl Run {
    /// The lines of the trace, in the order in which their events took place.
    pub fn lines(&self) -> &[Line]
        ensures { result.now ≡ self.now.lines.items }
    {
        self.lines.as_slice()
    }

    /// The hart of each step: the boots of all harts first, and then the steps in the order of the lines.
    pub fn order(&self) -> &[u8]
        ensures { result.now ≡ self.now.order.items }
    {
        self.order.as_slice()
    }

    /// The number of harts, of which there is at least one.
    pub fn hart_count(&self) -> u8
        ensures { result ≡ length self.now.harts.items }
    {
        self.harts.len() as u8
    }
}
