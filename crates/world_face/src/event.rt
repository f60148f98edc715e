ghost use Rattle.std.specs.Prelude.{◌≡◌, ℕ, ◌+◌, ◌++◌, ◌∷◌, [], IfOk};

use crate::parts::Parts;
use rv_fields::NoMemory;
use std::alloc::Global;
use trace_text::Line;

/// What an event asks of the parts that it holds: nothing so far.
#[derive(Clone, Copy, Debug, PartialEq, Eq)]
pub struct Asked;

/// What a hart does at once, with the parts that it holds meanwhile.
#[derive(Debug, Drop)]
pub struct Event {
    pub hart: u8,
    pub parts: Parts,
    pub asked: Asked,
    /// What the trace tells of it.
    pub lines: Vec<Line>,
}

impl Event {
    ghost use Rattle.world_face.specs.Events.{no_parts, nothing_asked};
    ghost use Rattle.world_face.specs.Views.{HasRoomForLines, event_seen};
    ghost use Rattle.trace_text.specs.Views.{line_seen};

    /// An event of the hart that holds no part and tells nothing yet. It has room for so many lines.
    pub fn new(alloc: Global, hart: u8, lines: usize) -> Result<Event, NoMemory>
        ensures event { IfOk result (λ e. event_seen e ≡ record { hart = hart; parts = no_parts; asked = nothing_asked; lines = [] }) }
        ensures room { IfOk result (HasRoomForLines lines) }
    {
        Ok(Event {
            hart,
            parts: Parts::none(),
            asked: Asked,
            lines: Vec::with_capacity(alloc, lines)?,
        })
    }

    /// Adds a line, for which there is room.
    pub fn add(&mut self, line: Line)
        requires { HasRoomForLines 1 self.old }
        ensures event { event_seen self.new ≡ record (event_seen self.old) { lines = (event_seen self.old).lines ++ line_seen line ∷ [] } }
        ensures room { (count : ℕ) → HasRoomForLines (count + 1) self.old → HasRoomForLines count self.new }
    {
        self.lines.push(line).unwrap();
    }
}

/// An event at its place in the run of all harts, counted from 0.
#[derive(Debug, Drop)]
pub struct Placed {
    pub place: u64,
    pub event: Event,
}
