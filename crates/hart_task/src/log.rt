ghost use Rattle.std.specs.Prelude.{◌≡◌, ◌++◌, ◌∷◌, [], ◌<◌, OnOk, IfSome, Some, None};
ghost use Rattle.rv_fields.specs.Hart.{updated};
ghost use Rattle.rv_fields.specs.Step.{with_write};
ghost use Rattle.value_file.specs.Values.{initial_of, present_of};

use rv_fields::NoMemory;
use value_file::ValueFile;
use world_face::Placed;

/// What a hart has done so far.
#[derive(Drop)]
pub struct HartLog {
    /// Its events, one after another.
    pub events: Vec<Placed>,
    /// The words of its code window, from the first on.
    pub words: Vec<u32>,
    /// Its registers, as far as its events have touched them.
    pub values: ValueFile,
}

impl HartLog {
    ghost use Rattle.hart_task.specs.Log.{log_seen, HasLogRoom, HasRoomForEvent};
    ghost use Rattle.world_face.specs.Views.{placed_seen};

    /// Makes room for an event, and for a word.
    pub(crate) fn reserve(&mut self) -> Result<(), NoMemory>
        ensures room { OnOk result (HasLogRoom self.new) }
        ensures same { log_seen self.new ≡ log_seen self.old }
    {
        self.events.reserve(1)?;
        self.words.reserve(1)?;
        Ok(())
    }

    /// Adds an event, for which there is room.
    pub(crate) fn add_event(&mut self, placed: Placed)
        requires { HasRoomForEvent self.old }
        ensures { log_seen self.new ≡ record (log_seen self.old) { events = (log_seen self.old).events ++ placed_seen placed ∷ [] } }
    {
        self.events.push(placed).unwrap();
    }

    /// Adds a word that was made, for which there is room.
    pub(crate) fn add_word(&mut self, word: u32)
        requires { HasLogRoom self.old }
        ensures added { log_seen self.new ≡ record (log_seen self.old) { words = self.old.words.items ++ word ∷ [] } }
        ensures room { HasRoomForEvent self.new }
    {
        self.words.push(word).unwrap();
    }

    /// Notes the register that a step wrote, if it wrote one.
    pub(crate) fn write(&mut self, rd: Option<(u8, u64)>)
        requires { IfSome rd (λ w. (0 < w.0) × (w.0 < 32)) }
        ensures written { log_seen self.new ≡ record (log_seen self.old) { present = with_write (present_of self.old.values) rd } }
        ensures room { HasLogRoom self.old → HasLogRoom self.new }
    {
        if let Some((register, value)) = rd {
            self.values.write(register, value);
        }
    }
}

/// What a turn was.
#[derive(Clone, Copy, Debug, PartialEq, Eq)]
pub enum Turned {
    /// An event, which took this place in the run of all harts.
    Event { place: u64 },
    /// None: the hart had made its ending step before.
    Finished,
}
