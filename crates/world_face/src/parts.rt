/// The shared parts that an event holds: an address space, the pages of objects, the choices, and a shard of data.
#[derive(Clone, Copy, Debug, PartialEq, Eq)]
pub struct Parts {
    pub space: Option<u8>,
    pub pages: bool,
    pub choices: bool,
    pub shard: Option<u8>,
}

impl Parts {
    ghost use Rattle.std.specs.Prelude.{◌≡◌};
    ghost use Rattle.world_face.specs.Events.{no_parts};

    pub fn none() -> Parts
        ensures { result ≡ no_parts }
    {
        Parts {
            space: None,
            pages: false,
            choices: false,
            shard: None,
        }
    }
}

/// The parts that a hart has taken out of its world: none so far.
#[derive(Clone, Copy, Debug, PartialEq, Eq)]
pub struct Taken;
