ghost use Rattle.std.specs.Prelude.{◌^◌, ◌≤◌};

use world_face::{Event, Parts, Taken, World};

/// The world of one thread. There is no part yet, so all that it keeps is the order of its events.
#[derive(Drop)]
pub(crate) struct SerialWorld {
    /// The place of the next event.
    place: u64,
    ghost small: { place ≤ 2 ^ 32 },
}

impl SerialWorld {
    ghost use Rattle.std.specs.Prelude.{◌≡◌};

    /// A world in which nothing has taken place.
    pub(crate) fn new() -> SerialWorld
        ensures { result.place ≡ 0 }
    {
        SerialWorld { place: 0 }
    }
}

impl World for SerialWorld {
    ghost use Rattle.std.specs.Prelude.{◌-◌, ◌^◌};
    ghost use Rattle.serial_world.specs.World.{AreInTurn};

    ghost stands = { λ w events. AreInTurn w.place events };

    ghost room = { λ w. 2 ^ 32 - w.place };

    fn take(&mut self, _parts: &Parts) -> Taken {
        Taken
    }

    fn give_up(&mut self, _taken: Taken) {}

    fn commit(&mut self, _event: &Event, _taken: Taken) -> u64 {
        let place = self.place;
        self.place += 1;
        place
    }
}
