use crate::event::Event;
use crate::parts::{Parts, Taken};

/// What several harts share: the parts, and the order in which their events take place.
pub trait World {
    ghost use Rattle.std.specs.Prelude.{◌≡◌, ◌<◌, ◌+◌, ◌++◌, ◌∷◌, [], ℕ, List};
    ghost use Rattle.world_face.specs.Events.{Placed, no_parts};
    ghost use Rattle.world_face.specs.Views.{event_seen};

    /// The world stands for these events at their places: they are what has taken place in it.
    ghost stands: { Self → List Placed → Type 0 };

    /// The number of events that it can still take.
    ghost room: { Self → ℕ };

    /// Takes parts out of the world, for an event. No part can be taken yet.
    fn take(&mut self, parts: &Parts) -> Taken
        requires parts { parts.now ≡ no_parts }
        ensures stands { (events : List Placed) → stands self.old events → stands self.new events }
        ensures room { room self.new ≡ room self.old };

    /// Gives parts back as they were taken: there is no event.
    fn give_up(&mut self, taken: Taken)
        ensures stands { (events : List Placed) → stands self.old events → stands self.new events }
        ensures room { room self.new ≡ room self.old };

    /// The event takes place, with the parts that it names, which come back. Its place is told.
    fn commit(&mut self, event: &Event, taken: Taken) -> u64
        requires room { 0 < room self.old }
        requires parts { event.now.parts ≡ no_parts }
        ensures stands { (events : List Placed) → stands self.old events
            → stands self.new (events ++ record { place = result; event = event_seen event.now } ∷ []) }
        ensures room { room self.new + 1 ≡ room self.old };
}
