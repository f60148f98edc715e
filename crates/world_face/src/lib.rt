//! What harts and the world around them have in common: events, the parts that they hold, and worlds.
#![tactic(auto)]

mod event;
mod parts;
mod world;

pub use event::{Asked, Event, Placed};
pub use parts::{Parts, Taken};
pub use world::World;

#[cfg(test)]
mod tests;
