ghost use Rattle.std.specs.Prelude.{◌≡◌, ◌==◌, ◌&&◌, ℕ, ◌<◌, OnOk, Some, vec_len, vec_capacity, if◌then◌else◌, true, false};
ghost use Rattle.rv_machine.specs.Links.{stands};

use rv_fields::NoMemory;
use std::alloc::Global;

/// The link of a hart to the 64 bytes of this number, which it has loaded from by LR while no other hart has stored there.
#[derive(Clone, Copy)]
pub(crate) struct Link {
    pub hart: u8,
    pub granule: u64,
}

/// The links that stand. Each LR adds one at most, and stores of other harts take them away.
#[derive(Drop)]
pub(crate) struct Links {
    pub standing: Vec<Link>,
}

impl Links {
    ghost use Rattle.rv_machine.specs.Room.{HasLinkRoom};

    pub(crate) fn new(alloc: Global) -> Links
        ensures { (h g : ℕ) → stands result.standing.items h g ≡ false }
    {
        Links {
            standing: Vec::new(alloc),
        }
    }

    /// Makes room for one more.
    pub(crate) fn reserve(&mut self) -> Result<(), NoMemory>
        ensures room { OnOk result (HasLinkRoom self.new) }
        ensures same { self.new.standing.items ≡ self.old.standing.items }
    {
        self.standing.reserve(1)?;
        Ok(())
    }

    /// Whether the hart's link to the granule stands.
    pub(crate) fn stands(&self, hart: u8, granule: u64) -> bool
        ensures { result ≡ stands self.now.standing.items hart granule }
    {
        self.standing
            .iter()
            .any(|link| link.granule == granule && link.hart == hart)
    }

    /// Adds the hart's link to the granule.
    pub(crate) fn add(&mut self, hart: u8, granule: u64)
        requires { HasLinkRoom self.old }
        ensures { (h g : ℕ) → stands self.new.standing.items h g
            ≡ (if (g == granule) && (h == hart) then true else stands self.old.standing.items h g) }
    {
        if !self.stands(hart, granule) {
            self.standing.push(Link { hart, granule }).unwrap();
        }
    }

    /// Takes away the links of all other harts to the granule.
    pub(crate) fn take_others(&mut self, hart: u8, granule: u64)
        ensures others { (h g : ℕ) → stands self.new.standing.items h g
            ≡ (if g == granule then (if h == hart then stands self.old.standing.items h g else false) else stands self.old.standing.items h g) }
        ensures room { HasLinkRoom self.old → HasLinkRoom self.new }
    {
        self.standing
            .retain(|link| link.granule != granule || link.hart == hart);
    }
}
