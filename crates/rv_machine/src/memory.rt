//! RAM with the links of harts to it.

ghost use Rattle.std.specs.Prelude.{◌≡◌, OnOk, Some, false};
ghost use Rattle.rv_fields.specs.Memory.{whole};
ghost use Rattle.ram_image.specs.Ram.{memory};
ghost use Rattle.rv_machine.specs.Views.{memory_seen};

use crate::links::Links;
use ram_image::{Ram, Spare};
use rv_fields::NoMemory;
use rv_step::{Bus, PteAt, PteSource};
use std::alloc::Global;

/// The number of bytes that one link is of.
const GRANULE: u64 = 64;

/// RAM, the links to it, and a page that makes room for the next store.
#[derive(Drop)]
pub(crate) struct Memory {
    pub ram: Ram,
    pub links: Links,
    pub spare: Option<Spare>,
}

impl Memory {
    ghost use Rattle.rv_machine.specs.Room.{HasRoom};

    pub(crate) fn new(alloc: Global, ram: Ram) -> Memory
        ensures { memory_seen result ≡ record { byte = whole (memory ram); link = λ h g. Some false } }
    {
        Memory {
            ram,
            links: Links::new(alloc),
            spare: None,
        }
    }

    /// Makes room for a store and a link.
    pub(crate) fn make_room(&mut self, alloc: Global) -> Result<(), NoMemory>
        ensures room { OnOk result (HasRoom self.new) }
        ensures same { memory_seen self.new ≡ memory_seen self.old }
    {
        self.links.reserve()?;
        if self.spare.is_none() {
            let spare = Spare::new(alloc)?;
            self.spare = Some(spare);
        }
        Ok(())
    }
}

impl PteSource for Memory {
    ghost use Rattle.rv_fields.specs.Sv39.{entries_in};
    ghost use Rattle.rv_machine.specs.Views.{memory_seen};

    ghost entries = { λ m. entries_in (memory_seen m).byte };

    fn pte(&self, at: u64) -> PteAt {
        match self.ram.load(at, 8) {
            Some(pte) => PteAt::Value(pte),
            None => PteAt::Absent,
        }
    }
}

impl Bus for Memory {
    ghost use Rattle.std.specs.Prelude.{refl};
    ghost use Rattle.rv_machine.specs.Views.{memory_seen};
    ghost use Rattle.rv_machine.specs.Room.{HasRoom};

    ghost seen = { memory_seen };

    ghost has_room = { λ m pa. HasRoom m };

    fn fetch(&self, pa: u64) -> Option<u32> {
        self.ram.load(pa, 4).map(|word| word as u32)
    }

    fn load(&self, pa: u64, size: u8) -> Option<u64> {
        self.ram.load(pa, size)
    }

    fn store(&mut self, hart: u8, pa: u64, size: u8, value: u64) -> bool {
        if !self.ram.holds(pa, size) {
            return false;
        }
        if !self.ram.is_reserved(pa) {
            if let Some(spare) = self.spare.take() {
                self.ram.reserve_with(pa, spare);
            }
        }
        self.ram.store(pa, size, value);
        self.links.take_others(hart, pa / GRANULE);
        true
    }

    fn link(&mut self, hart: u8, pa: u64) {
        self.links.add(hart, pa / GRANULE);
    }

    fn linked(&self, hart: u8, pa: u64) -> bool {
        self.links.stands(hart, pa / GRANULE)
    }

    ghost tells_entries = { λ m. refl };
}
