ghost use Rattle.std.specs.Prelude.{◌≡◌, ℕ, ◌<◌, ◌≤◌, length, IfOk, OnErr, Some, false};
ghost use Rattle.std.specs.List.{slice_get};
ghost use Rattle.rv_fields.specs.Memory.{whole};
ghost use Rattle.ram_image.specs.Ram.{memory};
ghost use Rattle.rv_machine.specs.declared.reset.Reset.{Reset};
ghost use Rattle.rv_machine.specs.Harts.{AreNumbered};

use crate::memory::Memory;
use crate::reset::Reset;
use ram_image::Ram;
use rv_fields::NoMemory;
use rv_step::{Hart, Stepped, step};
use std::alloc::Global;

/// Harts over one memory. They step one at a time, in an order that the caller says.
#[derive(Drop)]
pub struct Machine {
    pub(crate) memory: Memory,
    pub(crate) harts: Vec<Hart>,
    ghost numbered: { AreNumbered harts.items },
}

impl Machine {
    ghost use Rattle.rv_machine.specs.Views.{machine_seen, hart_in, reset_hart, IsMachineTurn};

    /// The machine at reset: a hart for each of these, numbered from 0.
    pub fn new(alloc: Global, ram: Ram, resets: &[Reset]) -> Result<Machine, NoMemory>
        requires { length resets.now ≤ 256 }
        ensures memory { IfOk result (λ m. (machine_seen m).seen ≡ record { byte = whole (memory ram); link = λ h g. Some false }) }
        ensures harts { IfOk result (λ m. (h : ℕ) (reset : Reset) → slice_get resets.now h ≡ Some reset
            → (machine_seen m).harts h ≡ reset_hart h reset) }
        ensures count { IfOk result (λ m. length m.harts.items ≡ length resets.now) }
    {
        let mut harts = Vec::with_capacity(alloc, resets.len())?;
        for (number, reset) in resets.iter().enumerate() {
            harts.push(reset.hart(number as u8))?;
        }
        let memory = Memory::new(alloc, ram);
        Ok(Machine { memory, harts })
    }

    /// Steps the hart once, and tells what it did. Where memory is lacking, nothing is done.
    pub fn turn(&mut self, alloc: Global, hart: u8) -> Result<Stepped, NoMemory>
        requires { hart < length self.old.harts.items }
        ensures turn { IfOk result (λ stepped. IsMachineTurn hart stepped (machine_seen self.old) (machine_seen self.new)) }
        ensures unchanged { OnErr result (machine_seen self.new ≡ machine_seen self.old) }
        ensures count { length self.new.harts.items ≡ length self.old.harts.items }
    {
        self.memory.make_room(alloc)?;
        let own = &mut self.harts[usize::from(hart)];
        Ok(step(own, &mut self.memory))
    }
}
