ghost use Rattle.std.specs.Prelude.{◌≡◌, ◌<◌, ◌∷◌, []};
ghost use Rattle.region_plan.specs.Registers.{is_among, registers, registers_in, rising};

/// A set of integer registers.
#[derive(Clone, Copy, Debug, PartialEq, Eq)]
pub struct RegisterSet {
    has: [bool; 32],
}

impl RegisterSet {
    /// The set without a register.
    pub fn empty() -> RegisterSet
        ensures { registers_in result.has ≡ [] }
    {
        RegisterSet { has: [false; 32] }
    }

    /// The set with a register more.
    pub fn with(self, register: u8) -> RegisterSet
        requires { register < registers }
        ensures { registers_in result.has ≡ rising (register ∷ registers_in self.has) }
    {
        let mut has = self.has;
        has[register as usize] = true;
        RegisterSet { has }
    }

    /// Whether the register is in the set.
    pub fn contains(&self, register: u8) -> bool
        requires { register < registers }
        ensures { result ≡ is_among (registers_in self.now.has) register }
    {
        self.has[register as usize]
    }
}
