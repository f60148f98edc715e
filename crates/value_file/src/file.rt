ghost use Rattle.std.specs.Prelude.{◌≡◌, ℕ, ◌<◌, ◌↔◌, IsTrue, IsSome, Some, None, slice_get, unwrap_or};
ghost use Rattle.rv_fields.specs.Hart.{updated};
ghost use Rattle.value_file.specs.declared.register.Register.TheVariants.{Written};

use crate::register::Register;

/// The registers x0 to x31 of a hart. Each of x1 to x31 is untouched until it is fixed or written; x0 is 0.
#[derive(Drop)]
pub struct ValueFile {
    registers: [Register; 32],
    ghost zero: { slice_get registers 0 ≡ Some (Written 0) },
}

impl ValueFile {
    ghost use Rattle.value_file.specs.Values.{initial_of, present_of};

    /// The registers before any event: x1 to x31 are untouched.
    pub fn new() -> ValueFile
        ensures initial { initial_of result ≡ (λ r. None) }
        ensures present { present_of result ≡ updated (λ r. None) 0 (Some 0) }
    {
        let mut registers = [Register::Untouched; 32];
        registers[0] = Register::Written { present: 0 };
        ValueFile { registers }
    }

    /// Whether the register has a present value. x0 always has one.
    pub fn touched(&self, reg: u8) -> bool
        requires { reg < 32 }
        ensures { IsTrue result ↔ IsSome (present_of self.now reg) }
    {
        self.read(reg).is_some()
    }

    /// Whether the register's starting value was fixed. That of x0 never is.
    pub fn is_fixed(&self, reg: u8) -> bool
        requires { reg < 32 }
        ensures fixed { IsTrue result ↔ IsSome (initial_of self.now reg) }
        ensures touched { IsTrue result → IsSome (present_of self.now reg) }
        ensures not_x0 { IsTrue result → 0 < reg }
    {
        self.registers[reg as usize].initial().is_some()
    }

    /// The register's present value; none exactly where it is untouched.
    pub fn read(&self, reg: u8) -> Option<u64>
        requires { reg < 32 }
        ensures present { result ≡ present_of self.now reg }
        ensures x0 { reg ≡ 0 → result ≡ Some 0 }
    {
        self.registers[reg as usize].present()
    }

    /// Fixes the starting value of an untouched register, which is its present value from then on.
    pub fn fix(&mut self, reg: u8, value: u64)
        requires register { reg < 32 }
        // x0 isn't: its present value is 0.
        requires untouched { present_of self.old reg ≡ None }
        ensures initial { initial_of self.new ≡ updated (initial_of self.old) reg (Some value) }
        ensures present { present_of self.new ≡ updated (present_of self.old) reg (Some value) }

        // It had no starting value before. So a starting value that there was stays.
        ensures first { initial_of self.old reg ≡ None }
        ensures kept { (r v : ℕ) → initial_of self.old r ≡ Some v → initial_of self.new r ≡ Some v }
    {
        self.registers[reg as usize] = Register::Fixed {
            initial: value,
            present: value,
        };
    }

    /// Writes a register. A write to x0 does nothing.
    pub fn write(&mut self, reg: u8, value: u64)
        requires { reg < 32 }
        ensures initial { initial_of self.new ≡ initial_of self.old }
        ensures present { 0 < reg → present_of self.new ≡ updated (present_of self.old) reg (Some value) }
        ensures x0 { reg ≡ 0 → present_of self.new ≡ present_of self.old }
    {
        if reg > 0 {
            let register = &mut self.registers[reg as usize];
            *register = register.written(value);
        }
    }

    /// The register's starting value; 0 where it was never fixed.
    pub fn initial(&self, reg: u8) -> u64
        requires { reg < 32 }
        ensures { result ≡ unwrap_or (initial_of self.now reg) 0 }
    {
        self.registers[reg as usize].initial().unwrap_or(0)
    }
}
