//! Traps, and the returns from them.

ghost use Rattle.std.specs.Prelude.{◌≡◌, ◌==◌};
ghost use Rattle.std.specs.Int.{bit_at};
ghost use Rattle.rv_fields.specs.Ranges.{IsLegal};
ghost use Rattle.rv_fields.specs.Status.{HasMode};
ghost use Rattle.rv_fields.specs.Trap as machine;
ghost use Rattle.rv_fields.specs.declared.mode.Mode.TheVariants.{S, M};

use super::{CsrFile, MIE, MPP, MPRV};
use crate::field::{Field, masked};
use crate::mode::mode_of;
use crate::stack::Stack;
use rv_fields::{Csr, Mode, csr_row};

const SIE: Field = Field { low: 1, width: 1 };

const SPIE: Field = Field { low: 5, width: 1 };

const MPIE: Field = Field { low: 7, width: 1 };

const SPP: Field = Field { low: 8, width: 1 };

const M_STACK: Stack = Stack {
    enable: MIE,
    enable_before: MPIE,
    mode_before: MPP,
};

const S_STACK: Stack = Stack {
    enable: SIE,
    enable_before: SPIE,
    mode_before: SPP,
};

impl CsrFile {
    /// Takes a trap that came in the mode: the mode that handles it, and the address of its handler. The cause, the
    /// address of the instruction and the value that goes with the cause are left for the handler.
    pub fn enter_trap(&mut self, mode: Mode, cause: u64, epc: u64, tval: u64) -> (Mode, u64)
        ensures handler { result.0 ≡ machine.trap_mode self.old mode cause }
        ensures pc { result.1 ≡ machine.handler_of self.old (machine.trap_mode self.old mode cause) }
        ensures file { self.new ≡ machine.trapped self.old mode cause epc tval }
        ensures has_mode { HasMode self.old.mstatus → HasMode self.new.mstatus }
        ensures stays_legal { IsLegal self.old → IsLegal self.new }
    {
        match self.trap_mode(mode, cause) {
            Mode::S => (Mode::S, self.trap_to_s(mode, cause, epc, tval)),
            handler => (handler, self.trap_to_m(mode, cause, epc, tval)),
        }
    }

    /// Takes a trap to M: the address of its handler.
    fn trap_to_m(&mut self, mode: Mode, cause: u64, epc: u64, tval: u64) -> u64
        ensures pc { result ≡ self.old.mtvec }
        ensures file { self.new ≡ machine.trapped_to M self.old mode cause epc tval }
        ensures has_mode { HasMode self.new.mstatus }
        ensures stays_legal { IsLegal self.old → IsLegal self.new }
    {
        self.mepc = masked(csr_row(Csr::Mepc).writable, self.mepc, epc);
        self.mcause = cause;
        self.mtval = tval;
        self.mstatus = M_STACK.pushed(self.mstatus, mode);
        self.mtvec
    }

    /// Takes a trap to S: the address of its handler.
    fn trap_to_s(&mut self, mode: Mode, cause: u64, epc: u64, tval: u64) -> u64
        ensures pc { result ≡ self.old.stvec }
        ensures file { self.new ≡ machine.trapped_to S self.old mode cause epc tval }
        ensures has_mode { HasMode self.old.mstatus → HasMode self.new.mstatus }
        ensures stays_legal { IsLegal self.old → IsLegal self.new }
    {
        self.sepc = masked(csr_row(Csr::Sepc).writable, self.sepc, epc);
        self.scause = cause;
        self.stval = tval;
        self.mstatus = S_STACK.pushed(self.mstatus, mode);
        self.stvec
    }

    /// Returns from a trap to M: the mode and the address to go on with.
    pub fn mret(&mut self) -> (Mode, u64)
        ensures mode { result.0 ≡ machine.mret_mode self.old }
        ensures pc { result.1 ≡ self.old.mepc }
        ensures file { self.new ≡ machine.mret_done self.old }
        ensures has_mode { HasMode self.new.mstatus }
        ensures stays_legal { IsLegal self.old → IsLegal self.new }
    {
        let mode = mode_of(MPP.of(self.mstatus));
        self.mstatus = mret_status(mode, self.mstatus);
        (mode, self.mepc)
    }

    /// Returns from a trap to S: the mode and the address to go on with.
    pub fn sret(&mut self) -> (Mode, u64)
        ensures mode { result.0 ≡ machine.sret_mode self.old }
        ensures pc { result.1 ≡ self.old.sepc }
        ensures file { self.new ≡ machine.sret_done self.old }
        ensures has_mode { HasMode self.old.mstatus → HasMode self.new.mstatus }
        ensures stays_legal { IsLegal self.old → IsLegal self.new }
    {
        let mode = mode_of(SPP.of(self.mstatus));
        self.mstatus = MPRV.with(S_STACK.popped(self.mstatus), 0);
        (mode, self.sepc)
    }

    /// The mode that handles a trap.
    fn trap_mode(&self, mode: Mode, cause: u64) -> Mode
        ensures { result ≡ machine.trap_mode self.now mode cause }
    {
        match mode {
            Mode::U | Mode::S if self.is_delegated(cause) => Mode::S,
            _ => Mode::M,
        }
    }

    /// Whether medeleg has the bit of the cause.
    fn is_delegated(&self, cause: u64) -> bool
        ensures { result ≡ machine.is_delegated self.now cause }
    {
        has_bit(self.medeleg, cause)
    }
}

/// mstatus after an mret to the mode: MPRV stays where that is M.
fn mret_status(mode: Mode, status: u64) -> u64
    ensures { result ≡ machine.mret_status mode status }
{
    let popped = M_STACK.popped(status);
    match mode {
        Mode::M => popped,
        _ => MPRV.with(popped, 0),
    }
}

/// Whether the bit at the place is 1. Beyond the number's bits there are none.
fn has_bit(number: u64, place: u64) -> bool
    ensures { result ≡ (bit_at number place == 1) }
{
    place < 64 && number >> place & 1 == 1
}
