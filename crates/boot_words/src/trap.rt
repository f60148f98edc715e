ghost use Rattle.std.specs.Prelude.{◌≡◌, ◌≢◌, map, ◌⊎◌};
ghost use Rattle.rv_fields.specs.declared.row_table.Ins.TheVariants.{Mret, Sret};
ghost use Rattle.boot_words.specs.Boot.{handler, handler_by, spelled};

use crate::spelling::{read_csr, spelled, swap_csr};
use rv_fields::{Csr, Ins, Mode};

/// The trap handler of the mode: it goes on after the instruction that trapped, which is taken to be of 4 bytes, and
/// leaves every register as it was.
pub fn handler(mode: Mode) -> [u32; 6]
    requires { mode ≢ Mode.U }
    ensures { result ≡ handler mode }
{
    match mode {
        Mode::M => handler_by(Csr::Mscratch, Csr::Mepc, Ins::Mret),
        Mode::S => handler_by(Csr::Sscratch, Csr::Sepc, Ins::Sret),
        Mode::U => unreachable!(),
    }
}

/// The handler with these CSRs for x31 and for the address, and this return.
fn handler_by(scratch: Csr, epc: Csr, returns: Ins) -> [u32; 6]
    requires { (returns ≡ Mret) ⊎ (returns ≡ Sret) }
    ensures { result ≡ map spelled (handler_by scratch epc returns) }
{
    [
        swap_csr(31, scratch, 31),
        read_csr(31, epc),
        spelled(Ins::Addi, 31, 31, 0, 4),
        swap_csr(0, epc, 31),
        swap_csr(31, scratch, 31),
        spelled(returns, 0, 0, 0, 0),
    ]
}
