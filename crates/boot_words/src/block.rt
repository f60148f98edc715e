ghost use Rattle.std.specs.Prelude.{◌≡◌};
ghost use Rattle.boot_words.specs.Boot.{boot_block};

use crate::layout::{CSRS_OFFSET, REGISTERS_OFFSET};
use crate::spelling::{mret, spelled, swap_csr, table_load};
use rv_fields::{Csr, Ins};

/// The CSRs that a boot block writes, in its order.
const BOOT_CSRS: [Csr; 15] = [
    Csr::Mstatus,
    Csr::Medeleg,
    Csr::Mideleg,
    Csr::Mie,
    Csr::Mtvec,
    Csr::Mscratch,
    Csr::Mepc,
    Csr::Stvec,
    Csr::Sscratch,
    Csr::Sepc,
    Csr::Scause,
    Csr::Stval,
    Csr::Satp,
    Csr::Pmpaddr0,
    Csr::Pmpcfg0,
];

/// The place in the block of the first load of x1 to x31.
const FIRST_REGISTER: usize = 31;

/// The place of the block's last word.
const LAST: usize = 62;

/// The boot block of every hart: it loads the CSRs and x1 to x31 from the tables behind it, and goes on at mepc.
pub fn boot_block() -> [u32; 63]
    ensures { result ≡ boot_block }
{
    let mut words = [0; 63];
    words[0] = spelled(Ins::Auipc, 31, 0, 0, 0);
    for (place, csr) in BOOT_CSRS.iter().enumerate() {
        words[2 * place + 1] = table_load(30, CSRS_OFFSET + 8 * place as u16);
        words[2 * place + 2] = swap_csr(0, *csr, 30);
    }
    for place in 0..31 {
        words[FIRST_REGISTER + place] = table_load(
            place as u8 + 1,
            REGISTERS_OFFSET + 8 * place as u16,
        );
    }
    words[LAST] = mret();
    words
}
