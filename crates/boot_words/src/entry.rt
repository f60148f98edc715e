ghost use Rattle.std.specs.Prelude.{◌≡◌};
ghost use Rattle.boot_words.specs.Boot.{dispatcher};

use crate::spelling::{read_csr, spelled};
use rv_fields::{Csr, Ins};

/// How many steps the boot of a hart takes: one for each word of the dispatcher but the last, and one for each of its block.
pub const BOOT_STEPS: u8 = 70;

/// The words at which every hart begins: each of the first `harts` harts goes on to its boot block, and any other
/// stays here.
pub fn dispatcher(harts: u8) -> [u32; 8]
    ensures { result ≡ dispatcher harts }
{
    [
        read_csr(5, Csr::Mhartid),
        spelled(Ins::Addi, 6, 0, 0, i64::from(harts)),
        spelled(Ins::Bgeu, 0, 5, 6, 20),
        spelled(Ins::Slli, 5, 5, 0, 12),
        spelled(Ins::Auipc, 6, 0, 0, 0x1000),
        spelled(Ins::Add, 6, 6, 5, 0),
        spelled(Ins::Jalr, 0, 6, 0, -16),
        spelled(Ins::Jal, 0, 0, 0, 0),
    ]
}
