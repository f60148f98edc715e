ghost use Rattle.std.specs.Prelude.{◌≡◌, slice_index};
ghost use Rattle.rv_step.specs.Views.{hart_seen};
ghost use Rattle.rv_machine.specs.Views.{reset_hart};

use rv_csr::reset_of;
use rv_fields::{Mode, RESET_PC};
use rv_step::Hart;

/// What stands in the registers of a hart at reset: anything.
#[derive(Clone, Copy, Debug, PartialEq, Eq)]
pub struct Reset {
    /// x1 to x31.
    pub x: [u64; 31],
    /// One raw value for each CSR, in the order of their numbers.
    pub csrs: [u64; 19],
}

impl Reset {
    /// The hart of the number at reset.
    pub fn hart(&self, number: u8) -> Hart
        ensures hart { hart_seen result ≡ reset_hart number self.now }
        ensures zero { slice_index result.x 0 ≡ 0 }
        ensures number { result.number ≡ number }
    {
        let mut x = [0; 32];
        x[1..].copy_from_slice(&self.x);
        Hart {
            number,
            pc: RESET_PC,
            x,
            mode: Mode::M,
            csrs: reset_of(number, &self.csrs),
            reserved: None,
        }
    }
}
