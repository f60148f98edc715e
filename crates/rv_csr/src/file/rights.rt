//! What mstatus and satp say of accesses to memory, and of instructions that they keep from a mode.

ghost use Rattle.std.specs.Prelude.{◌≡◌, ◌==◌};
ghost use Rattle.rv_fields.specs.Field.{field_of};
ghost use Rattle.rv_fields.specs.Status as status;
ghost use Rattle.rv_fields.specs.Step.{data_mode, is_kept_from};
ghost use Rattle.rv_csr.specs.Views.{field_seen};

use super::{CsrFile, MPP, MPRV, TVM};
use crate::field::Field;
use crate::mode::mode_of;
use rv_fields::Mode;

const SUM: Field = Field { low: 18, width: 1 };

const MXR: Field = Field { low: 19, width: 1 };

const TSR: Field = Field { low: 22, width: 1 };

impl CsrFile {
    /// What satp holds: by which page tables addresses are translated, if at all.
    pub fn satp(&self) -> u64
        ensures { result ≡ self.now.satp }
    {
        self.satp
    }

    /// SUM: data accesses in mode S may use user pages.
    pub fn sum(&self) -> bool
        ensures { result ≡ (field_of status.sum self.now.mstatus == 1) }
    {
        SUM.of(self.mstatus) == 1
    }

    /// MXR: loads may use pages that are only executable.
    pub fn mxr(&self) -> bool
        ensures { result ≡ (field_of status.mxr self.now.mstatus == 1) }
    {
        MXR.of(self.mstatus) == 1
    }

    /// The mode whose rights loads and stores have in this mode: in mode M with MPRV = 1 the one in MPP.
    pub fn data_mode(&self, mode: Mode) -> Mode
        ensures { result ≡ data_mode mode self.now.mstatus }
    {
        match mode {
            Mode::M if MPRV.of(self.mstatus) == 1 => mode_of(MPP.of(self.mstatus)),
            _ => mode,
        }
    }

    /// Whether sfence.vma is kept from the mode: from U always, from S by TVM.
    pub fn keeps_sfence_from(&self, mode: Mode) -> bool
        ensures { result ≡ is_kept_from mode status.tvm self.now.mstatus }
    {
        is_kept_from(mode, TVM, self.mstatus)
    }

    /// Whether sret is kept from the mode: from U always, from S by TSR.
    pub fn keeps_sret_from(&self, mode: Mode) -> bool
        ensures { result ≡ is_kept_from mode status.tsr self.now.mstatus }
    {
        is_kept_from(mode, TSR, self.mstatus)
    }
}

/// Whether an instruction is kept from the mode: from U always, from S by a field of mstatus.
fn is_kept_from(mode: Mode, field: Field, status: u64) -> bool
    ensures { result ≡ is_kept_from mode (field_seen field) status }
{
    match mode {
        Mode::U => true,
        Mode::S => field.of(status) == 1,
        Mode::M => false,
    }
}
