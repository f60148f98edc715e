//! The registers at reset.

ghost use Rattle.std.specs.Prelude.{◌≡◌};
ghost use Rattle.rv_fields.specs.CsrFile as machine;
ghost use Rattle.rv_fields.specs.Ranges.{IsLegal};
ghost use Rattle.rv_fields.specs.Status as status;

use super::{CsrFile, MIE, MPRV};
use rv_fields::{CSRS, Csr};

const ZERO: CsrFile = CsrFile {
    stvec: 0,
    sscratch: 0,
    sepc: 0,
    scause: 0,
    stval: 0,
    satp: 0,
    mstatus: 0,
    medeleg: 0,
    mideleg: 0,
    mie: 0,
    mtvec: 0,
    mscratch: 0,
    mepc: 0,
    mcause: 0,
    mtval: 0,
    pmpcfg0: 0,
    pmpaddr0: 0,
    mhartid: 0,
};

/// The registers of the hart at reset: what is left of one raw value for each, in the order of their numbers. The
/// value for sstatus is passed over, since sstatus is a view of mstatus.
#[tactic(auto, unfolding(rv_fields::specs::CsrFile::reset))]
pub fn reset_of(hart: u8, raw: &[u64; 19]) -> CsrFile
    ensures value { result ≡ machine.reset hart raw.now }
    ensures has_mode { status.HasMode result.mstatus }
    ensures legal { IsLegal result }
{
    let mut file = ZERO;
    file.put_each(&CSRS[1..], &raw[1..]);
    file.mhartid = u64::from(hart);
    file.mstatus = MPRV.with(MIE.with(file.mstatus, 0), 0);
    file
}

impl CsrFile {
    /// Writes a value to each of the registers, one after another.
    fn put_each(&mut self, csrs: &[Csr], values: &[u64])
        ensures { self.new ≡ machine.written_each self.old csrs.now values.now }
    {
        for (csr, value) in csrs.iter().zip(values) {
            self.put(*csr, *value);
        }
    }
}
