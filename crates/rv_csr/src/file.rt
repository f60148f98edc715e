ghost use Rattle.std.specs.Prelude.{◌≡◌, ◌≢◌, ◌↔◌, ◌==◌, ◌||◌, IsTrue, IsOk, IfOk, OnOk, OnErr};
ghost use Rattle.rv_fields.specs.CsrFile as machine;
ghost use Rattle.rv_fields.specs.declared.csr.Csr.{Csr};
ghost use Rattle.rv_fields.specs.Field.{field_of, masked};
ghost use Rattle.rv_fields.specs.Ranges.{IsLegal};
ghost use Rattle.rv_fields.specs.Status as status;

mod reset;
mod rights;
mod trap;

use crate::field::{Field, masked};
use crate::mode::mode_number;
pub use reset::reset_of;
use rv_fields::{Csr, Mode, csr_number, csr_row};
use std::marker::Model;

/// The control and status registers of a hart. sstatus holds nothing of its own: it is a view of mstatus.
#[derive(Clone, Copy, Debug, PartialEq, Eq)]
pub struct CsrFile {
    stvec: u64,
    sscratch: u64,
    sepc: u64,
    scause: u64,
    stval: u64,
    satp: u64,
    mstatus: u64,
    medeleg: u64,
    mideleg: u64,
    mie: u64,
    mtvec: u64,
    mscratch: u64,
    mepc: u64,
    mcause: u64,
    mtval: u64,
    pmpcfg0: u64,
    pmpaddr0: u64,
    mhartid: u64,
}

impl Model for CsrFile {
    ghost use Rattle.rv_fields.specs.CsrFile as machine;

    ghost Value = { machine.CsrFile };

    ghost view = { λ f. record {
      stvec = f.stvec;
      sscratch = f.sscratch;
      sepc = f.sepc;
      scause = f.scause;
      stval = f.stval;
      satp = f.satp;
      mstatus = f.mstatus;
      medeleg = f.medeleg;
      mideleg = f.mideleg;
      mie = f.mie;
      mtvec = f.mtvec;
      mscratch = f.mscratch;
      mepc = f.mepc;
      mcause = f.mcause;
      mtval = f.mtval;
      pmpcfg0 = f.pmpcfg0;
      pmpaddr0 = f.pmpaddr0;
      mhartid = f.mhartid;
    } };

    ghost inverse = { λ v. record {
      stvec = v.stvec;
      sscratch = v.sscratch;
      sepc = v.sepc;
      scause = v.scause;
      stval = v.stval;
      satp = v.satp;
      mstatus = v.mstatus;
      medeleg = v.medeleg;
      mideleg = v.mideleg;
      mie = v.mie;
      mtvec = v.mtvec;
      mscratch = v.mscratch;
      mepc = v.mepc;
      mcause = v.mcause;
      mtval = v.mtval;
      pmpcfg0 = v.pmpcfg0;
      pmpaddr0 = v.pmpaddr0;
      mhartid = v.mhartid;
    } };
}

/// A register is not to be had: in this mode, or for writing.
#[derive(Clone, Copy, Debug, PartialEq, Eq)]
pub struct Illegal;

const MIE: Field = Field { low: 3, width: 1 };

const MPP: Field = Field { low: 11, width: 2 };

const MPRV: Field = Field { low: 17, width: 1 };

const TVM: Field = Field { low: 20, width: 1 };

const SATP_MODE: Field = Field { low: 60, width: 4 };

/// Sv39, as satp has it.
const SV39: u64 = 8;

impl CsrFile {
    /// What is read from the register in the mode.
    pub fn read(&self, csr: Csr, mode: Mode) -> Result<u64, Illegal>
        ensures legal { IsOk result ↔ IsTrue (machine.may_read self.now csr mode) }
        ensures value { IfOk result (λ value. value ≡ machine.reading self.now csr) }
    {
        if self.may_read(csr, mode) {
            Ok(self.reading(csr))
        } else {
            Err(Illegal)
        }
    }

    /// Writes the value to the register in the mode.
    pub fn write(&mut self, csr: Csr, mode: Mode, value: u64) -> Result<(), Illegal>
        ensures legal { IsOk result ↔ IsTrue (machine.may_write self.old csr mode) }
        ensures written { OnOk result (self.new ≡ machine.written self.old csr value) }
        ensures refused { OnErr result (self.new ≡ self.old) }

        // What is read from the register then is what was read before, with the changed bits of the value.
        ensures reads { OnOk result (machine.reading self.new csr
            ≡ masked (machine.changed_bits csr value) (machine.reading self.old csr) value) }
        // MPP always has the number of a mode.
        ensures has_mode { status.HasMode self.old.mstatus → status.HasMode self.new.mstatus }
        // No register gets a bit that a write can't change.
        ensures stays_legal { IsLegal self.old → IsLegal self.new }
        ensures again { OnOk result (machine.written self.new csr value ≡ self.new) }
        ensures others { (other : Csr) → machine.source other ≢ machine.source csr
            → machine.reading self.new other ≡ machine.reading self.old other }
    {
        if self.may_write(csr, mode) {
            self.put(csr, value);
            Ok(())
        } else {
            Err(Illegal)
        }
    }

    fn may_read(&self, csr: Csr, mode: Mode) -> bool
        ensures { result ≡ machine.may_read self.now csr mode }
    {
        least_mode(csr) <= mode_number(mode) && !self.is_kept_back(csr, mode)
    }

    fn may_write(&self, csr: Csr, mode: Mode) -> bool
        ensures { result ≡ machine.may_write self.now csr mode }
    {
        self.may_read(csr, mode) && !is_read_only(csr)
    }

    /// Whether TVM keeps the register from the mode.
    fn is_kept_back(&self, csr: Csr, mode: Mode) -> bool
        ensures { result ≡ machine.is_kept_back self.now csr mode }
    {
        match (csr, mode) {
            (Csr::Satp, Mode::S) => TVM.of(self.mstatus) == 1,
            _ => false,
        }
    }

    fn reading(&self, csr: Csr) -> u64
        ensures { result ≡ machine.reading self.now csr }
    {
        let row = csr_row(csr);
        let held = self.held(csr);
        let shown = match csr {
            Csr::Sstatus => held & row.writable,
            _ => held,
        };
        shown | row.constant
    }

    #[tactic(auto, unfolding(rv_fields::specs::CsrFile::written))]
    fn put(&mut self, csr: Csr, value: u64)
        ensures { self.new ≡ machine.written self.old csr value }
    {
        let held = masked(changed_bits(csr, value), self.held(csr), value);
        self.hold(csr, held);
    }

    /// What is held for the register.
    fn held(&self, csr: Csr) -> u64
        ensures { result ≡ machine.held self.now csr }
    {
        match csr {
            Csr::Sstatus | Csr::Mstatus => self.mstatus,
            Csr::Stvec => self.stvec,
            Csr::Sscratch => self.sscratch,
            Csr::Sepc => self.sepc,
            Csr::Scause => self.scause,
            Csr::Stval => self.stval,
            Csr::Satp => self.satp,
            Csr::Medeleg => self.medeleg,
            Csr::Mideleg => self.mideleg,
            Csr::Mie => self.mie,
            Csr::Mtvec => self.mtvec,
            Csr::Mscratch => self.mscratch,
            Csr::Mepc => self.mepc,
            Csr::Mcause => self.mcause,
            Csr::Mtval => self.mtval,
            Csr::Pmpcfg0 => self.pmpcfg0,
            Csr::Pmpaddr0 => self.pmpaddr0,
            Csr::Mhartid => self.mhartid,
        }
    }

    /// Holds the value for the register.
    fn hold(&mut self, csr: Csr, value: u64)
        ensures { self.new ≡ machine.with_held self.old csr value }
    {
        match csr {
            Csr::Sstatus | Csr::Mstatus => self.mstatus = value,
            Csr::Stvec => self.stvec = value,
            Csr::Sscratch => self.sscratch = value,
            Csr::Sepc => self.sepc = value,
            Csr::Scause => self.scause = value,
            Csr::Stval => self.stval = value,
            Csr::Satp => self.satp = value,
            Csr::Medeleg => self.medeleg = value,
            Csr::Mideleg => self.mideleg = value,
            Csr::Mie => self.mie = value,
            Csr::Mtvec => self.mtvec = value,
            Csr::Mscratch => self.mscratch = value,
            Csr::Mepc => self.mepc = value,
            Csr::Mcause => self.mcause = value,
            Csr::Mtval => self.mtval = value,
            Csr::Pmpcfg0 => self.pmpcfg0 = value,
            Csr::Pmpaddr0 => self.pmpaddr0 = value,
            Csr::Mhartid => self.mhartid = value,
        }
    }
}

/// The bits of the register that a write of the value changes.
fn changed_bits(csr: Csr, value: u64) -> u64
    ensures { result ≡ machine.changed_bits csr value }
{
    let writable = csr_row(csr).writable;
    match csr {
        Csr::Mstatus if MPP.of(value) == 2 => MPP.with(writable, 0),
        Csr::Satp if !is_satp_mode(value) => 0,
        _ => writable,
    }
}

/// Whether satp can take the value: no translation, or Sv39.
fn is_satp_mode(value: u64) -> bool
    ensures { result ≡ (field_of status.satp_mode value == 0 || field_of status.satp_mode value == 8) }
{
    let mode = SATP_MODE.of(value);
    mode == 0 || mode == SV39
}

/// The least mode that may use the register.
fn least_mode(csr: Csr) -> u64
    ensures { result ≡ machine.least_mode csr }
{
    u64::from(csr_number(csr) >> 8) % 4
}

fn is_read_only(csr: Csr) -> bool
    ensures { result ≡ machine.is_read_only csr }
{
    (csr_number(csr) >> 10) % 4 == 3
}
