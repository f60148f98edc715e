ghost use Rattle.std.specs.Prelude.{◌≡◌};
ghost use Rattle.region_plan.specs.Pinned.{csr_pins, fits_word, gives_x0, is_fence_set, is_scratch, may_change, may_give, may_give_all, may_name, no_pins, pinned_ops, suit, suit_csr, suit_fence};
ghost use Rattle.region_plan.specs.Views.{pins_seen};

use crate::register_set::RegisterSet;
use rv_encode::encode;
use rv_fields::{Class, Csr, CsrChange, Form, Ins, Ops, csr_number};
use rv_table::{class_of, row};

/// The instruction that a request asks for.
#[derive(Clone, Copy, Debug, PartialEq, Eq)]
pub enum InsChoice {
    Named(Ins),
}

/// The operands that a request gives; the others are drawn.
#[derive(Clone, Copy, Debug, PartialEq, Eq)]
pub struct Pins {
    pub rd: Option<u8>,
    pub rs1: Option<u8>,
    pub rs2: Option<u8>,
    pub imm: Option<i64>,
    /// The registers that no operand may be.
    pub avoid: RegisterSet,
    /// rs1 is the fixed x0 of a read, and no operand.
    pub zero_rs1: bool,
}

impl Pins {
    /// Those that give nothing and avoid nothing.
    pub fn none() -> Pins
        ensures { pins_seen result ≡ no_pins }
    {
        Pins {
            rd: None,
            rs1: None,
            rs2: None,
            imm: None,
            avoid: RegisterSet::empty(),
            zero_rs1: false,
        }
    }

    /// The operands; those that aren't given are 0.
    pub fn ops(&self) -> Ops
        ensures { result ≡ pinned_ops (pins_seen self.now) }
    {
        Ops {
            rd: self.rd.unwrap_or(0),
            rs1: self.rs1.unwrap_or(0),
            rs2: self.rs2.unwrap_or(0),
            imm: self.imm.unwrap_or(0),
            aqrl: 0,
        }
    }

    /// Those of an instruction on the CSR, whose number stands in the immediate's place.
    pub fn of_csr(&self, csr: Csr) -> Pins
        ensures { pins_seen result ≡ csr_pins csr (pins_seen self.now) }
    {
        Pins {
            imm: Some(i64::from(csr_number(csr))),
            ..*self
        }
    }

    /// Whether a template may give these to the instruction: it computes a value or is a fence, and its word can hold
    /// what is given.
    pub fn suit(&self, ins: Ins) -> bool
        ensures { result ≡ suit ins (pins_seen self.now) }
    {
        match class_of(ins) {
            Class::Computes => {
                self.are_of_form(row(ins).form) && encode(ins, &self.ops()).is_ok()
            }
            Class::Fences => self.suit_fence(),
            _ => false,
        }
    }

    /// Whether a template may give these to the instruction on the CSR.
    pub fn suit_csr(&self, csr: Csr, ins: Ins) -> bool
        ensures { result ≡ suit_csr csr ins (pins_seen self.now) }
    {
        may_name(csr)
            && self.may_change(class_of(ins), csr)
            && row(ins).form == Form::C
            && self.are_of_form(row(ins).form)
            && encode(ins, &self.of_csr(csr).ops()).is_ok()
    }

    /// Whether no operand is given that the form lacks.
    fn are_of_form(&self, form: Form) -> bool
        ensures { result ≡ may_give_all form (pins_seen self.now) }
    {
        (form.has_rd() || self.rd.is_none())
            && (form.has_rs1() && !self.zero_rs1 || self.rs1.is_none())
            && (form.has_rs2() || self.rs2.is_none())
            && (form.has_imm() || self.imm.is_none())
    }

    /// Whether these are what a fence orders, and no register but x0.
    fn suit_fence(&self) -> bool
        ensures { result ≡ suit_fence (pins_seen self.now) }
    {
        self.rd.unwrap_or(0) == 0
            && self.rs1.unwrap_or(0) == 0
            && self.rs2.is_none()
            && is_fence_set(self.imm)
    }

    /// Whether a template may ask for instructions of the class on the CSR.
    fn may_change(&self, class: Class, csr: Csr) -> bool
        ensures { result ≡ may_change class csr (pins_seen self.now) }
    {
        match class {
            Class::ChangesCsr(CsrChange::Swap) => is_scratch(csr),
            Class::ChangesCsr(_) => is_scratch(csr) || self.give_x0(),
            _ => false,
        }
    }

    /// Whether rs1 is sure to be x0.
    fn give_x0(&self) -> bool
        ensures { result ≡ gives_x0 (pins_seen self.now) }
    {
        self.zero_rs1 || self.rs1 == Some(0)
    }
}

/// Whether this is a set of accesses that a fence orders, where it is given: 4 bits of what comes before, and 4 of what comes
/// behind.
fn is_fence_set(imm: Option<i64>) -> bool
    ensures { result ≡ is_fence_set imm }
{
    match imm {
        Some(set) => 0 <= set && set < 256,
        None => true,
    }
}

/// Whether a template may name the CSR: mcause and mtval differ from one start to another, and the others that it may
/// not name hold nothing that can change.
fn may_name(csr: Csr) -> bool
    ensures { result ≡ may_name csr }
{
    !matches!(
        csr,
        Csr::Mideleg | Csr::Mie | Csr::Mcause | Csr::Mtval | Csr::Pmpcfg0 | Csr::Pmpaddr0
    )
}

/// Whether a template may write the CSR.
fn is_scratch(csr: Csr) -> bool
    ensures { result ≡ is_scratch csr }
{
    matches!(csr, Csr::Sscratch | Csr::Mscratch)
}

/// A word of its own that a request asks for.
#[derive(Clone, Copy, Debug, PartialEq, Eq)]
pub enum Sys {
    /// `ecall`.
    Ecall,
    /// `ebreak`.
    Ebreak,
    /// The word 0, which is no instruction.
    Zero,
    /// `sfence.vma` of all addresses and all spaces.
    Sfence,
}

/// One request.
#[derive(Clone, Copy, Debug, PartialEq, Eq)]
pub enum Request {
    /// One instruction, which retires without a trap.
    Ins { ins: InsChoice, pins: Pins },
    /// One instruction that reads a CSR, and may change it.
    Csr { csr: Csr, ins: Ins, pins: Pins },
    /// One word, which may take a trap.
    Sys(Sys),
}

/// What stands in a template.
#[derive(Clone, Copy, Debug, PartialEq, Eq)]
pub enum Item {
    One(Request),
}
