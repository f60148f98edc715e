//! The kinds of requests, and the causes for which they are refused.
ghost use Rattle.std.specs.Prelude.{◌≡◌, Some};
ghost use Rattle.trace_fields.specs.Text.{kind_text, cause_text};

use std::fmt;

/// What a request is: the key that leads its item in a job.
#[derive(Clone, Copy, Debug, PartialEq, Eq)]
pub enum Kind {
    Ins,
    Mem,
    Jump,
    Csr,
    Sys,
    Value,
    Loop,
    Pick,
    Set,
}

impl Kind {
    /// The name of the kind: the key that leads such a request's item in a job.
    pub fn name(self) -> &'static str
        ensures { result.now ≡ kind_text self }
    {
        match self {
            Kind::Ins => "ins",
            Kind::Mem => "mem",
            Kind::Jump => "jump",
            Kind::Csr => "csr",
            Kind::Sys => "sys",
            Kind::Value => "value",
            Kind::Loop => "loop",
            Kind::Pick => "pick",
            Kind::Set => "set",
        }
    }
}

impl fmt::Display for Kind {
    ghost output = { λ kind. Some (kind_text kind) };

    fn fmt<W: fmt::Write>(&self, f: &mut fmt::Formatter<W>) -> fmt::Result {
        f.pad(self.name())
    }
}

/// Why a request is refused.
#[derive(Clone, Copy, Debug, PartialEq, Eq)]
pub enum Cause {
    EmptyChoice,
    BudgetSpent,
    NoRegister,
    NoAddress,
    NoTarget,
    WindowFull,
    NoFreePage,
    NoPlace,
}

impl Cause {
    /// The name of the cause.
    pub fn name(self) -> &'static str
        ensures { result.now ≡ cause_text self }
    {
        match self {
            Cause::EmptyChoice => "empty-choice",
            Cause::BudgetSpent => "budget-spent",
            Cause::NoRegister => "no-register",
            Cause::NoAddress => "no-address",
            Cause::NoTarget => "no-target",
            Cause::WindowFull => "window-full",
            Cause::NoFreePage => "no-free-page",
            Cause::NoPlace => "no-place",
        }
    }
}

impl fmt::Display for Cause {
    ghost output = { λ cause. Some (cause_text cause) };

    fn fmt<W: fmt::Write>(&self, f: &mut fmt::Formatter<W>) -> fmt::Result {
        f.pad(self.name())
    }
}
