ghost use Rattle.std.specs.Prelude.{◌≡◌, ◌<◌, ◌^◌};
ghost use Rattle.rv_fields.specs.Meaning.{result_of, sign_extended};
ghost use Rattle.rv_alu.specs.Views.{bits_seen, computation_seen};

use crate::operation::Operation;
use crate::width::Width;

/// An operation, and the width of its operands and its result.
#[derive(Clone, Copy)]
pub struct Computation {
    pub width: Width,
    pub operation: Operation,
}

impl Computation {
    /// The result for two registers, of which the low bits are the operands.
    pub fn result(self, a: u64, b: u64) -> u64
        ensures value { result ≡ result_of (computation_seen self) a b }
        ensures small { result < 2 ^ bits_seen self.width }
    {
        let Computation { width, operation } = self;
        width.low(operation.apply(width, width.low(a), width.low(b)))
    }

    /// The result, extended with its sign to a register.
    pub fn extended_result(self, a: u64, b: u64) -> u64
        ensures { result ≡ sign_extended (bits_seen self.width) (result_of (computation_seen self) a b) }
    {
        self.width.sign_extended(self.result(a, b))
    }
}

pub fn word(operation: Operation) -> Computation
    ensures { result ≡ record { width = Width.Word; operation = operation } }
{
    Computation {
        width: Width::Word,
        operation,
    }
}

pub fn doubleword(operation: Operation) -> Computation
    ensures { result ≡ record { width = Width.Doubleword; operation = operation } }
{
    Computation {
        width: Width::Doubleword,
        operation,
    }
}
