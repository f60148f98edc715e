ghost use Rattle.std.specs.Prelude.{◌≡◌, ◌%◌, ◌^◌, ◌<◌};
ghost use Rattle.rv_fields.specs.Meaning.{signed, sign_extended, shift_amount};
ghost use Rattle.rv_alu.specs.Views.{bits_seen};

/// How many of a register's low bits an operation reads, and how many its result has.
#[derive(Clone, Copy)]
pub enum Width {
    /// 32 bits.
    Word,
    /// 64 bits.
    Doubleword,
}

impl Width {
    pub fn bits(self) -> u32
        ensures { result ≡ bits_seen self }
    {
        match self {
            Width::Word => u32::BITS,
            Width::Doubleword => u64::BITS,
        }
    }

    /// The low bits of a register.
    pub fn low(self, register: u64) -> u64
        ensures { result ≡ register % 2 ^ bits_seen self }
    {
        match self {
            Width::Word => register % (1 << 32),
            Width::Doubleword => register,
        }
    }

    /// The number that the bits are in two's complement.
    pub fn signed(self, number: u64) -> i64
        requires { number < 2 ^ bits_seen self }
        ensures { result ≡ signed (bits_seen self) number }
    {
        match self {
            Width::Word => i64::from((number as u32).cast_signed()),
            Width::Doubleword => number.cast_signed(),
        }
    }

    /// The bits, extended with their sign to a register.
    pub fn sign_extended(self, number: u64) -> u64
        requires { number < 2 ^ bits_seen self }
        ensures { result ≡ sign_extended (bits_seen self) number }
    {
        self.signed(number).cast_unsigned()
    }

    /// By how much a shift by this operand moves bits.
    pub fn shift_amount(self, operand: u64) -> u32
        ensures value { result ≡ shift_amount (bits_seen self) operand }
        ensures small { result < bits_seen self }
    {
        (operand % u64::from(self.bits())) as u32
    }
}
