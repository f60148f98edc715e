ghost use Rattle.std.specs.Prelude.{◌≡◌};
ghost use Rattle.rv_fields.specs.Decode.{has_rd, has_rs1, has_rs2, has_imm, has_aqrl};

use crate::row_table::Form;

impl Form {
    /// Whether the form has the field rd.
    pub fn has_rd(self) -> bool
        ensures { result ≡ has_rd self }
    {
        !matches!(self, Form::B | Form::S | Form::V | Form::N)
    }

    /// Whether the form has the field rs1, or a number in its place.
    pub fn has_rs1(self) -> bool
        ensures { result ≡ has_rs1 self }
    {
        !matches!(self, Form::U | Form::J | Form::N)
    }

    /// Whether the form has the field rs2.
    pub fn has_rs2(self) -> bool
        ensures { result ≡ has_rs2 self }
    {
        matches!(self, Form::B | Form::S | Form::R | Form::A | Form::V)
    }

    /// Whether the form has an immediate or a shift amount.
    pub fn has_imm(self) -> bool
        ensures { result ≡ has_imm self }
    {
        matches!(
            self,
            Form::U | Form::J | Form::I | Form::B | Form::S | Form::H6 | Form::H5
        )
    }

    /// Whether the form has the ordering bits aq and rl.
    pub fn has_aqrl(self) -> bool
        ensures { result ≡ has_aqrl self }
    {
        matches!(self, Form::A | Form::L)
    }
}
