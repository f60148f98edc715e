/// A field of an instruction word.
#[derive(Clone, Copy, Debug, PartialEq, Eq)]
pub enum Field {
    Rd,
    Rs1,
    Rs2,
    Imm,
    AqRl,
}

/// An operand that the instruction's form can't hold, or that isn't 0 where the form lacks its field.
#[derive(Clone, Copy, Debug, PartialEq, Eq)]
pub struct OutOfField {
    pub field: Field,
    pub value: i64,
}
