//! What an instruction word can hold of the operands that it is given.

ghost use Rattle.std.specs.Prelude.{◌≡◌, find, not, pos, ◌≤ℤ◌, ◌<ℤ◌, unsigned_abs};
ghost use Rattle.rv_encode.specs.Fitting.{fits, fits_field, fits_imm, is_below, misfit, value_in};

use crate::field::{Field, OutOfField};
use rv_fields::{Form, Ops, fits_b, fits_i, fits_j, fits_u};

/// The fields in the order in which a misfit is told.
const FIELDS: [Field; 5] = [Field::Rd, Field::Rs1, Field::Rs2, Field::Imm, Field::AqRl];

/// The first field that the form can't hold, with its value.
pub fn misfit(form: Form, ops: &Ops) -> Option<OutOfField>
    ensures { result ≡ misfit form ops.now }
{
    let field = first_misfit(&FIELDS, form, ops)?;
    Some(OutOfField {
        field,
        value: value_in(ops, field),
    })
}

/// The first of the fields that the form can't hold.
fn first_misfit(fields: &[Field], form: Form, ops: &Ops) -> Option<Field>
    ensures { result ≡ find (λ field. not (fits form ops.now field)) fields.now }
{
    fields
        .iter()
        .copied()
        .find(|field| !fits(form, ops, *field))
}

/// Whether the form holds what the operands have for the field.
fn fits(form: Form, ops: &Ops, field: Field) -> bool
    ensures { result ≡ fits form ops.now field }
{
    match field {
        Field::Rd => fits_field(form.has_rd(), 32, ops.rd),
        Field::Rs1 => fits_field(form.has_rs1(), 32, ops.rs1),
        Field::Rs2 => fits_field(form.has_rs2(), 32, ops.rs2),
        Field::Imm => fits_imm(form, ops.imm),
        Field::AqRl => fits_field(form.has_aqrl(), 4, ops.aqrl),
    }
}

/// Whether the number is below the bound, or 0 where the form lacks the field.
fn fits_field(has: bool, bound: u8, number: u8) -> bool
    ensures { result ≡ fits_field has bound number }
{
    if has { number < bound } else { number == 0 }
}

/// Whether the form can hold the immediate.
fn fits_imm(form: Form, imm: i64) -> bool
    ensures { result ≡ fits_imm form imm }
{
    match form {
        Form::U => fits_u(imm),
        Form::J => fits_j(imm),
        Form::I | Form::S => fits_i(imm),
        Form::B => fits_b(imm),
        Form::H6 => is_below(64, imm),
        Form::H5 => is_below(32, imm),
        Form::C | Form::K => is_below(1 << 12, imm),
        Form::R | Form::A | Form::L | Form::V | Form::N => is_below(1, imm),
    }
}

/// Whether the value is 0 or more, and below the bound.
fn is_below(bound: i64, value: i64) -> bool
    requires { pos 0 ≤ℤ bound }
    ensures { result ≡ is_below (unsigned_abs bound) value }
{
    0 <= value && value < bound
}

/// The value that the operands have for the field.
fn value_in(ops: &Ops, field: Field) -> i64
    ensures { result ≡ value_in ops.now field }
{
    match field {
        Field::Rd => i64::from(ops.rd),
        Field::Rs1 => i64::from(ops.rs1),
        Field::Rs2 => i64::from(ops.rs2),
        Field::Imm => ops.imm,
        Field::AqRl => i64::from(ops.aqrl),
    }
}
