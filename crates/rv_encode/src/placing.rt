//! The word of a row's value and of operands that fit its form.

ghost use Rattle.std.specs.Prelude.{◌≡◌, ◌<◌, ◌^◌, bit_and, None, IsTrue};
ghost use Rattle.rv_fields.specs.RowTable.{mask_of};
ghost use Rattle.rv_encode.specs.Fitting.{misfit, fits_imm};
ghost use Rattle.rv_encode.specs.Packing.{packed, without_imm, put_imm};

use rv_fields::{Form, Ops, put_imm_b, put_imm_i, put_imm_j, put_imm_s, put_imm_u};

/// The word that spells the operands in the form, around the row's value.
pub fn packed(form: Form, value: u32, ops: &Ops) -> u32
    requires value { bit_and value (mask_of form) ≡ value }
    requires fits { misfit form ops.now ≡ None }
    ensures { result ≡ packed form value ops.now }
{
    with_imm(form, without_imm(value, ops), ops)
}

/// The row's value, the registers, and aq with rl.
fn without_imm(value: u32, ops: &Ops) -> u32
    requires { without_imm value ops.now < 2 ^ 32 }
    ensures { result ≡ without_imm value ops.now }
{
    let rd = u32::from(ops.rd) << 7;
    let rs1 = u32::from(ops.rs1) << 15;
    let rs2 = u32::from(ops.rs2) << 20;
    let aqrl = u32::from(ops.aqrl) << 25;
    value + rd + rs1 + rs2 + aqrl
}

/// The word with the form's immediate.
fn with_imm(form: Form, word: u32, ops: &Ops) -> u32
    requires fits { IsTrue (fits_imm form ops.now.imm) }
    requires size { put_imm form word ops.now.imm < 2 ^ 32 }
    ensures { result ≡ put_imm form word ops.now.imm }
{
    match form {
        Form::U => put_imm_u(word, ops.imm),
        Form::J => put_imm_j(word, ops.imm),
        Form::I => put_imm_i(word, ops.imm),
        Form::B => put_imm_b(word, ops.imm),
        Form::S => put_imm_s(word, ops.imm),
        Form::H6 | Form::H5 | Form::C | Form::K => word + ((ops.imm as u32) << 20),
        Form::R | Form::A | Form::L | Form::V | Form::N => word,
    }
}
