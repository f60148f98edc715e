ghost use Rattle.std.specs.Prelude.{◌≡◌, ◌↔◌, ◌<◌, Some, IfSome, option_map, if◌then◌else◌};
ghost use Rattle.rv_fields.specs.declared.row_table.Ins.{Ins};
ghost use Rattle.rv_fields.specs.RowTable.{Agrees};
ghost use Rattle.rv_fields.specs.Decode.{Decoded, decoded, ins_at, fields_of, imm_of};
ghost use Rattle.rv_fields.specs.Immediate.{bits_of};
ghost use Rattle.rv_table.specs.Listing.{listed_entry, defined};

use crate::opcodes::candidate;
use crate::rows::{line_of, mask};
use crate::table::Entry;
use rv_fields::{Form, Ins, Ops, bits_of, imm_b, imm_i, imm_j, imm_s, imm_u};

/// The instruction and the operands that the word spells.
pub fn decode(word: u32) -> Option<(Ins, Ops)>
    ensures value { option_map (λ p. record { ins = p.0; ops = p.1 }) result ≡ decoded word }
    ensures row { (i : Ins) → (option_map (λ p. p.0) result ≡ Some i) ↔ Agrees word i }
    ensures registers { IfSome result (λ p. (p.1.rd < 32) × (p.1.rs1 < 32) × (p.1.rs2 < 32)) }
{
    let Entry(ins, form, _, _) = entry_of(word)?;
    Some((ins, operands(form, word)))
}

/// The line of the table whose row agrees with the word.
fn entry_of(word: u32) -> Option<Entry>
    ensures { option_map listed_entry result ≡ option_map defined (ins_at word) }
{
    let entry = line_of(candidate(word)?);
    if word & mask(entry.1) == entry.3 {
        Some(entry)
    } else {
        None
    }
}

/// The fields of the form in the word; those that it lacks are 0.
fn operands(form: Form, word: u32) -> Ops
    ensures fields { result ≡ fields_of form word }
    ensures registers { (result.rd < 32) × (result.rs1 < 32) × (result.rs2 < 32) }
{
    Ops {
        rd: register(form.has_rd(), word, 7),
        rs1: register(form.has_rs1(), word, 15),
        rs2: register(form.has_rs2(), word, 20),
        imm: immediate(form, word),
        aqrl: if form.has_aqrl() {
            bits_of(word, 25, 2) as u8
        } else {
            0
        },
    }
}

/// The number in the five bits from `low` on; 0 where the form lacks the field.
fn register(has: bool, word: u32, low: u32) -> u8
    requires { low < 32 }
    ensures value { result ≡ (if has then bits_of word low 5 else 0) }
    ensures register { result < 32 }
{
    if has { bits_of(word, low, 5) as u8 } else { 0 }
}

/// The form's immediate in the word.
fn immediate(form: Form, word: u32) -> i64
    ensures { result ≡ imm_of form word }
{
    match form {
        Form::U => imm_u(word),
        Form::J => imm_j(word),
        Form::I => imm_i(word),
        Form::B => imm_b(word),
        Form::S => imm_s(word),
        Form::H6 => i64::from(bits_of(word, 20, 6)),
        Form::H5 => i64::from(bits_of(word, 20, 5)),
        Form::C | Form::K => i64::from(bits_of(word, 20, 12)),
        Form::R | Form::A | Form::L | Form::V | Form::N => 0,
    }
}
