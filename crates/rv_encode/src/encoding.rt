ghost use Rattle.std.specs.Prelude.{◌≡◌, ℕ, ◌<◌, ◌^◌, Some, None, IfOk, IfErr, OnOk, Ok};
ghost use Rattle.rv_fields.specs.RowTable.{form_of};
ghost use Rattle.rv_fields.specs.Decode.{Decoded, decoded};
ghost use Rattle.rv_encode.specs.Fitting.{misfit};
ghost use Rattle.rv_encode.specs.Packing.{word_by};

use crate::field::OutOfField;
use crate::fitting::misfit;
use crate::placing::packed;
use rv_fields::{Ins, Ops};
use rv_table::row;

/// The word that spells the instruction with these operands.
#[tactic(auto, using(rv_fields::proofs::OneRow::value_masked))]
pub fn encode(ins: Ins, ops: &Ops) -> Result<u32, OutOfField>
    ensures word { IfOk result (λ word. word ≡ word_by ins ops.now) }
    // What is encoded decodes to what was asked.
    ensures decodes { IfOk result (λ word. decoded word ≡ Some (record { ins = ins; ops = ops.now })) }
    // A word that decodes to it is the one that is given.
    ensures only { (word : ℕ) → word < 2 ^ 32 → decoded word ≡ Some (record { ins = ins; ops = ops.now }) → result ≡ Ok word }
    // A refusal names the first field that doesn't fit, and comes only where one doesn't.
    ensures fits { OnOk result (misfit (form_of ins) ops.now ≡ None) }
    ensures misfit { IfErr result (λ e. misfit (form_of ins) ops.now ≡ Some e) }
{
    let row = row(ins);
    match misfit(row.form, ops) {
        Some(misfit) => Err(misfit),
        None => Ok(packed(row.form, row.value, ops)),
    }
}
