ghost use Rattle.std.specs.Prelude.{◌≡◌, ◌<◌, ◌^◌};
ghost use Rattle.rv_fields.specs.Immediate.{signed_of};
ghost use Rattle.choice_tree.specs.Draws.{next_word, skipped};
ghost use Rattle.operand_solver.specs.Drawing.{imm_behind};

use choice_tree::DrawWords;
use rv_fields::{Form, Ins};
use rv_table::row;

/// Draws the next word of a stream that isn't at its end.
pub(crate) fn draw(words: &mut DrawWords) -> u64
    requires { words.old.drawn < u64.MAX }
    ensures word { result ≡ next_word words.old }
    ensures left { words.new ≡ skipped words.old 1 }
{
    words.next()
}

/// The immediate of the instruction: the one that is given, or what the next word makes of it where its form has one to
/// draw, or 0.
pub(crate) fn draw_imm(ins: Ins, pin: Option<i64>, words: &mut DrawWords) -> i64
    requires { words.old.drawn < u64.MAX }
    ensures imm { result ≡ (imm_behind ins pin words.old).imm }
    ensures left { words.new ≡ (imm_behind ins pin words.old).left }
{
    if let Some(imm) = pin {
        return imm;
    }
    if ins == Ins::Fence {
        return (draw(words) % 256) as i64;
    }
    match row(ins).form {
        Form::I => (draw(words) % 4096) as i64 - 2048,
        Form::U => signed_20(draw(words) % (1 << 20)) * 4096,
        Form::H6 => (draw(words) % 64) as i64,
        Form::H5 => (draw(words) % 32) as i64,
        _ => 0,
    }
}

/// A number of 20 bits, read in two's complement.
fn signed_20(bits: u64) -> i64
    requires { bits < 2 ^ 20 }
    ensures { result ≡ signed_of (2 ^ 19) bits }
{
    if bits < 1 << 19 {
        bits as i64
    } else {
        bits as i64 - (1 << 20)
    }
}
