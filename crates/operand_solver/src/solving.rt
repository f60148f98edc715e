ghost use Rattle.std.specs.Prelude.{◌≡◌, ◌+◌, ◌<◌, IfErr, IfOk, IsTrue, None, is_ok};
ghost use Rattle.region_plan.specs.Pinned.{fits_word, pinned_ops};
ghost use Rattle.region_plan.specs.Views.{pins_seen};
ghost use Rattle.operand_solver.specs.Drawing.{operands_of};
ghost use Rattle.operand_solver.specs.Operands.{operands_drawn, registers_of, serve};

use crate::drawing::draw_imm;
use crate::operand::{NoRegister, RegisterOperand};
use choice_tree::DrawWords;
use region_plan::Pins;
use rv_fields::{Class, Ins, Ops};
use rv_table::{class_of, row};

/// The operands of an instruction that stands by itself: rd, rs1, rs2 and the immediate, in this order. Those that are given
/// stand as they are and take no word; each of the others takes the next one. Where no register serves one of them, none
/// is drawn. A fence has no operand among the registers.
pub fn operands(ins: Ins, pins: &Pins, words: &mut DrawWords) -> Result<Ops, NoRegister>
    requires fits { IsTrue (fits_word ins (pinned_ops (pins_seen pins.now))) }
    requires few { words.old.drawn + 4 < u64.MAX }
    ensures served { is_ok result ≡ serve (registers_of ins (pins_seen pins.now) None) }
    ensures drawn { IfOk result (λ ops. record { ops = ops; left = words.new } ≡ operands_drawn ins (pins_seen pins.now) None words.old) }
    ensures fits { IfOk result (λ ops. IsTrue (fits_word ins ops)) }
    ensures undrawn { IfErr result (λ e. words.new ≡ words.old) }
{
    let has = HasRegisters::of(ins, pins);
    let rd = RegisterOperand::of(has.rd, pins, pins.rd)?;
    let rs1 = RegisterOperand::of(has.rs1, pins, pins.rs1)?;
    let rs2 = RegisterOperand::of(has.rs2, pins, pins.rs2)?;
    Ok(Ops {
        rd: rd.draw(pins, words),
        rs1: rs1.draw(pins, words),
        rs2: rs2.draw(pins, words),
        imm: draw_imm(ins, pins.imm, words),
        aqrl: 0,
    })
}

/// Which operands among the registers there are.
#[derive(Clone, Copy)]
pub(crate) struct HasRegisters {
    pub rd: bool,
    pub rs1: bool,
    pub rs2: bool,
}

impl HasRegisters {
    /// Those of the instruction: all that its form has, but the fixed rs1 of a read, and none of a fence.
    fn of(ins: Ins, pins: &Pins) -> HasRegisters
        ensures { operands_of (pins_seen pins.now) result ≡ registers_of ins (pins_seen pins.now) None }
    {
        let form = row(ins).form;
        match class_of(ins) {
            Class::Fences => HasRegisters {
                rd: false,
                rs1: false,
                rs2: false,
            },
            _ => HasRegisters {
                rd: form.has_rd(),
                rs1: form.has_rs1() && !pins.zero_rs1,
                rs2: form.has_rs2(),
            },
        }
    }
}
