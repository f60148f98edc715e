ghost use Rattle.std.specs.Prelude.{◌≡◌, ◌≤◌, option_map};
ghost use Rattle.serde_json.specs.Find.{get_member};
ghost use Rattle.serde_json.specs.View.{view, items_view, members_view};
ghost use Rattle.json_keys.specs.Input.{ReadsAs};
ghost use Rattle.json_keys.specs.Json.{integer};
ghost use Rattle.region_plan.specs.Registers.{registers_in};
ghost use Rattle.region_plan.specs.Views.{items_seen, pins_seen, request_seen};
ghost use Rattle.job_read.specs.Accepted.{avoided_at, csr_request, csr_request_for, given_by, ins_request, ins_request_for, items_of, key_count, one_if_there, pins_of, register, registers_of, request_by, request_of, sys_called, sys_request, way_called};

use json_keys::{InputFault, Members, text_at, value_at};
use region_plan::{InsChoice, Item, Pins, RegisterSet, Request, Sys};
use rv_fields::{Csr, Ins, csr_named};
use rv_table::by_name;
use serde_json::Value;
use std::alloc::Global;

/// The items of a template, in their order.
pub(crate) fn items_of(alloc: Global, values: &[Value]) -> Result<Vec<Item>, InputFault>
    ensures { ReadsAs (λ v. items_seen v.items) result (items_of (items_view values.now)) }
{
    let mut items = Vec::with_capacity(alloc, values.len())?;
    for value in values {
        let request = request_of(value).ok_or(InputFault::NotBuilt)?;
        items.push(Item::One(request))?;
    }
    Ok(items)
}

/// The request of an item.
fn request_of(value: &Value) -> Option<Request>
    ensures { option_map request_seen result ≡ request_of (view value.now) }
{
    let members = value.as_object()?;
    match (value_at("ins", members), value_at("csr", members)) {
        (Some(_), _) => ins_request(members),
        (None, Some(_)) => csr_request(members),
        (None, None) => sys_request(members),
    }
}

/// One instruction, with the operands that the item gives.
#[tactic(auto, using(json_keys::proofs::Reading::lengths))]
fn ins_request(members: &Members) -> Option<Request>
    ensures { option_map request_seen result ≡ ins_request (members_view members.now.entries) }
{
    let ins = by_name(text_at("ins", members)?)?;
    let pins = pins_of(members, false)?;
    ins_request_for(ins, pins, members.len() == 1 + key_count(members))
}

/// The request of an item whose keys are these alone, or not.
fn ins_request_for(ins: Ins, pins: Pins, are_alone: bool) -> Option<Request>
    ensures { option_map request_seen result ≡ ins_request_for ins (pins_seen pins) are_alone }
{
    if are_alone && pins.suit(ins) {
        Some(Request::Ins {
            ins: InsChoice::Named(ins),
            pins,
        })
    } else {
        None
    }
}

/// One instruction on a CSR, with the operands that the item gives.
#[tactic(auto, using(json_keys::proofs::Reading::lengths))]
fn csr_request(members: &Members) -> Option<Request>
    ensures { option_map request_seen result ≡ csr_request (members_view members.now.entries) }
{
    let csr = csr_named(text_at("csr", members)?)?;
    let way = way_called(text_at("op", members)?)?;
    let pins = pins_of(members, way.zero_rs1)?;
    csr_request_for(csr, way.ins, pins, members.len() == 2 + key_count(members))
}

/// What is done with a CSR: the instruction, and whether its rs1 is the fixed x0 of a read.
#[derive(Clone, Copy)]
pub(crate) struct CsrWay {
    pub ins: Ins,
    pub zero_rs1: bool,
}

/// What the word says to do with a CSR. A read sets no bits.
fn way_called(name: &str) -> Option<CsrWay>
    ensures { result ≡ way_called name.now }
{
    if name == "read" {
        return Some(CsrWay {
            ins: Ins::Csrrs,
            zero_rs1: true,
        });
    }
    let ins = by_name(name)?;
    Some(CsrWay {
        ins,
        zero_rs1: false,
    })
}

/// The request of an item whose keys are these alone, or not.
fn csr_request_for(csr: Csr, ins: Ins, pins: Pins, are_alone: bool) -> Option<Request>
    ensures { option_map request_seen result ≡ csr_request_for csr ins (pins_seen pins) are_alone }
{
    if are_alone && pins.suit_csr(csr, ins) {
        Some(Request::Csr { csr, ins, pins })
    } else {
        None
    }
}

/// One word of its own. What it avoids has no effect.
#[tactic(auto, using(json_keys::proofs::Reading::lengths))]
fn sys_request(members: &Members) -> Option<Request>
    ensures { option_map request_seen result ≡ sys_request (members_view members.now.entries) }
{
    let sys = sys_called(text_at("sys", members)?)?;
    avoided_at(members)?;
    if members.len() == 1 + one_if_there("avoid", members) {
        Some(Request::Sys(sys))
    } else {
        None
    }
}

/// The word that is called so.
fn sys_called(name: &str) -> Option<Sys>
    ensures { result ≡ sys_called name.now }
{
    match name {
        "ecall" => Some(Sys::Ecall),
        "ebreak" => Some(Sys::Ebreak),
        "zero" => Some(Sys::Zero),
        "sfence" => Some(Sys::Sfence),
        _ => None,
    }
}

/// The operands that the item gives, and the registers that the others may not be.
fn pins_of(members: &Members, zero_rs1: bool) -> Option<Pins>
    ensures { option_map pins_seen result ≡ pins_of zero_rs1 (members_view members.now.entries) }
{
    Some(Pins {
        rd: register_at("rd", members)?,
        rs1: register_at("rs1", members)?,
        rs2: register_at("rs2", members)?,
        imm: integer_at("imm", members)?,
        avoid: avoided_at(members)?,
        zero_rs1,
    })
}

/// How many keys give these.
fn key_count(members: &Members) -> usize
    ensures count { result ≡ key_count (members_view members.now.entries) }
    ensures few { result ≤ 5 }
{
    one_if_there("rd", members)
        + one_if_there("rs1", members)
        + one_if_there("rs2", members)
        + one_if_there("imm", members)
        + one_if_there("avoid", members)
}

fn one_if_there(key: &str, members: &Members) -> usize
    ensures count { result ≡ one_if_there key.now (members_view members.now.entries) }
    ensures few { result ≤ 1 }
{
    usize::from(value_at(key, members).is_some())
}

/// The registers that the item avoids: none where it lists none.
fn avoided_at(members: &Members) -> Option<RegisterSet>
    ensures { option_map (λ set. registers_in set.has) result ≡ avoided_at (members_view members.now.entries) }
{
    match value_at("avoid", members) {
        Some(value) => registers_of(value.as_array()?.as_slice()),
        None => Some(RegisterSet::empty()),
    }
}

/// The registers that are listed.
fn registers_of(values: &[Value]) -> Option<RegisterSet>
    ensures { option_map (λ set. registers_in set.has) result ≡ registers_of (items_view values.now) }
{
    let mut registers = RegisterSet::empty();
    for value in values {
        registers = registers.with(register(value)?);
    }
    Some(registers)
}

/// The register at a key, where there is one.
fn register_at(key: &str, members: &Members) -> Option<Option<u8>>
    ensures { result ≡ given_by register (get_member key.now (members_view members.now.entries)) }
{
    match value_at(key, members) {
        Some(value) => Some(Some(register(value)?)),
        None => Some(None),
    }
}

/// The whole number at a key, where there is one.
fn integer_at(key: &str, members: &Members) -> Option<Option<i64>>
    ensures { result ≡ given_by integer (get_member key.now (members_view members.now.entries)) }
{
    match value_at(key, members) {
        Some(value) => Some(Some(value.as_i64()?)),
        None => Some(None),
    }
}

/// A register: a number below 32.
fn register(value: &Value) -> Option<u8>
    ensures { result ≡ register (view value.now) }
{
    let number = value.as_u64()?;
    if number < 32 {
        Some(number as u8)
    } else {
        None
    }
}
