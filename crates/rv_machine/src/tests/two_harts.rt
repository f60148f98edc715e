//! What the steps of two harts leave of a reservation.

use super::fixture::{hart_of, machine_over, put_hart, segment, turn};
use crate::Machine;
use std::alloc::Global;
use std::process::Abort;
use std::test::*;

/// The first address of a granule of 64 bytes.
const GRANULE: u64 = 0x8002_0040;

/// Where the word stands that a hart steps over next.
const CODE: u64 = 0x8001_0000;

/// `lr.d x5, (x10)`.
const LR: u32 = 0x1005_32af;

/// `sc.d x6, x11, (x10)`.
const SC: u32 = 0x18b5_332f;

/// A step of a hart between the LR and the SC of hart 0, with x12 = 5 and the address in x13.
struct Between {
    hart: u8,
    word: u32,
    address: u64,
}

/// What is done between the two, and what the SC gives: 0 where it succeeds, and else 1.
struct Row {
    name: &'static str,
    between: &'static [Between],
    result: u64,
}

macro_rules! row {
    ($name:literal $($hart:literal $word:literal $address:expr),* => $result:literal) => {
        Row {
            name: $name,
            between: &[$(Between { hart: $hart, word: $word, address: $address }),*],
            result: $result,
        }
    };
}

// The words are, in this order where they first stand: sw x12, (x13); sb x12, (x13); sd x12, (x13);
// amoadd.w x0, x12, (x13); lr.d x0, (x13); sc.d x7, x12, (x13); ld x7, (x13).
static ROWS: [Row; 18] = [
    row!("nothing" => 0),
    row!("sw at 3c" 1 0x00c6_a023 GRANULE + 0x3c => 1),
    row!("sw at 40" 1 0x00c6_a023 GRANULE + 0x40 => 0),
    row!("sb at 3f" 1 0x00c6_8023 GRANULE + 0x3f => 1),
    row!("sb before the granule" 1 0x00c6_8023 GRANULE - 1 => 0),
    row!("sd at 38" 1 0x00c6_b023 GRANULE + 0x38 => 1),
    row!("sd at the reserved address" 1 0x00c6_b023 GRANULE + 8 => 1),
    row!("amoadd.w at 3c" 1 0x00c6_a02f GRANULE + 0x3c => 1),
    row!("amoadd.w at 40" 1 0x00c6_a02f GRANULE + 0x40 => 0),
    row!("lr.d of the other hart" 1 0x1006_b02f GRANULE + 8 => 0),
    row!("sc.d of the other hart that fails" 1 0x18c6_b3af GRANULE + 8 => 0),
    row!("sc.d of the other hart that succeeds"
        1 0x1006_b02f GRANULE + 0x10, 1 0x18c6_b3af GRANULE + 0x10 => 1),
    row!("sc.d of the other hart that succeeds elsewhere"
        1 0x1006_b02f GRANULE + 0x40, 1 0x18c6_b3af GRANULE + 0x40 => 0),
    row!("ld of the other hart" 1 0x0006_b383 GRANULE + 8 => 0),
    row!("sw that traps" 1 0x00c6_a023 GRANULE + 0x3a => 0),
    row!("sd of the hart itself" 0 0x00c6_b023 GRANULE + 8 => 0),
    row!("sc.d of the hart itself" 0 0x18c6_b3af GRANULE + 0x10 => 1),
    row!("lr.d of the hart itself" 0 0x1006_b02f GRANULE + 0x10 => 1),
];

/// Steps the hart over the word number `place`, with this address in x13.
fn step_over(
    rt: &impl Abort,
    alloc: Global,
    machine: &mut Machine,
    hart: u8,
    place: u64,
    address: u64,
) -> Result<(), Fail> {
    assert!(rt; place < 100);
    let mut stepping = hart_of(rt, machine, hart);
    assert_eq!(rt; stepping.number, hart);
    stepping.pc = CODE + 4 * place;
    stepping.x[10] = GRANULE + 8;
    stepping.x[11] = 0x77;
    stepping.x[12] = 5;
    stepping.x[13] = address;
    put_hart(rt, machine, stepping);
    turn(rt, alloc, machine, hart)?;
    Ok(())
}

/// What the SC of hart 0 gives after the row's steps.
fn result_of(rt: &impl Abort, alloc: Global, row: &Row) -> Result<u64, Fail> {
    let mut code = Vec::new(alloc);
    code.extend_from_slice(&LR.to_le_bytes())?;
    code.extend_from_slice(&SC.to_le_bytes())?;
    for between in row.between {
        code.extend_from_slice(&between.word.to_le_bytes())?;
    }
    let segments = vec![in alloc; segment(alloc, CODE, &code)?]?;
    let mut machine = machine_over(rt, alloc, &segments, 2)?;
    step_over(rt, alloc, &mut machine, 0, 0, 0)?;
    let mut place = 2;
    for between in row.between {
        assert!(rt; place < 100);
        step_over(
            rt,
            alloc,
            &mut machine,
            between.hart,
            place,
            between.address,
        )?;
        place += 1;
    }
    step_over(rt, alloc, &mut machine, 0, 1, 0)?;
    Ok(hart_of(rt, &machine, 0).x[6])
}

#[test]
fn stores_of_others_take_reservations_away(rt: HostRuntime) -> Result<(), Fail> {
    for row in &ROWS {
        let name = row.name;
        assert_eq!(rt; result_of(&rt, rt.alloc(), row)?, row.result, "{name}");
    }
    Ok(())
}
