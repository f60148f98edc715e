//! Each instruction that a template may ask for, with all its operands given.

use super::replays::REPLAY;
use super::{assert_ends, assert_made};
use std::alloc::Global;
use std::process::Abort;
use std::test::*;
use store_face::MemStore;
use trace_text::{Line, StepLine, read_trace};

/// A request for each instruction that computes a value, and the word that the GNU assembler makes of it.
const ROWS: [(&str, u32); 43] = [
    (r#"{"ins":"lui","rd":31,"imm":-2147483648}"#, 0x8000_0fb7),
    (r#"{"ins":"auipc","rd":30,"imm":2147479552}"#, 0x7fff_ff17),
    (r#"{"ins":"addi","rd":22,"rs1":0,"imm":-2048}"#, 0x8000_0b13),
    (r#"{"ins":"slti","rd":29,"rs1":7,"imm":2047}"#, 0x7ff3_ae93),
    (r#"{"ins":"sltiu","rd":4,"rs1":14,"imm":-1}"#, 0xfff7_3213),
    (r#"{"ins":"xori","rd":11,"rs1":21,"imm":5}"#, 0x005a_c593),
    (r#"{"ins":"ori","rd":18,"rs1":28,"imm":0}"#, 0x000e_6913),
    (r#"{"ins":"andi","rd":25,"rs1":3,"imm":1365}"#, 0x5551_fc93),
    (
        r#"{"ins":"addiw","rd":0,"rs1":10,"imm":-1366}"#,
        0xaaa5_001b,
    ),
    (r#"{"ins":"slli","rd":4,"rs1":21,"imm":63}"#, 0x03fa_9213),
    (r#"{"ins":"srli","rd":11,"rs1":28,"imm":32}"#, 0x020e_5593),
    (r#"{"ins":"srai","rd":18,"rs1":3,"imm":1}"#, 0x4011_d913),
    (r#"{"ins":"slliw","rd":25,"rs1":10,"imm":31}"#, 0x01f5_1c9b),
    (r#"{"ins":"srliw","rd":0,"rs1":17,"imm":0}"#, 0x0008_d01b),
    (r#"{"ins":"sraiw","rd":7,"rs1":24,"imm":16}"#, 0x410c_539b),
    (r#"{"ins":"add","rd":1,"rs1":8,"rs2":15}"#, 0x00f4_00b3),
    (r#"{"ins":"sub","rd":8,"rs1":15,"rs2":22}"#, 0x4167_8433),
    (r#"{"ins":"sll","rd":15,"rs1":22,"rs2":29}"#, 0x01db_17b3),
    (r#"{"ins":"slt","rd":22,"rs1":29,"rs2":4}"#, 0x004e_ab33),
    (r#"{"ins":"sltu","rd":29,"rs1":4,"rs2":11}"#, 0x00b2_3eb3),
    (r#"{"ins":"xor","rd":4,"rs1":11,"rs2":18}"#, 0x0125_c233),
    (r#"{"ins":"srl","rd":11,"rs1":18,"rs2":25}"#, 0x0199_55b3),
    (r#"{"ins":"sra","rd":18,"rs1":25,"rs2":0}"#, 0x400c_d933),
    (r#"{"ins":"or","rd":25,"rs1":0,"rs2":7}"#, 0x0070_6cb3),
    (r#"{"ins":"and","rd":0,"rs1":7,"rs2":14}"#, 0x00e3_f033),
    (r#"{"ins":"addw","rd":7,"rs1":14,"rs2":21}"#, 0x0157_03bb),
    (r#"{"ins":"subw","rd":14,"rs1":21,"rs2":28}"#, 0x41ca_873b),
    (r#"{"ins":"sllw","rd":21,"rs1":28,"rs2":3}"#, 0x003e_1abb),
    (r#"{"ins":"srlw","rd":28,"rs1":3,"rs2":10}"#, 0x00a1_de3b),
    (r#"{"ins":"sraw","rd":3,"rs1":10,"rs2":17}"#, 0x4115_51bb),
    (r#"{"ins":"mul","rd":10,"rs1":17,"rs2":24}"#, 0x0388_8533),
    (r#"{"ins":"mulh","rd":17,"rs1":24,"rs2":31}"#, 0x03fc_18b3),
    (r#"{"ins":"mulhsu","rd":24,"rs1":31,"rs2":6}"#, 0x026f_ac33),
    (r#"{"ins":"mulhu","rd":31,"rs1":6,"rs2":13}"#, 0x02d3_3fb3),
    (r#"{"ins":"div","rd":6,"rs1":13,"rs2":20}"#, 0x0346_c333),
    (r#"{"ins":"divu","rd":13,"rs1":20,"rs2":27}"#, 0x03ba_56b3),
    (r#"{"ins":"rem","rd":20,"rs1":27,"rs2":2}"#, 0x022d_ea33),
    (r#"{"ins":"remu","rd":27,"rs1":2,"rs2":9}"#, 0x0291_7db3),
    (r#"{"ins":"mulw","rd":2,"rs1":9,"rs2":16}"#, 0x0304_813b),
    (r#"{"ins":"divw","rd":9,"rs1":16,"rs2":23}"#, 0x0378_44bb),
    (r#"{"ins":"divuw","rd":16,"rs1":23,"rs2":30}"#, 0x03eb_d83b),
    (r#"{"ins":"remw","rd":23,"rs1":30,"rs2":5}"#, 0x025f_6bbb),
    (r#"{"ins":"remuw","rd":30,"rs1":5,"rs2":12}"#, 0x02c2_ff3b),
];

/// Requests that divide at the edges: by zero, and the least number by -1. What they write, by the tables of the manual's
/// chapter on the extension M.
const EDGES: [(&str, u8, u64); 16] = [
    (
        r#"{"ins":"addi","rd":1,"rs1":0,"imm":-1}"#,
        1,
        0xffff_ffff_ffff_ffff,
    ),
    (
        r#"{"ins":"addi","rd":2,"rs1":0,"imm":1}"#,
        2,
        0x0000_0000_0000_0001,
    ),
    (
        r#"{"ins":"slli","rd":3,"rs1":2,"imm":63}"#,
        3,
        0x8000_0000_0000_0000,
    ),
    (
        r#"{"ins":"slli","rd":4,"rs1":2,"imm":31}"#,
        4,
        0x0000_0000_8000_0000,
    ),
    (
        r#"{"ins":"div","rd":5,"rs1":3,"rs2":1}"#,
        5,
        0x8000_0000_0000_0000,
    ),
    (r#"{"ins":"rem","rd":6,"rs1":3,"rs2":1}"#, 6, 0),
    (
        r#"{"ins":"div","rd":7,"rs1":3,"rs2":0}"#,
        7,
        0xffff_ffff_ffff_ffff,
    ),
    (
        r#"{"ins":"divu","rd":8,"rs1":3,"rs2":0}"#,
        8,
        0xffff_ffff_ffff_ffff,
    ),
    (
        r#"{"ins":"rem","rd":9,"rs1":3,"rs2":0}"#,
        9,
        0x8000_0000_0000_0000,
    ),
    (
        r#"{"ins":"remu","rd":10,"rs1":3,"rs2":0}"#,
        10,
        0x8000_0000_0000_0000,
    ),
    (
        r#"{"ins":"divw","rd":11,"rs1":4,"rs2":1}"#,
        11,
        0xffff_ffff_8000_0000,
    ),
    (r#"{"ins":"remw","rd":12,"rs1":4,"rs2":1}"#, 12, 0),
    (
        r#"{"ins":"divw","rd":13,"rs1":4,"rs2":0}"#,
        13,
        0xffff_ffff_ffff_ffff,
    ),
    (
        r#"{"ins":"divuw","rd":14,"rs1":4,"rs2":0}"#,
        14,
        0xffff_ffff_ffff_ffff,
    ),
    (
        r#"{"ins":"remw","rd":15,"rs1":4,"rs2":0}"#,
        15,
        0xffff_ffff_8000_0000,
    ),
    (
        r#"{"ins":"remuw","rd":16,"rs1":4,"rs2":0}"#,
        16,
        0xffff_ffff_8000_0000,
    ),
];

/// Fences and requests on CSRs, the words that the GNU assembler makes of them, and what these write: what the boot left in
/// the CSRs, and what was written before.
const CSRS: [(&str, u32, Option<(u8, u64)>); 15] = [
    (r#"{"ins":"fence","imm":255}"#, 0x0ff0_000f, None),
    (
        r#"{"csr":"mscratch","op":"csrrw","rd":5,"rs1":0}"#,
        0x3400_12f3,
        Some((5, 0)),
    ),
    (
        r#"{"ins":"addi","rd":1,"rs1":0,"imm":77}"#,
        0x04d0_0093,
        Some((1, 0x4d)),
    ),
    (
        r#"{"ins":"addi","rd":2,"rs1":0,"imm":269}"#,
        0x10d0_0113,
        Some((2, 0x10d)),
    ),
    (
        r#"{"csr":"mscratch","op":"csrrw","rd":0,"rs1":1}"#,
        0x3400_9073,
        None,
    ),
    (
        r#"{"csr":"mscratch","op":"read","rd":6}"#,
        0x3400_2373,
        Some((6, 0x4d)),
    ),
    (
        r#"{"csr":"sscratch","op":"csrrs","rd":7,"rs1":2}"#,
        0x1401_23f3,
        Some((7, 0)),
    ),
    (
        r#"{"csr":"sscratch","op":"csrrc","rd":8,"rs1":1}"#,
        0x1400_b473,
        Some((8, 0x10d)),
    ),
    (
        r#"{"csr":"sscratch","op":"read","rd":9}"#,
        0x1400_24f3,
        Some((9, 0x100)),
    ),
    (
        r#"{"csr":"mstatus","op":"read","rd":10}"#,
        0x3000_2573,
        Some((10, 0xa_0000_0080)),
    ),
    (
        r#"{"csr":"sstatus","op":"csrrc","rd":11,"rs1":0}"#,
        0x1000_35f3,
        Some((11, 0x2_0000_0000)),
    ),
    (
        r#"{"csr":"mtvec","op":"csrrs","rd":12,"rs1":0}"#,
        0x3050_2673,
        Some((12, 0x8002_0000)),
    ),
    (
        r#"{"csr":"mepc","op":"read","rd":13}"#,
        0x3410_26f3,
        Some((13, 0x8400_0000)),
    ),
    (
        r#"{"csr":"stvec","op":"read","rd":14}"#,
        0x1050_2773,
        Some((14, 0x3f_ffff_f000)),
    ),
    (r#"{"csr":"mhartid","op":"read","rd":0}"#, 0xf140_2073, None),
];

/// The fourth of four harts reads its number.
const FOUR_HARTS: &[u8] =
    br#"{"version":1,"harts":[{"mode":"M","code_pages":1,"template":[]},{"mode":"M","code_pages":1,"template":[]},{"mode":"M","code_pages":1,"template":[]},{"mode":"M","code_pages":1,"template":[{"csr":"mhartid","op":"read","rd":5}]}]}"#;

/// What stands before and behind the requests of a job of one hart.
const FIRST: &str = r#"{"version":1,"harts":[{"mode":"M","code_pages":1,"template":["#;

const LAST: &str = "]}]}";

/// The files of the job of one hart with these requests, of which replay says that they agree.
fn made_of(
    rt: &impl Abort,
    alloc: Global,
    requests: &str,
    line: &str,
    agrees: &str,
) -> Result<MemStore, Fail> {
    let job = format!(in alloc; "{FIRST}{requests}{LAST}")?;
    let mut store = assert_made(rt, alloc, job.as_bytes(), "7", line)?;
    assert_ends(rt, alloc, &REPLAY, &mut store, 0, agrees)?;
    Ok(store)
}

/// The steps that the trace tells of made words, but for the last one.
fn steps_of(alloc: Global, store: &MemStore) -> Result<Vec<StepLine>, Fail> {
    let (_, lines) = read_trace(alloc, store.files.get("r").ok_or("no trace")?)?;
    let mut steps = Vec::new(alloc);
    for line in &lines {
        if let Line::S(step) = line {
            steps.push(*step)?;
        }
    }
    Ok(steps)
}

/// Another request behind those so far.
fn add(requests: &mut String, request: &str) -> Result<(), Fail> {
    if !requests.is_empty() {
        requests.push_str(",")?;
    }
    requests.push_str(request)?;
    Ok(())
}

#[test]
fn each_row_has_the_word_of_the_assembler(rt: HostRuntime) -> Result<(), Fail> {
    let mut requests = String::new(rt.alloc());
    for (request, _) in ROWS {
        add(&mut requests, request)?;
    }
    let line = "harts 1 steps 44 done 43 refused 0\n";
    let store = made_of(&rt, rt.alloc(), &requests, line, "agrees 44 steps\n")?;
    let steps = steps_of(rt.alloc(), &store)?;
    assert_eq!(rt; steps.len(), ROWS.len());
    for (step, (request, word)) in steps.iter().zip(ROWS) {
        assert_eq!(rt; step.word, word, "{request}");
    }
    Ok(())
}

#[test]
fn divisions_at_the_edges_write_what_the_manual_says(rt: HostRuntime) -> Result<(), Fail> {
    let mut requests = String::new(rt.alloc());
    for (request, _, _) in EDGES {
        add(&mut requests, request)?;
    }
    let line = "harts 1 steps 17 done 16 refused 0\n";
    let store = made_of(&rt, rt.alloc(), &requests, line, "agrees 17 steps\n")?;
    let steps = steps_of(rt.alloc(), &store)?;
    assert_eq!(rt; steps.len(), EDGES.len());
    for (step, (request, register, value)) in steps.iter().zip(EDGES) {
        assert_eq!(rt; step.rd, Some((register, value)), "{request}");
    }
    Ok(())
}

#[test]
fn csrs_are_read_back_as_they_were_written(rt: HostRuntime) -> Result<(), Fail> {
    let mut requests = String::new(rt.alloc());
    for (request, _, _) in CSRS {
        add(&mut requests, request)?;
    }
    let line = "harts 1 steps 16 done 15 refused 0\n";
    let store = made_of(&rt, rt.alloc(), &requests, line, "agrees 16 steps\n")?;
    let steps = steps_of(rt.alloc(), &store)?;
    assert_eq!(rt; steps.len(), CSRS.len());
    for (step, (request, word, rd)) in steps.iter().zip(CSRS) {
        assert_eq!(rt; (step.word, step.rd), (word, rd), "{request}");
    }
    Ok(())
}

#[test]
fn a_hart_reads_its_number(rt: HostRuntime) -> Result<(), Fail> {
    let line = "harts 4 steps 5 done 1 refused 0\n";
    let store = assert_made(&rt, rt.alloc(), FOUR_HARTS, "7", line)?;
    let steps = steps_of(rt.alloc(), &store)?;
    assert_eq!(rt; steps.len(), 1);
    assert_eq!(rt;
        (steps[0].hart, steps[0].word, steps[0].rd),
        (3, 0xf140_22f3, Some((5, 3)))
    );
    Ok(())
}
