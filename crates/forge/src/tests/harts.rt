//! Runs of several harts.

ghost use Rattle.std.specs.Prelude.{◌≤◌, ◌<◌, IfOk};
ghost use Rattle.region_plan.specs.Rules.{KeepsRules};
ghost use Rattle.region_plan.specs.Views.{work_of};

use super::{TREES, assert_holds, assert_made};
use crate::{Made, make_serial, make_with};
use choice_tree::Trees;
use job_read::read_job;
use region_plan::Job;
use std::alloc::Global;
use std::test::Fail;

/// A job of two harts with one request each.
const TWO_HARTS: &[u8] =
    b"{\"version\":1,\"harts\":[{\"mode\":\"M\",\"code_pages\":1,\"template\":[{\"ins\":\"addi\",\"rd\":1,\"rs1\":0,\"imm\":5}]},{\"mode\":\"M\",\"code_pages\":1,\"template\":[{\"ins\":\"addi\",\"rd\":1,\"rs1\":0,\"imm\":5}]}]}";

/// A hart without a request between one that has one and one that has two.
const IDLE_AMONG_BUSY: &[u8] =
    b"{\"version\":1,\"harts\":[{\"mode\":\"M\",\"code_pages\":1,\"template\":[{\"ins\":\"addi\",\"rd\":1,\"rs1\":0,\"imm\":5}]},{\"mode\":\"M\",\"code_pages\":1,\"template\":[]},{\"mode\":\"M\",\"code_pages\":1,\"template\":[{\"ins\":\"addi\",\"rd\":1,\"rs1\":0,\"imm\":5},{\"ins\":\"add\",\"rd\":2,\"rs1\":1,\"rs2\":1}]}]}";

/// What stands before, between and behind the harts of a job, and their requests.
const FIRST: &[u8] = b"{\"version\":1,\"harts\":[";

const HART: &[u8] = b"{\"mode\":\"M\",\"code_pages\":1,\"template\":[";

const REQUEST: &[u8] = b"{\"ins\":\"add\",\"rd\":3,\"rs1\":1,\"rs2\":2}";

const HART_END: &[u8] = b"]}";

const LAST: &[u8] = b"]}";

/// The job that the bytes spell.
pub fn job_of(alloc: Global, bytes: &[u8]) -> Result<Job, Fail>
    ensures { IfOk result (λ job. KeepsRules (work_of job)) }
{
    Ok(read_job(alloc, bytes).ok().ok_or("no job")?)
}

/// No trees.
pub fn no_trees(alloc: Global) -> Result<Trees, Fail> {
    Ok(Trees::read(alloc, TREES).ok().ok_or("no trees")?)
}

/// The files of the job under the list.
fn listed(alloc: Global, text: &[u8], schedule: &[u8]) -> Result<Made, Fail> {
    let job = job_of(alloc, text)?;
    let trees = no_trees(alloc)?;
    Ok(make_with(alloc, &job, &trees, 7, schedule)?)
}

/// Adds a hart with so many requests to a job's text.
fn add_hart(text: &mut Vec<u8>, requests: u32) -> Result<(), Fail> {
    text.extend_from_slice(HART)?;
    for k in 0..requests {
        if k > 0 {
            text.push(b',')?;
        }
        text.extend_from_slice(REQUEST)?;
    }
    text.extend_from_slice(HART_END)?;
    Ok(())
}

/// A job of so many harts with so many requests each.
pub fn text_of(alloc: Global, harts: u32, requests: u32) -> Result<Vec<u8>, Fail> {
    let mut text = FIRST.to_vec(alloc)?;
    for h in 0..harts {
        if h > 0 {
            text.push(b',')?;
        }
        add_hart(&mut text, requests)?;
    }
    text.extend_from_slice(LAST)?;
    Ok(text)
}

#[test]
fn a_listed_turn_comes_first(rt: HostRuntime) -> Result<(), Fail> {
    let made = listed(rt.alloc(), TWO_HARTS, &[1])?;
    let trace =
        b"trace 1 2\nq 1 0 ins\nq 0 0 ins\ns 0 84000000 84000000 00500093 1:5 - - -\nd 0 0\ne 0 84000004 84000004 0000006f - - - -\ns 1 84100000 84100000 00500093 1:5 - - -\nd 1 0\ne 1 84100004 84100004 0000006f - - - -\n";
    assert!(rt; made.trace.as_slice() == trace.as_slice());
    assert!(rt; made.order.as_slice() == b"order 1 2\n0 70\n1 70\n0 2\n1 2\n".as_slice());
    let counts = made.counts;
    let line = format!(in rt.alloc(); "{counts}")?;
    assert!(rt; line.as_str() == "harts 2 steps 4 done 2 refused 0");
    Ok(())
}

/// Those of harts that aren't there, and those of harts that are finished.
#[test]
fn other_entries_are_passed_over(rt: HostRuntime) -> Result<(), Fail> {
    let made = listed(rt.alloc(), IDLE_AMONG_BUSY, &[9, 1, 1, 3, 2])?;
    let trace =
        b"trace 1 3\ne 1 84100000 84100000 0000006f - - - -\nq 2 0 ins\nq 0 0 ins\ns 0 84000000 84000000 00500093 1:5 - - -\nd 0 0\ne 0 84000004 84000004 0000006f - - - -\ns 2 84200000 84200000 00500093 1:5 - - -\nd 2 0\nq 2 1 ins\ns 2 84200004 84200004 00108133 2:a - - -\nd 2 1\ne 2 84200008 84200008 0000006f - - - -\n";
    assert!(rt; made.trace.as_slice() == trace.as_slice());
    let order = b"order 1 3\n0 70\n1 70\n2 70\n1 1\n0 2\n2 3\n";
    assert!(rt; made.order.as_slice() == order.as_slice());
    Ok(())
}

#[test]
fn an_idle_hart_is_made_beside_busy_ones(rt: HostRuntime) -> Result<(), Fail> {
    let line = "harts 3 steps 6 done 3 refused 0\n";
    assert_made(&rt, rt.alloc(), IDLE_AMONG_BUSY, "7", line)?;
    Ok(())
}

#[test]
fn sixteen_harts_are_made(rt: HostRuntime) -> Result<(), Fail> {
    let text = text_of(rt.alloc(), 16, 1000)?;
    let line = "harts 16 steps 16016 done 16000 refused 0\n";
    let mut before = Vec::new(rt.alloc());
    for seed in ["1", "2", "3"] {
        let store = assert_made(&rt, rt.alloc(), &text, seed, line)?;
        let order = store.files.get("o").ok_or("no order")?;
        assert!(rt; order != before.as_slice(), "{seed}");
        before = order.to_vec(rt.alloc())?;
    }
    Ok(())
}

#[test]
fn two_harts_are_made(rt: HostRuntime) -> Result<(), Fail> {
    let line = "harts 2 steps 4 done 2 refused 0\n";
    let store = assert_made(&rt, rt.alloc(), TWO_HARTS, "7", line)?;
    let job = job_of(rt.alloc(), TWO_HARTS)?;
    let trees = no_trees(rt.alloc())?;
    let made = make_serial(rt.alloc(), &job, &trees, 7)?;
    assert_holds(&rt, &store, "r", &made.trace)?;
    assert_holds(&rt, &store, "o", &made.order)?;
    assert_holds(&rt, &store, "e", &made.elf)
}
