//! The command `replay`: what it answers to files that make-serial wrote, and to spoiled ones.
use super::harts::text_of;
use super::{JOB, LINE, ORDER, TRACE, assert_ends, assert_holds, assert_made, assert_usage};
use std::alloc::Global;
use std::process::Abort;
use std::test::*;
use store_face::MemStore;

/// The words of the command that replays the files of `make-serial`.
pub const REPLAY: [&str; 4] = ["replay", "e", "o", "r"];

/// A store with the files of the first example.
fn made(rt: &impl Abort, alloc: Global) -> Result<MemStore, Fail> {
    assert_made(rt, alloc, JOB, "7", LINE)
}

/// Asserts what replay answers where the file of the name holds these bytes, and that it holds them then.
fn assert_answers(
    rt: &impl Abort,
    alloc: Global,
    name: &str,
    bytes: &[u8],
    status: u8,
    line: &str,
) -> Result<(), Fail> {
    let mut store = made(rt, alloc)?;
    store.write(name, bytes)?;
    assert_ends(rt, alloc, &REPLAY, &mut store, status, line)?;
    assert_holds(rt, &store, name, bytes)
}

#[test]
fn what_was_made_agrees(rt: HostRuntime) -> Result<(), Fail> {
    let mut store = made(&rt, rt.alloc())?;
    assert_ends(&rt, rt.alloc(), &REPLAY, &mut store, 0, "agrees 2 steps\n")?;
    assert_holds(&rt, &store, "o", ORDER)?;
    assert_holds(&rt, &store, "r", TRACE)
}

#[test]
fn what_was_made_of_two_harts_agrees(rt: HostRuntime) -> Result<(), Fail> {
    let job = text_of(rt.alloc(), 2, 3)?;
    let line = "harts 2 steps 8 done 6 refused 0\n";
    let mut store = assert_made(&rt, rt.alloc(), &job, "1", line)?;
    assert_ends(&rt, rt.alloc(), &REPLAY, &mut store, 0, "agrees 8 steps\n")
}

#[test]
fn another_value_differs(rt: HostRuntime) -> Result<(), Fail> {
    let trace =
        b"trace 1 1\nq 0 0 ins\ns 0 84000000 84000000 00500093 1:6 - - -\nd 0 0\ne 0 84000004 84000004 0000006f - - - -\n";
    let line = "line 3 field rd told 1:6 found 1:5\n";
    assert_answers(&rt, rt.alloc(), "r", trace, 1, line)
}

#[test]
fn an_order_without_steps_differs(rt: HostRuntime) -> Result<(), Fail> {
    let line = "line 1 field boot told 0 found 0\n";
    assert_answers(&rt, rt.alloc(), "o", b"order 1 1\n", 1, line)
}

#[test]
fn files_out_of_form_are_refused(rt: HostRuntime) -> Result<(), Fail> {
    let store = made(&rt, rt.alloc())?;
    let elf = store.files.get("e").ok_or("no file")?;
    let cut = elf.get(..63).ok_or("short")?;
    assert_answers(&rt, rt.alloc(), "e", cut, 6, "e: short at 63\n")?;
    assert_answers(
        &rt,
        rt.alloc(),
        "o",
        b"order 1 1\n0 0\n",
        6,
        "o: line 2 field 2\n",
    )?;
    let open = TRACE.get(..105).ok_or("short")?;
    assert_answers(&rt, rt.alloc(), "r", open, 6, "r: line 5 field 10\n")
}

#[test]
fn the_first_file_out_of_form_is_told(rt: HostRuntime) -> Result<(), Fail> {
    let mut store = made(&rt, rt.alloc())?;
    store.write("r", b"")?;
    store.write("o", b"")?;
    assert_ends(
        &rt,
        rt.alloc(),
        &REPLAY,
        &mut store,
        6,
        "o: line 1 field 1\n",
    )
}

#[test]
fn a_file_that_is_not_there(rt: HostRuntime) -> Result<(), Fail> {
    let mut store = made(&rt, rt.alloc())?;
    let words = ["replay", "e", "none", "r"];
    assert_ends(&rt, rt.alloc(), &words, &mut store, 4, "cannot read none\n")
}

#[test]
fn equal_names_are_no_replay(rt: HostRuntime) -> Result<(), Fail> {
    let mut store = made(&rt, rt.alloc())?;
    assert_usage(&rt, rt.alloc(), &["replay", "e", "o", "e"], &mut store)?;
    assert_usage(&rt, rt.alloc(), &["replay", "e", "o"], &mut store)
}
