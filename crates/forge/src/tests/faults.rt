//! What each status leaves: calls of the store that fail, files that aren't there, words that are not a command.

use super::{
    JOB, LINE, ORDER, TRACE, TREES, WORDS, assert_ends, assert_holds, assert_made, assert_usage,
    holding, owned,
};
use crate::plain_top;
use std::alloc::Global;
use std::fs;
use std::process::Abort;
use std::test::Fail;
use store_face::{MemStore, RealStore, Store};

/// What the files that the command writes hold before it.
const OLD: &[u8] = b"old";

/// A store of the job, of the trees and of an old file under each name that the command writes.
fn with_old_files(alloc: Global) -> Result<MemStore, Fail> {
    let mut store = holding(alloc, JOB, TREES)?;
    for name in ["e", "o", "r"] {
        store.write(name, OLD)?;
    }
    store.calls = 0;
    Ok(store)
}

/// The ELF that a run of the job leaves.
fn whole_elf(rt: &impl Abort, alloc: Global) -> Result<Vec<u8>, Fail> {
    let store = assert_made(rt, alloc, JOB, "7", LINE)?;
    let elf = store.files.get("e").ok_or("no ELF")?;
    assert_eq!(rt; elf.len(), 20_485);
    Ok(Vec::from_slice(alloc, elf)?)
}

/// Asserts that so many of the three files are whole, and that the others are old.
fn assert_whole(rt: &impl Abort, store: &MemStore, elf: &[u8], whole: usize) -> Result<(), Fail> {
    let files = [("e", elf), ("o", ORDER), ("r", TRACE)];
    for number in 0..3 {
        let (name, bytes) = files[number];
        let wanted = if number < whole { bytes } else { OLD };
        assert_holds(rt, store, name, wanted)?;
    }
    Ok(())
}

#[test]
fn the_order_cannot_be_written(rt: HostRuntime) -> Result<(), Fail> {
    let elf = whole_elf(&rt, rt.alloc())?;
    let mut store = holding(rt.alloc(), JOB, TREES)?;
    store.failing = [3].to_vec(rt.alloc())?;
    assert_ends(&rt, rt.alloc(), &WORDS, &mut store, 5, "cannot write o\n")?;
    assert_holds(&rt, &store, "e", &elf)?;
    assert!(rt; store.files.get("r").is_none());
    assert_eq!(rt;
        (store.calls, store.read_faults, store.write_faults),
        (4, 0, 1)
    );
    let mut unread = holding(rt.alloc(), JOB, TREES)?;
    unread.failing = [0].to_vec(rt.alloc())?;
    assert_ends(&rt, rt.alloc(), &WORDS, &mut unread, 4, "cannot read j\n")?;
    assert_eq!(rt;
        (unread.calls, unread.read_faults, unread.write_faults),
        (1, 1, 0)
    );
    Ok(())
}

#[test]
fn each_call_fails_in_turn(rt: HostRuntime) -> Result<(), Fail> {
    let elf = whole_elf(&rt, rt.alloc())?;
    let ends = [
        (4, "cannot read j\n", 0),
        (4, "cannot read t\n", 0),
        (5, "cannot write e\n", 0),
        (5, "cannot write o\n", 1),
        (5, "cannot write r\n", 2),
        (0, LINE, 3),
    ];
    for call in 0..6 {
        let (status, line, whole) = ends[call];
        let mut store = with_old_files(rt.alloc())?;
        store.failing = [call as u64].to_vec(rt.alloc())?;
        assert_ends(&rt, rt.alloc(), &WORDS, &mut store, status, line)?;
        assert_whole(&rt, &store, &elf, whole)?;
        assert_holds(&rt, &store, "j", JOB)?;
        assert_holds(&rt, &store, "t", TREES)?;
    }
    Ok(())
}

#[test]
fn a_missing_file_cannot_be_read(rt: HostRuntime) -> Result<(), Fail> {
    let mut no_job = MemStore::new(rt.alloc());
    no_job.write("t", TREES)?;
    assert_ends(&rt, rt.alloc(), &WORDS, &mut no_job, 4, "cannot read j\n")?;
    let mut no_trees = MemStore::new(rt.alloc());
    no_trees.write("j", JOB)?;
    assert_ends(&rt, rt.alloc(), &WORDS, &mut no_trees, 4, "cannot read t\n")?;
    for name in ["e", "o", "r"] {
        assert!(rt; no_job.files.get(name).is_none());
        assert!(rt; no_trees.files.get(name).is_none());
    }
    Ok(())
}

#[test]
fn counts_at_their_end_are_no_fault(rt: HostRuntime) -> Result<(), Fail> {
    let elf = whole_elf(&rt, rt.alloc())?;
    let mut store = with_old_files(rt.alloc())?;
    store.read_faults = u64::MAX;
    store.write_faults = u64::MAX;
    assert_ends(&rt, rt.alloc(), &WORDS, &mut store, 0, LINE)?;
    assert_whole(&rt, &store, &elf, 3)
}

/// Asserts that the words are not a command, and that no call of the store is made for them.
fn assert_no_command(rt: &impl Abort, alloc: Global, words: &[&str; 7]) -> Result<(), Fail> {
    let mut store = with_old_files(alloc)?;
    assert_usage(rt, alloc, words, &mut store)?;
    assert_eq!(rt; store.calls, 0);
    Ok(())
}

#[test]
fn two_equal_names_are_no_command(rt: HostRuntime) -> Result<(), Fail> {
    let places = [1, 2, 4, 5, 6];
    for first in 0..5 {
        for second in 0..first {
            let mut words = WORDS;
            words[places[first]] = words[places[second]];
            assert_no_command(&rt, rt.alloc(), &words)?;
        }
    }
    Ok(())
}

#[test]
fn options_and_great_seeds_are_no_command(rt: HostRuntime) -> Result<(), Fail> {
    for place in [1, 2, 4, 5, 6] {
        let mut words = WORDS;
        words[place] = "-x";
        assert_no_command(&rt, rt.alloc(), &words)?;
    }
    for seed in ["18446744073709551616", "-x", "7x", " 7"] {
        let mut words = WORDS;
        words[3] = seed;
        assert_no_command(&rt, rt.alloc(), &words)?;
    }
    Ok(())
}

/// Run with each allocation failing in turn, it tells whether running out of memory leaves the files as it should: each is
/// old or whole, and none is whole behind an old one.
#[test]
fn running_out_of_memory_leaves_old_files_or_whole_ones(rt: HostRuntime) -> Result<(), Fail> {
    let mut store = with_old_files(rt.alloc())?;
    let words = owned(rt.alloc(), &WORDS)?;
    let mut out = b"left over".to_vec(rt.alloc())?;
    let ended = plain_top(rt.alloc(), &words, &mut store, &mut out);
    let elf = store.files.get("e").ok_or("no ELF")?;
    let order = store.files.get("o").ok_or("no order")?;
    let trace = store.files.get("r").ok_or("no trace")?;
    assert!(rt; ended == 0 || ended == 8, "{ended}");
    if ended == 0 {
        assert!(rt; out.as_slice() == LINE.as_bytes());
        assert!(rt; elf.len() == 20_485 && order == ORDER && trace == TRACE);
    } else {
        assert!(rt; out.is_empty());
        assert!(rt; elf == OLD || elf.len() == 20_485);
        assert!(rt; order == OLD || (order == ORDER && elf != OLD));
        assert!(rt; trace == OLD);
    }
    Ok(())
}

#[test]
fn the_system_is_left_the_same_files(rt: HostRuntime) -> Result<(), Fail> {
    let elf = whole_elf(&rt, rt.alloc())?;
    fs::create_dir_all(&rt, "forge_files")?;
    let mut store = RealStore::new(&rt);
    store.write_whole("forge_files/j", JOB)?;
    store.write_whole("forge_files/t", TREES)?;
    let words = owned(
        rt.alloc(),
        &[
            "make-serial",
            "forge_files/j",
            "forge_files/t",
            "7",
            "forge_files/e",
            "forge_files/o",
            "forge_files/r",
        ],
    )?;
    let mut line = Vec::new(rt.alloc());
    assert_eq!(rt; plain_top(rt.alloc(), &words, &mut store, &mut line), 0);
    assert!(rt; line.as_slice() == LINE.as_bytes());
    let mut left = Vec::new(rt.alloc());
    assert!(rt; store.read_whole("forge_files/e", 100_000, &mut left)?);
    assert!(rt; left == elf);
    assert!(rt; store.read_whole("forge_files/o", 100_000, &mut left)?);
    assert!(rt; left.as_slice() == ORDER);
    assert!(rt; store.read_whole("forge_files/r", 100_000, &mut left)?);
    assert!(rt; left.as_slice() == TRACE);
    assert_eq!(rt; (store.read_faults, store.write_faults), (0, 0));
    fs::remove_dir_all(&rt, "forge_files")?;
    Ok(())
}
