ghost use Rattle.std.specs.Prelude.{◌<◌};

use crate::plain_top;
use crate::stop::USAGE;
use std::alloc::{AllocError, Global};
use std::process::Abort;
use std::test::Fail;
use store_face::MemStore;

mod boots;
mod draws;
mod faults;
mod harts;
mod replays;
mod rows;
mod traps;

/// The words of the command that the tests run.
const WORDS: [&str; 7] = ["make-serial", "j", "t", "7", "e", "o", "r"];

/// A job of one hart with one request.
const JOB: &[u8] =
    b"{\"version\":1,\"harts\":[{\"mode\":\"M\",\"code_pages\":1,\"template\":[{\"ins\":\"addi\",\"rd\":1,\"rs1\":0,\"imm\":5}]}]}";

/// What is printed of it, its order and its trace.
const LINE: &str = "harts 1 steps 2 done 1 refused 0\n";

const ORDER: &[u8] = b"order 1 1\n0 72\n";

const TRACE: &[u8] =
    b"trace 1 1\nq 0 0 ins\ns 0 84000000 84000000 00500093 1:5 - - -\nd 0 0\ne 0 84000004 84000004 0000006f - - - -\n";

/// The first job with the most pages of code.
const MOST_PAGES: &[u8] =
    b"{\"version\":1,\"harts\":[{\"mode\":\"M\",\"code_pages\":256,\"template\":[{\"ins\":\"addi\",\"rd\":1,\"rs1\":0,\"imm\":5}]}]}";

/// A job of one hart whose request reads two registers that nothing touched before.
const SUM_JOB: &[u8] =
    b"{\"version\":1,\"harts\":[{\"mode\":\"M\",\"code_pages\":1,\"template\":[{\"ins\":\"add\",\"rd\":3,\"rs1\":1,\"rs2\":2}]}]}";

/// A job of one hart with no request.
const IDLE_JOB: &[u8] =
    b"{\"version\":1,\"harts\":[{\"mode\":\"M\",\"code_pages\":1,\"template\":[]}]}";

/// A job of a hart in mode S, which isn't built.
const MODE_S: &[u8] =
    b"{\"version\":1,\"harts\":[{\"mode\":\"S\",\"code_pages\":1,\"template\":[]}]}";

const TREES: &[u8] = b"{\"version\":1,\"trees\":[]}";

/// A store of a job and of trees.
fn holding(alloc: Global, job: &[u8], trees: &[u8]) -> Result<MemStore, Fail> {
    let mut store = MemStore::new(alloc);
    store.write("j", job)?;
    store.write("t", trees)?;
    store.calls = 0;
    Ok(store)
}

/// The words as the command line gives them.
fn owned(alloc: Global, words: &[&str]) -> Result<Vec<String>, AllocError> {
    let mut all = Vec::new(alloc);
    for word in words {
        all.push(String::from_str(alloc, *word)?)?;
    }
    Ok(all)
}

/// Runs the words over the store, and asserts what they end with.
fn assert_ends(
    rt: &impl Abort,
    alloc: Global,
    words: &[&str],
    store: &mut MemStore,
    status: u8,
    line: &str,
) -> Result<(), Fail> {
    let words = owned(alloc, words)?;
    let mut out = b"left over".to_vec(alloc)?;
    let ended = plain_top(alloc, &words, store, &mut out);
    assert_eq!(rt; ended, status, "{line}");
    assert!(rt; out.as_slice() == line.as_bytes(), "{line}");
    Ok(())
}

/// Asserts that the words are not a command: the usage line is printed.
fn assert_usage(
    rt: &impl Abort,
    alloc: Global,
    words: &[&str],
    store: &mut MemStore,
) -> Result<(), Fail> {
    let line = format!(in alloc; "{USAGE}\n")?;
    assert_ends(rt, alloc, words, store, 3, line.as_str())
}

/// Makes the files of the job, without trees, under the seed, and asserts what is printed. The store has them.
fn assert_made(
    rt: &impl Abort,
    alloc: Global,
    job: &[u8],
    seed: &str,
    line: &str,
) -> Result<MemStore, Fail> {
    let mut store = holding(alloc, job, TREES)?;
    let words = ["make-serial", "j", "t", seed, "e", "o", "r"];
    assert_ends(rt, alloc, &words, &mut store, 0, line)?;
    Ok(store)
}

/// Asserts that of the two files the one of the name isn't accepted.
fn assert_refused(
    rt: &impl Abort,
    alloc: Global,
    job: &[u8],
    trees: &[u8],
    name: &str,
) -> Result<(), Fail> {
    let mut store = holding(alloc, job, trees)?;
    let line = format!(in alloc; "{name}: not built yet\n")?;
    assert_ends(rt, alloc, &WORDS, &mut store, 6, &line)
}

/// Asserts that of the two files the one of the name is too long, and that nothing is written.
fn assert_too_long(
    rt: &impl Abort,
    alloc: Global,
    job: &[u8],
    trees: &[u8],
    name: &str,
) -> Result<(), Fail> {
    let mut store = holding(alloc, job, trees)?;
    let line = format!(in alloc; "{name}: longer than 4194304 bytes\n")?;
    assert_ends(rt, alloc, &WORDS, &mut store, 7, &line)?;
    assert_eq!(rt; store.calls, 2);
    Ok(())
}

/// Asserts that the file of the name holds the bytes.
fn assert_holds(rt: &impl Abort, store: &MemStore, name: &str, bytes: &[u8]) -> Result<(), Fail> {
    assert!(rt; store.files.get(name).ok_or("no file")? == bytes, "{name}");
    Ok(())
}

/// Whether the file has the bytes at the offset.
fn has(file: &[u8], offset: usize, bytes: &[u8]) -> bool {
    file.get(offset..)
        .is_some_and(|rest| rest.starts_with(bytes))
}

/// Where the ELF's program header of the number tells its offset in the file, and then its size there.
fn header_at(number: usize) -> (usize, usize)
    requires { number < 3 }
{
    let header = 64 + 56 * number;
    (header + 8, header + 32)
}

#[test]
fn one_request_is_made(rt: HostRuntime) -> Result<(), Fail> {
    let store = assert_made(&rt, rt.alloc(), JOB, "7", LINE)?;
    assert_holds(&rt, &store, "o", ORDER)?;
    assert_holds(&rt, &store, "r", TRACE)
}

#[test]
fn the_elf_has_three_segments(rt: HostRuntime) -> Result<(), Fail> {
    let store = assert_made(&rt, rt.alloc(), JOB, "7", LINE)?;
    let elf = store.files.get("e").ok_or("no ELF")?;
    assert_eq!(rt; elf.len(), 20_485);
    assert!(rt; has(elf, 0x5000, &[0x93, 0x00, 0x50, 0x00, 0x6f]));
    let segments = [(0x1000u64, 0x1471u64), (0x3000, 0x1018), (0x5000, 5)];
    for number in 0..3 {
        let (offset, size) = segments[number];
        let (offset_at, size_at) = header_at(number);
        assert!(rt;
            has(elf, offset_at, &offset.to_le_bytes()),
            "offset {number}"
        );
        assert!(rt; has(elf, size_at, &size.to_le_bytes()), "size {number}");
    }
    Ok(())
}

/// All made words stand in the first page.
#[test]
fn more_pages_of_code_change_no_file(rt: HostRuntime) -> Result<(), Fail> {
    let store = assert_made(&rt, rt.alloc(), JOB, "7", LINE)?;
    let other = assert_made(&rt, rt.alloc(), MOST_PAGES, "7", LINE)?;
    for name in ["e", "o", "r"] {
        assert_holds(&rt, &other, name, store.files.get(name).ok_or("no file")?)?;
    }
    Ok(())
}

/// No request names a tree.
#[test]
fn trees_change_no_file(rt: HostRuntime) -> Result<(), Fail> {
    let store = assert_made(&rt, rt.alloc(), JOB, "7", LINE)?;
    let trees = br#"{"version":1,"trees":[{"name":"t","kids":[{"leaf":"add","weight":1}]}]}"#;
    let mut other = holding(rt.alloc(), JOB, trees)?;
    assert_ends(&rt, rt.alloc(), &WORDS, &mut other, 0, LINE)?;
    for name in ["e", "o", "r"] {
        assert_holds(&rt, &other, name, store.files.get(name).ok_or("no file")?)?;
    }
    Ok(())
}

#[test]
fn an_empty_template_has_one_step(rt: HostRuntime) -> Result<(), Fail> {
    let line = "harts 1 steps 1 done 0 refused 0\n";
    let store = assert_made(&rt, rt.alloc(), IDLE_JOB, "7", line)?;
    assert_holds(&rt, &store, "o", b"order 1 1\n0 71\n")?;
    let trace = b"trace 1 1\ne 0 84000000 84000000 0000006f - - - -\n";
    assert_holds(&rt, &store, "r", trace)
}

/// The first two words of stream 1 of seed 7 are as another implementation of the generator gives them.
#[test]
fn untouched_sources_start_with_drawn_values(rt: HostRuntime) -> Result<(), Fail> {
    let store = assert_made(&rt, rt.alloc(), SUM_JOB, "7", LINE)?;
    let trace =
        b"trace 1 1\nq 0 0 ins\nx 0 1 e0bc229a2c4fd98a\nx 0 2 883be818776e53b8\ns 0 84000000 84000000 002081b3 3:68f80ab2a3be2d42 - - -\nd 0 0\ne 0 84000004 84000004 0000006f - - - -\n";
    assert_holds(&rt, &store, "r", trace)?;
    let elf = store.files.get("e").ok_or("no ELF")?;
    // What is loaded at 80001478 and at 80001480 stands in the first segment, whose file bytes begin at 1000.
    assert!(rt; has(elf, 0x2478, &0xe0bc_229a_2c4f_d98a_u64.to_le_bytes()));
    assert!(rt; has(elf, 0x2480, &0x883b_e818_776e_53b8_u64.to_le_bytes()));
    assert!(rt; has(elf, 0x2488, &[0; 224]));
    Ok(())
}

#[test]
fn a_seed_may_have_leading_zeros_and_twenty_digits(rt: HostRuntime) -> Result<(), Fail> {
    for seed in ["007", "18446744073709551615", "00000000000000000000"] {
        assert_made(&rt, rt.alloc(), JOB, seed, LINE)?;
    }
    Ok(())
}

#[test]
fn what_is_not_built_is_refused(rt: HostRuntime) -> Result<(), Fail> {
    assert_refused(&rt, rt.alloc(), MODE_S, TREES, "j")?;
    assert_refused(&rt, rt.alloc(), JOB, b"{\"version\":1,\"trees\":[1]}", "t")?;
    assert_refused(&rt, rt.alloc(), MODE_S, b"[]", "j")
}

#[test]
fn a_file_that_is_too_long_is_named(rt: HostRuntime) -> Result<(), Fail> {
    let long = vec![in rt.alloc(); b' '; 4_194_305]?;
    assert_too_long(&rt, rt.alloc(), &long, TREES, "j")?;
    assert_too_long(&rt, rt.alloc(), &long, &long, "j")?;
    // Lengths come before forms.
    assert_too_long(&rt, rt.alloc(), MODE_S, &long, "t")
}

/// Spaces behind it make a job as long as a file may be.
#[test]
fn a_job_of_the_greatest_length_is_made(rt: HostRuntime) -> Result<(), Fail> {
    let mut long = JOB.to_vec(rt.alloc())?;
    let spaces = vec![in rt.alloc(); b' '; 4_194_304]?;
    long.extend_from_slice(spaces.get(JOB.len()..).ok_or("a longer job")?)?;
    assert_eq!(rt; long.len(), 4_194_304);
    assert_made(&rt, rt.alloc(), &long, "7", LINE)?;
    Ok(())
}

#[test]
fn other_words_are_no_command(rt: HostRuntime) -> Result<(), Fail> {
    let lines: [&[&str]; 12] = [
        &[],
        &["make"],
        &["make-serial"],
        &["make", "j", "t", "7", "e", "o", "r"],
        &["make-serial", "j", "t", "7", "e", "o", "r", "s"],
        &[
            "make-serial",
            "j",
            "t",
            "18446744073709551616",
            "e",
            "o",
            "r",
        ],
        &[
            "make-serial",
            "j",
            "t",
            "000000000000000000007",
            "e",
            "o",
            "r",
        ],
        &["make-serial", "j", "t", "", "e", "o", "r"],
        &["make-serial", "j", "t", "-1", "e", "o", "r"],
        &["make-serial", "j", "t", "7", "e", "o", "e"],
        &["make-serial", "j", "j", "7", "e", "o", "r"],
        &["make-serial", "j", "t", "7", "e", "-x", "r"],
    ];
    for words in lines {
        let mut store = holding(rt.alloc(), JOB, TREES)?;
        assert_usage(&rt, rt.alloc(), words, &mut store)?;
        assert_eq!(rt; store.calls, 0);
    }
    Ok(())
}

#[test]
fn a_file_that_cannot_be_read_is_named(rt: HostRuntime) -> Result<(), Fail> {
    let mut empty = MemStore::new(rt.alloc());
    assert_ends(&rt, rt.alloc(), &WORDS, &mut empty, 4, "cannot read j\n")?;
    let mut first = holding(rt.alloc(), JOB, TREES)?;
    first.failing = [0].to_vec(rt.alloc())?;
    assert_ends(&rt, rt.alloc(), &WORDS, &mut first, 4, "cannot read j\n")?;
    let mut second = holding(rt.alloc(), JOB, TREES)?;
    second.failing = [1].to_vec(rt.alloc())?;
    assert_ends(&rt, rt.alloc(), &WORDS, &mut second, 4, "cannot read t\n")
}

#[test]
fn a_file_that_cannot_be_written_is_named(rt: HostRuntime) -> Result<(), Fail> {
    let mut store = holding(rt.alloc(), JOB, TREES)?;
    store.failing = [3].to_vec(rt.alloc())?;
    assert_ends(&rt, rt.alloc(), &WORDS, &mut store, 5, "cannot write o\n")?;
    assert!(rt; store.files.get("e").is_some());
    assert!(rt; store.files.get("r").is_none());
    Ok(())
}
