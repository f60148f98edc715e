//! Traces in which something is changed, left out or added.

use super::files::{
    ONES, ORDER, Part, SUM, TRACE, ZEROS, first_example, in_mode_m, program, says, says_from,
};
use boot_words::code_start;
use std::alloc::Global;
use std::process::Abort;
use std::test::*;

#[test]
fn the_first_example_agrees_from_two_resets(rt: HostRuntime) -> Result<(), Fail> {
    let alloc = rt.alloc();
    let elf = first_example(alloc)?;
    says_from(&rt, alloc, &ZEROS, &elf, ORDER, TRACE, "agrees 2 steps")?;
    says_from(&rt, alloc, &ONES, &elf, ORDER, TRACE, "agrees 2 steps")
}

/// The program of the first example for two harts.
fn two_harts(alloc: Global) -> Result<Vec<u8>, Fail> {
    let starts = [in_mode_m(code_start(0), &[]), in_mode_m(code_start(1), &[])];
    let codes = [
        Part {
            at: code_start(0),
            words: &SUM,
        },
        Part {
            at: code_start(1),
            words: &SUM,
        },
    ];
    Ok(program(alloc, &starts, &codes)?)
}

/// The order in which hart 0 makes its two steps first.
const ORDER_OF_TWO: &str = "order 1 2\n0 70\n1 70\n0 2\n1 2\n";

/// The verdict on a trace of two harts with this fourth line, and this behind its fifth, is printed so.
fn says_with_line(
    rt: &impl Abort,
    alloc: Global,
    elf: &[u8],
    line: &str,
    behind: &str,
    text: &str,
) -> Result<(), Fail> {
    let trace = format!(in alloc; "trace 1 2\nq 1 0 ins\nq 0 0 ins\n{line}\nd 0 0\n{behind}")?;
    says(rt, alloc, elf, ORDER_OF_TWO, trace.as_str(), text)
}

/// What stands behind the fifth line.
const BEHIND: &str = "e 0 84000004 84000004 0000006f - - - -
s 1 84100000 84100000 00500093 1:5 - - -
d 1 0
e 1 84100004 84100004 0000006f - - - -
";

/// The fourth line with one letter or field changed, and what is said. Which letter it has isn't compared.
const CHANGED: [(&str, &str); 13] = [
    ("s 0 84000000 84000000 00500093 1:5 - - -", "agrees 4 steps"),
    ("f 0 84000000 84000000 00500093 1:5 - - -", "agrees 4 steps"),
    ("e 0 84000000 84000000 00500093 1:5 - - -", "agrees 4 steps"),
    (
        "s 1 84000000 84000000 00500093 1:5 - - -",
        "line 4 field hart told 1 found 0",
    ),
    (
        "s 0 84000004 84000000 00500093 1:5 - - -",
        "line 4 field pc told 84000004 found 84000000",
    ),
    (
        "s 0 84000000 4000000 00500093 1:5 - - -",
        "line 4 field pa told 4000000 found 84000000",
    ),
    (
        "s 0 84000000 84000000 00500193 1:5 - - -",
        "line 4 field word told 00500193 found 00500093",
    ),
    (
        "s 0 84000000 84000000 00500093 1:6 - - -",
        "line 4 field rd told 1:6 found 1:5",
    ),
    (
        "s 0 84000000 84000000 00500093 2:5 - - -",
        "line 4 field rd told 2:5 found 1:5",
    ),
    (
        "s 0 84000000 84000000 00500093 - - - -",
        "line 4 field rd told - found 1:5",
    ),
    (
        "s 0 84000000 84000000 00500093 1:5 l:0:0:1:ff:- - -",
        "line 4 field access told l:0:0:1:ff:- found -",
    ),
    (
        "s 0 84000000 84000000 00500093 1:5 - 85000000:0 -",
        "line 4 field trail told 85000000:0 found -",
    ),
    (
        "s 0 84000000 84000000 00500093 1:5 - - 2:84000000:0:M",
        "line 4 field trap told 2:84000000:0:M found -",
    ),
];

#[test]
fn each_field_is_compared(rt: HostRuntime) -> Result<(), Fail> {
    let alloc = rt.alloc();
    let elf = two_harts(alloc)?;
    for (line, text) in CHANGED {
        says_with_line(&rt, alloc, &elf, line, BEHIND, text)?;
    }
    Ok(())
}

#[test]
fn the_first_difference_is_told(rt: HostRuntime) -> Result<(), Fail> {
    let alloc = rt.alloc();
    let elf = two_harts(alloc)?;
    let line = "s 0 84000008 84000000 00500093 1:6 - - -";
    let text = "line 4 field pc told 84000008 found 84000000";
    says_with_line(&rt, alloc, &elf, line, "", text)?;
    let line = "s 0 84000000 84000000 00500093 1:5 - - -";
    let behind = "e 0 84000004 84000004 00000067 - - - -
s 1 84100000 84100000 00500093 1:6 - - -
";
    let text = "line 6 field word told 00000067 found 0000006f";
    says_with_line(&rt, alloc, &elf, line, behind, text)
}

#[test]
fn a_step_that_one_side_lacks(rt: HostRuntime) -> Result<(), Fail> {
    let alloc = rt.alloc();
    let elf = first_example(alloc)?;
    let first = "s 0 84000000 84000000 00500093 1:5 - - -\n";
    let last = "e 0 84000004 84000004 0000006f - - - -\n";
    let without_first = format!(in alloc; "trace 1 1\nq 0 0 ins\nd 0 0\n{last}")?;
    let text = "line 4 field pc told 84000004 found 84000000";
    says(&rt, alloc, &elf, ORDER, without_first.as_str(), text)?;
    let without_last = format!(in alloc; "trace 1 1\nq 0 0 ins\n{first}d 0 0\n")?;
    let text = "line 5 field hart told none found 0";
    says(&rt, alloc, &elf, ORDER, without_last.as_str(), text)?;
    let text = "line 2 field hart told none found 0";
    says(&rt, alloc, &elf, ORDER, "trace 1 1\n", text)?;
    let longer = format!(in alloc; "{TRACE}d 0 1\n{last}{first}")?;
    let text = "line 7 field hart told 0 found none";
    says(&rt, alloc, &elf, ORDER, longer.as_str(), text)?;
    let text = "line 6 field hart told none found 0";
    says(&rt, alloc, &elf, "order 1 1\n0 73\n", TRACE, text)
}

#[test]
fn a_trace_of_other_harts(rt: HostRuntime) -> Result<(), Fail> {
    let alloc = rt.alloc();
    let elf = first_example(alloc)?;
    let told_two = "trace 1 2\ns 1 84000000 84000000 00500093 1:6 - - -\n";
    let text = "line 1 field harts told 2 found 1";
    says(&rt, alloc, &elf, ORDER, told_two, text)?;
    says(&rt, alloc, &elf, "order 1 1\n", told_two, text)?;
    let elf = two_harts(alloc)?;
    let text = "line 1 field harts told 1 found 2";
    says(&rt, alloc, &elf, "order 1 2\n0 72\n1 70\n", TRACE, text)
}
