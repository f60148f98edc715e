//! Programs whose traces were written by hand.

use super::files::{Part, Start, in_mode_m, program, says};
use std::test::*;

/// In mode M an ecall, which its handler passes over: `addi x31, x0, 7`, `ecall`, `jal x0, 0`.
const CALL: [u32; 3] = [0x0070_0f93, 0x0000_0073, 0x0000_006f];

/// The handler finds 0 in mscratch, which it swaps for the 7 in x31.
const CALL_TRACE: &str = "trace 1 1
s 0 84000000 84000000 00700f93 31:7 - - -
s 0 84000004 84000004 00000073 - - - 11:84000004:0:M
f 0 80020000 80020000 340f9ff3 31:0 - - -
f 0 80020004 80020004 34102ff3 31:84000004 - - -
f 0 80020008 80020008 004f8f93 31:84000008 - - -
f 0 8002000c 8002000c 341f9073 - - - -
f 0 80020010 80020010 340f9ff3 31:7 - - -
f 0 80020014 80020014 30200073 - - - -
e 0 84000008 84000008 0000006f - - - -
";

#[test]
fn a_trap_and_its_handler(rt: HostRuntime) -> Result<(), Fail> {
    let alloc = rt.alloc();
    let start = in_mode_m(0x8400_0000, &[]);
    let code = Part {
        at: 0x8400_0000,
        words: &CALL,
    };
    let elf = program(alloc, &[start], &[code])?;
    says(
        &rt,
        alloc,
        &elf,
        "order 1 1\n0 79\n",
        CALL_TRACE,
        "agrees 9 steps",
    )?;
    let lacking = "trace 1 1
s 0 84000000 84000000 00700f93 31:7 - - -
s 0 84000004 84000004 00000073 - - - -
";
    let text = "line 3 field trap told - found 11:84000004:0:M";
    says(&rt, alloc, &elf, "order 1 1\n0 72\n", lacking, text)
}

/// `jalr x0, 0(x0)`: the hart goes to an address where there is no memory, so its next step has neither a physical address nor a word.
const NOWHERE_TRACE: &str = "trace 1 1
s 0 84000000 84000000 00000067 - - - -
f 0 0 0 00000000 - - - 1:0:0:M
";

#[test]
fn a_step_without_a_word(rt: HostRuntime) -> Result<(), Fail> {
    let alloc = rt.alloc();
    let start = in_mode_m(0x8400_0000, &[]);
    let code = Part {
        at: 0x8400_0000,
        words: &[0x0000_0067],
    };
    let elf = program(alloc, &[start], &[code])?;
    let text = "line 3 field pa told 0 found -";
    says(&rt, alloc, &elf, "order 1 1\n0 72\n", NOWHERE_TRACE, text)
}

/// A hart of mode U under Sv39, with the root of its tables at 85000000. It has an address in x1, a value in x2, and an address in x5.
const IN_MODE_U: Start<'static> = Start {
    mstatus: 0,
    mepc: 0x1000,
    satp: 0x8000_0000_0008_5000,
    x: &[0x2000, 0x1122_3344_5566_7788, 0, 0, 0x3000],
};

/// The page 1000 is executed at 84000000. Both 2000 and 3000 are the page 85003000, of which 3000 may only be read. An entry is a page
/// number times 400, and bits: 1 for a table, 5b (valid, read, execute, user, accessed), d7 (valid, read, write, user, accessed,
/// dirty) and 53 (valid, read, user, accessed).
const MAPPED: [Part<'static>; 5] = [
    Part {
        at: 0x8500_0000,
        words: &[0x2140_0401, 0],
    },
    Part {
        at: 0x8500_1000,
        words: &[0x2140_0801, 0],
    },
    Part {
        at: 0x8500_2008,
        words: &[0x2100_005b, 0, 0x2140_0cd7, 0, 0x2140_0c53, 0],
    },
    Part {
        at: 0x8500_3000,
        words: &[0xaaaa_0001, 0xbbbb_0002, 0x89ab_cdef, 0x0123_4567],
    },
    // ld x3, 8(x1); sw x2, 4(x1); ld x4, 0(x1); sw x2, 0(x5)
    Part {
        at: 0x8400_0000,
        words: &[0x0080_b183, 0x0020_a223, 0x0000_b203, 0x0022_a023],
    },
];

/// The last store faults, for want of a right.
const MAPPED_TRACE: &str = "trace 1 1
s 0 1000 84000000 0080b183 3:123456789abcdef l:2008:85003008:8:123456789abcdef:- 85000000:21400401,85001000:21400801,85002010:21400cd7 -
s 0 1004 84000004 0020a223 - s:2004:85003004:4:-:55667788 85000000:21400401,85001000:21400801,85002010:21400cd7 -
s 0 1008 84000008 0000b203 4:55667788aaaa0001 l:2000:85003000:8:55667788aaaa0001:- 85000000:21400401,85001000:21400801,85002010:21400cd7 -
s 0 100c 8400000c 0022a023 - - 85000000:21400401,85001000:21400801,85002018:21400c53 15:100c:3000:M
f 0 80020000 80020000 340f9ff3 31:0 - - -
";

/// The access and the trail of the first load, changed once in each row, and what is said.
const CHANGED_LOADS: [(&str, &str, &str); 6] = [
    (
        "l:2008:85003008:8:123456789abcdef:-",
        "85000000:21400401,85001000:21400801,85002010:21400cd7",
        "agrees 1 steps",
    ),
    (
        "l:2008:85003000:8:123456789abcdef:-",
        "85000000:21400401,85001000:21400801,85002010:21400cd7",
        "line 2 field access told l:2008:85003000:8:123456789abcdef:- found l:2008:85003008:8:123456789abcdef:-",
    ),
    (
        "-",
        "85000000:21400401,85001000:21400801,85002010:21400cd7",
        "line 2 field access told - found l:2008:85003008:8:123456789abcdef:-",
    ),
    (
        "l:2008:85003008:8:123456789abcdef:-",
        "85000000:21400401,85001000:21400801,85002010:21400cd6",
        "line 2 field trail told 85000000:21400401,85001000:21400801,85002010:21400cd6 found 85000000:21400401,85001000:21400801,85002010:21400cd7",
    ),
    (
        "l:2008:85003008:8:123456789abcdef:-",
        "85000000:21400401,85001000:21400801",
        "line 2 field trail told 85000000:21400401,85001000:21400801 found 85000000:21400401,85001000:21400801,85002010:21400cd7",
    ),
    (
        "l:2008:85003008:8:123456789abcdef:-",
        "-",
        "line 2 field trail told - found 85000000:21400401,85001000:21400801,85002010:21400cd7",
    ),
];

#[test]
fn translated_accesses(rt: HostRuntime) -> Result<(), Fail> {
    let alloc = rt.alloc();
    let elf = program(alloc, &[IN_MODE_U], &MAPPED)?;
    let order = "order 1 1\n0 75\n";
    says(&rt, alloc, &elf, order, MAPPED_TRACE, "agrees 5 steps")?;
    let order = "order 1 1\n0 71\n";
    let load = "s 0 1000 84000000 0080b183 3:123456789abcdef";
    for (access, trail, text) in CHANGED_LOADS {
        let trace = format!(in alloc; "trace 1 1\n{load} {access} {trail} -\n")?;
        says(&rt, alloc, &elf, order, trace.as_str(), text)?;
    }
    Ok(())
}

const SHARED: [Part<'static>; 3] = [
    // lr.d x5, (x1); sc.d x6, x2, (x1); and both again
    Part {
        at: 0x8400_0000,
        words: &[0x1000_b2af, 0x1820_b32f, 0x1000_b2af, 0x1820_b32f],
    },
    // sw x2, 60(x1); amoadd.d x7, x2, (x1)
    Part {
        at: 0x8410_0000,
        words: &[0x0220_ae23, 0x0020_b3af],
    },
    Part {
        at: 0x8500_0040,
        words: &[9, 0],
    },
];

/// Hart 1 stores into the last four of the 64 bytes between the first LR and the first SC, and makes its sum behind both.
const SHARED_ORDER: &str = "order 1 2\n0 71\n1 71\n0 3\n1 1\n";

const SHARED_TRACE: &str = "trace 1 2
s 0 84000000 84000000 1000b2af 5:9 r:85000040:85000040:8:9:- - -
s 1 84100000 84100000 0220ae23 - s:8500007c:8500007c:4:-:5 - -
s 0 84000004 84000004 1820b32f 6:1 - - -
s 0 84000008 84000008 1000b2af 5:9 r:85000040:85000040:8:9:- - -
s 0 8400000c 8400000c 1820b32f 6:0 c:85000040:85000040:8:-:77 - -
s 1 84100004 84100004 0020b3af 7:77 a:85000040:85000040:8:77:7c - -
";

/// As if the first SC had succeeded.
const SUCCEEDING_TRACE: &str = "trace 1 2
s 0 84000000 84000000 1000b2af 5:9 r:85000040:85000040:8:9:- - -
s 1 84100000 84100000 0220ae23 - s:8500007c:8500007c:4:-:5 - -
s 0 84000004 84000004 1820b32f 6:0 c:85000040:85000040:8:-:77 - -
";

#[test]
fn a_link_that_another_hart_takes_away(rt: HostRuntime) -> Result<(), Fail> {
    let alloc = rt.alloc();
    // Both harts have the same address in x1.
    let starts = [
        in_mode_m(0x8400_0000, &[0x8500_0040, 0x77]),
        in_mode_m(0x8410_0000, &[0x8500_0040, 5]),
    ];
    let elf = program(alloc, &starts, &SHARED)?;
    says(
        &rt,
        alloc,
        &elf,
        SHARED_ORDER,
        SHARED_TRACE,
        "agrees 6 steps",
    )?;
    let text = "line 4 field rd told 6:0 found 6:1";
    says(&rt, alloc, &elf, SHARED_ORDER, SUCCEEDING_TRACE, text)
}
