//! Boots that are too short, that trap, and that end otherwise.

use super::files::{Elf, ORDER, SUM, TRACE, first_example, in_mode_m, says};
use boot_words::{DISPATCHER_AT, boot_block, code_start, dispatcher};
use std::alloc::Global;
use std::test::*;

#[test]
fn too_few_steps(rt: HostRuntime) -> Result<(), Fail> {
    let alloc = rt.alloc();
    let elf = first_example(alloc)?;
    let cases = [
        ("order 1 1\n", "line 1 field boot told 0 found 0"),
        ("order 1 1\n0 1\n", "line 1 field boot told 0 found 1"),
        ("order 1 1\n0 69\n", "line 1 field boot told 0 found 69"),
        ("order 1 1\n0 70\n", "line 3 field hart told 0 found none"),
    ];
    for (order, text) in cases {
        says(&rt, alloc, &elf, order, TRACE, text)?;
    }
    let order = "order 1 1\n0 70\n";
    says(&rt, alloc, &elf, order, "trace 1 1\n", "agrees 0 steps")
}

#[test]
fn the_last_hart_does_not_boot(rt: HostRuntime) -> Result<(), Fail> {
    let alloc = rt.alloc();
    let elf = first_example(alloc)?;
    // The dispatcher lets one hart through. Hart 1 stays at its last word, which doesn't trap and is no mret.
    let trace = "trace 1 2\ns 0 84000000 84000000 00500093 1:6 - - -\n";
    let text = "line 1 field boot told 1 found 70";
    says(&rt, alloc, &elf, "order 1 2\n1 75\n0 72\n", trace, text)?;
    let text = "line 1 field boot told 0 found 0";
    says(&rt, alloc, &elf, "order 1 2\n1 3\n", trace, text)?;
    let text = "line 1 field boot told 1 found 3";
    says(&rt, alloc, &elf, "order 1 2\n0 72\n1 3\n", trace, text)
}

/// The program of the first example with another word at this place of the boot block, which it reaches by seven steps.
fn with_word(alloc: Global, place: usize, word: u32) -> Result<Vec<u8>, Fail> {
    let mut block = boot_block();
    for (at, changed) in block.iter_mut().enumerate() {
        if at == place {
            *changed = word;
        }
    }
    let mut elf = Elf::new(alloc);
    elf.add_words(alloc, DISPATCHER_AT, &dispatcher(1))?;
    elf.add_boot(alloc, 0, &block, &in_mode_m(code_start(0), &[]))?;
    elf.add_words(alloc, code_start(0), &SUM)?;
    Ok(elf.finish(alloc)?)
}

#[test]
fn another_word_in_the_block(rt: HostRuntime) -> Result<(), Fail> {
    let alloc = rt.alloc();
    let cases = [
        (0, 0x0000_0f97, "agrees 2 steps"),
        (0, 0x0000_0000, "line 1 field boot told 0 found 7"),
        (1, 0x0000_0000, "line 1 field boot told 0 found 8"),
        (62, 0x0000_0000, "line 1 field boot told 0 found 69"),
        (62, 0x0000_0013, "line 1 field boot told 0 found 70"),
    ];
    for (place, word, text) in cases {
        let elf = with_word(alloc, place, word)?;
        says(&rt, alloc, &elf, ORDER, TRACE, text)?;
    }
    Ok(())
}
