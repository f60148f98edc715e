use super::*;
use json_keys::InputFault;
use rv_fields::{Name, name_of};
use std::alloc::Global;
use std::test::*;

fn is_not_built(alloc: Global, text: &str) -> bool {
    matches!(
        Trees::read(alloc, text.as_bytes()),
        Err(InputFault::NotBuilt)
    )
}

/// A tree with a leaf, a node with a leaf and a node below it, and a node without weight.
const TREES: &[u8] = br#"{"version":1,"trees":[
    {"name":"ops","kids":[
        {"leaf":"add","weight":3},
        {"node":"load","weight":2,"kids":[
            {"leaf":"lb","weight":1},
            {"node":"wide","weight":4,"kids":[{"leaf":"lw","weight":1},{"leaf":"ld","weight":1}]}]},
        {"leaf":"nop","weight":0}]},
    {"name":"none","kids":[{"leaf":"add","weight":0}]}]}"#;

fn trees(alloc: Global) -> Result<Trees, Fail> {
    Ok(Trees::read(alloc, TREES).ok().ok_or("no trees")?)
}

fn name(text: &str) -> Result<Name, Fail> {
    Ok(name_of(text.as_bytes()).ok_or("no name")?)
}

/// The label and the position of the leaf that a word picks in the tree of the name, if it picks one.
fn picked(trees: &Trees, tree: &str, word: u64) -> Result<Option<(Name, u32)>, Fail> {
    let number = trees.number_of(name(tree)?).ok_or("no tree")?;
    let leaf = trees.pick(number, word);
    Ok(leaf.map(|leaf| (leaf.label, leaf.position)))
}

/// Sets the weight of a node of the first tree.
fn set(trees: &mut Trees, path: &[Name], weight: u32) -> Result<(), Fail> {
    let number = trees.number_of(name("ops")?).ok_or("no tree")?;
    trees.set_weight(number, path, weight);
    Ok(())
}

#[test]
fn reads_no_trees(rt: HostRuntime) -> Result<(), Fail> {
    Trees::read(rt.alloc(), br#"{"version":1,"trees":[]}"#)?;
    Trees::read(rt.alloc(), br#" { "trees" : [ ] , "version" : 1 } "#)?;
    Ok(())
}

#[test]
fn refuses_other_files(rt: HostRuntime) {
    for text in [
        r#"{"version":1,"trees":[1]}"#,
        r#"{"version":1}"#,
        r#"{"version":1,"trees":[],"x":0}"#,
        r#"{"version":2,"trees":[]}"#,
        "[]",
        "{",
        r#"{"version":1,"trees":[{"name":"a","kids":[]}]}"#,
        r#"{"version":1,"trees":[{"name":"A","kids":[{"leaf":"a","weight":1}]}]}"#,
        r#"{"version":1,"trees":[{"name":"a","kids":[{"leaf":"a","weight":4294967296}]}]}"#,
        r#"{"version":1,"trees":[{"name":"a","kids":[{"leaf":"a","weight":1},{"leaf":"a","weight":1}]}]}"#,
        r#"{"version":1,"trees":[{"name":"a","kids":[{"leaf":"a","weight":1,"kids":[]}]}]}"#,
        r#"{"version":1,"trees":[{"name":"a","kids":[{"node":"b","weight":1,"kids":[]}]}]}"#,
        r#"{"version":1,"trees":[{"name":"a","kids":[{"leaf":"c","weight":1},{"node":"b","weight":1,"kids":[{"leaf":"c","weight":1}]}]}]}"#,
        r#"{"version":1,"trees":[{"name":"a","kids":[{"leaf":"a","weight":1}]},{"name":"a","kids":[{"leaf":"a","weight":1}]}]}"#,
    ] {
        assert!(rt; is_not_built(rt.alloc(), text), "{text}");
    }
    assert!(rt; matches!(Trees::read(rt.alloc(), &[0xFF]), Err(InputFault::NotBuilt)));
}

/// A tree with so many levels of kids.
fn deep(alloc: Global, levels: usize) -> Result<String, Fail> {
    let mut text = String::new(alloc);
    text.push_str(r#"{"version":1,"trees":[{"name":"a","kids":["#)?;
    for _ in 1..levels {
        text.push_str(r#"{"node":"b","weight":1,"kids":["#)?;
    }
    text.push_str(r#"{"leaf":"c","weight":1}]}"#)?;
    for _ in 1..levels {
        text.push_str("]}")?;
    }
    text.push_str("]}")?;
    Ok(text)
}

#[test]
fn reads_eight_levels_and_no_more(rt: HostRuntime) -> Result<(), Fail> {
    let eight = deep(rt.alloc(), 8)?;
    Trees::read(rt.alloc(), eight.as_bytes())?;
    let nine = deep(rt.alloc(), 9)?;
    assert!(rt; is_not_built(rt.alloc(), nine.as_str()));
    Ok(())
}

#[test]
fn picks_by_the_weights(rt: HostRuntime) -> Result<(), Fail> {
    let trees = trees(rt.alloc())?;
    // Each word is r + 5 * (s + 5 * u): r of 3, 2, 0 picks among the kids, s of 1, 4 below `load`, and u of 1, 1 below `wide`.
    for (word, label, position) in [
        (0, "add", 0),
        (2, "add", 0),
        (3, "lb", 1),
        (4, "lb", 1),
        (8, "lw", 2),
        (33, "ld", 3),
        (24, "lw", 2),
        (48, "ld", 3),
    ] {
        assert_eq!(rt;
            picked(&trees, "ops", word)?,
            Some((name(label)?, position)),
            "{word}"
        );
    }
    assert!(rt; picked(&trees, "none", 7)?.is_none());
    Ok(())
}

#[test]
fn sets_weights_of_a_copy(rt: HostRuntime) -> Result<(), Fail> {
    let trees = trees(rt.alloc())?;
    let mut copy = trees.copy()?;
    set(&mut copy, &[name("add")?], 0)?;
    set(&mut copy, &[name("load")?, name("lb")?], 0)?;
    set(&mut copy, &[name("load")?, name("wide")?, name("lw")?], 0)?;
    // No node stands there.
    set(&mut copy, &[name("load")?, name("add")?], 9)?;
    assert_eq!(rt; picked(&copy, "ops", 0)?, Some((name("ld")?, 3)));
    assert_eq!(rt; picked(&trees, "ops", 0)?, Some((name("add")?, 0)));
    Ok(())
}

#[test]
fn numbers_trees_by_their_places(rt: HostRuntime) -> Result<(), Fail> {
    let trees = trees(rt.alloc())?;
    assert_eq!(rt; trees.number_of(name("ops")?), Some(0));
    assert_eq!(rt; trees.number_of(name("none")?), Some(1));
    assert_eq!(rt; trees.number_of(name("add")?), None);
    Ok(())
}

/// The first words of the stream, by the reference code of the generator.
const REFERENCE: [u64; 6] = [
    0x86b1_da1d_7206_2b68,
    0x1304_aa46_c985_3d39,
    0xa367_0e9e_0dd5_0358,
    0xf909_0e52_9a7d_ae00,
    0xc85b_9fd8_3799_6f2c,
    0x6061_21f8_e391_9196,
];

/// The first words of another stream, by a program that was written after the generator's paper.
const APART: [u64; 6] = [
    0xa282_1ea3_ecb6_3cd4,
    0x0161_e432_3234_90d8,
    0x02f7_6a2a_1487_4273,
    0xf1ad_dd77_bc42_c01d,
    0x218b_879e_ffd2_c27a,
    0xe16b_d4d8_51af_a2a0,
];

#[test]
fn draws_the_words_of_the_reference_code(rt: HostRuntime) {
    let mut words = DrawWords::new(42, 54);
    for word in REFERENCE {
        assert_eq!(rt; words.next(), word);
    }
    assert_eq!(rt; words.drawn(), 6);
}

#[test]
fn draws_the_words_of_another_seed_and_stream(rt: HostRuntime) {
    let mut words = DrawWords::new(7, 3);
    assert_eq!(rt; words.drawn(), 0);
    for word in APART {
        assert_eq!(rt; words.next(), word);
    }
}
