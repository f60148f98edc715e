ghost use Rattle.std.specs.Prelude.{◌≡◌, ◌≤◌, map, option_map, Some, IfOk, IfErr, OnOk};
ghost use Rattle.forge.specs.Words as Words;
ghost use Rattle.forge.specs.Ends.{Unchanged, Causes};
ghost use Rattle.forge.specs.Stops.{ending_of, WhereTold, IsContent, IsReadFor, AreRead, IsStoppedRead, IsStoppedWrite};
ghost use Rattle.store_face.specs.Calls.{KeepsAllBut};

use crate::stop::Stop;
use std::alloc::Global;
use store_face::Store;

/// Reads the files of the names, in their order. Behind the last read, the first that has more than so many bytes stops
/// the command.
pub(crate) fn read_inputs<'a, S: Store>(
    alloc: Global,
    store: &mut S,
    names: &[&'a str],
    most: usize,
) -> Result<Vec<Vec<u8>>, Stop<'a>>
    ensures unchanged { Unchanged (S.state store.old) (S.state store.new) }
    ensures contents { (c : Words.Command) → IsReadFor c (map (λ name. name.now) names.now) most →
        IfOk result (λ contents. AreRead c (S.state store.old) (map (λ content. content.items) contents.items)) }
    ensures stopped { (c : Words.Command) → IsReadFor c (map (λ name. name.now) names.now) most →
        IfErr result (λ stop. Causes c (S.state store.old) (S.state store.new) (ending_of stop)) }
{
    let mut contents = Vec::new(alloc);
    let mut too_long = None;
    for &name in names {
        match read_input(alloc, store, name, most)? {
            Some(content) => contents.push(content)?,
            None => too_long = too_long.or(Some(name)),
        }
    }
    match too_long {
        Some(name) => Err(Stop::TooLong { name, most }),
        None => Ok(contents),
    }
}

/// Reads the file of the name; none where it has more than so many bytes.
fn read_input<'a, S: Store>(
    alloc: Global,
    store: &mut S,
    name: &'a str,
    most: usize,
) -> Result<Option<Vec<u8>>, Stop<'a>>
    ensures unchanged { Unchanged (S.state store.old) (S.state store.new) }
    ensures counts_up { (S.state store.old).read_faults ≤ (S.state store.new).read_faults }
    ensures content { IfOk result (λ content.
        IsContent (S.state store.old) name.entry.now most (option_map (λ read. read.items) content)) }
    ensures stopped { IfErr result (λ stop. IsStoppedRead name.entry.now (S.state store.old) (S.state store.new) (ending_of stop)) }
{
    let mut content = Vec::new(alloc);
    match store.read_whole(name, most, &mut content) {
        Ok(true) => Ok(Some(content)),
        Ok(false) => Ok(None),
        Err(fault) => Err(Stop::at_read(name, fault)),
    }
}

/// Writes the file of the name.
pub(crate) fn write_output<'a, S: Store>(
    store: &mut S,
    name: &'a str,
    bytes: &[u8],
) -> Result<(), Stop<'a>>
    ensures others { KeepsAllBut name.entry.now (S.state store.old).holds (S.state store.new).holds }
    ensures counts_up { (S.state store.old).write_faults ≤ (S.state store.new).write_faults }
    ensures written { OnOk result (WhereTold (S.state store.new) (λ held. held name.entry.now ≡ Some bytes.now)) }
    ensures stopped { IfErr result (λ stop. IsStoppedWrite name.entry.now (S.state store.old) (S.state store.new) (ending_of stop)) }
{
    match store.write_whole(name, bytes) {
        Ok(()) => Ok(()),
        Err(fault) => Err(Stop::at_write(name, fault)),
    }
}
