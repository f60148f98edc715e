//! Names that have to be different.

ghost use Rattle.std.specs.Prelude.{◌≡◌, Some, None, if◌then◌else◌};
ghost use Rattle.json_keys.specs.Input.{ReadsAs};
ghost use Rattle.rv_fields.specs.Name.{are_different};

use indexmap::IndexSet;
use json_keys::InputFault;
use rv_fields::Name;
use std::alloc::Global;

/// The names as a set in their order; `NotBuilt` where one stands twice.
pub(crate) fn set_of(alloc: Global, names: &[Name]) -> Result<IndexSet<Name>, InputFault>
    ensures { ReadsAs (λ set. set.keys) result (if are_different names.now then Some names.now else None) }
{
    let mut set = IndexSet::with_capacity(alloc, names.len())?;
    for name in names {
        if !set.insert(*name)? {
            return Err(InputFault::NotBuilt);
        }
    }
    Ok(set)
}
