//! Reading a JSON value by its keys.

ghost use Rattle.std.specs.Prelude.{◌≡◌, option_map};
ghost use Rattle.serde_json.specs.Find.{get_member};
ghost use Rattle.serde_json.specs.View.{view, members_view};
ghost use Rattle.json_keys.specs.Input.{ReadsAs};
ghost use Rattle.json_keys.specs.Json.{document, object_of, natural_at, text_at};

use crate::input::InputFault;
use serde_json::{Map, Value};
use std::alloc::Global;

/// The members of a JSON object.
pub type Members = Map<String, Value>;

/// The JSON value that a file spells.
#[tactic(auto, using(crate::proofs::Reading::documents))]
pub fn document(alloc: Global, bytes: &[u8]) -> Result<Value, InputFault>
    ensures { ReadsAs view result (document bytes.now) }
{
    match Value::from_slice(alloc, bytes) {
        Ok(value) => Ok(value),
        Err(error) if error.is_memory() => Err(InputFault::Memory),
        Err(_) => Err(InputFault::NotBuilt),
    }
}

/// The members of an object that has so many.
#[tactic(auto, using(crate::proofs::Reading::lengths))]
pub fn object_of(count: usize, value: &Value) -> Option<&Members>
    ensures { option_map (λ m. members_view m.now.entries) result
        ≡ object_of count (view value.now) }
{
    let members = value.as_object()?;
    if members.len() == count {
        Some(members)
    } else {
        None
    }
}

/// The member of a key.
#[tactic(auto, using(crate::proofs::Reading::value_found))]
pub fn value_at<'m>(key: &str, members: &'m Members) -> Option<&'m Value>
    ensures { option_map (λ v. view v.now) result
        ≡ get_member key.now (members_view members.now.entries) }
{
    members.get(key)
}

/// The whole number at a key.
pub fn natural_at(key: &str, members: &Members) -> Option<u64>
    ensures { result ≡ natural_at key.now (members_view members.now.entries) }
{
    value_at(key, members)?.as_u64()
}

/// The text at a key.
pub fn text_at<'m>(key: &str, members: &'m Members) -> Option<&'m str>
    ensures { option_map (λ t. t.now) result
        ≡ text_at key.now (members_view members.now.entries) }
{
    value_at(key, members)?.as_str()
}
