ghost use Rattle.std.specs.Prelude.{◌≡◌, ◌≤◌, length, option_map, IfOk, IfSome};
ghost use Rattle.serde_json.specs.View.{view, items_view, members_view};
ghost use Rattle.json_keys.specs.Input.{ReadsAs};
ghost use Rattle.choice_tree.specs.Forest as spec;
ghost use Rattle.choice_tree.specs.Seen.{nodes_seen, tree_seen};

use crate::kids::{Kids, MOST_KIDS, Node, labels_of};
use crate::names::set_of;
use crate::trees::{Tree, Trees};
use indexmap::IndexMap;
use json_keys::{InputFault, Members, document, natural_at, object_of, text_at, value_at};
use rv_fields::{Name, name_of};
use serde_json::Value;
use std::alloc::Global;

/// The most levels of kids in a tree.
const MOST_LEVELS: u32 = 8;

/// The most trees in a file.
const MOST_TREES: usize = 256;

impl Trees {
    /// Reads the trees that a JSON file spells: `{"version":1,"trees":[TREE, ..]}` with up to 256 trees of different names.
    /// A tree is `{"name":NAME,"kids":[NODE, ..]}`, a node `{"leaf":NAME,"weight":WEIGHT}` or
    /// `{"node":NAME,"weight":WEIGHT,"kids":[NODE, ..]}`, with 1 to 256 kids of different labels, and at most 8 levels of kids. All
    /// leaves of a tree have different labels, and a weight is below 2^32.
    pub fn read(alloc: Global, bytes: &[u8]) -> Result<Trees, InputFault>
        ensures { ReadsAs (λ trees. trees) result (spec.forest_in bytes.now) }
    {
        let value = document(alloc, bytes)?;
        forest_of(alloc, &value)
    }
}

fn forest_of(alloc: Global, value: &Value) -> Result<Trees, InputFault>
    ensures { ReadsAs (λ trees. trees) result (spec.forest_of (view value.now)) }
{
    let values = trees_at(value).ok_or(InputFault::NotBuilt)?;
    trees_in(alloc, values)
}

/// The values of the trees of a file.
fn trees_at(value: &Value) -> Option<&[Value]>
    ensures values { option_map (λ values. items_view values.now) result ≡ spec.trees_at (view value.now) }
    ensures most { IfSome result (λ values. length values.now ≤ MOST_TREES) }
{
    let members = object_of(2, value)?;
    let version = natural_at("version", members)?;
    if version == 1 {
        list_at("trees", 0, MOST_TREES, members)
    } else {
        None
    }
}

/// The trees of these values.
fn trees_in(alloc: Global, values: &[Value]) -> Result<Trees, InputFault>
    requires { length values.now ≤ MOST_TREES }
    ensures { ReadsAs (λ trees. trees) result (spec.forest_by (items_view values.now)) }
{
    let mut trees = IndexMap::with_capacity(alloc, values.len())?;
    for value in values {
        let (name, tree) = tree_in(alloc, value)?;
        if trees.insert(name, tree)?.is_some() {
            return Err(InputFault::NotBuilt);
        }
    }
    Ok(Trees::new(trees))
}

fn tree_in(alloc: Global, value: &Value) -> Result<(Name, Tree), InputFault>
    ensures { ReadsAs tree_seen result (spec.tree_in (view value.now)) }
{
    let members = object_of(2, value).ok_or(InputFault::NotBuilt)?;
    let name = name_at("name", members).ok_or(InputFault::NotBuilt)?;
    let values = kids_at(members).ok_or(InputFault::NotBuilt)?;
    let kids = kids_in(alloc, MOST_LEVELS, values)?;
    let tree = Tree::new(alloc, kids)?;
    Ok((name, tree))
}

/// Kids on so many levels at most.
#[cycle(nodes)]
fn kids_in(alloc: Global, levels: u32, values: &[Value]) -> Result<Kids, InputFault>
    requires { length values.now ≤ MOST_KIDS }
    ensures { ReadsAs (λ kids. kids) result (spec.kids_in levels (items_view values.now)) }
{
    if levels == 0 {
        return Err(InputFault::NotBuilt);
    }
    let nodes = nodes_in(alloc, levels - 1, values)?;
    let labels = labels_of(alloc, &nodes)?;
    set_of(alloc, &labels)?;
    Ok(Kids::new(nodes))
}

/// Nodes with kids on so many levels at most.
#[cycle(nodes)]
fn nodes_in(alloc: Global, levels: u32, values: &[Value]) -> Result<Vec<Node>, InputFault>
    ensures nodes { ReadsAs (λ nodes. nodes_seen nodes.items) result (spec.nodes_by (spec.kids_in levels) (items_view values.now)) }
    ensures count { IfOk result (λ nodes. length nodes.items ≡ length values.now) }
{
    let mut nodes = Vec::with_capacity(alloc, values.len())?;
    for value in values {
        let node = node_in(alloc, levels, value)?;
        nodes.push(node)?;
    }
    Ok(nodes)
}

#[cycle(nodes)]
fn node_in(alloc: Global, levels: u32, value: &Value) -> Result<Node, InputFault>
    ensures { ReadsAs (λ node. node) result (spec.node_in (spec.kids_in levels) (view value.now)) }
{
    match leaf_in(value) {
        Some(leaf) => Ok(leaf),
        None => inner_in(alloc, levels, value),
    }
}

/// A node with kids.
#[cycle(nodes)]
fn inner_in(alloc: Global, levels: u32, value: &Value) -> Result<Node, InputFault>
    ensures { ReadsAs (λ node. node) result (spec.inner_in (spec.kids_in levels) (view value.now)) }
{
    let members = object_of(3, value).ok_or(InputFault::NotBuilt)?;
    let label = name_at("node", members).ok_or(InputFault::NotBuilt)?;
    let weight = weight_at(members).ok_or(InputFault::NotBuilt)?;
    let values = kids_at(members).ok_or(InputFault::NotBuilt)?;
    let kids = kids_in(alloc, levels, values)?;
    Ok(Node::Inner {
        label,
        weight,
        kids,
    })
}

fn leaf_in(value: &Value) -> Option<Node>
    ensures { result ≡ spec.leaf_in (view value.now) }
{
    let members = object_of(2, value)?;
    let label = name_at("leaf", members)?;
    let weight = weight_at(members)?;
    Some(Node::Leaf { label, weight })
}

/// The name at a key.
fn name_at(key: &str, members: &Members) -> Option<Name>
    ensures { result ≡ spec.name_at key.now (members_view members.now.entries) }
{
    name_of(text_at(key, members)?.as_bytes())
}

fn weight_at(members: &Members) -> Option<u32>
    ensures { result ≡ spec.weight_at (members_view members.now.entries) }
{
    let weight = natural_at("weight", members)?;
    u32::try_from(weight).ok()
}

/// The values of the kids of a node or a tree.
fn kids_at(members: &Members) -> Option<&[Value]>
    ensures values { option_map (λ values. items_view values.now) result ≡ spec.kids_at_key (members_view members.now.entries) }
    ensures most { IfSome result (λ values. length values.now ≤ MOST_KIDS) }
{
    list_at("kids", 1, MOST_KIDS, members)
}

/// The list at a key, with a length from the least to the most.
#[tactic(auto, using(json_keys::proofs::Reading::lengths))]
fn list_at<'m>(key: &str, least: usize, most: usize, members: &'m Members) -> Option<&'m [Value]>
    ensures values { option_map (λ values. items_view values.now) result ≡ spec.list_at key.now least most (members_view members.now.entries) }
    ensures most { IfSome result (λ values. length values.now ≤ most) }
{
    let values = value_at(key, members)?.as_array()?;
    if least <= values.len() && values.len() <= most {
        Some(values.as_slice())
    } else {
        None
    }
}
