ghost use Rattle.std.specs.Prelude.{◌≡◌, ◌<◌, ◌≤◌, ℕ, length, map, slice_get, Some, None, IfOk, IfSome, option_map, if◌then◌else◌, true};
ghost use Rattle.rv_fields.specs.Name.{Name as NameSeen};
ghost use Rattle.json_keys.specs.Input.{ReadsAs};
ghost use Rattle.choice_tree.specs.Forest.{Tree as TreeSeen, leaves, most_trees};
ghost use Rattle.rv_fields.specs.Name.{are_different};
ghost use Rattle.choice_tree.specs.Seen.{forest_seen};
ghost use Rattle.choice_tree.specs.Trees.{leaf_by, kids_at, reweighed, tree_number, with_weight};

use crate::kids::Kids;
use crate::names::set_of;
use indexmap::{IndexMap, IndexSet};
use json_keys::InputFault;
use rv_fields::{Name, NoMemory};
use std::alloc::{AllocError, Global};
use std::marker::Model;

/// A leaf of a tree.
#[derive(Clone, Copy, Debug, PartialEq, Eq)]
pub struct Leaf {
    pub label: Name,
    /// How many leaves of the tree stand before it in the file.
    pub position: u32,
}

/// A tree but for its name.
#[derive(Drop)]
pub struct Tree {
    kids: Kids,
    /// All leaves, in the order of the file.
    positions: IndexSet<Name>,
}

impl Model for Tree {
    ghost use Rattle.std.specs.Prelude.{◌≡◌, ◌<◌, ◌^◌, length};
    ghost use Rattle.choice_tree.specs.Nodes.{Nodes};
    ghost use Rattle.choice_tree.specs.Coding.{coded_nodes};

    ghost Value = { Nodes };

    ghost coded = { coded_nodes };

    ghost use Rattle.choice_tree.specs.Forest.{leaves};

    ghost view = { λ t. t.kids };

    ghost invariant = { λ t. (t.positions.keys ≡ leaves t.kids) × (length (leaves t.kids) < 2 ^ 32) };
}

impl Tree {
    /// The tree with these kids; `NotBuilt` where two leaves have one label. A tree with 2^32 leaves or more counts as out of
    /// memory.
    pub(crate) fn new(alloc: Global, kids: Kids) -> Result<Tree, InputFault>
        ensures { ReadsAs (λ tree. tree) result (if are_different (leaves kids) then Some kids else None) }
    {
        let mut names = Vec::new(alloc);
        kids.add_leaves(&mut names)?;
        let positions = set_of(alloc, &names)?;
        if positions.len() > u32::MAX as usize {
            return Err(InputFault::Memory);
        }
        Ok(Tree { kids, positions })
    }

    fn pick(&self, word: u64) -> Option<Leaf>
        ensures label { option_map (λ leaf. leaf.label) result ≡ leaf_by self.now word }
        ensures position { IfSome result (λ leaf. slice_get (leaves self.now) leaf.position ≡ Some leaf.label) }
    {
        let label = self.kids.leaf_by(word)?;
        match self.positions.get_index_of(&label) {
            Some(position) => Some(Leaf {
                label,
                position: position as u32,
            }),
            None => unreachable!("each leaf is in the set"),
        }
    }

    fn set_weight(&mut self, path: &[Name], weight: u32)
        ensures { self.new ≡ reweighed path.now weight self.old }
    {
        self.kids.set_weight(path, weight);
    }
}

impl Clone for Tree {
    ghost is_clone = { λ tree copy. copy ≡ tree };

    fn clone(&self) -> Result<Tree, AllocError> {
        Ok(Tree {
            kids: self.kids.clone()?,
            positions: self.positions.clone()?,
        })
    }
}

/// The choice trees of a file, each under its name, in the order of the file.
#[derive(Drop)]
pub struct Trees {
    trees: IndexMap<Name, Tree>,
}

impl Model for Trees {
    ghost use Rattle.std.specs.Prelude.{◌≡◌, ◌≤◌, length, map, true};
    ghost use Rattle.std.specs.Coded.{coded_list};
    ghost use Rattle.choice_tree.specs.Coding.{coded_tree};
    ghost use Rattle.choice_tree.specs.Forest.{Forest, Tree as TreeSeen, most_trees};
    ghost use Rattle.rv_fields.specs.Name.{are_different};
    ghost use Rattle.choice_tree.specs.Seen.{forest_seen};

    ghost Value = { Forest };

    ghost coded = { coded_list coded_tree };

    ghost view = { λ t. forest_seen t.trees.entries };

    ghost invariant = { λ t. (length t.trees.entries ≤ most_trees)
        × (are_different (map (λ (x : TreeSeen). x.name) (forest_seen t.trees.entries)) ≡ true) };
}

impl Trees {
    pub(crate) fn new(trees: IndexMap<Name, Tree>) -> Trees
        requires count { length trees.entries ≤ most_trees }
        requires different { are_different (map (λ (x : TreeSeen). x.name) (forest_seen trees.entries)) ≡ true }
        ensures { result ≡ forest_seen trees.entries }
    {
        Trees { trees }
    }

    /// A copy; the weights of the two are set apart from then on.
    pub fn copy(&self) -> Result<Trees, NoMemory>
        ensures { IfOk result (λ copy. copy ≡ self.now) }
    {
        Ok(Trees {
            trees: self.trees.clone()?,
        })
    }

    /// The place of the tree of a name in the file, from 0.
    pub fn number_of(&self, name: Name) -> Option<u32>
        ensures number { result ≡ tree_number self.now name }
        ensures there { IfSome result (λ number. number < length self.now) }
    {
        let number = self.trees.get_index_of(&name)?;
        Some(number as u32)
    }

    /// The leaf of a tree that a word picks; none where the weights on the way add up to 0.
    pub fn pick(&self, tree: u32, word: u64) -> Option<Leaf>
        requires { tree < length self.now }
        ensures label { option_map (λ leaf. leaf.label) result ≡ leaf_by (kids_at self.now tree) word }
        ensures position { IfSome result (λ leaf. slice_get (leaves (kids_at self.now tree)) leaf.position ≡ Some leaf.label) }
    {
        self.trees[tree as usize].pick(word)
    }

    /// Sets the weight of the node at a path of labels in a tree. Where no node stands there, all stays.
    pub fn set_weight(&mut self, tree: u32, path: &[Name], weight: u32)
        requires { tree < length self.old }
        ensures { (name : NameSeen) → tree_number self.old name ≡ Some tree → self.new ≡ with_weight self.old name path.now weight }
    {
        self.trees[tree as usize].set_weight(path, weight);
    }
}
