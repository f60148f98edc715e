//! The nodes of a choice tree.

ghost use Rattle.std.specs.Prelude.{◌≡◌, ◌≤◌, ◌∷◌, ◌++◌, length, IfOk, OnOk, map};
ghost use Rattle.choice_tree.specs.Forest.{Nodes, ahead, leaves, most_kids};
ghost use Rattle.choice_tree.specs.Seen.{label_of, weight_of, nodes_seen};
ghost use Rattle.choice_tree.specs.Trees.{total, leaf_by, reweighed};

use rv_fields::Name;
use std::alloc::{AllocError, Global};
use std::marker::Model;

/// The most nodes in one list of kids.
pub(crate) const MOST_KIDS: usize = 256;

/// A node: a leaf, or one with kids.
#[cycle(kids)]
#[derive(Drop)]
pub(crate) enum Node {
    Leaf {
        label: Name,
        weight: u32,
    },
    Inner {
        label: Name,
        weight: u32,
        kids: Kids,
    },
}

/// The nodes that stand below one node, or on the first level of a tree.
#[cycle(kids)]
#[derive(Drop)]
pub(crate) struct Kids {
    nodes: Vec<Node>,
}

impl Model for Kids {
    ghost use Rattle.std.specs.Prelude.{◌≤◌, length};
    ghost use Rattle.choice_tree.specs.Nodes.{Nodes};
    ghost use Rattle.choice_tree.specs.Coding.{coded_nodes};

    ghost Value = { Nodes };

    ghost coded = { coded_nodes };

    ghost use Rattle.choice_tree.specs.Forest.{most_kids};
    ghost use Rattle.choice_tree.specs.Seen.{nodes_seen, inner_count};

    ghost view = { λ k. nodes_seen k.nodes.items };

    ghost invariant = { λ k. length k.nodes.items ≤ most_kids };

    ghost size = { inner_count };

    ghost use Rattle.choice_tree.specs.Falls.{falls};

    ghost size_decreases = { λ k h. falls k.nodes.items };
}

impl Node {
    fn label(&self) -> Name
        ensures { result ≡ label_of self.now }
    {
        match self {
            Node::Leaf { label, .. } | Node::Inner { label, .. } => *label,
        }
    }

    fn weight(&self) -> u32
        ensures { result ≡ weight_of self.now }
    {
        match self {
            Node::Leaf { weight, .. } | Node::Inner { weight, .. } => *weight,
        }
    }

    /// Sets the weight at a path from this node on.
    #[cycle(weights)]
    fn set_weight(&mut self, first: Name, rest: &[Name], weight: u32)
        ensures { (others : Nodes) → reweighed (first ∷ rest.now) weight (ahead self.old others)
            ≡ ahead self.new (reweighed (first ∷ rest.now) weight others) }
    {
        match self {
            Node::Leaf {
                label,
                weight: held,
            } => {
                if first == *label && rest.is_empty() {
                    *held = weight;
                }
            }
            Node::Inner {
                label,
                weight: held,
                kids,
            } => {
                if first == *label {
                    if rest.is_empty() {
                        *held = weight;
                    } else {
                        kids.set_weight(rest, weight);
                    }
                }
            }
        }
    }
}

impl Kids {
    /// Nodes as the kids of one node.
    pub(crate) fn new(nodes: Vec<Node>) -> Kids
        requires { length nodes.items ≤ most_kids }
        ensures { result ≡ nodes_seen nodes.items }
    {
        Kids { nodes }
    }

    /// The weights of the nodes, added up.
    fn total(&self) -> u64
        ensures { result ≡ total self.now }
    {
        let mut total = 0;
        for node in &self.nodes {
            total += u64::from(node.weight());
        }
        total
    }

    /// The leaf that a word picks.
    pub(crate) fn leaf_by(&self, word: u64) -> Option<Name>
        ensures { result ≡ leaf_by self.now word }
    {
        let total = self.total();
        if total == 0 {
            return None;
        }
        let mut number = word % total;
        for node in &self.nodes {
            let weight = u64::from(node.weight());
            if number < weight {
                return match node {
                    Node::Leaf { label, .. } => Some(*label),
                    Node::Inner { kids, .. } => kids.leaf_by(word / total),
                };
            }
            number -= weight;
        }
        None
    }

    /// Sets the weight at a path; where no node stands there, all stays.
    #[cycle(weights)]
    pub(crate) fn set_weight(&mut self, path: &[Name], weight: u32)
        ensures { self.new ≡ reweighed path.now weight self.old }
    {
        let Some((first, rest)) = path.split_first() else {
            return;
        };
        for i in 0..self.nodes.len() {
            self.nodes[i].set_weight(*first, rest, weight);
        }
    }

    /// Adds the labels of all leaves, in the order of the file.
    pub(crate) fn add_leaves(&self, names: &mut Vec<Name>) -> Result<(), AllocError>
        ensures { OnOk result (names.new.items ≡ names.old.items ++ leaves self.now) }
    {
        for node in &self.nodes {
            match node {
                Node::Leaf { label, .. } => names.push(*label)?,
                Node::Inner { kids, .. } => kids.add_leaves(names)?,
            }
        }
        Ok(())
    }
}

impl Clone for Kids {
    ghost is_clone = { λ kids copy. copy ≡ kids };

    fn clone(&self) -> Result<Kids, AllocError> {
        let mut nodes = Vec::with_capacity(*self.nodes.allocator(), self.nodes.len())?;
        for node in &self.nodes {
            let copy = match node {
                Node::Leaf { label, weight } => Node::Leaf {
                    label: *label,
                    weight: *weight,
                },
                Node::Inner {
                    label,
                    weight,
                    kids,
                } => Node::Inner {
                    label: *label,
                    weight: *weight,
                    kids: kids.clone()?,
                },
            };
            nodes.push(copy)?;
        }
        Ok(Kids { nodes })
    }
}

/// The labels of nodes.
pub(crate) fn labels_of(alloc: Global, nodes: &[Node]) -> Result<Vec<Name>, AllocError>
    ensures { IfOk result (λ names. names.items ≡ map label_of nodes.now) }
{
    nodes.iter().map(Node::label).collect(alloc)
}
