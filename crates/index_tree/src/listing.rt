// The nodes of an index in a list: each level from left to right, the lowest first.

ghost use Rattle.std.specs.Prelude.{◌≡◌, ◌≤◌, ◌-◌, ◌^◌, ◌++◌, true, min, map, IfOk, OnOk};
ghost use Rattle.index_tree.specs.Listing.{ListedNode, listed_node, height, row_leaves, level_nodes};
ghost use Rattle.index_tree.specs.Shape.{done, node, count, fits};
ghost use Rattle.index_tree.specs.Tree.{shape, below, row};

use crate::index_node::IndexNode;
use crate::node::Node;
use std::alloc::Global;
use ubifs_base::Memory;

impl Node {
    /// How many levels of nodes there are below; `u32::MAX` stands for more as well.
    pub fn height(&self) -> u32
        ensures { result ≡ min (height (below self.now)) (2 ^ 32 - 1) }
    {
        if !self.leaves.is_empty() {
            return 0;
        }
        match self.nodes.as_slice().split_first() {
            None => 0,
            Some((one, _)) => one.height().saturating_add(1),
        }
    }

    /// The node as it is listed on this level.
    pub fn as_node(&self, alloc: Global, level: u16) -> Result<IndexNode, Memory>
        requires { count (below self.now) ≤ 256 }
        ensures { IfOk result
            (λ made. listed_node made ≡ record { level = level; count = count (below self.now); leaves = row_leaves (below self.now) }) }
    {
        let leaves = Vec::from_slice(alloc, self.leaves.as_slice())?;
        let count = (self.leaves.len() + self.nodes.len()) as u32;
        Ok(IndexNode {
            level,
            count,
            leaves,
        })
    }
}

/// How many levels of nodes a tree has; `u32::MAX` stands for more as well.
pub fn height_rooted(root: &Option<Node>) -> u32
    ensures { result ≡ min (height (shape root.now)) (2 ^ 32 - 1) }
{
    match root {
        None => 0,
        Some(top) => top.height().saturating_add(1),
    }
}

/// Puts the nodes of a level, of these and of those below, behind those that are there; the row has `high` levels.
#[cycle(listing)]
#[tactic(auto, using(crate::proofs::NodeList::listing))]
fn push_level(
    nodes: &[Node],
    alloc: Global,
    level: u16,
    high: u16,
    fanout: u32,
    list: &mut Vec<IndexNode>,
) -> Result<(), Memory>
    requires most { fanout ≤ 256 }
    requires sound { fits fanout (row nodes.now) ≡ true }
    ensures { OnOk result
        (map listed_node list.new.items ≡ map listed_node list.old.items ++ level_nodes level high (row nodes.now)) }
{
    match nodes.split_first() {
        None => Ok(()),
        Some((one, rest)) => {
            push_node(one, alloc, level, high, fanout, list)?;
            push_level(rest, alloc, level, high, fanout, list)
        }
    }
}

/// The same of one node.
#[cycle(listing)]
#[tactic(auto, using(crate::proofs::NodeList::listing))]
fn push_node(
    one: &Node,
    alloc: Global,
    level: u16,
    high: u16,
    fanout: u32,
    list: &mut Vec<IndexNode>,
) -> Result<(), Memory>
    requires most { fanout ≤ 256 }
    requires sound { fits fanout (node (below one.now) done) ≡ true }
    ensures { OnOk result
        (map listed_node list.new.items ≡ map listed_node list.old.items ++ level_nodes level high (node (below one.now) done)) }
{
    let under = high.saturating_sub(1);
    if under == level {
        list.push(one.as_node(alloc, level)?)?;
        return Ok(());
    }
    if one.leaves.is_empty() {
        push_level(one.nodes.as_slice(), alloc, level, under, fanout, list)?;
        return Ok(());
    }
    Ok(())
}

/// The same of a tree.
#[tactic(auto, using(crate::proofs::NodeList::listing))]
pub fn push_rooted(
    root: &Option<Node>,
    alloc: Global,
    level: u16,
    high: u16,
    fanout: u32,
    list: &mut Vec<IndexNode>,
) -> Result<(), Memory>
    requires most { fanout ≤ 256 }
    requires sound { fits fanout (shape root.now) ≡ true }
    ensures { OnOk result
        (map listed_node list.new.items ≡ map listed_node list.old.items ++ level_nodes level high (shape root.now)) }
{
    match root {
        None => Ok(()),
        Some(top) => push_node(top, alloc, level, high, fanout, list),
    }
}
