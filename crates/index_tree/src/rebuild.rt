// An index made of the list of its nodes.

ghost use Rattle.std.specs.Prelude.{◌≡◌, ◌+◌, ◌-◌, ◌^◌, ◌<◌, ◌≤◌, true, [], map, take, drop, All, IfOk, OnOk};
ghost use Rattle.index_tree.specs.Listing.{listed_node};
ghost use Rattle.index_tree.specs.Places.{joined_rows};
ghost use Rattle.index_tree.specs.Rebuild.{leaf_row, joined, waiting, waiting_after};
ghost use Rattle.index_tree.specs.Shape.{done, node, full, node_count, shape_weight};
ghost use Rattle.index_tree.specs.Tree.{shape, below, kept, kept_all, kept_root, row};

use crate::counts::Counts;
use crate::index_node::IndexNode;
use crate::leaf::Leaf;
use crate::node::Node;
use std::alloc::Global;
use std::collections::LinkedList;
use ubifs_base::Memory;

/// A node of these leaves.
fn of_leaves(alloc: Global, leaves: &[Leaf]) -> Result<Node, Memory>
    ensures row { IfOk result (λ made. below made ≡ leaf_row leaves.now) }
    ensures first_keys { IfOk result (λ made. kept made ≡ true) }
{
    let mut made = Node::new(alloc);
    made.leaves = Vec::from_slice(alloc, leaves)?;
    made.keep_first();
    Ok(made)
}

/// A node of these nodes.
fn of_nodes(alloc: Global, nodes: Vec<Node>) -> Node
    requires { kept_all nodes.items ≡ true }
    ensures row { below result ≡ row nodes.items }
    ensures first_keys { kept result ≡ true }
{
    let mut made = Node::new(alloc);
    made.nodes = nodes;
    made.keep_first();
    made
}

/// Takes up to `n` nodes off the front, and puts those that aren't empty behind others.
fn join(parts: &mut LinkedList<Node>, n: u32, nodes: &mut Vec<Node>) -> Result<(), Memory>
    requires parts_kept { All (λ part. kept part ≡ true) parts.old }
    requires first_keys { kept_all nodes.old.items ≡ true }
    ensures row { OnOk result (row nodes.new.items ≡ joined_rows (row nodes.old.items) (joined (take n (map below parts.old)))) }
    ensures left { OnOk result (map below parts.new ≡ drop n (map below parts.old)) }
    ensures first_keys_kept { kept_all nodes.new.items ≡ true }
    ensures still_kept { All (λ part. kept part ≡ true) parts.new }
{
    if n == 0 {
        return Ok(());
    }
    match parts.pop_front() {
        None => Ok(()),
        Some(one) => {
            if one.is_empty() {
                join(parts, n - 1, nodes)?;
                return Ok(());
            }
            nodes.push(one)?;
            join(parts, n - 1, nodes)?;
            Ok(())
        }
    }
}

// Adds the children of a node, which are its leaves or wait at the front.
fn put_part(alloc: Global, parts: &mut LinkedList<Node>, node: &IndexNode) -> Result<(), Memory>
    requires parts_kept { All (λ part. kept part ≡ true) parts.old }
    ensures rows { OnOk result (map below parts.new ≡ waiting (map below parts.old) (listed_node node.now)) }
    ensures still_kept { All (λ part. kept part ≡ true) parts.new }
{
    let children = if node.level == 0 {
        of_leaves(alloc, node.leaves.as_slice())?
    } else {
        let mut nodes = Vec::new(alloc);
        join(parts, node.count, &mut nodes)?;
        of_nodes(alloc, nodes)
    };
    parts.push_back(children)?;
    Ok(())
}

/// The children that wait, as nodes, once each node has taken its own.
pub fn parts_of(alloc: Global, nodes: &[IndexNode]) -> Result<LinkedList<Node>, Memory>
    ensures rows { IfOk result (λ parts. map below parts ≡ waiting_after [] (map listed_node nodes.now)) }
    ensures first_keys { IfOk result (λ parts. All (λ part. kept part ≡ true) parts) }
{
    let mut parts = LinkedList::new(alloc);
    for node in nodes {
        put_part(alloc, &mut parts, node)?;
    }
    Ok(parts)
}

/// The root that waits at the front; none where it is empty.
pub fn root_of(parts: &mut LinkedList<Node>) -> Option<Node>
    requires parts_kept { All (λ part. kept part ≡ true) parts.old }
    ensures row { shape result ≡ joined (take 1 (map below parts.old)) }
    ensures first_keys { kept_root result ≡ true }
{
    match parts.pop_front() {
        None => None,
        Some(one) => {
            if one.is_empty() {
                return None;
            }
            Some(one)
        }
    }
}

// No memory holds so many nodes.
const MOST: u64 = 1 << 61;

/// Counts some nodes, and all below them.
#[cycle(counting)]
fn tally_among(nodes: &[Node], fanout: u32, counts: &mut Counts) -> Result<(), Memory>
    ensures nodes { OnOk result (counts.new.nodes ≡ counts.old.nodes + node_count (row nodes.now)) }
    ensures weight { OnOk result (counts.new.weight ≡ counts.old.weight + shape_weight fanout (row nodes.now)) }
{
    match nodes.split_first() {
        None => Ok(()),
        Some((one, rest)) => {
            one.tally(fanout, counts)?;
            tally_among(rest, fanout, counts)
        }
    }
}

impl Node {
    /// What the node itself weighs.
    fn own_weight(&self, fanout: u32) -> u64
        ensures { result ≡ 1 + full fanout (below self.now) }
    {
        if self.reaches(fanout) { 2 } else { 1 }
    }

    /// Counts the node, and all below it.
    #[cycle(counting)]
    pub fn tally(&self, fanout: u32, counts: &mut Counts) -> Result<(), Memory>
        ensures nodes { OnOk result (counts.new.nodes ≡ counts.old.nodes + node_count (node (below self.now) done)) }
        ensures weight { OnOk result (counts.new.weight ≡ counts.old.weight + shape_weight fanout (node (below self.now) done)) }
    {
        if counts.nodes >= MOST || counts.weight >= MOST {
            return Err(Memory);
        }
        counts.nodes += 1;
        counts.weight += self.own_weight(fanout);
        tally_among(self.nodes.as_slice(), fanout, counts)?;
        Ok(())
    }
}

/// Counts the nodes of a tree.
pub fn tally_rooted(root: &Option<Node>, fanout: u32, counts: &mut Counts) -> Result<(), Memory>
    ensures nodes { OnOk result (counts.new.nodes ≡ counts.old.nodes + node_count (shape root.now)) }
    ensures weight { OnOk result (counts.new.weight ≡ counts.old.weight + shape_weight fanout (shape root.now)) }
{
    match root {
        None => Ok(()),
        Some(top) => top.tally(fanout, counts),
    }
}
