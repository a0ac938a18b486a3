// A node of the tree.

ghost use Rattle.std.specs.Prelude.{◌≡◌, ◌==◌, ◌-◌, ◌&&◌, nat_le, nat_lt, true, []};
ghost use Rattle.index_tree.specs.Order.{key_rank};
ghost use Rattle.index_tree.specs.Shape.{done, count, filled, first_rank, begins_within};
ghost use Rattle.index_tree.specs.declared.node.Node.TheViews.{out-Node};
ghost use Rattle.index_tree.specs.Tree.{below, kept, kept_all, kept_inside, leaves_before, row};

use crate::leaf::Leaf;
use crate::rank::rank;
use std::alloc::Global;
use ubifs_base::Key;

/// A node: the key of its first leaf, and its children, which are leaves on the lowest level and nodes above.
#[derive(Drop)]
pub struct Node {
    pub first: Key,
    pub leaves: Vec<Leaf>,
    pub nodes: Vec<Node>,
}

impl Node {
    /// A node without a child.
    #[tactic(auto, using(crate::proofs::TreeLaws::node_parts), unfolding(crate::specs::Order::key_rank))]
    pub fn new(alloc: Global) -> Node
        ensures empty { below result ≡ done }
        ensures no_leaves { (out-Node result).leaves.items ≡ [] }
        ensures no_nodes { (out-Node result).nodes.items ≡ [] }
        ensures keeps { kept result ≡ true }
    {
        Node {
            first: Key::Ino { ino: 0 },
            leaves: Vec::new(alloc),
            nodes: Vec::new(alloc),
        }
    }

    /// Whether the node has no child.
    #[tactic(auto, using(crate::proofs::TreeLaws::node_parts))]
    pub fn is_empty(&self) -> bool
        ensures { result ≡ (count (below self.now) == 0) }
    {
        if !self.leaves.is_empty() {
            return false;
        }
        self.nodes.is_empty()
    }

    /// Whether the node has at least `n` children.
    #[tactic(auto, using(crate::proofs::TreeLaws::node_parts))]
    pub fn reaches(&self, n: u32) -> bool
        ensures { result ≡ nat_le n (count (below self.now)) }
    {
        let missing = (n as usize).saturating_sub(self.leaves.len());
        self.nodes.len() >= missing
    }

    /// Keeps the key of the first leaf, after a change of the children.
    pub fn keep_first(&mut self)
        requires { kept_inside self.old ≡ true }
        ensures children { below self.new ≡ below self.old }
        ensures keeps { kept self.new ≡ true }
    {
        let first = first_key(self.leaves.as_slice(), self.nodes.as_slice());
        self.first = first;
    }
}

/// The key of the first leaf of a row that has these leaves and then these nodes; that of inode 0 where there is none.
pub fn first_key(leaves: &[Leaf], nodes: &[Node]) -> Key
    requires { kept_all nodes.now ≡ true }
    ensures { key_rank result ≡ first_rank (leaves_before leaves.now (row nodes.now)) }
{
    match leaves.split_first() {
        Some((x, _)) => x.key,
        None => first_of(nodes),
    }
}

/// The key of the first leaf of a row of nodes; that of inode 0 where there is none.
fn first_of(nodes: &[Node]) -> Key
    requires { kept_all nodes.now ≡ true }
    ensures { key_rank result ≡ first_rank (row nodes.now) }
{
    match nodes.split_first() {
        Some((one, _)) => one.first,
        None => Key::Ino { ino: 0 },
    }
}

/// Whether the first leaf of a row of nodes has this rank or a lower one.
pub fn begins_within(nodes: &[Node], at: u128) -> bool
    requires first_keys { kept_all nodes.now ≡ true }
    requires sound { filled (row nodes.now) ≡ true }
    ensures { result ≡ begins_within at (row nodes.now) }
{
    match nodes.split_first() {
        Some((one, _)) => rank(&one.first) <= at,
        None => false,
    }
}

/// Whether it has a lower rank than this one.
pub fn begins_below(nodes: &[Node], at: u128) -> bool
    requires first_keys { kept_all nodes.now ≡ true }
    requires sound { filled (row nodes.now) ≡ true }
    ensures { result ≡ (nat_lt 0 at && begins_within (at - 1) (row nodes.now)) }
{
    match nodes.split_first() {
        Some((one, _)) => rank(&one.first) < at,
        None => false,
    }
}
