// The walk to the first leaf behind a rank: down to where the rank would stand, and where no greater leaf follows there,
// to the first leaf of the next node.

ghost use Rattle.std.specs.Prelude.{◌≡◌, true};
ghost use Rattle.index_tree.specs.Order.{ordered_from, first_after};
ghost use Rattle.index_tree.specs.Shape.{contents, filled};
ghost use Rattle.index_tree.specs.Tree.{shape, below, kept, kept_all, kept_root, row};

use crate::bisect::{leaves_passed, nodes_passed};
use crate::leaf::Leaf;
use crate::node::{Node, begins_within};
use crate::rank::rank;

/// The first of some leaves that has a greater rank.
fn leaf_after(leaves: &[Leaf], at: u128) -> Option<Leaf>
    ensures { result ≡ first_after at leaves.now }
{
    match leaves.split_first() {
        None => None,
        Some((x, rest)) => {
            if rank(&x.key) > at {
                return Some(*x);
            }
            leaf_after(rest, at)
        }
    }
}

/// The same of the leaves below some nodes.
#[cycle(following)]
fn after_among(nodes: &[Node], at: u128) -> Option<Leaf>
    requires first_keys { kept_all nodes.now ≡ true }
    requires sound { filled (row nodes.now) ≡ true }
    requires ordered { ordered_from 0 (contents (row nodes.now)) ≡ true }
    ensures { result ≡ first_after at (contents (row nodes.now)) }
{
    match nodes.split_first() {
        None => None,
        Some((one, rest)) => {
            if begins_within(rest, at) {
                return after_among(rest, at);
            }
            match one.after(at) {
                Some(x) => Some(x),
                None => after_among(rest, at),
            }
        }
    }
}

impl Node {
    /// The first leaf of a greater rank.
    #[cycle(following)]
    pub fn after(&self, at: u128) -> Option<Leaf>
        requires first_keys { kept self.now ≡ true }
        requires sound { filled (below self.now) ≡ true }
        requires ordered { ordered_from 0 (contents (below self.now)) ≡ true }
        ensures { result ≡ first_after at (contents (below self.now)) }
    {
        let leaves = self.leaves.as_slice();
        let (_, own) = leaves.split_at(leaves_passed(leaves, at));
        match leaf_after(own, at) {
            Some(x) => Some(x),
            None => {
                let nodes = self.nodes.as_slice();
                let (_, rest) = nodes.split_at(nodes_passed(nodes, at));
                after_among(rest, at)
            }
        }
    }
}

/// The same from the root on.
pub fn after_rooted(root: &Option<Node>, at: u128) -> Option<Leaf>
    requires first_keys { kept_root root.now ≡ true }
    requires sound { filled (shape root.now) ≡ true }
    requires ordered { ordered_from 0 (contents (shape root.now)) ≡ true }
    ensures { result ≡ first_after at (contents (shape root.now)) }
{
    match root {
        None => None,
        Some(top) => top.after(at),
    }
}
