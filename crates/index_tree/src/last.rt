// The walk to the last leaf up to a rank.

ghost use Rattle.std.specs.Prelude.{◌≡◌, true, None};
ghost use Rattle.std.specs.List.{last_or};
ghost use Rattle.index_tree.specs.LastBlock.{is_block_of, up_to};
ghost use Rattle.index_tree.specs.Order.{ordered_from};
ghost use Rattle.index_tree.specs.Shape.{contents, filled};
ghost use Rattle.index_tree.specs.Tree.{shape, below, kept, kept_all, kept_root, row};

use crate::bisect::{leaves_passed, nodes_passed};
use crate::leaf::Leaf;
use crate::node::{Node, begins_within};
use crate::rank::rank;
use ubifs_base::Key;

/// Whether a key is that of a block of this inode.
pub fn is_block_of(key: &Key, ino: u32) -> bool
    ensures { result ≡ is_block_of ino key.now }
{
    match *key {
        Key::Block { ino: owner, .. } => owner == ino,
        _ => false,
    }
}

/// The last of some leaves in order that has this rank or a lower one.
fn last_leaf(leaves: &[Leaf], at: u128) -> Option<Leaf>
    requires { ordered_from 0 leaves.now ≡ true }
    ensures { result ≡ last_or None (up_to at leaves.now) }
{
    match leaves.split_first() {
        None => None,
        Some((x, rest)) => {
            if rank(&x.key) > at {
                return None;
            }
            match last_leaf(rest, at) {
                None => Some(*x),
                Some(y) => Some(y),
            }
        }
    }
}

/// The same of the leaves below some nodes.
#[cycle(ending)]
fn last_among(nodes: &[Node], at: u128) -> Option<Leaf>
    requires first_keys { kept_all nodes.now ≡ true }
    requires sound { filled (row nodes.now) ≡ true }
    requires ordered { ordered_from 0 (contents (row nodes.now)) ≡ true }
    ensures { result ≡ last_or None (up_to at (contents (row nodes.now))) }
{
    match nodes.split_first() {
        None => None,
        Some((one, rest)) => {
            if begins_within(rest, at) {
                return last_among(rest, at);
            }
            one.last_within(at)
        }
    }
}

impl Node {
    /// The last leaf of this rank or a lower one.
    #[cycle(ending)]
    pub fn last_within(&self, at: u128) -> Option<Leaf>
        requires first_keys { kept self.now ≡ true }
        requires sound { filled (below self.now) ≡ true }
        requires ordered { ordered_from 0 (contents (below self.now)) ≡ true }
        ensures { result ≡ last_or None (up_to at (contents (below self.now))) }
    {
        let nodes = self.nodes.as_slice();
        if begins_within(nodes, at) {
            let (_, rest) = nodes.split_at(nodes_passed(nodes, at));
            return last_among(rest, at);
        }
        let leaves = self.leaves.as_slice();
        let (_, own) = leaves.split_at(leaves_passed(leaves, at));
        last_leaf(own, at)
    }
}

/// The same from the root on.
pub fn last_rooted(root: &Option<Node>, at: u128) -> Option<Leaf>
    requires first_keys { kept_root root.now ≡ true }
    requires sound { filled (shape root.now) ≡ true }
    requires ordered { ordered_from 0 (contents (shape root.now)) ≡ true }
    ensures { result ≡ last_or None (up_to at (contents (shape root.now))) }
{
    match root {
        None => None,
        Some(top) => top.last_within(at),
    }
}
