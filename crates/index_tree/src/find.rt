// The walk to a leaf by its key.

ghost use Rattle.std.specs.Prelude.{◌≡◌, ◌+◌, true, IfOk, IfErr, Some, slice_get, length};
ghost use Rattle.index_tree.specs.Order.{ordered_from, of_rank};
ghost use Rattle.index_tree.specs.Shape.{contents, filled};
ghost use Rattle.index_tree.specs.Tree.{shape, below, kept, kept_all, kept_root, row};

use crate::bisect::{lower_leaves_passed, lower_nodes_passed};
use crate::leaf::Leaf;
use crate::node::{Node, begins_below, begins_within};
use crate::rank::rank;

/// Of some leaves that of this rank behind `nth` others of the same; where there are too few of them, how many of
/// `nth` they leave.
#[tactic(auto, using(crate::proofs::Search::searching))]
fn find_leaf(leaves: &[Leaf], at: u128, nth: u32) -> Result<Leaf, u32>
    requires ordered { ordered_from 0 leaves.now ≡ true }
    ensures found { IfOk result (λ x. slice_get (of_rank at leaves.now) nth ≡ Some x) }
    ensures few { IfErr result (λ left. nth ≡ length (of_rank at leaves.now) + left) }
{
    match leaves.split_first() {
        None => Err(nth),
        Some((x, rest)) => {
            let here = rank(&x.key);
            if here < at {
                return find_leaf(rest, at, nth);
            }
            if here > at {
                return Err(nth);
            }
            if nth == 0 {
                return Ok(*x);
            }
            find_leaf(rest, at, nth - 1)
        }
    }
}

/// The same of the leaves below some nodes.
#[cycle(finding)]
#[tactic(auto, using(crate::proofs::Search::searching))]
fn find_among(nodes: &[Node], at: u128, nth: u32) -> Result<Leaf, u32>
    requires first_keys { kept_all nodes.now ≡ true }
    requires sound { filled (row nodes.now) ≡ true }
    requires ordered { ordered_from 0 (contents (row nodes.now)) ≡ true }
    ensures found { IfOk result (λ x. slice_get (of_rank at (contents (row nodes.now))) nth ≡ Some x) }
    ensures few { IfErr result (λ left. nth ≡ length (of_rank at (contents (row nodes.now))) + left) }
{
    match nodes.split_first() {
        None => Err(nth),
        Some((one, rest)) => {
            if begins_below(rest, at) {
                return find_among(rest, at, nth);
            }
            match one.find(at, nth) {
                Ok(x) => Ok(x),
                Err(left) => {
                    if begins_within(rest, at) {
                        return find_among(rest, at, left);
                    }
                    Err(left)
                }
            }
        }
    }
}

impl Node {
    /// The leaf of this rank behind `nth` others of the same; where there are too few of them,
    /// how many of `nth` they leave.
    #[cycle(finding)]
    #[tactic(auto, using(crate::proofs::Search::searching))]
    pub fn find(&self, at: u128, nth: u32) -> Result<Leaf, u32>
        requires first_keys { kept self.now ≡ true }
        requires sound { filled (below self.now) ≡ true }
        requires ordered { ordered_from 0 (contents (below self.now)) ≡ true }
        ensures found { IfOk result (λ x. slice_get (of_rank at (contents (below self.now))) nth ≡ Some x) }
        ensures few { IfErr result (λ left. nth ≡ length (of_rank at (contents (below self.now))) + left) }
    {
        let leaves = self.leaves.as_slice();
        let (_, own) = leaves.split_at(lower_leaves_passed(leaves, at));
        match find_leaf(own, at, nth) {
            Ok(x) => Ok(x),
            Err(left) => {
                let nodes = self.nodes.as_slice();
                let (_, rest) = nodes.split_at(lower_nodes_passed(nodes, at));
                match find_among(rest, at, left) {
                    Ok(y) => Ok(y),
                    Err(few) => Err(few),
                }
            }
        }
    }
}

/// The same from the root on.
#[tactic(auto, using(crate::proofs::Search::searching))]
pub fn find_rooted(root: &Option<Node>, at: u128, nth: u32) -> Result<Leaf, u32>
    requires first_keys { kept_root root.now ≡ true }
    requires sound { filled (shape root.now) ≡ true }
    requires ordered { ordered_from 0 (contents (shape root.now)) ≡ true }
    ensures found { IfOk result (λ x. slice_get (of_rank at (contents (shape root.now))) nth ≡ Some x) }
    ensures few { IfErr result (λ left. nth ≡ length (of_rank at (contents (shape root.now))) + left) }
{
    match root {
        None => Err(nth),
        Some(top) => top.find(at, nth),
    }
}
