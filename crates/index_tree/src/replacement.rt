// Replacement: a leaf gives way to another of its key.

ghost use Rattle.std.specs.Prelude.{◌≡◌, true};
ghost use Rattle.index_tree.specs.Order.{ordered_from};
ghost use Rattle.index_tree.specs.Removal.{holds};
ghost use Rattle.index_tree.specs.Replacement.{replaced};
ghost use Rattle.index_tree.specs.Shape.{contents, filled};
ghost use Rattle.index_tree.specs.Tree.{shape, below, kept, kept_all, kept_root, row};

use crate::leaf::Leaf;
use crate::node::{Node, begins_below, begins_within};
use crate::rank::rank;
use crate::removal::place_of;

/// Puts a leaf at the place of the first that is the same as `old` below some nodes; false where there is none.
#[cycle(replacing)]
#[tactic(auto, using(crate::proofs::Replacing::replacing))]
fn replace_among(nodes: &mut [Node], old: &Leaf, new: Leaf) -> bool
    requires first_keys { kept_all nodes.old ≡ true }
    requires sound { filled (row nodes.old) ≡ true }
    requires ordered { ordered_from 0 (contents (row nodes.old)) ≡ true }
    ensures answer { result ≡ holds old.now (contents (row nodes.old)) }
    ensures put { row nodes.new ≡ replaced old.now new (row nodes.old) }
    ensures first_keys_kept { kept_all nodes.new ≡ true }
{
    match nodes.split_first_mut() {
        None => false,
        Some((one, rest)) => {
            if begins_below(rest, rank(&old.key)) {
                return replace_among(rest, old, new);
            }
            if one.replace(old, new) {
                return true;
            }
            if begins_within(rest, rank(&old.key)) {
                return replace_among(rest, old, new);
            }
            false
        }
    }
}

impl Node {
    /// Puts a leaf at the place of the first that is the same as `old`; false where there is none.
    #[cycle(replacing)]
    #[tactic(auto, using(crate::proofs::Replacing::replacing))]
    pub fn replace(&mut self, old: &Leaf, new: Leaf) -> bool
        requires first_keys { kept self.old ≡ true }
        requires sound { filled (below self.old) ≡ true }
        requires ordered { ordered_from 0 (contents (below self.old)) ≡ true }
        ensures answer { result ≡ holds old.now (contents (below self.old)) }
        ensures put { below self.new ≡ replaced old.now new (below self.old) }
        ensures first_keys_kept { kept self.new ≡ true }
    {
        match place_of(self.leaves.as_slice(), old) {
            Some(i) => {
                self.leaves[i] = new;
                self.keep_first();
                true
            }
            None => {
                let replaced = replace_among(self.nodes.as_mut_slice(), old, new);
                self.keep_first();
                replaced
            }
        }
    }
}

/// The same from the root on.
#[tactic(auto, using(crate::proofs::Replacing::replacing))]
pub fn replace_rooted(root: &mut Option<Node>, old: &Leaf, new: Leaf) -> bool
    requires first_keys { kept_root root.old ≡ true }
    requires sound { filled (shape root.old) ≡ true }
    requires ordered { ordered_from 0 (contents (shape root.old)) ≡ true }
    ensures answer { result ≡ holds old.now (contents (shape root.old)) }
    ensures put { shape root.new ≡ replaced old.now new (shape root.old) }
    ensures first_keys_kept { kept_root root.new ≡ true }
{
    match root {
        None => false,
        Some(top) => {
            if top.replace(old, new) {
                return true;
            }
            false
        }
    }
}
