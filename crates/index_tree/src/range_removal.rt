// The removal of all leaves of a range of keys.

ghost use Rattle.std.specs.Prelude.{◌≡◌, ◌+◌, ◌-◌, ◌^◌, ◌≤◌, min, length, true, not, filter};
ghost use Rattle.index_tree.specs.Order.{ordered_from};
ghost use Rattle.index_tree.specs.RangeRemoval.{in_range, pruned, within_range, outside_range, without_range};
ghost use Rattle.index_tree.specs.Removal.{tidied};
ghost use Rattle.index_tree.specs.Sweep.{swept};
ghost use Rattle.index_tree.specs.Shape.{contents, node_count, shape_weight, fits, is_whole};
ghost use Rattle.index_tree.specs.Keyed.{HaveKeys};
ghost use Rattle.index_tree.specs.Levels.{is_levelled};
ghost use Rattle.index_tree.specs.Tree.{shape, below, kept, kept_all, kept_root, row};

use crate::counts::Counts;
use crate::leaf::Leaf;
use crate::node::{Node, begins_below, begins_within};
use crate::rank::rank;
use crate::removal::{count_full, tidy_root};

/// Whether a leaf's rank lies in a range, both ends included.
fn is_in_range(x: &Leaf, from: u128, to: u128) -> bool
    ensures { result ≡ in_range from to x.now }
{
    let here = rank(&x.key);
    if from <= here {
        return here <= to;
    }
    false
}

/// Takes out the leaves whose ranks lie in the range, both ends included, and answers how many.
fn prune_leaves(leaves: &mut Vec<Leaf>, from: u128, to: u128) -> u64
    ensures answer { result ≡ length (within_range from to leaves.old.items) }
    ensures left { leaves.new.items ≡ outside_range from to leaves.old.items }
{
    let before = leaves.len();
    leaves.retain(|x| !is_in_range(x, from, to));
    (before - leaves.len()) as u64
}

/// The same of the leaves below some nodes.
#[cycle(pruning)]
#[tactic(auto, using(crate::proofs::Pruning::pruning))]
fn prune_among(nodes: &mut [Node], from: u128, to: u128, fanout: u32, counts: &mut Counts) -> u64
    requires least { 3 ≤ fanout }
    requires sound { fits fanout (row nodes.old) ≡ true }
    requires first_keys { kept_all nodes.old ≡ true }
    requires ordered { ordered_from 0 (contents (row nodes.old)) ≡ true }
    requires nodes_there { node_count (row nodes.old) ≤ counts.old.nodes }
    requires weight_there { shape_weight fanout (row nodes.old) ≤ counts.old.weight }
    ensures answer { result ≡ min (length (within_range from to (contents (row nodes.old)))) (2 ^ 64 - 1) }
    ensures first_keys_kept { kept_all nodes.new ≡ true }
    ensures taken_out { swept (row nodes.new) ≡ pruned from to (row nodes.old) }
    ensures nodes { counts.new.nodes + node_count (row nodes.old) ≡ counts.old.nodes + node_count (row nodes.new) }
    ensures weight { counts.new.weight + shape_weight fanout (row nodes.old) ≡ counts.old.weight + shape_weight fanout (row nodes.new) }
{
    match nodes.split_first_mut() {
        None => 0,
        Some((one, rest)) => {
            if begins_below(rest, from) {
                return prune_among(rest, from, to, fanout, counts);
            }
            let was_full = one.reaches(fanout);
            let left = one.prune(from, to, fanout, counts);
            count_full(one, fanout, was_full, counts);
            if !begins_within(rest, to) {
                return left;
            }
            let right = prune_among(rest, from, to, fanout, counts);
            left.saturating_add(right)
        }
    }
}

impl Node {
    /// Takes out the leaves whose ranks lie in the range, both ends included, and answers how many.
    #[cycle(pruning)]
    #[tactic(auto, using(crate::proofs::Pruning::pruning))]
    pub fn prune(&mut self, from: u128, to: u128, fanout: u32, counts: &mut Counts) -> u64
        requires least { 3 ≤ fanout }
        requires sound { fits fanout (below self.old) ≡ true }
        requires first_keys { kept self.old ≡ true }
        requires ordered { ordered_from 0 (contents (below self.old)) ≡ true }
        requires nodes_there { node_count (below self.old) ≤ counts.old.nodes }
        requires weight_there { shape_weight fanout (below self.old) ≤ counts.old.weight }
        ensures answer { result ≡ min (length (within_range from to (contents (below self.old)))) (2 ^ 64 - 1) }
        ensures first_keys_kept { kept self.new ≡ true }
        ensures taken_out { below self.new ≡ pruned from to (below self.old) }
        ensures nodes { counts.new.nodes + node_count (below self.old) ≡ counts.old.nodes + node_count (below self.new) }
        ensures weight { counts.new.weight + shape_weight fanout (below self.old) ≡ counts.old.weight + shape_weight fanout (below self.new) }
    {
        let here = prune_leaves(&mut self.leaves, from, to);
        let gone = prune_among(self.nodes.as_mut_slice(), from, to, fanout, counts);
        self.sweep(fanout, counts);
        here.saturating_add(gone)
    }
}

/// Takes the leaves of a range out of the nodes from the root on, which may become empty.
#[tactic(auto, using(crate::proofs::Pruning::pruning))]
fn prune_below(
    root: &mut Option<Node>,
    from: u128,
    to: u128,
    fanout: u32,
    counts: &mut Counts,
) -> u64
    requires least { 3 ≤ fanout }
    requires sound { fits fanout (shape root.old) ≡ true }
    requires first_keys { kept_root root.old ≡ true }
    requires ordered { ordered_from 0 (contents (shape root.old)) ≡ true }
    requires nodes_there { node_count (shape root.old) ≤ counts.old.nodes }
    requires weight_there { shape_weight fanout (shape root.old) ≤ counts.old.weight }
    ensures answer { result ≡ min (length (within_range from to (contents (shape root.old)))) (2 ^ 64 - 1) }
    ensures first_keys_kept { kept_root root.new ≡ true }
    ensures taken_out { tidied (shape root.new) ≡ pruned from to (shape root.old) }
    ensures nodes { counts.new.nodes + node_count (shape root.old) ≡ counts.old.nodes + node_count (shape root.new) }
    ensures weight { counts.new.weight + shape_weight fanout (shape root.old) ≡ counts.old.weight + shape_weight fanout (shape root.new) }
{
    match root {
        None => 0,
        Some(top) => {
            let was_full = top.reaches(fanout);
            let gone = top.prune(from, to, fanout, counts);
            count_full(top, fanout, was_full, counts);
            gone
        }
    }
}

/// Takes the leaves of a range out of a tree, and answers how many.
#[tactic(auto, using(crate::proofs::Pruning::pruning_rooted))]
pub fn prune_rooted(
    root: &mut Option<Node>,
    from: u128,
    to: u128,
    fanout: u32,
    counts: &mut Counts,
) -> u64
    requires least { 3 ≤ fanout }
    requires whole { is_whole (shape root.old) ≡ true }
    requires sound { fits fanout (shape root.old) ≡ true }
    requires first_keys { kept_root root.old ≡ true }
    requires ordered { ordered_from 0 (contents (shape root.old)) ≡ true }
    requires levels { is_levelled (shape root.old) ≡ true }
    requires keyed { HaveKeys (contents (shape root.old)) }
    requires nodes_there { node_count (shape root.old) ≤ counts.old.nodes }
    requires weight_there { shape_weight fanout (shape root.old) ≤ counts.old.weight }
    ensures answer { result ≡ min (length (within_range from to (contents (shape root.old)))) (2 ^ 64 - 1) }
    ensures first_keys_kept { kept_root root.new ≡ true }
    ensures taken_out { shape root.new ≡ without_range from to (shape root.old) }
    ensures still_whole { is_whole (shape root.new) ≡ true }
    ensures still_sound { fits fanout (shape root.new) ≡ true }
    ensures still_ordered { ordered_from 0 (contents (shape root.new)) ≡ true }
    ensures still_levelled { is_levelled (shape root.new) ≡ true }
    ensures still_keyed { HaveKeys (contents (shape root.new)) }
    ensures nodes { counts.new.nodes + node_count (shape root.old) ≡ counts.old.nodes + node_count (shape root.new) }
    ensures weight { counts.new.weight + shape_weight fanout (shape root.old) ≡ counts.old.weight + shape_weight fanout (shape root.new) }
{
    let gone = prune_below(root, from, to, fanout, counts);
    tidy_root(root, fanout, counts);
    gone
}
