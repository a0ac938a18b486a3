// Removal: a leaf goes out of a node, and nodes that this empties go too.

ghost use Rattle.std.specs.Prelude.{◌≡◌, ◌+◌, ◌<◌, ◌≤◌, if◌then◌else◌, true, false, is_some, IfSome, length};
ghost use Rattle.index_tree.specs.Order.{ordered_from};
ghost use Rattle.index_tree.specs.Shape.{done, node, contents, count, node_count, full, shape_weight, fits, is_whole};
ghost use Rattle.index_tree.specs.Removal.{same_leaf, holds, tidied, removed, collapsed, without_leaf};
ghost use Rattle.index_tree.specs.Sweep.{swept, leaf_index};
ghost use Rattle.index_tree.specs.Keyed.{HaveKeys};
ghost use Rattle.index_tree.specs.Levels.{is_levelled};
ghost use Rattle.index_tree.specs.Tree.{shape, below, kept, kept_all, kept_inside, kept_root, row};

use crate::counts::Counts;
use crate::leaf::Leaf;
use crate::node::{Node, begins_below, begins_within};
use crate::rank::rank;

/// Whether two leaves have the same key and the same place.
#[tactic(auto, unfolding(crate::specs::Removal::same_leaf))]
pub fn same(x: &Leaf, y: &Leaf) -> bool
    ensures { result ≡ same_leaf x.now y.now }
{
    if rank(&x.key) != rank(&y.key) {
        return false;
    }
    if x.lnum != y.lnum {
        return false;
    }
    if x.offs != y.offs {
        return false;
    }
    x.len == y.len
}

/// Where the first leaf that is the same stands among some leaves in order.
#[tactic(auto, using(crate::proofs::Removing::removal))]
pub fn place_of(leaves: &[Leaf], gone: &Leaf) -> Option<usize>
    requires ordered { ordered_from 0 leaves.now ≡ true }
    ensures answer { is_some result ≡ holds gone.now leaves.now }
    ensures place { IfSome result (λ i. i ≡ leaf_index gone.now leaves.now) }
    ensures bound { IfSome result (λ i. i < length leaves.now) }
{
    match leaves.split_first() {
        None => None,
        Some((x, rest)) => {
            if same(x, gone) {
                return Some(0);
            }
            if rank(&gone.key) < rank(&x.key) {
                return None;
            }
            match place_of(rest, gone) {
                None => None,
                Some(i) => Some(i + 1),
            }
        }
    }
}

/// Counts a node that may be full no longer.
#[tactic(auto, using(crate::proofs::Removing::removing))]
pub fn count_full(one: &Node, fanout: u32, was_full: bool, counts: &mut Counts)
    requires no_fuller { full fanout (below one.now) ≤ (if was_full then 1 else 0) }
    requires weight_there { (if was_full then 1 else 0) ≤ counts.old.weight }
    ensures nodes { counts.new.nodes ≡ counts.old.nodes }
    ensures weight { counts.new.weight + (if was_full then 1 else 0) ≡ counts.old.weight + full fanout (below one.now) }
{
    if !was_full {
        return;
    }
    if !one.reaches(fanout) {
        counts.weight -= 1;
    }
}

/// Takes the first leaf that is the same out of the leaves below some nodes; false where there is none.
#[cycle(removing)]
#[tactic(auto, using(crate::proofs::Removing::removal))]
fn remove_among(nodes: &mut [Node], gone: &Leaf, fanout: u32, counts: &mut Counts) -> bool
    requires least { 3 ≤ fanout }
    requires sound { fits fanout (row nodes.old) ≡ true }
    requires first_keys { kept_all nodes.old ≡ true }
    requires ordered { ordered_from 0 (contents (row nodes.old)) ≡ true }
    requires nodes_there { node_count (row nodes.old) ≤ counts.old.nodes }
    requires weight_there { shape_weight fanout (row nodes.old) ≤ counts.old.weight }
    ensures answer { result ≡ holds gone.now (contents (row nodes.old)) }
    ensures first_keys_kept { kept_all nodes.new ≡ true }
    ensures taken_out { swept (row nodes.new) ≡ removed gone.now (row nodes.old) }
    ensures unchanged { result ≡ false → row nodes.new ≡ row nodes.old }
    ensures nodes { counts.new.nodes + node_count (row nodes.old) ≡ counts.old.nodes + node_count (row nodes.new) }
    ensures weight { counts.new.weight + shape_weight fanout (row nodes.old) ≡ counts.old.weight + shape_weight fanout (row nodes.new) }
{
    match nodes.split_first_mut() {
        None => false,
        Some((one, rest)) => {
            if begins_below(rest, rank(&gone.key)) {
                return remove_among(rest, gone, fanout, counts);
            }
            let was_full = one.reaches(fanout);
            if one.remove(gone, fanout, counts) {
                count_full(one, fanout, was_full, counts);
                return true;
            }
            if begins_within(rest, rank(&gone.key)) {
                return remove_among(rest, gone, fanout, counts);
            }
            false
        }
    }
}

impl Node {
    /// Drops the empty nodes among the children.
    pub fn sweep(&mut self, fanout: u32, counts: &mut Counts)
        requires least { 3 ≤ fanout }
        requires first_keys { kept_inside self.old ≡ true }
        requires nodes_there { node_count (below self.old) ≤ counts.old.nodes }
        requires weight_there { shape_weight fanout (below self.old) ≤ counts.old.weight }
        ensures first_keys_kept { kept self.new ≡ true }
        ensures swept { below self.new ≡ swept (below self.old) }
        ensures nodes { counts.new.nodes + node_count (below self.old) ≡ counts.old.nodes + node_count (below self.new) }
        ensures weight { counts.new.weight + shape_weight fanout (below self.old) ≡ counts.old.weight + shape_weight fanout (below self.new) }
    {
        let before = self.nodes.len();
        self.nodes.retain(|one| !one.is_empty());
        let gone = (before - self.nodes.len()) as u64;
        counts.nodes -= gone;
        counts.weight -= gone;
        self.keep_first();
    }

    /// Takes the first leaf that is the same out of the node; false where there is none.
    #[cycle(removing)]
    #[tactic(auto, using(crate::proofs::Removing::removal))]
    pub fn remove(&mut self, gone: &Leaf, fanout: u32, counts: &mut Counts) -> bool
        requires least { 3 ≤ fanout }
        requires sound { fits fanout (below self.old) ≡ true }
        requires first_keys { kept self.old ≡ true }
        requires ordered { ordered_from 0 (contents (below self.old)) ≡ true }
        requires nodes_there { node_count (below self.old) ≤ counts.old.nodes }
        requires weight_there { shape_weight fanout (below self.old) ≤ counts.old.weight }
        ensures answer { result ≡ holds gone.now (contents (below self.old)) }
        ensures first_keys_kept { kept self.new ≡ true }
        ensures taken_out { below self.new ≡ removed gone.now (below self.old) }
        ensures nodes { counts.new.nodes + node_count (below self.old) ≡ counts.old.nodes + node_count (below self.new) }
        ensures weight { counts.new.weight + shape_weight fanout (below self.old) ≡ counts.old.weight + shape_weight fanout (below self.new) }
    {
        match place_of(self.leaves.as_slice(), gone) {
            Some(i) => {
                let _ = self.leaves.remove(i);
                self.keep_first();
                true
            }
            None => {
                if remove_among(self.nodes.as_mut_slice(), gone, fanout, counts) {
                    self.sweep(fanout, counts);
                    return true;
                }
                false
            }
        }
    }

    /// Lets a node above the lowest level with one child give way to the child, and so on.
    #[tactic(auto, using(crate::proofs::Removing::collapsing))]
    pub fn collapse(&mut self, fanout: u32, counts: &mut Counts)
        requires least { 3 ≤ fanout }
        requires first_keys { kept self.old ≡ true }
        requires nodes_there { node_count (below self.old) < counts.old.nodes }
        requires weight_there { shape_weight fanout (below self.old) < counts.old.weight }
        ensures first_keys_kept { kept self.new ≡ true }
        ensures collapse { node (below self.new) done ≡ collapsed (node (below self.old) done) }
        ensures nodes { counts.new.nodes + node_count (node (below self.old) done) ≡ counts.old.nodes + node_count (node (below self.new) done) }
        ensures weight { counts.new.weight + shape_weight fanout (node (below self.old) done) ≡ counts.old.weight + shape_weight fanout (node (below self.new) done) }
    {
        if !self.leaves.is_empty() {
            return;
        }
        if self.nodes.len() != 1 {
            return;
        }
        if let Some(mut child) = self.nodes.pop() {
            counts.nodes -= 1;
            counts.weight -= 1;
            child.collapse(fanout, counts);
            *self = child;
        }
    }
}

/// Takes a leaf out of the nodes from the root on, which may become empty; false where it isn't there.
#[tactic(auto, using(crate::proofs::Removing::removing_rooted))]
fn remove_below(root: &mut Option<Node>, gone: &Leaf, fanout: u32, counts: &mut Counts) -> bool
    requires least { 3 ≤ fanout }
    requires sound { fits fanout (shape root.old) ≡ true }
    requires first_keys { kept_root root.old ≡ true }
    requires ordered { ordered_from 0 (contents (shape root.old)) ≡ true }
    requires nodes_there { node_count (shape root.old) ≤ counts.old.nodes }
    requires weight_there { shape_weight fanout (shape root.old) ≤ counts.old.weight }
    ensures answer { result ≡ holds gone.now (contents (shape root.old)) }
    ensures first_keys_kept { kept_root root.new ≡ true }
    ensures taken_out { result ≡ true → tidied (shape root.new) ≡ removed gone.now (shape root.old) }
    ensures unchanged { result ≡ false → shape root.new ≡ shape root.old }
    ensures nodes { counts.new.nodes + node_count (shape root.old) ≡ counts.old.nodes + node_count (shape root.new) }
    ensures weight { counts.new.weight + shape_weight fanout (shape root.old) ≡ counts.old.weight + shape_weight fanout (shape root.new) }
{
    match root {
        None => false,
        Some(top) => {
            let was_full = top.reaches(fanout);
            if top.remove(gone, fanout, counts) {
                count_full(top, fanout, was_full, counts);
                return true;
            }
            false
        }
    }
}

/// Drops a root that is empty, and collapses another.
#[tactic(auto, using(crate::proofs::Removing::collapsing))]
pub fn tidy_root(root: &mut Option<Node>, fanout: u32, counts: &mut Counts)
    requires least { 3 ≤ fanout }
    requires first_keys { kept_root root.old ≡ true }
    requires nodes_there { node_count (shape root.old) ≤ counts.old.nodes }
    requires weight_there { shape_weight fanout (shape root.old) ≤ counts.old.weight }
    ensures first_keys_kept { kept_root root.new ≡ true }
    ensures tidy { shape root.new ≡ collapsed (tidied (shape root.old)) }
    ensures nodes { counts.new.nodes + node_count (shape root.old) ≡ counts.old.nodes + node_count (shape root.new) }
    ensures weight { counts.new.weight + shape_weight fanout (shape root.old) ≡ counts.old.weight + shape_weight fanout (shape root.new) }
{
    match root {
        None => {}
        Some(top) => {
            if top.is_empty() {
                counts.nodes -= 1;
                counts.weight -= 1;
                *root = None;
            } else {
                top.collapse(fanout, counts);
            }
        }
    }
}

/// Takes a leaf out of a tree; false where it isn't there.
#[tactic(auto, using(crate::proofs::Removing::removing_rooted))]
pub fn remove_rooted(root: &mut Option<Node>, gone: &Leaf, fanout: u32, counts: &mut Counts) -> bool
    requires least { 3 ≤ fanout }
    requires whole { is_whole (shape root.old) ≡ true }
    requires sound { fits fanout (shape root.old) ≡ true }
    requires first_keys { kept_root root.old ≡ true }
    requires ordered { ordered_from 0 (contents (shape root.old)) ≡ true }
    requires levels { is_levelled (shape root.old) ≡ true }
    requires keyed { HaveKeys (contents (shape root.old)) }
    requires nodes_there { node_count (shape root.old) ≤ counts.old.nodes }
    requires weight_there { shape_weight fanout (shape root.old) ≤ counts.old.weight }
    ensures answer { result ≡ holds gone.now (contents (shape root.old)) }
    ensures first_keys_kept { kept_root root.new ≡ true }
    ensures gone_now { shape root.new ≡ (if result then without_leaf gone.now (shape root.old) else shape root.old) }
    ensures still_whole { is_whole (shape root.new) ≡ true }
    ensures still_sound { fits fanout (shape root.new) ≡ true }
    ensures still_ordered { ordered_from 0 (contents (shape root.new)) ≡ true }
    ensures still_levelled { is_levelled (shape root.new) ≡ true }
    ensures still_keyed { HaveKeys (contents (shape root.new)) }
    ensures nodes { counts.new.nodes + node_count (shape root.old) ≡ counts.old.nodes + node_count (shape root.new) }
    ensures weight { counts.new.weight + shape_weight fanout (shape root.old) ≡ counts.old.weight + shape_weight fanout (shape root.new) }
{
    if !remove_below(root, gone, fanout, counts) {
        return false;
    }
    tidy_root(root, fanout, counts);
    true
}
