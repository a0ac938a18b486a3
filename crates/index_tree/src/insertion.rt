// Insertion: a leaf goes into a node, and nodes that overflow split.

ghost use Rattle.std.specs.Prelude.{◌≡◌, ℕ, ◌+◌, ◌<◌, ◌≤◌, ◌^◌, if◌then◌else◌, true, ◌⊎◌, List, [], ◌∷◌, IfOk, IfSome, OnOk, OnErr, is_some, length, take, drop, vec_len, vec_capacity};
ghost use Rattle.std.specs.Option.{option_to_list};
ghost use Rattle.index_tree.specs.Keyed.{HasKey, HaveKeys};
ghost use Rattle.index_tree.specs.Levels.{is_levelled};
ghost use Rattle.index_tree.specs.Order.{leaf_rank, ordered_from};
ghost use Rattle.index_tree.specs.Shape.{leaf as before, done, node, contents, is_whole, rooted, with_leaf, count, node_count, full, shape_weight, fits, filled, front, back, left_half, parted, inserted};
ghost use Rattle.index_tree.specs.Places.{splits};
ghost use Rattle.index_tree.specs.Places.{leaf_place, node_place, IsSpare};
ghost use Rattle.index_tree.specs.Tree.{shape, below, kept, kept_all, kept_root, kept_inside, leaves_before, row};
ghost use Rattle.index_tree.specs.declared.node.Node.TheViews.{out-Node};

use crate::bisect::{leaves_passed, nodes_passed};
use crate::counts::Counts;
use crate::leaf::Leaf;
use crate::node::Node;
use crate::rank::rank;
use std::alloc::Global;
use std::mem;
use ubifs_base::Memory;

/// How many of some leaves stand before the first one that has a greater rank.
fn leaf_place(leaves: &[Leaf], at: u128) -> usize
    requires ordered { ordered_from 0 leaves.now ≡ true }
    ensures place { result ≡ leaf_place at leaves.now }
    ensures bound { result ≤ length leaves.now }
{
    let mut i = leaves_passed(leaves, at);
    while i < leaves.len() && rank(&leaves[i].key) <= at {
        i += 1;
    }
    i
}

/// How many of some nodes stand before the one that a leaf of this rank goes into: the last whose first leaf isn't
/// greater, or the first node.
fn node_place(nodes: &[Node], at: u128) -> usize
    requires some { 0 < length nodes.now }
    requires first_keys { kept_all nodes.now ≡ true }
    requires sound { filled (row nodes.now) ≡ true }
    requires ordered { ordered_from 0 (contents (row nodes.now)) ≡ true }
    ensures place { result ≡ node_place at (row nodes.now) }
    ensures bound { result < length nodes.now }
{
    let mut i = nodes_passed(nodes, at);
    while i + 1 < nodes.len() && rank(&nodes[i + 1].first) <= at {
        i += 1;
    }
    i
}

/// Moves the elements behind the first `at` into an empty list with room for them.
fn move_tail<T>(from: &mut Vec<T>, at: usize, to: &mut Vec<T>)
    requires empty { to.old.items ≡ [] }
    requires room { vec_len from.old ≤ at + vec_capacity to.old }
    ensures left { from.new.items ≡ take at from.old.items }
    ensures moved { to.new.items ≡ drop at from.old.items }
{
    while at < from.len() {
        to.push_reserved(from.take_last());
    }
    to.reverse();
}

/// Moves the children behind the left half into the empty node.
#[tactic(auto, using(crate::proofs::PlaceLaws::halving))]
fn split(one: &mut Node, fanout: u32, spare: Node) -> Node
    requires least { 3 ≤ fanout }
    requires most { fanout ≤ 256 }
    requires first_keys { kept_inside one.old ≡ true }
    requires room { IsSpare (vec_len (out-Node one.old).leaves) (vec_len (out-Node one.old).nodes) spare }
    ensures left { below one.new ≡ front (left_half fanout) (below one.old) }
    ensures right { below result ≡ back (left_half fanout) (below one.old) }
    ensures left_kept { kept one.new ≡ true }
    ensures right_kept { kept result ≡ true }
{
    let mut right = spare;
    let half = fanout as usize / 2 + 1;
    let left = half.saturating_sub(one.leaves.len());
    move_tail(&mut one.leaves, half, &mut right.leaves);
    move_tail(&mut one.nodes, left, &mut right.nodes);
    one.keep_first();
    right.keep_first();
    right
}

impl Node {
    /// An empty node with room for as many children as this one has room for, where it is wanted.
    fn spare(&self, alloc: Global, wanted: bool) -> Result<Option<Node>, Memory>
        ensures there { IfOk result (λ s. is_some s ≡ wanted) }
        ensures room { IfOk result (λ s. IfSome s (λ one. IsSpare (vec_capacity (out-Node self.now).leaves) (vec_capacity (out-Node self.now).nodes) one)) }
    {
        if !wanted {
            return Ok(None);
        }
        let mut made = Node::new(alloc);
        made.leaves.try_reserve(self.leaves.capacity())?;
        made.nodes.try_reserve(self.nodes.capacity())?;
        Ok(Some(made))
    }

    /// Splits a node that has one child too many; `spare` is there exactly where the node was full.
    #[tactic(auto, using(crate::proofs::PlaceLaws::halving), unfolding(crate::specs::Shape::parted))]
    fn settle(&mut self, fanout: u32, spare: Option<Node>, counts: &mut Counts) -> Option<Node>
        requires least { 3 ≤ fanout }
        requires most { fanout ≤ 256 }
        requires children_most { count (below self.old) ≤ fanout + 1 }
        requires first_keys { kept_inside self.old ≡ true }
        requires spare_there { fanout + 1 ≤ count (below self.old) → is_some spare ≡ true }
        requires room { IfSome spare (λ one. IsSpare (vec_len (out-Node self.old).leaves) (vec_len (out-Node self.old).nodes) one) }
        requires nodes_fit { counts.old.nodes < 2 ^ 63 }
        requires weight_fits { counts.old.weight ≤ 2 ^ 63 }
        ensures arranged { row (self.new ∷ option_to_list result) ≡ parted fanout (below self.old) done }
        ensures keep { kept_all (self.new ∷ option_to_list result) ≡ true }
        ensures nodes { counts.new.nodes ≡ counts.old.nodes + splits fanout (below self.old) }
        ensures weight { counts.new.weight ≡ counts.old.weight + (if is_some spare then 0 else full fanout (below self.old)) }
    {
        match spare {
            Some(right) => {
                if self.reaches(fanout + 1) {
                    counts.nodes += 1;
                    return Some(split(self, fanout, right));
                }
            }
            None => {
                if self.reaches(fanout) {
                    counts.weight += 1;
                }
            }
        }
        self.keep_first();
        None
    }

    /// Puts a leaf at its place among the node's own.
    #[tactic(auto, using(crate::proofs::Inserting::inserting_leaf))]
    fn insert_leaf(
        &mut self,
        alloc: Global,
        fanout: u32,
        leaf: Leaf,
        place: usize,
        counts: &mut Counts,
    ) -> Result<Option<Node>, Memory>
        requires least { 3 ≤ fanout }
        requires most { fanout ≤ 256 }
        requires sound { fits fanout (below self.old) ≡ true }
        requires few { count (below self.old) ≤ fanout }
        requires first_keys { kept self.old ≡ true }
        requires place { place ≡ leaf_place (leaf_rank leaf) (out-Node self.old).leaves.items }
        requires bound { place ≤ length (out-Node self.old).leaves.items }
        requires free { (place < length (out-Node self.old).leaves.items) ⊎ (row (out-Node self.old).nodes.items ≡ done) }
        requires nodes_fit { counts.old.nodes < 2 ^ 63 }
        requires weight_fits { counts.old.weight < 2 ^ 63 }
        ensures ok { IfOk result (λ s. row (self.new ∷ option_to_list s) ≡ parted fanout (inserted fanout leaf (below self.old)) done) }
        ensures keep { IfOk result (λ s. kept_all (self.new ∷ option_to_list s) ≡ true) }
        ensures err { OnErr result (below self.new ≡ below self.old) }
        ensures err_kept { OnErr result (kept self.new ≡ true) }
        ensures err_counts { OnErr result (counts.new ≡ counts.old) }
        ensures nodes { IfOk result (λ s. counts.new.nodes + node_count (node (below self.old) done) ≡ counts.old.nodes + node_count (row (self.new ∷ option_to_list s))) }
        ensures weight { IfOk result (λ s. counts.new.weight + shape_weight fanout (node (below self.old) done) ≡ counts.old.weight + shape_weight fanout (row (self.new ∷ option_to_list s))) }
    {
        let was_full = self.reaches(fanout);
        self.leaves.try_reserve(1)?;
        let spare = self.spare(alloc, was_full)?;
        self.leaves.insert(place, leaf)?;
        let half = self.settle(fanout, spare, counts);
        Ok(half)
    }

    /// Puts a leaf behind all leaves whose key isn't greater, and counts what that changes; answers the right half of
    /// the node where it splits.
    #[cycle(inserting)]
    #[tactic(auto, using(crate::proofs::Inserting::inserting_leaf))]
    pub fn insert(
        &mut self,
        alloc: Global,
        fanout: u32,
        leaf: Leaf,
        counts: &mut Counts,
    ) -> Result<Option<Node>, Memory>
        requires least { 3 ≤ fanout }
        requires most { fanout ≤ 256 }
        requires sound { fits fanout (below self.old) ≡ true }
        requires few { count (below self.old) ≤ fanout }
        requires first_keys { kept self.old ≡ true }
        requires ordered { ordered_from 0 (contents (below self.old)) ≡ true }
        requires nodes_fit { counts.old.nodes + node_count (below self.old) < 2 ^ 63 }
        requires weight_fits { counts.old.weight < 2 ^ 63 }
        ensures ok { IfOk result (λ s. row (self.new ∷ option_to_list s) ≡ parted fanout (inserted fanout leaf (below self.old)) done) }
        ensures keep { IfOk result (λ s. kept_all (self.new ∷ option_to_list s) ≡ true) }
        ensures err { OnErr result (below self.new ≡ below self.old) }
        ensures err_kept { OnErr result (kept self.new ≡ true) }
        ensures err_counts { OnErr result (counts.new ≡ counts.old) }
        ensures nodes { IfOk result (λ s. counts.new.nodes + node_count (node (below self.old) done) ≡ counts.old.nodes + node_count (row (self.new ∷ option_to_list s))) }
        ensures weight { IfOk result (λ s. counts.new.weight + shape_weight fanout (node (below self.old) done) ≡ counts.old.weight + shape_weight fanout (row (self.new ∷ option_to_list s))) }
    {
        let at = rank(&leaf.key);
        let place = leaf_place(self.leaves.as_slice(), at);
        if place < self.leaves.len() {
            return self.insert_leaf(alloc, fanout, leaf, place, counts);
        }
        if self.nodes.is_empty() {
            return self.insert_leaf(alloc, fanout, leaf, place, counts);
        }
        let was_full = self.reaches(fanout);
        self.nodes.try_reserve(1)?;
        let spare = self.spare(alloc, was_full)?;
        insert_among(&mut self.nodes, alloc, fanout, leaf, counts)?;
        let right = self.settle(fanout, spare, counts);
        Ok(right)
    }
}

/// Puts a leaf into one of some nodes, which have room for one more.
#[cycle(inserting)]
#[tactic(auto, using(crate::proofs::Inserting::inserting_leaf))]
fn insert_among(
    nodes: &mut Vec<Node>,
    alloc: Global,
    fanout: u32,
    leaf: Leaf,
    counts: &mut Counts,
) -> Result<(), Memory>
    requires least { 3 ≤ fanout }
    requires most { fanout ≤ 256 }
    requires some { 0 < vec_len nodes.old }
    requires room { vec_len nodes.old < vec_capacity nodes.old }
    requires sound { fits fanout (row nodes.old.items) ≡ true }
    requires first_keys { kept_all nodes.old.items ≡ true }
    requires ordered { ordered_from 0 (contents (row nodes.old.items)) ≡ true }
    requires nodes_fit { counts.old.nodes + node_count (row nodes.old.items) < 2 ^ 63 }
    requires weight_fits { counts.old.weight < 2 ^ 63 }
    ensures ok { OnOk result (row nodes.new.items ≡ inserted fanout leaf (row nodes.old.items)) }
    ensures keep { kept_all nodes.new.items ≡ true }
    ensures err { OnErr result (row nodes.new.items ≡ row nodes.old.items) }
    ensures err_counts { OnErr result (counts.new ≡ counts.old) }
    ensures nodes { OnOk result (counts.new.nodes + node_count (row nodes.old.items) ≡ counts.old.nodes + node_count (row nodes.new.items)) }
    ensures weight { OnOk result (counts.new.weight + shape_weight fanout (row nodes.old.items) ≡ counts.old.weight + shape_weight fanout (row nodes.new.items)) }
{
    let way = node_place(nodes.as_slice(), rank(&leaf.key));
    match nodes[way].insert(alloc, fanout, leaf, counts)? {
        None => Ok(()),
        Some(half) => {
            nodes.insert(way + 1, half)?;
            Ok(())
        }
    }
}

/// A node with one leaf.
fn leaf_node(alloc: Global, leaf: Leaf) -> Result<Node, Memory>
    ensures children { IfOk result (λ one. below one ≡ before leaf done) }
    ensures first_keys { IfOk result (λ one. kept one ≡ true) }
{
    let mut leaves = Vec::new(alloc);
    leaves.push(leaf)?;
    Ok(Node {
        first: leaf.key,
        leaves,
        nodes: Vec::new(alloc),
    })
}

/// No nodes yet, but room for two, where it is wanted.
fn pair(alloc: Global, wanted: bool) -> Result<Vec<Node>, Memory>
    ensures empty { IfOk result (λ made. made.items ≡ []) }
    ensures room { IfOk result (λ made. wanted ≡ true → 2 ≤ vec_capacity made) }
{
    if wanted {
        return Ok(Vec::with_capacity(alloc, 2)?);
    }
    Ok(Vec::new(alloc))
}

/// Puts two nodes below a new one, which takes the place of the first.
fn raise(top: &mut Node, alloc: Global, right: Node, spare: Vec<Node>)
    requires empty { spare.items ≡ [] }
    requires room { 2 ≤ vec_capacity spare }
    requires first_keys { kept top.old ≡ true }
    requires right_first_keys { kept right ≡ true }
    ensures raised { below top.new ≡ row (top.old ∷ right ∷ []) }
    ensures first_keys_kept { kept top.new ≡ true }
{
    let first = top.first;
    let left = mem::replace(top, Node::new(alloc));
    let mut nodes = spare;
    nodes.push_reserved(left);
    nodes.push_reserved(right);
    *top = Node {
        first,
        leaves: Vec::new(alloc),
        nodes,
    };
}

/// Puts a leaf into a tree, and counts what that changes.
#[tactic(auto, using(crate::proofs::Inserting::inserting_leaf))]
fn insert_below(
    root: &mut Option<Node>,
    alloc: Global,
    fanout: u32,
    leaf: Leaf,
    counts: &mut Counts,
) -> Result<(), Memory>
    requires least { 3 ≤ fanout }
    requires most { fanout ≤ 256 }
    requires sound { fits fanout (shape root.old) ≡ true }
    requires first_keys { kept_root root.old ≡ true }
    requires ordered { ordered_from 0 (contents (shape root.old)) ≡ true }
    requires nodes_fit { counts.old.nodes + node_count (shape root.old) < 2 ^ 63 }
    requires weight_fits { counts.old.weight < 2 ^ 63 }
    ensures ok { OnOk result (shape root.new ≡ rooted (inserted fanout leaf (shape root.old))) }
    ensures err { OnErr result (shape root.new ≡ shape root.old) }
    ensures err_counts { OnErr result (counts.new ≡ counts.old) }
    ensures first_keys_kept { kept_root root.new ≡ true }
    ensures nodes { OnOk result (counts.new.nodes + node_count (shape root.old) ≡ counts.old.nodes + node_count (shape root.new)) }
    ensures weight { OnOk result (counts.new.weight + shape_weight fanout (shape root.old) ≡ counts.old.weight + shape_weight fanout (shape root.new)) }
{
    match root {
        None => {
            let made = leaf_node(alloc, leaf)?;
            *root = Some(made);
            counts.nodes += 1;
            counts.weight += 1;
            Ok(())
        }
        Some(top) => {
            let spare = pair(alloc, top.reaches(fanout))?;
            match top.insert(alloc, fanout, leaf, counts)? {
                None => Ok(()),
                Some(right) => {
                    raise(top, alloc, right, spare);
                    counts.nodes += 1;
                    counts.weight += 1;
                    Ok(())
                }
            }
        }
    }
}

/// Puts a leaf into a tree, which gets a new root where the old one splits.
#[tactic(auto, using(crate::proofs::Rooting::rooting))]
pub fn insert_rooted(
    root: &mut Option<Node>,
    alloc: Global,
    fanout: u32,
    leaf: Leaf,
    counts: &mut Counts,
) -> Result<(), Memory>
    requires least { 3 ≤ fanout }
    requires most { fanout ≤ 256 }
    requires whole { is_whole (shape root.old) ≡ true }
    requires sound { fits fanout (shape root.old) ≡ true }
    requires first_keys { kept_root root.old ≡ true }
    requires ordered { ordered_from 0 (contents (shape root.old)) ≡ true }
    requires levels { is_levelled (shape root.old) ≡ true }
    requires keyed { HaveKeys (contents (shape root.old)) }
    requires key { HasKey leaf }
    requires nodes_fit { counts.old.nodes + node_count (shape root.old) < 2 ^ 63 }
    requires weight_fits { counts.old.weight < 2 ^ 63 }
    ensures still_whole { is_whole (shape root.new) ≡ true }
    ensures first_keys_kept { kept_root root.new ≡ true }
    ensures still_sound { fits fanout (shape root.new) ≡ true }
    ensures still_ordered { ordered_from 0 (contents (shape root.new)) ≡ true }
    ensures still_levelled { is_levelled (shape root.new) ≡ true }
    ensures still_keyed { HaveKeys (contents (shape root.new)) }
    ensures ok { OnOk result (shape root.new ≡ with_leaf fanout leaf (shape root.old)) }
    ensures err { OnErr result (shape root.new ≡ shape root.old) }
    ensures nodes { counts.new.nodes + node_count (shape root.old) ≡ counts.old.nodes + node_count (shape root.new) }
    ensures weight { counts.new.weight + shape_weight fanout (shape root.old) ≡ counts.old.weight + shape_weight fanout (shape root.new) }
{
    insert_below(root, alloc, fanout, leaf, counts)?;
    Ok(())
}
