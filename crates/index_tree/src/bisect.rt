// Bisection of a long row of children: a walk begins at the last few among which what it looks for can stand.

ghost use Rattle.std.specs.Prelude.{◌≡◌, ◌-◌, ◌<◌, ◌≤◌, true, length, drop};
ghost use Rattle.index_tree.specs.Order.{starts_within};
ghost use Rattle.index_tree.specs.Shape.{filled, begins_within};
ghost use Rattle.index_tree.specs.Tree.{kept_all, row};

use crate::leaf::Leaf;
use crate::node::Node;
use crate::rank::rank;

// So many children are looked at one by one: a bisection of them isn't faster.
const FEW: usize = 8;

/// How many of many leaves a walk to this rank passes over: the one behind them has that rank or a lower one.
fn bisect_leaves(leaves: &[Leaf], at: u128) -> usize
    ensures bound { result ≤ length leaves.now }
    ensures starts { 0 < result → starts_within at (drop result leaves.now) ≡ true }
{
    let mut low = 0;
    let mut high = leaves.len();
    while high - low > FEW {
        let middle = low + (high - low) / 2;
        if rank(&leaves[middle].key) <= at {
            low = middle;
        } else {
            high = middle;
        }
    }
    low
}

/// How many of many nodes a walk to this rank passes over: the one behind them begins with that rank or a lower one.
fn bisect_nodes(nodes: &[Node], at: u128) -> usize
    requires first_keys { kept_all nodes.now ≡ true }
    requires sound { filled (row nodes.now) ≡ true }
    ensures bound { result ≤ length nodes.now }
    ensures begins { 0 < result → begins_within at (row (drop result nodes.now)) ≡ true }
{
    let mut low = 0;
    let mut high = nodes.len();
    while high - low > FEW {
        let middle = low + (high - low) / 2;
        if rank(&nodes[middle].first) <= at {
            low = middle;
        } else {
            high = middle;
        }
    }
    low
}

/// The same of any number of leaves.
pub fn leaves_passed(leaves: &[Leaf], at: u128) -> usize
    ensures bound { result ≤ length leaves.now }
    ensures starts { 0 < result → starts_within at (drop result leaves.now) ≡ true }
{
    if leaves.len() <= FEW {
        return 0;
    }
    bisect_leaves(leaves, at)
}

/// The same of any number of nodes.
pub fn nodes_passed(nodes: &[Node], at: u128) -> usize
    requires first_keys { kept_all nodes.now ≡ true }
    requires sound { filled (row nodes.now) ≡ true }
    ensures bound { result ≤ length nodes.now }
    ensures begins { 0 < result → begins_within at (row (drop result nodes.now)) ≡ true }
{
    if nodes.len() <= FEW {
        return 0;
    }
    bisect_nodes(nodes, at)
}

/// How many leaves of a lower rank a walk to this one passes over; of few leaves all that it can.
pub fn lower_leaves_passed(leaves: &[Leaf], at: u128) -> usize
    ensures bound { result ≤ length leaves.now }
    ensures positive { 0 < result → 0 < at }
    ensures starts { 0 < result → starts_within (at - 1) (drop result leaves.now) ≡ true }
{
    if leaves.len() > FEW {
        return bisect_lower_leaves(leaves, at);
    }
    let mut i = 0;
    while i + 1 < leaves.len() && rank(&leaves[i + 1].key) < at {
        i += 1;
    }
    i
}

/// The same of many leaves.
#[inline(never)]
fn bisect_lower_leaves(leaves: &[Leaf], at: u128) -> usize
    ensures bound { result ≤ length leaves.now }
    ensures positive { 0 < result → 0 < at }
    ensures starts { 0 < result → starts_within (at - 1) (drop result leaves.now) ≡ true }
{
    if at == 0 {
        return 0;
    }
    bisect_leaves(leaves, at - 1)
}

/// How many nodes that begin with a lower rank a walk to this one passes over; of few nodes all that it can.
pub fn lower_nodes_passed(nodes: &[Node], at: u128) -> usize
    requires first_keys { kept_all nodes.now ≡ true }
    requires sound { filled (row nodes.now) ≡ true }
    ensures bound { result ≤ length nodes.now }
    ensures positive { 0 < result → 0 < at }
    ensures begins { 0 < result → begins_within (at - 1) (row (drop result nodes.now)) ≡ true }
{
    if nodes.len() > FEW {
        return bisect_lower_nodes(nodes, at);
    }
    let mut i = 0;
    while i + 1 < nodes.len() && rank(&nodes[i + 1].first) < at {
        i += 1;
    }
    i
}

/// The same of many nodes.
#[inline(never)]
fn bisect_lower_nodes(nodes: &[Node], at: u128) -> usize
    requires first_keys { kept_all nodes.now ≡ true }
    requires sound { filled (row nodes.now) ≡ true }
    ensures bound { result ≤ length nodes.now }
    ensures positive { 0 < result → 0 < at }
    ensures begins { 0 < result → begins_within (at - 1) (row (drop result nodes.now)) ≡ true }
{
    if at == 0 {
        return 0;
    }
    bisect_nodes(nodes, at - 1)
}
