// Bisection of a node's links: a walk begins at the last few among which what it looks for can stand.

ghost use Rattle.std.specs.Prelude.{◌≡◌, ◌-◌, ◌<◌, ◌≤◌, true, length, drop};
ghost use Rattle.index_tree.specs.Order.{key_rank};
ghost use Rattle.table_nodes.specs.NodeView.{link_key, links_begin};

use crate::link::Link;
use node_cache::rank;

// So many links are walked from their start: a bisection of them isn't faster.
const FEW: usize = 8;

/// The rank of a link's key.
fn link_rank(link: &Link) -> u128
    ensures { result ≡ key_rank (link_key link.now) }
{
    match link {
        Link::ToLeaf(leaf) => rank(&leaf.key),
        Link::ToNode { key, .. } => rank(key),
    }
}

/// Whether there is a first link, of this rank or a lower one.
pub fn begin_within(links: &[Link], at: u128) -> bool
    ensures { result ≡ links_begin at links.now }
{
    match links.split_first() {
        None => false,
        Some((link, _)) => link_rank(link) <= at,
    }
}

/// Whether there is a first link of a lower rank.
pub fn begin_below(links: &[Link], at: u128) -> bool
    ensures positive { result ≡ true → 0 < at }
    ensures begins { result ≡ true → links_begin (at - 1) links.now ≡ true }
{
    if at == 0 {
        return false;
    }
    begin_within(links, at - 1)
}

/// How many links a walk to this rank passes over: the one behind them has that rank or a lower one.
pub fn links_passed(links: &[Link], at: u128) -> usize
    ensures bound { result ≤ length links.now }
    ensures begins { 0 < result → links_begin at (drop result links.now) ≡ true }
{
    let mut low = 0;
    let mut high = links.len();
    while high - low > FEW {
        let middle = low + (high - low) / 2;
        if link_rank(&links[middle]) <= at {
            low = middle;
        } else {
            high = middle;
        }
    }
    low
}

/// How many links of a lower rank a walk to this one passes over.
pub fn lower_links_passed(links: &[Link], at: u128) -> usize
    ensures bound { result ≤ length links.now }
    ensures positive { 0 < result → 0 < at }
    ensures begins { 0 < result → links_begin (at - 1) (drop result links.now) ≡ true }
{
    if at == 0 {
        return 0;
    }
    links_passed(links, at - 1)
}
