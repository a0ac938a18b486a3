// A node of the table as an index node of the medium.

ghost use Rattle.std.specs.Prelude.{◌≡◌, ◌≤◌, ◌+◌, ◌++◌, length, map, slice_get, vec_len, vec_capacity};
ghost use Rattle.index_media.specs.Clean.{node_branch, placed_of};
ghost use Rattle.index_media.specs.PlacedRow.{branches_of};
ghost use Rattle.media_sys.specs.Index.{in_order, is_entry as is_entry_key, may_follow as may_follow_key};
ghost use Rattle.table_nodes.specs.NodeView.{node_views, row_of};
ghost use Rattle.node_table.specs.Pruning.{stretch_in};
ghost use Rattle.ubifs_base.specs.Key.{key_words};
ghost use Rattle.index_cache.specs.Commit.{link_branch};

use media_sys::{Branch, IdxNode};
use node_table::NodeTable;
use table_nodes::{Link, TableNode};
use ubifs_base::Key;

// The bits of a key's value, below its type.
const VALUE_BITS: u32 = 29;

fn is_entry(key: Key) -> bool
    ensures { result ≡ is_entry_key key }
{
    match key {
        Key::Ino { .. } | Key::Block { .. } => false,
        Key::Dent { .. } | Key::Xent { .. } => true,
    }
}

/// The two words of a key.
fn words(key: Key) -> (u64, u64)
    ensures { result ≡ key_words key }
{
    match key {
        Key::Ino { ino } => (ino as u64, 0),
        Key::Block { ino, block } => (ino as u64, (1 << VALUE_BITS) + block as u64),
        Key::Dent { dir, hash } => (dir as u64, (2 << VALUE_BITS) + hash as u64),
        Key::Xent { ino, hash } => (ino as u64, (3 << VALUE_BITS) + hash as u64),
    }
}

/// Whether a key may stand behind the one before it in a node of the medium.
fn may_follow(before: Option<Key>, key: Key) -> bool
    ensures { result ≡ may_follow_key before key }
{
    let Some(before) = before else {
        return true;
    };
    let (before_first, before_second) = words(before);
    let (first, second) = words(key);
    if before_first != first {
        return before_first < first;
    }
    if before_second != second {
        return before_second < second;
    }
    is_entry(key)
}

/// Whether each key may stand behind the one before it.
pub fn are_in_order(before: Option<Key>, branches: &[Branch]) -> bool
    ensures { result ≡ in_order before branches.now }
{
    match branches.split_first() {
        None => true,
        Some((branch, rest)) => {
            if !may_follow(before, branch.key) {
                return false;
            }
            are_in_order(Some(branch.key), rest)
        }
    }
}

/// The branch to what a link leads to.
fn branch_to(table: &NodeTable, link: &Link) -> Branch
    ensures { result ≡ link_branch (node_views table.now.nodes.items) link.now }
{
    match *link {
        Link::ToLeaf(leaf) => Branch {
            lnum: leaf.lnum,
            offs: leaf.offs,
            len: leaf.len,
            key: leaf.key,
        },
        Link::ToNode { key, number } => branch_to_node(table, key, number),
    }
}

/// The branch to a node; to one without a place it leads nowhere.
pub fn branch_to_node(table: &NodeTable, key: Key, number: u64) -> Branch
    ensures { result ≡ node_branch key (stretch_in (slice_get (node_views table.now.nodes.items) number)) }
{
    match table.node_at(number) {
        None => Branch {
            lnum: 0,
            offs: 0,
            len: 0,
            key,
        },
        Some(node) => match node.place {
            None => Branch {
                lnum: 0,
                offs: 0,
                len: 0,
                key,
            },
            Some(place) => Branch {
                lnum: place.lnum,
                offs: place.offs,
                len: place.len,
                key,
            },
        },
    }
}

/// Pushes the branches to what links lead to.
fn push_branches(table: &NodeTable, links: &[Link], branches: &mut Vec<Branch>)
    requires room { vec_len branches.old + length links.now ≤ vec_capacity branches.old }
    ensures items { branches.new.items ≡ branches.old.items ++ map (link_branch (node_views table.now.nodes.items)) links.now }
    ensures room { vec_capacity branches.new ≡ vec_capacity branches.old }
{
    let Some((link, rest)) = links.split_first() else {
        return;
    };
    branches.push_reserved(branch_to(table, link));
    push_branches(table, rest, branches)
}

/// Makes of an index node what a node of the table is on the medium.
pub fn tell_node(table: &NodeTable, node: &TableNode, said: &mut IdxNode)
    requires room { length node.now.links.items ≤ vec_capacity said.old.branches }
    ensures level { said.new.level ≡ node.now.level }
    ensures branches { said.new.branches.items ≡ branches_of (placed_of (row_of (node_views table.now.nodes.items) node.now.links.items)) }
    ensures room { vec_capacity said.new.branches ≡ vec_capacity said.old.branches }
{
    said.branches.clear();
    push_branches(table, node.links.as_slice(), &mut said.branches);
    said.level = node.level;
}
