// The committed leaves, each with its own node, or with its copy.

ghost use Rattle.std.specs.Prelude.{◌≡◌, map, IfOk};
ghost use Rattle.log_replay.specs.Reading.{read_told, stand_in_told, unread_told};

use crate::committed_leaf::CommittedLeaf;
use crate::copies::copy_of;
use crate::named::is_in_bud;
use crate::read_leaf::ReadLeaf;
use crate::thing::{makes, rank};
use index_tree::Leaf;
use journal_scan::{JournalNode, NodeContent};
use std::alloc::Global;
use std::collections::BTreeMap;
use ubifs_base::{Key, Memory};

// The leaves as they are read, before any goes to its copy.
pub(crate) fn read_leaves(
    alloc: Global,
    leaves: Vec<CommittedLeaf>,
    named: &BTreeMap<u32, u32>,
    ranked: &BTreeMap<u128, Vec<JournalNode>>,
) -> Result<Vec<ReadLeaf>, Memory>
    ensures { IfOk result (λ reads. reads.items ≡ map (read_told named.now ranked.now) leaves.items) }
{
    let mut reads = Vec::new(alloc);
    for leaf in leaves {
        reads.push(read_leaf(leaf, named, ranked))?;
    }
    Ok(reads)
}

// A leaf with its own node, or with what stands for a node that nobody can read.
fn read_leaf(
    leaf: CommittedLeaf,
    named: &BTreeMap<u32, u32>,
    ranked: &BTreeMap<u128, Vec<JournalNode>>,
) -> ReadLeaf
    ensures { result ≡ read_told named.now ranked.now leaf }
{
    let at = leaf.leaf;
    match leaf.found {
        Some(node) if !is_in_bud(named, &at) && makes(&node, &at) => {
            let copy = copy_of(ranked, rank(&at.key), &node);
            ReadLeaf {
                leaf: at,
                is_own: true,
                node: Some(node),
                copy,
            }
        }
        _ => unread_leaf(at, ranked),
    }
}

// A leaf whose node nobody can read.
fn unread_leaf(leaf: Leaf, ranked: &BTreeMap<u128, Vec<JournalNode>>) -> ReadLeaf
    ensures { result ≡ unread_told ranked.now leaf }
{
    match stand_in(&leaf) {
        Some(node) => {
            let copy = copy_of(ranked, rank(&leaf.key), &node);
            ReadLeaf {
                leaf,
                is_own: false,
                node: Some(node),
                copy,
            }
        }
        None => ReadLeaf {
            leaf,
            is_own: false,
            node: None,
            copy: None,
        },
    }
}

// What stands for a node that nobody can read: an inode without links, or a block; a name can't be told.
fn stand_in(leaf: &Leaf) -> Option<JournalNode>
    ensures { result ≡ stand_in_told leaf.now }
{
    let content = match leaf.key {
        Key::Ino { ino } => NodeContent::Inode { ino, linked: false },
        Key::Block { ino, block } => NodeContent::Block { ino, block },
        Key::Dent { .. } | Key::Xent { .. } => return None,
    };
    Some(JournalNode {
        content,
        sqnum: 0,
        lnum: leaf.lnum,
        offs: leaf.offs,
        len: leaf.len,
    })
}
