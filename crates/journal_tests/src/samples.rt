// What the nodes of these tests say, and the leaves and the nodes that are told of it. Each takes 160 bytes.

ghost use Rattle.std.specs.Prelude.{IfOk};
ghost use Rattle.std.specs.List.{AllByRecursion};
ghost use Rattle.ubifs_base.specs.Key.{IsKey};
ghost use Rattle.log_replay.specs.Changes.{HasBlockKey};

use index_tree::{Index, Leaf};
use journal_scan::{JournalNode, NodeContent};
use std::alloc::Global;
use ubifs_base::{Key, Memory, Name, r5};

// What a node says: an inode with or without a link, a block, one of the root's names 'am' and 'bb', which have one hash, or a
// truncation.
#[derive(Clone, Copy)]
pub(crate) enum Says {
    Inode(u32, bool),
    Block(u32, u16),
    Named(&'static str, bool),
    Cut(u32, u64),
}

// The LEB and the offset at which a node stands, and what it says.
pub(crate) type Row = (u32, u32, Says);

fn key_of(says: Says) -> Key
    ensures { IsKey result }
{
    match says {
        Says::Inode(ino, _) | Says::Cut(ino, _) => Key::Ino { ino },
        Says::Block(ino, block) => Key::Block {
            ino,
            block: block as u32,
        },
        Says::Named(name, _) => Key::Dent {
            dir: 1,
            hash: r5(name.as_bytes()) % (1 << 29),
        },
    }
}

pub(crate) fn leaf_of(row: Row) -> Leaf
    ensures { IsKey result.key }
{
    Leaf {
        key: key_of(row.2),
        lnum: row.0,
        offs: row.1,
        len: 160,
    }
}

pub(crate) fn node_of(alloc: Global, row: Row, sqnum: u64) -> Result<JournalNode, Memory>
    ensures { IfOk result (λ node. HasBlockKey node) }
{
    let content = match row.2 {
        Says::Inode(ino, linked) => NodeContent::Inode { ino, linked },
        Says::Block(ino, block) => NodeContent::Block {
            ino,
            block: block as u32,
        },
        Says::Named(name, linked) => NodeContent::Entry {
            dir: 1,
            name: Name::from_slice(alloc, name.as_bytes())?,
            linked,
        },
        Says::Cut(ino, new_size) => NodeContent::Truncation { ino, new_size },
    };
    Ok(JournalNode {
        content,
        sqnum,
        lnum: row.0,
        offs: row.1,
        len: 160,
    })
}

pub(crate) fn index_of(alloc: Global, rows: &[Row]) -> Result<Index, Memory> {
    let mut index = Index::new(8)?;
    for row in rows {
        index.insert(alloc, leaf_of(*row))?;
    }
    Ok(index)
}

pub(crate) fn nodes_of(alloc: Global, rows: &[Row]) -> Result<Vec<JournalNode>, Memory>
    ensures { IfOk result (λ nodes. AllByRecursion HasBlockKey nodes.items) }
{
    let mut nodes = Vec::new(alloc);
    for row in rows {
        nodes.push(node_of(alloc, *row, 0)?)?;
    }
    Ok(nodes)
}

// Whether the leaves of an index stand at these places, in order.
pub(crate) fn are_at(alloc: Global, index: &Index, places: &[(u32, u32)]) -> Result<bool, Memory> {
    let mut found = Vec::new(alloc);
    for node in index.list(alloc)? {
        for leaf in node.leaves.as_slice() {
            found.push((leaf.lnum, leaf.offs))?;
        }
    }
    Ok(found.as_slice() == places)
}
