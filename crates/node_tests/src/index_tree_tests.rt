// Small trees at a fanout of 3, worked out by hand.

ghost use Rattle.std.specs.Prelude.{◌≡◌};
ghost use Rattle.ubifs_base.specs.Key.{IsKey};

use index_tree::{Index, Leaf};
use std::alloc::Global;
use ubifs_base::{Key, Memory};

// A key: of an inode, of its block, or of an entry with this hash.
#[derive(Clone, Copy)]
enum At {
    Ino(u32),
    Block(u32, u8),
    Dent(u32, u8),
}

// A leaf by its key and offset.
type Row = (At, u32);

// What is done or asked, and the answer.
#[derive(Clone, Copy)]
enum Step {
    Insert(At, u32),
    Remove(At, u32, bool),
    // The leaf at the first offset gives way to one at the second.
    Replace(At, u32, u32, bool),
    RemoveRange(At, At, u64),
    Find(At, u32, Option<Row>),
    After(At, Option<Row>),
    LastOf(u32, Option<Row>),
    Weight(u64),
    Nodes(u64),
    // What is listed of four ascending leaves, and the copy that is made of it.
    Listed,
    Copied,
}

use At::{Block, Dent, Ino};
use Step::{
    After, Copied, Find, Insert, LastOf, Listed, Nodes, Remove, RemoveRange, Replace, Weight,
};

// Eight ascending insertions.
const ASCENDING: &[Step] = &[
    Insert(Ino(1), 0),
    Weight(1),
    Insert(Ino(2), 0),
    Weight(1),
    Insert(Ino(3), 0),
    Weight(2),
    Insert(Ino(4), 0),
    Weight(3),
    Insert(Ino(5), 0),
    Weight(4),
    Insert(Ino(6), 0),
    Weight(5),
    Insert(Ino(7), 0),
    Weight(6),
    Insert(Ino(8), 0),
    Weight(7),
];

// Four ascending insertions, and the last two leaves go again.
const REMOVALS: &[Step] = &[
    Insert(Ino(1), 0),
    Insert(Ino(2), 0),
    Insert(Ino(3), 0),
    Insert(Ino(4), 0),
    Remove(Ino(4), 0, true),
    Weight(3),
    Remove(Ino(3), 0, true),
    Weight(1),
    Nodes(1),
    Remove(Ino(3), 0, false),
];

// Leaves of one key stand in the order in which they came.
const EQUAL_KEYS: &[Step] = &[
    Insert(Ino(7), 16),
    Insert(Ino(7), 0),
    Insert(Ino(7), 8),
    Insert(Ino(7), 24),
    Find(Ino(7), 0, Some((Ino(7), 16))),
    Find(Ino(7), 1, Some((Ino(7), 0))),
    Find(Ino(7), 3, Some((Ino(7), 24))),
    Find(Ino(7), 4, None),
];

// A range of keys goes, its last key too.
const RANGE: &[Step] = &[
    Insert(Ino(1), 0),
    Insert(Ino(2), 0),
    Insert(Ino(3), 0),
    Insert(Ino(4), 0),
    Insert(Ino(5), 0),
    Insert(Ino(6), 0),
    Insert(Ino(7), 0),
    Insert(Ino(8), 0),
    RemoveRange(Ino(3), Ino(8), 6),
    Find(Ino(8), 0, None),
    Nodes(1),
];

// A leaf gives way to another of its key, in place, and only where it is there.
const REPLACEMENT: &[Step] = &[
    Insert(Ino(7), 16),
    Insert(Ino(7), 0),
    Insert(Ino(7), 8),
    Insert(Ino(7), 24),
    Replace(Ino(7), 0, 32, true),
    Replace(Ino(7), 0, 40, false),
    Find(Ino(7), 0, Some((Ino(7), 16))),
    Find(Ino(7), 1, Some((Ino(7), 32))),
    Find(Ino(7), 2, Some((Ino(7), 8))),
];

// The nodes of an index, and the index that is made of them again.
const LISTED: &[Step] = &[
    Insert(Ino(1), 0),
    Insert(Ino(2), 0),
    Insert(Ino(3), 0),
    Insert(Ino(4), 0),
    Listed,
    Copied,
];

// Leaf after leaf, from below the first key to behind the last.
const FOLLOWING: &[Step] = &[
    Insert(Ino(2), 0),
    Insert(Ino(4), 0),
    Insert(Ino(4), 0),
    Insert(Ino(6), 0),
    Insert(Ino(8), 0),
    Insert(Ino(10), 0),
    After(Ino(1), Some((Ino(2), 0))),
    After(Ino(2), Some((Ino(4), 0))),
    After(Ino(4), Some((Ino(6), 0))),
    After(Ino(7), Some((Ino(8), 0))),
    After(Ino(10), None),
];

// The greatest block of an inode, between an inode and an entry.
const LAST_BLOCKS: &[Step] = &[
    Insert(Ino(7), 0),
    Insert(Block(7, 9), 0),
    Insert(Block(7, 2), 0),
    Insert(Dent(7, 1), 0),
    Insert(Block(8, 3), 0),
    LastOf(7, Some((Block(7, 9), 0))),
    LastOf(8, Some((Block(8, 3), 0))),
    LastOf(6, None),
    LastOf(9, None),
];

const TREES: &[&[Step]] = &[
    ASCENDING,
    REMOVALS,
    EQUAL_KEYS,
    RANGE,
    REPLACEMENT,
    LISTED,
    FOLLOWING,
    LAST_BLOCKS,
];

fn key(at: At) -> Key
    ensures { IsKey result }
{
    match at {
        Ino(ino) => Key::Ino { ino },
        Block(ino, block) => Key::Block {
            ino,
            block: block as u32,
        },
        Dent(dir, hash) => Key::Dent {
            dir,
            hash: hash as u32,
        },
    }
}

fn leaf(key: Key, offs: u32) -> Leaf
    requires { IsKey key }
    ensures key { result.key ≡ key }
    ensures is_key { IsKey result.key }
{
    Leaf {
        key,
        lnum: 1,
        offs,
        len: 8,
    }
}

// Whether it is the leaf of a row, or none where there is no row.
fn is_leaf(found: Option<Leaf>, row: Option<Row>) -> bool {
    match (found, row) {
        (Some(found), Some((at, offs))) => found == leaf(key(at), offs),
        (None, None) => true,
        _ => false,
    }
}

// Whether three nodes are listed: two leaves, two leaves, and the root.
fn is_listed(alloc: Global, index: &Index) -> Result<bool, Memory> {
    let nodes = index.list(alloc)?;
    match nodes.as_slice() {
        [first, second, root] => Ok(
            first.leaves.as_slice() == [leaf(key(Ino(1)), 0), leaf(key(Ino(2)), 0)].as_slice()
                && second.count == 2
                && root.level == 1,
        ),
        _ => Ok(false),
    }
}

fn is_copied(alloc: Global, index: &Index) -> Result<bool, Memory> {
    let again = index.copied(alloc)?;
    Ok(again.weight() == 3 && is_leaf(again.find(&key(Ino(4)), 0), Some((Ino(4), 0))))
}

fn is_answered(alloc: Global, index: &mut Index, step: Step) -> Result<bool, Memory> {
    match step {
        Insert(at, offs) => {
            index.insert(alloc, leaf(key(at), offs))?;
            Ok(true)
        }
        Remove(at, offs, wanted) => Ok(index.remove(&leaf(key(at), offs)) == wanted),
        Replace(at, old, new, wanted) => {
            let key = key(at);
            Ok(index.replace(&leaf(key, old), leaf(key, new)) == wanted)
        }
        RemoveRange(from, to, wanted) => Ok(index.remove_range(&key(from), &key(to)) == wanted),
        Find(at, nth, wanted) => Ok(is_leaf(index.find(&key(at), nth), wanted)),
        After(at, wanted) => Ok(is_leaf(index.after(&key(at)), wanted)),
        LastOf(ino, wanted) => Ok(is_leaf(index.last_of(ino), wanted)),
        Weight(wanted) => Ok(index.weight() == wanted),
        Nodes(wanted) => Ok(index.nodes() == wanted),
        Listed => is_listed(alloc, index),
        Copied => is_copied(alloc, index),
    }
}

// The first step that isn't answered so.
fn first_wrong(alloc: Global, steps: &[Step]) -> Result<Option<usize>, Memory> {
    let mut index = Index::new(3)?;
    for (number, step) in steps.iter().enumerate() {
        if !is_answered(alloc, &mut index, *step)? {
            return Ok(Some(number));
        }
    }
    Ok(None)
}

#[test]
fn each_step_is_answered(rt: HostRuntime) {
    for (number, steps) in TREES.iter().enumerate() {
        assert_eq!(rt; first_wrong(rt.alloc(), steps), Ok(None), "tree {number}");
    }
}
