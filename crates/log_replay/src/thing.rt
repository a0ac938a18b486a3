// Which leaf a node makes.

ghost use Rattle.std.specs.Prelude.{◌≡◌};
ghost use Rattle.ubifs_base.specs.Key.{key_words};
ghost use Rattle.index_tree.specs.Order.{key_rank};
ghost use Rattle.index_tree.specs.Removal.{same_leaf};
ghost use Rattle.fs_model.specs.Path.{is_same_name};
ghost use Rattle.log_replay.specs.Changes.{place_of_node};
ghost use Rattle.log_replay.specs.Things.{is_at_leaf, is_block_told, is_inode_told, is_name_told, is_same_told, key_told};

use crate::application::{Place, at_place};
use index_tree::Leaf;
use journal_scan::{JournalNode, NodeContent};
use ubifs_base::{Key, Name, r5};

const FIRST: u128 = 1 << 33;

const KIND: u128 = 1 << 29;

/// A key's place in the order.
#[tactic(auto, unfolding(index_tree::specs::Order::key_rank))]
pub fn rank(key: &Key) -> u128
    ensures { result ≡ key_rank key.now }
{
    match *key {
        Key::Ino { ino } => ino as u128 * FIRST,
        Key::Block { ino, block } => ino as u128 * FIRST + KIND + block as u128,
        Key::Dent { dir, hash } => dir as u128 * FIRST + 2 * KIND + hash as u128,
        Key::Xent { ino, hash } => ino as u128 * FIRST + 3 * KIND + hash as u128,
    }
}

/// The inode number of a key.
pub fn number_of(key: &Key) -> u32
    ensures { result ≡ (key_words key.now).0 }
{
    match *key {
        Key::Ino { ino } | Key::Block { ino, .. } | Key::Xent { ino, .. } => ino,
        Key::Dent { dir, .. } => dir,
    }
}

/// The key of the leaf that a node makes, if it makes one.
pub fn key_of(content: &NodeContent) -> Option<Key>
    ensures { result ≡ key_told content.now }
{
    match content {
        NodeContent::Inode { ino, .. } => Some(Key::Ino { ino: *ino }),
        NodeContent::Block { ino, block } => Some(Key::Block {
            ino: *ino,
            block: *block,
        }),
        NodeContent::Entry {
            dir,
            name,
            linked: true,
        } => Some(Key::Dent {
            dir: *dir,
            hash: r5(name.as_slice()),
        }),
        NodeContent::Entry { linked: false, .. }
        | NodeContent::Truncation { .. }
        | NodeContent::Unknown { .. } => None,
    }
}

// Whether two nodes make the leaf of the same inode, block or name.
pub(crate) fn is_same(one: &NodeContent, other: &NodeContent) -> bool
    ensures { result ≡ is_same_told one.now other.now }
{
    match one {
        NodeContent::Inode { ino, .. } => is_inode(*ino, other),
        NodeContent::Block { ino, block } => is_block(*ino, *block, other),
        NodeContent::Entry {
            dir,
            name,
            linked: true,
        } => is_name(*dir, name, other),
        NodeContent::Entry { linked: false, .. }
        | NodeContent::Truncation { .. }
        | NodeContent::Unknown { .. } => false,
    }
}

/// Whether a node is that of this inode.
pub fn is_inode(ino: u32, other: &NodeContent) -> bool
    ensures { result ≡ is_inode_told ino other.now }
{
    match other {
        NodeContent::Inode { ino: number, .. } => *number == ino,
        NodeContent::Block { .. }
        | NodeContent::Entry { .. }
        | NodeContent::Truncation { .. }
        | NodeContent::Unknown { .. } => false,
    }
}

/// Whether a node is that of this block.
pub fn is_block(ino: u32, block: u32, other: &NodeContent) -> bool
    ensures { result ≡ is_block_told ino block other.now }
{
    match other {
        NodeContent::Block {
            ino: number,
            block: at,
        } => *number == ino && *at == block,
        NodeContent::Inode { .. }
        | NodeContent::Entry { .. }
        | NodeContent::Truncation { .. }
        | NodeContent::Unknown { .. } => false,
    }
}

/// Whether a node is that of this name.
pub fn is_name(dir: u32, name: &Name, other: &NodeContent) -> bool
    ensures { result ≡ is_name_told dir name.now other.now }
{
    match other {
        NodeContent::Entry {
            dir: number,
            name: word,
            linked: true,
        } => *number == dir && is_same_name(word, name),
        NodeContent::Entry { linked: false, .. }
        | NodeContent::Inode { .. }
        | NodeContent::Block { .. }
        | NodeContent::Truncation { .. }
        | NodeContent::Unknown { .. } => false,
    }
}

/// Whether two names are the same.
pub fn is_same_name(one: &Name, other: &Name) -> bool
    ensures { result ≡ is_same_name one.now other.now }
{
    one == other
}

// The place of a node.
pub(crate) fn place_of(node: &JournalNode) -> Place
    ensures { result ≡ place_of_node node.now }
{
    Place {
        lnum: node.lnum,
        offs: node.offs,
        len: node.len,
    }
}

/// Whether a node makes this leaf.
pub fn makes(node: &JournalNode, leaf: &Leaf) -> bool
    ensures { result ≡ is_at_leaf leaf.now node.now }
{
    match key_of(&node.content) {
        Some(key) => is_one(leaf, &at_place(key, place_of(node))),
        None => false,
    }
}

/// Whether two leaves have one key and one place.
#[tactic(auto, unfolding(index_tree::specs::Removal::same_leaf))]
pub fn is_one(one: &Leaf, other: &Leaf) -> bool
    ensures { result ≡ same_leaf one.now other.now }
{
    rank(&one.key) == rank(&other.key)
        && one.lnum == other.lnum
        && one.offs == other.offs
        && one.len == other.len
}
