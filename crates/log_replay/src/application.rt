// One node of the journal.

ghost use Rattle.std.specs.Prelude.{◌≡◌, ◌+◌, ◌-◌, ◌/◌, ◌<◌, ◌^◌, min, cond, ℕ, List, Some, IfOk, OnOk};
ghost use Rattle.std.specs.BTreeMap.{get, is_at};
ghost use Rattle.ubifs_base.specs.R5.{r5_of};
ghost use Rattle.ubifs_base.specs.declared.key.Key.TheVariants.{Block, Dent, Ino};
ghost use Rattle.fs_model.specs.Files.{name_cmp};
ghost use Rattle.log_replay.specs.Changes.{StandingCutsBlocks, Does, StandingDropsInode, DropsName, IsHeavier, StandingSetsBlock, StandingSetsInode, SetsName, HasBlockKey};
ghost use Rattle.log_replay.specs.Standing.{leaf_of_key};

use crate::index_calls::{put, take};
use crate::standing::Standing;
use crate::thing::number_of;
use fs_model::OrderedName;
use index_tree::Leaf;
use journal_scan::{JournalNode, NodeContent};
use std::alloc::Global;
use std::collections::BTreeMap;
use ubifs_base::{Key, Memory, Name, r5};

// The bits of a block's number.
const BLOCK_BITS: u32 = 29;

// The bytes of a block.
const BLOCK_BYTES: u64 = 4096;

// The place of a node.
#[derive(Clone, Copy)]
pub(crate) struct Place {
    pub(crate) lnum: u32,
    pub(crate) offs: u32,
    pub(crate) len: u32,
}

// Applies one node.
pub(crate) fn apply(alloc: Global, standing: &mut Standing, node: JournalNode) -> Result<(), Memory>
    requires { HasBlockKey node }
    ensures does { OnOk result (Does node standing.old standing.new) }
    ensures weight { IsHeavier 1 standing.old standing.new }
{
    let place = Place {
        lnum: node.lnum,
        offs: node.offs,
        len: node.len,
    };
    match node.content {
        NodeContent::Inode { ino, linked: true } => set_inode(alloc, standing, ino, place),
        NodeContent::Inode { ino, linked: false } => {
            drop_inode(standing, ino);
            Ok(())
        }
        NodeContent::Block { ino, block } => set_block(alloc, standing, ino, block, place),
        NodeContent::Entry {
            dir,
            name,
            linked: true,
        } => set_name(alloc, standing, dir, name, place),
        NodeContent::Entry {
            dir,
            name,
            linked: false,
        } => {
            drop_name(standing, dir, name);
            Ok(())
        }
        NodeContent::Truncation { ino, new_size } => {
            cut_blocks(standing, ino, new_size);
            Ok(())
        }
        NodeContent::Unknown { linked: true, .. } => Ok(()),
        NodeContent::Unknown { key, linked: false } => {
            drop_inode(standing, number_of(&key));
            Ok(())
        }
    }
}

// An inode with links stands at its node.
fn set_inode(alloc: Global, standing: &mut Standing, ino: u32, place: Place) -> Result<(), Memory>
    ensures does { OnOk result (StandingSetsInode ino (leaf_of_key (Ino ino) place) standing.old standing.new) }
    ensures weight { IsHeavier 1 standing.old standing.new }
{
    let leaf = at_place(Key::Ino { ino }, place);
    let old = standing.index.find(&leaf.key, 0);
    put(alloc, &mut standing.index, old, leaf)?;
    standing.inodes.insert(ino, true)?;
    Ok(())
}

// A leaf of a key at a place.
pub(crate) fn at_place(key: Key, place: Place) -> Leaf
    ensures { result ≡ leaf_of_key key place }
{
    Leaf {
        key,
        lnum: place.lnum,
        offs: place.offs,
        len: place.len,
    }
}

// An inode goes with its blocks.
pub(crate) fn drop_inode(standing: &mut Standing, ino: u32)
    ensures does { StandingDropsInode ino standing.old standing.new }
    ensures weight { IsHeavier 0 standing.old standing.new }
{
    standing
        .index
        .remove_range(&Key::Ino { ino }, &last_block(ino));
    standing.inodes.remove(&ino);
}

// The greatest key that a block of an inode can have.
fn last_block(ino: u32) -> Key
    ensures { result ≡ Block ino (2 ^ 29 - 1) }
{
    Key::Block {
        ino,
        block: (1 << BLOCK_BITS) - 1,
    }
}

// A block stands at its node, if its inode is there.
fn set_block(
    alloc: Global,
    standing: &mut Standing,
    ino: u32,
    block: u32,
    place: Place,
) -> Result<(), Memory>
    requires { block < 2 ^ 29 }
    ensures does { OnOk result (StandingSetsBlock ino (leaf_of_key (Block ino block) place) standing.old standing.new) }
    ensures weight { IsHeavier 1 standing.old standing.new }
{
    if !standing.inodes.contains_key(&ino) {
        return Ok(());
    }
    let leaf = at_place(Key::Block { ino, block }, place);
    let old = standing.index.find(&leaf.key, 0);
    put(alloc, &mut standing.index, old, leaf)
}

// The blocks of an inode go that have no byte below a size.
fn cut_blocks(standing: &mut Standing, ino: u32, size: u64)
    ensures does { StandingCutsBlocks ino size standing.old standing.new }
    ensures weight { IsHeavier 0 standing.old standing.new }
{
    let first = Key::Block {
        ino,
        block: first_past(size),
    };
    standing.index.remove_range(&first, &last_block(ino));
}

// The number of the first block that has no byte below a size; where no block can have that number, one that none has.
fn first_past(size: u64) -> u32
    ensures { result ≡ min ((size + 4095) / 4096) (2 ^ 29) }
{
    let whole = size / BLOCK_BYTES;
    let first = if size % BLOCK_BYTES == 0 {
        whole
    } else {
        whole + 1
    };
    first.min(1 << BLOCK_BITS) as u32
}

// A name stands at its node.
fn set_name(
    alloc: Global,
    standing: &mut Standing,
    dir: u32,
    name: Name,
    place: Place,
) -> Result<(), Memory>
    ensures does { OnOk result (SetsName (dir, name) (leaf_of_key (Dent dir (r5_of name)) place) standing.old standing.new) }
    ensures weight { IsHeavier 1 standing.old standing.new }
{
    let hash = r5(name.as_slice());
    let leaf = at_place(Key::Dent { dir, hash }, place);
    let old = set_place(&mut standing.names, dir, name, leaf)?;
    put(alloc, &mut standing.index, old, leaf)?;
    Ok(())
}

// Keeps the leaf of a name, and answers the one that was kept before.
pub(crate) fn set_place(
    names: &mut BTreeMap<(u32, OrderedName), Leaf>,
    dir: u32,
    name: Name,
    leaf: Leaf,
) -> Result<Option<Leaf>, Memory>
    ensures old { IfOk result (λ old. old ≡ get name_cmp names.old (dir, name)) }
    ensures set { OnOk result ((p : ℕ × List ℕ) → get name_cmp names.new p ≡ cond (is_at (name_cmp (dir, name)) p) (Some leaf) (get name_cmp names.old p)) }
{
    let key = (dir, OrderedName::from_name(name));
    let old = names.insert(key, leaf)?;
    Ok(old)
}

// A name goes.
fn drop_name(standing: &mut Standing, dir: u32, name: Name)
    ensures does { DropsName (dir, name) standing.old standing.new }
    ensures weight { IsHeavier 0 standing.old standing.new }
{
    let key = (dir, OrderedName::from_name(name));
    let old = standing.names.remove(&key);
    take(&mut standing.index, old);
}
