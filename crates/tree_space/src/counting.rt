// The leaves of a tree, counted.

ghost use Rattle.std.specs.Prelude.{◌≡◌, ◌==◌, length, map, filter, IfOk, OnOk};
ghost use Rattle.ubifs_base.specs.RawOf.{raw_of};
ghost use Rattle.fs_model.specs.Proper.{IsProper};
ghost use Rattle.image_maker.specs.Leaves.{block_leaf, entry_leaf, leaf_nodes_of, live_leaves};
ghost use Rattle.image_maker.specs.Packed.{packed_leaves};
ghost use Rattle.tree_space.specs.Counted.{CanTake, Counts};

use crate::node_lens::{block_len, entry_len, inode_len};
use crate::tally::Tally;
use fs_model::{Entry, Inode};
use image_maker::leaves_of_a_tree_are_few;
use op_groups::by_hash;
use plain_backing::Tree;
use std::alloc::Global;
use ubifs_base::{Geometry, Memory};

/// How many leaves an image of a tree has, and how many LEBs they take.
#[derive(Clone, Copy, Debug, PartialEq, Eq)]
pub struct LeafCount {
    pub leaves: u64,
    pub lebs: u64,
}

/// Counts the leaves of a tree and the LEBs that they take, as an image has them: inode by inode, in a LEB as long as they fit.
/// The time goes with their number. The error is want of memory.
pub fn count_leaves(alloc: Global, geometry: &Geometry, tree: &Tree) -> Result<LeafCount, Memory>
    requires { IsProper tree.now }
    ensures leaves { IfOk result (λ count. count.leaves ≡ length (live_leaves tree.now)) }
    ensures lebs { IfOk result (λ count. count.lebs ≡ length (packed_leaves geometry.now.leb_size 0 (live_leaves tree.now))) }
{
    leaves_of_a_tree_are_few();
    let _most = tree.leaves();
    let mut tally = Tally {
        leaves: 0,
        full: 0,
        taken: 0,
    };
    take_inodes(alloc, geometry, &mut tally, tree)?;
    Ok(LeafCount {
        leaves: tally.leaves,
        lebs: tally.full + 1,
    })
}

// Counts the nodes of all inodes.
fn take_inodes(
    alloc: Global,
    geometry: &Geometry,
    tally: &mut Tally,
    tree: &Tree,
) -> Result<(), Memory>
    requires { CanTake (live_leaves tree.now) tally.old }
    ensures { OnOk result (Counts (raw_of geometry.now) (live_leaves tree.now) tally.old tally.new) }
{
    let mut rest = tree.inodes();
    'counting: while let Some((ino, inode)) = rest.next() {
        take_inode(alloc, geometry, tally, tree, ino, inode)?;
    }
    Ok(())
}

// Counts an inode's node, those of its blocks, and those of the entries in it.
fn take_inode(
    alloc: Global,
    geometry: &Geometry,
    tally: &mut Tally,
    tree: &Tree,
    ino: u32,
    inode: &Inode,
) -> Result<(), Memory>
    requires { CanTake (leaf_nodes_of tree.now (ino, inode.now)) tally.old }
    ensures { OnOk result (Counts (raw_of geometry.now) (leaf_nodes_of tree.now (ino, inode.now)) tally.old tally.new) }
{
    let entries = tree.entries_in(alloc, ino)?;
    let rows = by_hash(alloc, entries)?;
    tally.take(geometry, inode_len(inode));
    take_blocks(geometry, tally, tree, ino);
    take_entries(geometry, tally, rows.as_slice());
    Ok(())
}

// Counts the nodes of an inode's blocks.
fn take_blocks(geometry: &Geometry, tally: &mut Tally, tree: &Tree, ino: u32)
    requires { CanTake (map block_leaf (filter (λ stored. stored.0.0 == ino) tree.now.blocks)) tally.old }
    ensures { Counts (raw_of geometry.now) (map block_leaf (filter (λ stored. stored.0.0 == ino) tree.now.blocks)) tally.old tally.new }
{
    let mut rest = tree.blocks_of(ino);
    'counting: while let Some((_key, bytes)) = rest.next() {
        tally.take(geometry, block_len(bytes));
    }
}

// Counts the nodes of entries, in this order.
fn take_entries(geometry: &Geometry, tally: &mut Tally, rows: &[Entry])
    requires { CanTake (map entry_leaf rows.now) tally.old }
    ensures { Counts (raw_of geometry.now) (map entry_leaf rows.now) tally.old tally.new }
{
    let mut left = rows;
    'counting: while let Some((entry, rest)) = left.split_first() {
        tally.take(geometry, entry_len(entry));
        left = rest;
    }
}
