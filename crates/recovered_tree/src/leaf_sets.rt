// The changes that set what leaves show.

ghost use Rattle.std.specs.Prelude.{◌≡◌, ◌++◌, [], List, Some, IfOk, OnOk, map};
ghost use Rattle.std.specs.List.{AllByRecursion};
ghost use Rattle.leaf_map.specs.Kept.{Kept};
ghost use Rattle.recovered_tree.specs.Sets.{AreSetsOf, with_set_inode, with_set_other};
ghost use Rattle.sound_image.specs.Summary.{with_a_link};
ghost use Rattle.sound_image.specs.Tree.{ShowsItsNode};
ghost use Rattle.ubi_volume.specs.Faults.{HasAreaCause, StaysSureArea};
ghost use Rattle.ubi_volume.specs.Volume.{Keeps, SameShape};

use crate::node_shown::read_shown;
use fs_model::{Change, Inode, Kind};
use index_tree::Leaf;
use std::alloc::Global;
use ubi_volume::{AreaFault, Volume};
use ubifs_base::Memory;

/// Changes that set inodes, and those that set blocks and names, each in the order of the leaves that show them.
#[derive(Drop)]
pub(crate) struct LeafSets {
    pub(crate) inodes: Vec<Change>,
    pub(crate) others: Vec<Change>,
}

/// The changes that set what leaves show, each of which shows what stands at its place. Each leaf's node is read once.
pub(crate) fn read_sets<V: Volume>(
    alloc: Global,
    volume: &mut V,
    leaves: &[Leaf],
) -> Result<LeafSets, AreaFault>
    ensures sets { IfOk result (λ sets. (kept : List Kept) → leaves.now ≡ map (λ x. x.leaf) kept → AllByRecursion (ShowsItsNode (V.state volume.old).holds) kept → AreSetsOf kept sets) }
    ensures keeps { Keeps (V.state volume.old) (V.state volume.new) × SameShape (V.state volume.old) (V.state volume.new) }
    ensures cause { HasAreaCause (V.state volume.old).faults (V.state volume.new).faults result }
    ensures sure { StaysSureArea (V.state volume.old) (V.state volume.new) result }
{
    let inodes = Vec::new(alloc);
    let others = Vec::new(alloc);
    let mut sets = LeafSets { inodes, others };
    let mut left = leaves;
    'reading: while let Some((leaf, rest)) = left.split_first() {
        let shown = read_shown(alloc, volume, leaf.lnum, leaf.offs, leaf.len)?;
        push_set(&mut sets, shown)?;
        left = rest;
    }
    Ok(sets)
}

// Keeps the change that sets what is shown.
fn push_set(sets: &mut LeafSets, shown: Option<Change>) -> Result<(), Memory>
    ensures inodes { OnOk result (sets.new.inodes.items ≡ sets.old.inodes.items ++ with_set_inode shown []) }
    ensures others { OnOk result (sets.new.others.items ≡ sets.old.others.items ++ with_set_other shown []) }
{
    match shown {
        Some(change) => push_change(sets, change),
        None => Ok(()),
    }
}

fn push_change(sets: &mut LeafSets, change: Change) -> Result<(), Memory>
    ensures inodes { OnOk result (sets.new.inodes.items ≡ sets.old.inodes.items ++ with_set_inode (Some change) []) }
    ensures others { OnOk result (sets.new.others.items ≡ sets.old.others.items ++ with_set_other (Some change) []) }
{
    match change {
        Change::SetInode { ino, inode } => {
            let inode = linked(inode);
            sets.inodes.push(Change::SetInode { ino, inode })?;
        }
        Change::SetBlock { ino, block, bytes } => {
            sets.others.push(Change::SetBlock { ino, block, bytes })?;
        }
        Change::SetEntry { entry } => {
            sets.others.push(Change::SetEntry { entry })?;
        }
        Change::DropEntry {
            dir: _dir,
            name: _name,
        } => {}
        Change::CutBlocks {
            ino: _ino,
            old_size: _old_size,
            new_size: _new_size,
        } => {}
        Change::DropInode { ino: _ino } => {}
    }
    Ok(())
}

// The inode, with a link at least if it is a directory.
fn linked(inode: Inode) -> Inode
    ensures { result ≡ with_a_link inode }
{
    let mut inode = inode;
    if let Kind::Dir = inode.kind {
        inode.nlink = 1.max(inode.nlink);
    }
    inode
}
