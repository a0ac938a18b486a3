// The three rounds in which a group is made in cells.

ghost use Rattle.std.specs.Prelude.{◌≡◌, ◌+◌, ◌^◌, ◌<◌, IfOk, OnOk, OnErr, reverse, sum_by};
ghost use Rattle.std.specs.List.{AllByRecursion};
ghost use Rattle.fs_model.specs.Backing.{page_group};
ghost use Rattle.fs_model.specs.Change.{apply};
ghost use Rattle.plain_backing.specs.TreeCells.{tree_of_cells, set_bytes, AreCellsCounted, HasCellRoom};

use crate::cell::{make_cell, sweep};
use crate::node_bytes::{block_bytes, inode_bytes, name_bytes};
use crate::tree_cells::{
    TreeCells, entry_key, insert_block, make, make_room, set_inode, sweep_after,
};
use fs_model::{Change, Inode, OrderedName, PageNode};
use std::alloc::Global;
use ubifs_base::{Bytes, Memory};

/// No tree takes so many bytes.
const MOST: u64 = 1 << 40;

/// Makes the cells of what the changes set, copies the changes, the last one first, and keeps the keys of the names.
/// Nothing that is seen changes, whether or not there is memory.
pub(crate) fn prepare(
    alloc: Global,
    cells: &mut TreeCells,
    keys: &mut Vec<(u32, OrderedName)>,
    changes: &[Change],
) -> Result<Vec<Change>, Memory>
    requires { cells.old.bytes < 2 ^ 40 }
    ensures tree { tree_of_cells cells.new ≡ tree_of_cells cells.old }
    ensures bytes { cells.new.bytes ≡ cells.old.bytes }
    ensures orphans { cells.new.orphans ≡ cells.old.orphans }
    ensures copies { IfOk result (λ copies. reverse copies.items ≡ changes.now) }
    ensures room { IfOk result (λ copies. AllByRecursion (HasCellRoom cells.new) copies.items) }
    ensures fits { IfOk result (λ copies. cells.old.bytes + sum_by set_bytes copies.items < 2 ^ 40) }
{
    let mut copies = Vec::with_capacity(alloc, changes.len())?;
    let mut total = cells.bytes;
    let mut left = changes.len();
    while left > 0 {
        left -= 1;
        let change = copied(&changes[left])?;
        total = grown(total, set_bytes(&change))?;
        push_key(alloc, keys, &change)?;
        make_room(alloc, cells, &change)?;
        copies.push(change)?;
    }
    Ok(copies)
}

fn copied(change: &Change) -> Result<Change, Memory>
    ensures { IfOk result (λ copy. copy ≡ change.now) }
{
    Ok(change.clone()?)
}

// A sum of bytes. The error is a sum of 2^40 or more, which no volume has.
fn grown(total: u64, added: u64) -> Result<u64, Memory>
    ensures { IfOk result (λ sum. (sum ≡ total + added) × (sum < 2 ^ 40)) }
{
    match total.checked_add(added) {
        Some(sum) if sum < MOST => Ok(sum),
        _ => Err(Memory),
    }
}

// The bytes of the node that a change sets.
fn set_bytes(change: &Change) -> u64
    ensures { result ≡ set_bytes change.now }
{
    match change {
        Change::SetInode { ino: _, inode } => inode_bytes(inode),
        Change::SetEntry { entry } => name_bytes(&entry.name),
        Change::SetBlock {
            ino: _,
            block: _,
            bytes,
        } => block_bytes(bytes),
        _ => 0,
    }
}

// Keeps the key of a change of a name.
fn push_key(
    alloc: Global,
    keys: &mut Vec<(u32, OrderedName)>,
    change: &Change,
) -> Result<(), Memory> {
    match change {
        Change::SetEntry { entry } => {
            let key = entry_key(alloc, entry.dir, &entry.name)?;
            keys.push(key)?;
        }
        Change::DropEntry { dir, name } => {
            let key = entry_key(alloc, *dir, name)?;
            keys.push(key)?;
        }
        _ => {}
    }
    Ok(())
}

/// Makes changes whose cells are there, the last one first. Takes no memory.
pub(crate) fn make_all(cells: &mut TreeCells, mut copies: Vec<Change>)
    requires room { AllByRecursion (HasCellRoom cells.old) copies.items }
    requires fits { cells.old.bytes + sum_by set_bytes copies.items < 2 ^ 40 }
    requires counted { AreCellsCounted cells.old }
    ensures tree { tree_of_cells cells.new ≡ apply (tree_of_cells cells.old) (reverse copies.items) }
    ensures counted { AreCellsCounted cells.new }
    ensures few { cells.new.bytes < 2 ^ 40 }
{
    while let Some(change) = copies.pop() {
        make(cells, change);
    }
}

/// Takes out the empty cells that changes may have left. Nothing that is seen changes. Takes no memory.
pub(crate) fn sweep_all(cells: &mut TreeCells, keys: &[(u32, OrderedName)], changes: &[Change])
    ensures tree { tree_of_cells cells.new ≡ tree_of_cells cells.old }
    ensures bytes { cells.new.bytes ≡ cells.old.bytes }
    ensures orphans { cells.new.orphans ≡ cells.old.orphans }
{
    for change in changes {
        sweep_after(cells, change);
    }
    for key in keys {
        sweep(&mut cells.entries, key);
    }
}

/// Makes the changes of a page's two nodes, both or none. Each value is copied once, and its block is sought once.
pub(crate) fn set_page(alloc: Global, cells: &mut TreeCells, page: &PageNode) -> Result<(), Memory>
    requires few { cells.old.bytes < 2 ^ 40 }
    requires counted { AreCellsCounted cells.old }
    ensures ok { OnOk result (tree_of_cells cells.new ≡ apply (tree_of_cells cells.old) (page_group page.now)) }
    ensures err { OnErr result (tree_of_cells cells.new ≡ tree_of_cells cells.old) }
    ensures counted { AreCellsCounted cells.new }
    ensures few { cells.new.bytes < 2 ^ 40 }
{
    let inode = copied_inode(&page.inode)?;
    let bytes = copied_bytes(alloc, &page.bytes)?;
    let total = grown(cells.bytes, inode_bytes(&inode))?;
    grown(total, block_bytes(&bytes))?;
    make_cell(&mut cells.inodes, page.ino)?;
    match insert_block(cells, page.ino, page.block, bytes) {
        Ok(()) => {
            set_inode(cells, page.ino, inode);
            Ok(())
        }
        Err(_) => {
            sweep(&mut cells.inodes, &page.ino);
            Err(Memory)
        }
    }
}

fn copied_inode(inode: &Inode) -> Result<Inode, Memory>
    ensures { IfOk result (λ copy. copy ≡ inode.now) }
{
    Ok(inode.clone()?)
}

// A copy of bytes, at once: a clone is made byte by byte.
fn copied_bytes(alloc: Global, bytes: &Bytes) -> Result<Bytes, Memory>
    ensures { IfOk result (λ copy. copy ≡ bytes.now) }
{
    Ok(Bytes::from_slice(alloc, bytes.as_slice())?)
}
