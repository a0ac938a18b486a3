// A tree in cells. A group of changes is made in three rounds: its cells are made and its values copied, which may want
// memory and changes nothing that is seen; then it changes cells, which wants none; then the empty cells are swept.

ghost use Rattle.std.specs.Prelude.{◌≡◌, ◌+◌, ◌^◌, ◌<◌, ◌≤◌, ℕ, true, OnOk, OnErr, IfOk, is_some, if◌then◌else◌};
ghost use Rattle.std.specs.Ordering.{nat_cmp};
ghost use Rattle.fs_model.specs.declared.change.Change.TheVariants.{SetInode, SetEntry, DropEntry, SetBlock, CutBlocks, DropInode};
ghost use Rattle.plain_backing.specs.Cells.{has_cell};
ghost use Rattle.fs_model.specs.Change.{applied};
ghost use Rattle.fs_model.specs.Cover.{inode_bytes, block_bytes, entry_bytes};
ghost use Rattle.fs_model.specs.Files.{pair_cmp, name_cmp, with_block};
ghost use Rattle.plain_backing.specs.TreeCells.{tree_of_cells, set_bytes, AreCellsCounted, HasCellRoom, KeepsRoom, Makes};

use crate::block_walk::{clear_blocks, sweep_blocks};
use crate::cell::{held, insert, make_cell, put, sweep};
use crate::node_bytes::{
    block_bytes, freed_block, freed_inode, freed_orphans, inode_bytes, name_bytes, orphans_in,
};
use fs_model::{Change, Entry, Inode, Kind, OrderedName};
use std::alloc::Global;
use std::collections::BTreeMap;
use ubifs_base::{Bytes, Memory, Name};

/// What a name stands for.
#[derive(Clone, Copy)]
pub(crate) struct Named {
    pub(crate) ino: u32,
    pub(crate) kind: Kind,
}

/// The cells of a tree, the bytes of its leaf nodes, and the number of its inodes without a name.
#[derive(Drop)]
pub(crate) struct TreeCells {
    pub(crate) inodes: BTreeMap<u32, Option<Inode>>,
    pub(crate) blocks: BTreeMap<(u32, u32), Option<Bytes>>,
    pub(crate) entries: BTreeMap<(u32, OrderedName), Option<Named>>,
    pub(crate) highest: u32,
    pub(crate) bytes: u64,
    pub(crate) orphans: u64,
}

/// Makes a change whose cell is there. Takes no memory.
pub(crate) fn make(cells: &mut TreeCells, change: Change)
    requires room { HasCellRoom cells.old change }
    requires fits { cells.old.bytes + set_bytes change < 2 ^ 64 }
    requires counted { AreCellsCounted cells.old }
    ensures { Makes cells.old cells.new (applied (tree_of_cells cells.old) change) (set_bytes change) }
{
    match change {
        Change::SetInode { ino, inode } => set_inode(cells, ino, inode),
        Change::SetEntry { entry } => set_entry(cells, entry),
        Change::DropEntry { dir, name } => drop_entry(cells, dir, name),
        Change::SetBlock { ino, block, bytes } => set_block(cells, ino, block, bytes),
        Change::CutBlocks {
            ino,
            old_size: _,
            new_size,
        } => cut_blocks(cells, ino, new_size),
        Change::DropInode { ino } => drop_inode(cells, ino),
    }
}

/// Sets an inode whose cell is there. Takes no memory.
pub(crate) fn set_inode(cells: &mut TreeCells, ino: u32, inode: Inode)
    requires room { has_cell nat_cmp cells.old.inodes.entries ino ≡ true }
    requires fits { cells.old.bytes + inode_bytes inode < 2 ^ 64 }
    requires counted { AreCellsCounted cells.old }
    ensures { Makes cells.old cells.new (applied (tree_of_cells cells.old) (SetInode ino inode)) (inode_bytes inode) }
{
    let added = inode_bytes(&inode);
    let more = orphans_in(&inode);
    let old = put(&mut cells.inodes, &ino, Some(inode));
    cells.bytes = cells.bytes + added - freed_inode(&old);
    cells.orphans = cells.orphans + more - freed_orphans(&old);
    cells.highest = cells.highest.max(ino);
}

fn set_entry(cells: &mut TreeCells, entry: Entry)
    requires room { has_cell name_cmp cells.old.entries.entries (entry.dir, entry.name) ≡ true }
    requires fits { cells.old.bytes + entry_bytes entry < 2 ^ 64 }
    requires counted { AreCellsCounted cells.old }
    ensures { Makes cells.old cells.new (applied (tree_of_cells cells.old) (SetEntry entry)) (entry_bytes entry) }
{
    let Entry {
        dir,
        name,
        ino,
        kind,
    } = entry;
    let added = name_bytes(&name);
    let key = (dir, OrderedName::from_name(name));
    let old = put(&mut cells.entries, &key, Some(Named { ino, kind }));
    cells.bytes = cells.bytes + added - freed_name(old, added);
    cells.highest = cells.highest.max(dir);
}

fn drop_entry(cells: &mut TreeCells, dir: u32, name: Name)
    requires counted { AreCellsCounted cells.old }
    ensures { Makes cells.old cells.new (applied (tree_of_cells cells.old) (DropEntry dir name)) 0 }
{
    let size = name_bytes(&name);
    let key = (dir, OrderedName::from_name(name));
    let old = put(&mut cells.entries, &key, None);
    cells.bytes -= freed_name(old, size);
    cells.highest = cells.highest.max(dir);
}

// The bytes of a name's node, where there was one.
fn freed_name(old: Option<Named>, size: u64) -> u64
    ensures { result ≡ (if is_some old then size else 0) }
{
    if old.is_some() { size } else { 0 }
}

fn set_block(cells: &mut TreeCells, ino: u32, block: u32, bytes: Bytes)
    requires room { has_cell pair_cmp cells.old.blocks.entries (ino, block) ≡ true }
    requires fits { cells.old.bytes + block_bytes bytes < 2 ^ 64 }
    requires counted { AreCellsCounted cells.old }
    ensures { Makes cells.old cells.new (applied (tree_of_cells cells.old) (SetBlock ino block bytes)) (block_bytes bytes) }
{
    cells.highest = cells.highest.max(ino);
    if held(&cells.inodes, &ino).is_none() {
        return;
    }
    let added = block_bytes(&bytes);
    let old = put(&mut cells.blocks, &(ino, block), Some(bytes));
    cells.bytes = cells.bytes + added - freed_block(&old);
}

/// Inserts a block, whether or not its inode is there. Where there is no memory the cells are as they were.
pub(crate) fn insert_block(
    cells: &mut TreeCells,
    ino: u32,
    block: u32,
    bytes: Bytes,
) -> Result<(), Memory>
    requires fits { cells.old.bytes + block_bytes bytes < 2 ^ 64 }
    requires counted { AreCellsCounted cells.old }
    ensures ok { OnOk result (tree_of_cells cells.new ≡ record (tree_of_cells cells.old) { blocks = with_block (tree_of_cells cells.old).blocks ino block bytes }) }
    ensures err { OnErr result (tree_of_cells cells.new ≡ tree_of_cells cells.old) }
    ensures counted { AreCellsCounted cells.new }
    ensures bytes { cells.new.bytes ≤ cells.old.bytes + block_bytes bytes }
    ensures inodes { cells.new.inodes.entries ≡ cells.old.inodes.entries }
{
    let added = block_bytes(&bytes);
    let old = insert(&mut cells.blocks, (ino, block), bytes)?;
    cells.bytes = cells.bytes + added - freed_block(&old);
    Ok(())
}

fn cut_blocks(cells: &mut TreeCells, ino: u32, size: u64)
    requires counted { AreCellsCounted cells.old }
    ensures { (old_size : ℕ) → Makes cells.old cells.new (applied (tree_of_cells cells.old) (CutBlocks ino old_size size)) 0 }
{
    let bytes = cells.bytes;
    cells.bytes = bytes - clear_blocks(&mut cells.blocks, ino, size);
    cells.highest = cells.highest.max(ino);
}

/// Drops an inode with its blocks. Takes no memory.
pub(crate) fn drop_inode(cells: &mut TreeCells, ino: u32)
    requires counted { AreCellsCounted cells.old }
    ensures { Makes cells.old cells.new (applied (tree_of_cells cells.old) (DropInode ino)) 0 }
{
    let bytes = cells.bytes;
    let old = put(&mut cells.inodes, &ino, None);
    cells.bytes = bytes - freed_inode(&old) - clear_blocks(&mut cells.blocks, ino, 0);
    cells.orphans -= freed_orphans(&old);
    cells.highest = cells.highest.max(ino);
}

/// Makes the cell of what a change sets. Nothing that is seen changes, whether or not there is memory.
pub(crate) fn make_room(alloc: Global, cells: &mut TreeCells, change: &Change) -> Result<(), Memory>
    ensures tree { tree_of_cells cells.new ≡ tree_of_cells cells.old }
    ensures bytes { cells.new.bytes ≡ cells.old.bytes }
    ensures orphans { cells.new.orphans ≡ cells.old.orphans }
    ensures keeps { KeepsRoom cells.old cells.new }
    ensures made { OnOk result (HasCellRoom cells.new change.now) }
{
    match change {
        Change::SetInode { ino, inode: _ } => make_cell(&mut cells.inodes, *ino),
        Change::SetEntry { entry } => {
            let key = entry_key(alloc, entry.dir, &entry.name)?;
            make_cell(&mut cells.entries, key)
        }
        Change::SetBlock {
            ino,
            block,
            bytes: _,
        } => make_cell(&mut cells.blocks, (*ino, *block)),
        _ => Ok(()),
    }
}

/// The key of an entry.
pub(crate) fn entry_key(alloc: Global, dir: u32, name: &Name) -> Result<(u32, OrderedName), Memory>
    ensures { IfOk result (λ key. key ≡ (dir, name.now)) }
{
    let name = Name::from_slice(alloc, name.as_slice())?;
    Ok((dir, OrderedName::from_name(name)))
}

/// Takes out the empty cells that a change may have left, but for those of names. Nothing that is seen changes.
pub(crate) fn sweep_after(cells: &mut TreeCells, change: &Change)
    ensures tree { tree_of_cells cells.new ≡ tree_of_cells cells.old }
    ensures bytes { cells.new.bytes ≡ cells.old.bytes }
    ensures orphans { cells.new.orphans ≡ cells.old.orphans }
{
    match change {
        Change::SetInode { ino, inode: _ } => sweep(&mut cells.inodes, ino),
        Change::SetBlock {
            ino,
            block,
            bytes: _,
        } => sweep(&mut cells.blocks, &(*ino, *block)),
        Change::CutBlocks {
            ino,
            old_size: _,
            new_size: _,
        } => sweep_blocks(&mut cells.blocks, *ino),
        Change::DropInode { ino } => sweep_inode(cells, *ino),
        _ => {}
    }
}

/// Takes out the empty cells of an inode and its blocks. Nothing that is seen changes.
pub(crate) fn sweep_inode(cells: &mut TreeCells, ino: u32)
    ensures tree { tree_of_cells cells.new ≡ tree_of_cells cells.old }
    ensures bytes { cells.new.bytes ≡ cells.old.bytes }
    ensures orphans { cells.new.orphans ≡ cells.old.orphans }
{
    sweep(&mut cells.inodes, &ino);
    sweep_blocks(&mut cells.blocks, ino);
}
