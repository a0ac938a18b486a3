// A tree of files in memory.

ghost use Rattle.std.specs.Prelude.{◌≡◌, ◌<◌, ◌≤◌, ◌^◌, ◌==◌, IfOk, OnOk, OnErr, filter, length, []};
ghost use Rattle.std.specs.Option.{option_copied, option_map};
ghost use Rattle.fs_model.specs.Backing.{page_group};
ghost use Rattle.fs_model.specs.Change.{apply, without_inode};
ghost use Rattle.fs_model.specs.Orphan.{nameless};
ghost use Rattle.fs_model.specs.Cover.{tree_bytes};
ghost use Rattle.fs_model.specs.Directory.{entries_in};
ghost use Rattle.fs_model.specs.Files.{inode_at, entry_at, block_at};
ghost use Rattle.plain_backing.specs.Covering.{leaf_count};
ghost use Rattle.plain_backing.specs.TreeCells.{entry_of};
ghost use Rattle.plain_backing.specs.TreeReads.{has_block};
ghost use Rattle.fs_model.specs.Files.{last_block_of};
ghost use Rattle.fs_model.specs.Proper.{IsInOrder};

use crate::cell::held;
use crate::rounds::{make_all, prepare, set_page, sweep_all};
use crate::tree_cells::{Named, TreeCells, drop_inode, entry_key, sweep_inode};
use crate::tree_reads::{entries_in, last_block};
use crate::tree_rows::{BlockRows, InodeRows};
use fs_model::{Entry, Group, Inode, OrderedName, PageNode};
use std::alloc::Global;
use std::collections::BTreeMap;
use std::marker::Model;
use ubifs_base::{Bytes, Memory, Name};

/// Inodes, blocks and entries, and the highest inode number that was ever used: a tree of files kept in memory, which
/// contracts see as the record `Tree` of `specs/Files.antt`.
#[derive(Drop)]
pub struct Tree {
    cells: TreeCells,
}

impl Model for Tree {
    ghost use Rattle.fs_model.specs.Files.{Tree as FilesTree};

    ghost Value = { FilesTree };

    ghost use Rattle.std.specs.Prelude.{◌<◌, ◌^◌};
    ghost use Rattle.plain_backing.specs.TreeCells.{tree_of_cells, AreCellsCounted};

    ghost view = { λ b. tree_of_cells b.cells };

    ghost invariant = { λ b. AreCellsCounted b.cells × (b.cells.bytes < 2 ^ 40) };
}

impl Tree {
    /// No inodes, blocks and entries, and this highest inode number.
    pub fn new(alloc: Global, highest: u32) -> Tree
        ensures { result ≡ record { inodes = []; blocks = []; entries = []; highest = highest } }
    {
        Tree {
            cells: TreeCells {
                inodes: BTreeMap::new(alloc),
                blocks: BTreeMap::new(alloc),
                entries: BTreeMap::new(alloc),
                highest,
                bytes: 0,
                orphans: 0,
            },
        }
    }

    /// Makes a group of changes, all or none: where there is no memory, or the tree would have 2^40 bytes,
    /// the tree is as it was.
    pub fn apply(&mut self, alloc: Global, group: &Group) -> Result<(), Memory>
        ensures ok { OnOk result (self.new ≡ apply self.old group.now) }
        ensures err { OnErr result (self.new ≡ self.old) }
        ensures few { tree_bytes self.new < 2 ^ 40 }
    {
        let mut keys = Vec::new(alloc);
        let changes = group.as_slice();
        match prepare(alloc, &mut self.cells, &mut keys, changes) {
            Ok(copies) => {
                make_all(&mut self.cells, copies);
                sweep_all(&mut self.cells, keys.as_slice(), changes);
                Ok(())
            }
            Err(_) => {
                sweep_all(&mut self.cells, keys.as_slice(), changes);
                Err(Memory)
            }
        }
    }

    /// Makes the changes of a page's two nodes, as `apply` makes a group of them.
    pub(crate) fn set_page(&mut self, alloc: Global, page: &PageNode) -> Result<(), Memory>
        ensures ok { OnOk result (self.new ≡ apply self.old (page_group page.now)) }
        ensures err { OnErr result (self.new ≡ self.old) }
        ensures few { tree_bytes self.new < 2 ^ 40 }
    {
        set_page(alloc, &mut self.cells, page)
    }

    /// The inode of a number.
    pub fn inode(&self, ino: u32) -> Option<&Inode>
        ensures { option_copied result ≡ inode_at self.now ino }
    {
        held(&self.cells.inodes, &ino)
    }

    /// The entry of a name in a directory. The error is want of memory.
    pub fn entry(&self, alloc: Global, dir: u32, name: &Name) -> Result<Option<Entry>, Memory>
        ensures { IfOk result (λ entry. entry ≡ entry_at self.now dir name.now) }
    {
        let key = entry_key(alloc, dir, name)?;
        Ok(named(held(&self.cells.entries, &key), key))
    }

    /// The entries of a directory, in order of name. The time goes with their number, not with the tree.
    pub fn entries_in(&self, alloc: Global, dir: u32) -> Result<Vec<Entry>, Memory>
        ensures { IfOk result (λ entries. entries.items ≡ entries_in self.now dir) }
    {
        entries_in(alloc, &self.cells.entries, dir)
    }

    /// The inodes, in order of number. Takes no memory.
    pub fn inodes(&self) -> InodeRows<'_>
        ensures { result ≡ self.now.inodes }
    {
        InodeRows::new(&self.cells.inodes)
    }

    /// The blocks of an inode, in order of number. Takes no memory.
    pub fn blocks_of(&self, ino: u32) -> BlockRows<'_>
        ensures { result ≡ filter (λ stored. stored.0.0 == ino) self.now.blocks }
    {
        BlockRows::new(&self.cells.blocks, ino)
    }

    /// The stored bytes of a block; a missing one has none.
    pub fn block(&self, ino: u32, block: u32) -> &[u8]
        ensures { result.now ≡ block_at self.now.blocks ino block }
    {
        match held(&self.cells.blocks, &(ino, block)) {
            Some(bytes) => bytes.as_slice(),
            None => &[],
        }
    }

    /// Whether an inode has a block of this number.
    pub fn has_block(&self, ino: u32, block: u32) -> bool
        ensures { result ≡ has_block self.now.blocks ino block }
    {
        held(&self.cells.blocks, &(ino, block)).is_some()
    }

    /// The greatest number of an inode's blocks.
    pub fn last_block(&self, ino: u32) -> Option<u32>
        ensures { result ≡ last_block_of self.now.blocks ino }
    {
        last_block(&self.cells.blocks, ino)
    }

    /// Drops an inode with its blocks, and leaves the highest number as it is. Takes no memory.
    pub fn drop_inode(&mut self, ino: u32)
        ensures dropped { self.new ≡ without_inode self.old ino }
        ensures few { tree_bytes self.new < 2 ^ 40 }
    {
        let highest = self.cells.highest;
        drop_inode(&mut self.cells, ino);
        self.cells.highest = highest;
        sweep_inode(&mut self.cells, ino);
    }

    /// How many inodes have no name. They are kept count of.
    pub fn orphans(&self) -> u64
        ensures { result ≡ length (nameless self.now) }
    {
        self.cells.orphans
    }

    /// Does nothing. Contracts see that its inodes, blocks and entries are in order of key.
    pub(crate) fn show_order(&self)
        ensures { IsInOrder self.now }
    {
        let _ = (
            self.cells.inodes.len(),
            self.cells.blocks.len(),
            self.cells.entries.len(),
        );
    }

    /// The highest inode number that was ever used.
    pub fn highest(&self) -> u32
        ensures { result ≡ self.now.highest }
    {
        self.cells.highest
    }

    /// The bytes of the tree's leaf nodes, each rounded up to 8. They are kept, not counted.
    pub fn bytes(&self) -> u64
        ensures bytes { result ≡ tree_bytes self.now }
        ensures few { result < 2 ^ 40 }
    {
        self.cells.bytes
    }

    /// How many leaf nodes it has, or more where cells are empty; at most 2^40. They are kept, not counted.
    pub fn leaves(&self) -> u64
        ensures all { leaf_count self.now ≤ result }
        ensures few { result ≤ 2 ^ 40 }
    {
        let _bytes = self.bytes();
        let (inodes, blocks, entries) = self.count_cells();
        (inodes as u64)
            .saturating_add(blocks as u64)
            .saturating_add(entries as u64)
            .min(1 << 40)
    }

    /// How many cells are kept of inodes, blocks and entries, empty ones among them.
    pub fn count_cells(&self) -> (usize, usize, usize)
        ensures inodes { length self.now.inodes ≤ result.0 }
        ensures blocks { length self.now.blocks ≤ result.1 }
        ensures entries { length self.now.entries ≤ result.2 }
    {
        let cells = &self.cells;
        (cells.inodes.len(), cells.blocks.len(), cells.entries.len())
    }
}

// The entry of a key that names something.
fn named(found: Option<&Named>, key: (u32, OrderedName)) -> Option<Entry>
    ensures { result ≡ option_map (entry_of key) (option_copied found.entry) }
{
    let Some(named) = found else {
        return None;
    };
    let (dir, name) = key;
    Some(Entry {
        dir,
        name: name.into_name(),
        ino: named.ino,
        kind: named.kind,
    })
}
