// Visits of a tree in order of key.

ghost use Rattle.std.specs.Prelude.{◌≡◌, ◌==◌, filter, length};
ghost use Rattle.std.specs.Iterator.{at_most};
ghost use Rattle.std.specs.Map.Iter.{TakesFirst};
ghost use Rattle.plain_backing.specs.Cells.{seen_cells};
ghost use Rattle.plain_backing.specs.TreeRows.{inode_row, block_row};

use crate::tree_reads::blocks_end;
use fs_model::Inode;
use std::collections::{BTreeMap, btree_map};
use std::iter::{FusedIterator, Iterator};
use std::marker::Model;
use std::ops::Bound;
use ubifs_base::Bytes;

/// The inodes of a tree that weren't visited yet, in order of number, which contracts see as a list. Takes no memory.
#[derive(Drop)]
pub struct InodeRows<'a> {
    cells: btree_map::Iter<'a, u32, Option<Inode>>,
}

impl<'a> Model for InodeRows<'a> {
    ghost use Rattle.fs_model.specs.Files.{Inodes};
    ghost use Rattle.plain_backing.specs.Cells.{seen_cells};

    ghost Value = { Inodes };

    ghost view = { λ rows. seen_cells rows.cells };
}

impl<'a> InodeRows<'a> {
    pub(crate) fn new(map: &'a BTreeMap<u32, Option<Inode>>) -> InodeRows<'a>
        ensures { result ≡ seen_cells map.now.entries }
    {
        InodeRows { cells: map.iter() }
    }
}

impl<'a> Iterator for InodeRows<'a> {
    type Item = (u32, &'a Inode);

    ghost next_gives = { TakesFirst inode_row };

    ghost remaining = { λ rows. at_most (length rows) };

    fn next(&mut self) -> Option<(u32, &'a Inode)> {
        while let Some((ino, cell)) = self.cells.next() {
            if let Some(inode) = cell {
                return Some((*ino, inode));
            }
        }
        None
    }
}

impl FusedIterator for InodeRows<'_> {}

/// The blocks of an inode that weren't visited yet, in order of number, which contracts see as a list. Each comes with its
/// inode and number. Takes no memory.
#[derive(Drop)]
pub struct BlockRows<'a> {
    ino: u32,
    cells: btree_map::Range<'a, (u32, u32), Option<Bytes>>,
}

impl<'a> Model for BlockRows<'a> {
    ghost use Rattle.std.specs.Prelude.{◌==◌, filter};
    ghost use Rattle.fs_model.specs.Files.{Blocks};
    ghost use Rattle.plain_backing.specs.Cells.{seen_cells};

    ghost Value = { Blocks };

    ghost view = { λ rows. filter (λ stored. stored.0.0 == rows.ino) (seen_cells rows.cells) };
}

impl<'a> BlockRows<'a> {
    pub(crate) fn new(map: &'a BTreeMap<(u32, u32), Option<Bytes>>, ino: u32) -> BlockRows<'a>
        ensures { result ≡ filter (λ stored. stored.0.0 == ino) (seen_cells map.now.entries) }
    {
        let start = Bound::Included((ino, 0));
        BlockRows {
            ino,
            cells: map.range((start, blocks_end(ino))),
        }
    }
}

impl<'a> Iterator for BlockRows<'a> {
    type Item = ((u32, u32), &'a Bytes);

    ghost next_gives = { TakesFirst block_row };

    ghost remaining = { λ rows. at_most (length rows) };

    fn next(&mut self) -> Option<((u32, u32), &'a Bytes)> {
        while let Some((key, cell)) = self.cells.next() {
            if let Some(bytes) = cell
                && key.0 == self.ino
            {
                return Some((*key, bytes));
            }
        }
        None
    }
}

impl FusedIterator for BlockRows<'_> {}
