// Over the blocks of an inode.

ghost use Rattle.std.specs.Prelude.{◌≡◌, ◌+◌, ◌/◌, ◌^◌, ◌<◌, ◌≤◌, sum_by};
ghost use Rattle.std.specs.Map.{keys_of, values_of};
ghost use Rattle.plain_backing.specs.Cells.{seen_cells, cleared};
ghost use Rattle.plain_backing.specs.BlockWalk.{is_block_cut};
ghost use Rattle.fs_model.specs.Change.{cut_blocks};
ghost use Rattle.fs_model.specs.Cover.{block_bytes};

use crate::node_bytes::freed_block;
use crate::tree_reads::blocks_end;
use fs_model::BLOCK_SIZE;
use std::collections::BTreeMap;
use std::iter::Iterator;
use std::ops::Bound;
use ubifs_base::Bytes;

/// Empties the cells of an inode's blocks that begin at a size or past it, and answers the bytes of their nodes. Takes no
/// memory.
pub(crate) fn clear_blocks(
    map: &mut BTreeMap<(u32, u32), Option<Bytes>>,
    ino: u32,
    size: u64,
) -> u64
    requires { sum_by block_bytes (values_of (seen_cells map.old.entries)) < 2 ^ 64 }
    ensures cut { seen_cells map.new.entries ≡ cut_blocks (seen_cells map.old.entries) ino size }
    ensures keys { keys_of map.new.entries ≡ keys_of map.old.entries }
    ensures freed { sum_by block_bytes (values_of (seen_cells map.new.entries)) + result ≡ sum_by block_bytes (values_of (seen_cells map.old.entries)) }
{
    let freed = cut_bytes(map, ino, size);
    empty_cells(map, ino, size);
    freed
}

// The bytes of the nodes of an inode's blocks that begin at a size or past it.
fn cut_bytes(map: &BTreeMap<(u32, u32), Option<Bytes>>, ino: u32, size: u64) -> u64
    requires { sum_by block_bytes (values_of (seen_cells map.now.entries)) < 2 ^ 64 }
    ensures { sum_by block_bytes (values_of (cut_blocks (seen_cells map.now.entries) ino size)) + result ≡ sum_by block_bytes (values_of (seen_cells map.now.entries)) }
{
    let mut total = 0;
    let mut left = map.range((Bound::Included((ino, first_block(size))), blocks_end(ino)));
    while let Some((key, cell)) = left.next() {
        if is_cut(*key, ino, size) {
            total += freed_block(cell);
        }
    }
    total
}

// Empties the cells of an inode's blocks that begin at a size or past it.
fn empty_cells(map: &mut BTreeMap<(u32, u32), Option<Bytes>>, ino: u32, size: u64)
    ensures { map.new.entries ≡ cleared (is_block_cut ino size) map.old.entries }
{
    let range = (Bound::Included((ino, first_block(size))), blocks_end(ino));
    // No cell is taken out, so that one step goes over the whole range.
    let mut walk = map.extract_if(range, move |key: &(u32, u32), cell: &mut Option<Bytes>| {
        if is_cut(*key, ino, size) {
            *cell = None;
        }
        false
    });
    drop(walk.next());
}

// A block before which none of an inode's begins at a size or past it.
fn first_block(size: u64) -> u32
    ensures { result ≤ size / 4096 }
{
    (size / BLOCK_SIZE).min(u32::MAX as u64) as u32
}

// Whether a block is of an inode and begins at a size or past it.
fn is_cut(key: (u32, u32), ino: u32, size: u64) -> bool
    ensures { result ≡ is_block_cut ino size key }
{
    key.0 == ino && size <= BLOCK_SIZE * key.1 as u64
}

/// Takes out the empty cells of an inode's blocks. Nothing that is seen changes. Takes no memory.
pub(crate) fn sweep_blocks(map: &mut BTreeMap<(u32, u32), Option<Bytes>>, ino: u32)
    ensures same { seen_cells map.new.entries ≡ seen_cells map.old.entries }
{
    let range = (Bound::Included((ino, 0)), blocks_end(ino));
    let mut walk = map.extract_if(
        range,
        move |_key: &(u32, u32), cell: &mut Option<Bytes>| cell.is_none(),
    );
    // Each step takes out one cell.
    while let Some(_cell) = walk.next() {}
}
