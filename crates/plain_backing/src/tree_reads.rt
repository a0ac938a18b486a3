// What is read of cells in order of key.

ghost use Rattle.std.specs.Prelude.{◌≡◌, ◌++◌, ◌∷◌, ℕ, List, [], false, IfOk, OnOk};
ghost use Rattle.std.specs.BTreeMap.Range.{is_past_end};
ghost use Rattle.plain_backing.specs.Cells.{seen_cells};
ghost use Rattle.fs_model.specs.Files.{pair_cmp, name_cmp};
ghost use Rattle.plain_backing.specs.TreeCells.{in_directory};
ghost use Rattle.fs_model.specs.Files.{last_block_of};

use crate::tree_cells::Named;
use fs_model::{Entry, OrderedName};
use std::alloc::Global;
use std::collections::BTreeMap;
use std::ops::Bound;
use ubifs_base::{Bytes, Memory, Name};

/// The entries of a directory, in order of name.
pub(crate) fn entries_in(
    alloc: Global,
    map: &BTreeMap<(u32, OrderedName), Option<Named>>,
    dir: u32,
) -> Result<Vec<Entry>, Memory>
    ensures { IfOk result (λ entries. entries.items ≡ in_directory dir map.now.entries) }
{
    let start = Bound::Included((dir, OrderedName::first(alloc)));
    let mut entries = Vec::new(alloc);
    let mut names = map.range((start, names_end(alloc, dir)));
    while let Some((key, cell)) = names.next() {
        push_entry(alloc, &mut entries, key, cell, dir)?;
    }
    Ok(entries)
}

// Where the names of a directory end.
fn names_end(alloc: Global, dir: u32) -> Bound<(u32, OrderedName)>
    ensures { (k : ℕ × List ℕ) → k.0 ≡ dir → is_past_end name_cmp result k ≡ false }
{
    match dir.checked_add(1) {
        Some(next) => Bound::Excluded((next, OrderedName::first(alloc))),
        None => Bound::Unbounded,
    }
}

// Appends the entry of a cell, where it holds one and is of this directory.
fn push_entry(
    alloc: Global,
    entries: &mut Vec<Entry>,
    key: &(u32, OrderedName),
    cell: &Option<Named>,
    dir: u32,
) -> Result<(), Memory>
    ensures { OnOk result (entries.new.items ≡ entries.old.items ++ in_directory dir ((key.now, cell.now) ∷ [])) }
{
    let Some(named) = cell else {
        return Ok(());
    };
    if key.0 == dir {
        let name = Name::from_slice(alloc, key.1.as_slice())?;
        entries.push(Entry {
            dir,
            name,
            ino: named.ino,
            kind: named.kind,
        })?;
    }
    Ok(())
}

/// The greatest number of an inode's blocks.
pub(crate) fn last_block(map: &BTreeMap<(u32, u32), Option<Bytes>>, ino: u32) -> Option<u32>
    ensures { result ≡ last_block_of (seen_cells map.now.entries) ino }
{
    let mut left = map.range((Bound::Included((ino, 0)), blocks_end(ino)));
    while let Some((key, cell)) = left.next_back() {
        if key.0 == ino && cell.is_some() {
            return Some(key.1);
        }
    }
    None
}

/// Where the blocks of an inode end.
pub(crate) fn blocks_end(ino: u32) -> Bound<(u32, u32)>
    ensures { (k : ℕ × ℕ) → k.0 ≡ ino → is_past_end pair_cmp result k ≡ false }
{
    match ino.checked_add(1) {
        Some(next) => Bound::Excluded((next, 0)),
        None => Bound::Unbounded,
    }
}
