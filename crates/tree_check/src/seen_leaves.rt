// What leaves showed so far.

ghost use Rattle.std.specs.Prelude.{◌≡◌, ◌||◌, ℕ, [], is_some, IfOk, OnOk};
ghost use Rattle.std.specs.BTreeMap.{get, is_at};
ghost use Rattle.std.specs.Ordering.{nat_cmp};
ghost use Rattle.fs_model.specs.Files.{name_cmp, pair_cmp};
ghost use Rattle.tree_check.specs.Seen.{is_cut_off, is_seen, is_cut_by, least_at, cuts_block, same_block, same_inode, same_name, same_told};
ghost use Rattle.tree_check.specs.declared.shown_leaf.Shown.{Shown as AShown};

use crate::links::name_key;
use crate::shown_leaf::Shown;
use fs_model::{BLOCK_SIZE, OrderedName};
use std::alloc::Global;
use std::collections::BTreeMap;
use ubifs_base::{Memory, Name};

/// The inodes, names and blocks that leaves showed, and to how many bytes they truncated inodes at least.
#[derive(Drop)]
pub(crate) struct SeenLeaves {
    pub(crate) inodes: BTreeMap<u32, bool>,
    pub(crate) names: BTreeMap<(u32, OrderedName), bool>,
    pub(crate) blocks: BTreeMap<(u32, u32), bool>,
    pub(crate) cuts: BTreeMap<u32, u64>,
}

/// Nothing was shown. Takes no memory.
pub(crate) fn nothing_seen(alloc: Global) -> SeenLeaves
    ensures no_inodes { result.inodes.entries ≡ [] }
    ensures no_names { result.names.entries ≡ [] }
    ensures no_blocks { result.blocks.entries ≡ [] }
    ensures no_cuts { result.cuts.entries ≡ [] }
{
    SeenLeaves {
        inodes: BTreeMap::new(alloc),
        names: BTreeMap::new(alloc),
        blocks: BTreeMap::new(alloc),
        cuts: BTreeMap::new(alloc),
    }
}

/// Whether the same was shown before; it is from now on.
pub(crate) fn see(seen: &mut SeenLeaves, shown: &Shown) -> Result<bool, Memory>
    ensures was { IfOk result (λ was. was ≡ is_seen seen.old shown.now) }
    ensures noted { OnOk result ((s : AShown) → is_seen seen.new s ≡ (is_seen seen.old s || same_told shown.now s)) }
{
    match shown {
        Shown::Inode { ino, .. } => see_inode(seen, *ino),
        Shown::Entry { dir, name, .. } => see_name(seen, *dir, name),
        Shown::Deletion { dir, name } => {
            see_name(seen, *dir, name)?;
            Ok(false)
        }
        Shown::Block { ino, block } => see_block(seen, *ino, *block),
        Shown::Truncation { ino, size } => {
            see_cut(seen, *ino, *size)?;
            Ok(false)
        }
        Shown::Nothing => Ok(false),
    }
}

fn see_inode(seen: &mut SeenLeaves, ino: u32) -> Result<bool, Memory>
    ensures was { IfOk result (λ was. was ≡ is_some (get nat_cmp seen.old.inodes ino)) }
    ensures noted { OnOk result ((s : AShown) → is_seen seen.new s ≡ (is_seen seen.old s || same_inode ino s)) }
{
    note(&mut seen.inodes, ino)
}

fn see_name(seen: &mut SeenLeaves, dir: u32, name: &Name) -> Result<bool, Memory>
    ensures was { IfOk result (λ was. was ≡ is_some (get name_cmp seen.old.names (dir, name.now))) }
    ensures noted { OnOk result ((s : AShown) → is_seen seen.new s ≡ (is_seen seen.old s || same_name dir name.now s)) }
{
    let key = name_key(dir, name)?;
    let was = note(&mut seen.names, key)?;
    Ok(was)
}

fn see_block(seen: &mut SeenLeaves, ino: u32, block: u32) -> Result<bool, Memory>
    ensures was { IfOk result (λ was. was ≡ (is_some (get pair_cmp seen.old.blocks (ino, block)) || is_cut_off seen.old.cuts ino block)) }
    ensures noted { OnOk result ((s : AShown) → is_seen seen.new s ≡ (is_seen seen.old s || same_block ino block s)) }
{
    let was = note(&mut seen.blocks, (ino, block))?;
    Ok(was || is_cut_off(&seen.cuts, ino, block))
}

fn see_cut(seen: &mut SeenLeaves, ino: u32, size: u64) -> Result<(), Memory>
    ensures { OnOk result ((s : AShown) → is_seen seen.new s ≡ (is_seen seen.old s || cuts_block ino size s)) }
{
    note_cut(&mut seen.cuts, ino, size)
}

// Whether a key is in a set; it is from now on.
fn note<K: Ord + Drop>(set: &mut BTreeMap<K, bool>, key: K) -> Result<bool, Memory>
    ensures was { IfOk result (λ was. was ≡ is_some (get K.cmp set.old key)) }
    ensures noted { OnOk result ((q : K) → is_some (get K.cmp set.new q) ≡ (is_some (get K.cmp set.old q) || is_at (K.cmp key) q)) }
{
    let old = set.insert(key, true)?;
    Ok(old.is_some())
}

// Notes to how many bytes an inode was truncated; the fewest count.
fn note_cut(cuts: &mut BTreeMap<u32, u64>, ino: u32, size: u64) -> Result<(), Memory>
    ensures { OnOk result ((q block : ℕ) → is_cut_off cuts.new q block ≡ (is_cut_off cuts.old q block || is_cut_by ino size q block)) }
{
    let least = least_at(cuts, ino, size);
    cuts.insert(ino, least)?;
    Ok(())
}

// The fewer bytes of these and those to which an inode was truncated.
fn least_at(cuts: &BTreeMap<u32, u64>, ino: u32, size: u64) -> u64
    ensures { result ≡ least_at (get nat_cmp cuts.now ino) size }
{
    match cuts.get(&ino) {
        Some(least) => size.min(*least),
        None => size,
    }
}

// Whether a truncation cuts a block off.
fn is_cut_off(cuts: &BTreeMap<u32, u64>, ino: u32, block: u32) -> bool
    ensures { result ≡ is_cut_off cuts.now ino block }
{
    match cuts.get(&ino) {
        Some(size) => *size <= BLOCK_SIZE * block as u64,
        None => false,
    }
}
