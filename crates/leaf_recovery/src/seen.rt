// What leaves show, for look-ups.

ghost use Rattle.std.specs.Prelude.{◌≡◌, ◌*◌, ◌==◌, ◌||◌, ◌&&◌, nat_le, cond, is_some, false, true, ℕ, List, Some, IfOk, OnOk};
ghost use Rattle.std.specs.BTreeMap.{get, is_at};
ghost use Rattle.std.specs.Ordering.{nat_cmp};
ghost use Rattle.fs_model.specs.Files.{name_cmp, pair_cmp};
ghost use Rattle.leaf_recovery.specs.Seen.{cut_seen, has_seen};
ghost use Rattle.leaf_recovery.specs.Things.{shows_told};
ghost use Rattle.journal_scan.specs.declared.node_content.NodeContent.{NodeContent};

use fs_model::OrderedName;
use journal_scan::NodeContent;
use std::alloc::Global;
use std::collections::BTreeMap;
use ubifs_base::{Memory, Name};

// The bytes of a block.
const BLOCK_BYTES: u64 = 4096;

// The blocks of an inode behind a size.
#[derive(Clone, Copy)]
pub(crate) struct Cut {
    pub(crate) ino: u32,
    pub(crate) size: u64,
}

// What leaves show: inodes, blocks, names, and the blocks behind some sizes.
#[derive(Drop)]
pub(crate) struct Seen {
    pub(crate) inodes: BTreeMap<u32, bool>,
    pub(crate) blocks: BTreeMap<(u32, u32), bool>,
    pub(crate) names: BTreeMap<(u32, OrderedName), bool>,
    pub(crate) cuts: Vec<Cut>,
}

// Nothing that is shown.
pub(crate) fn nothing(alloc: Global) -> Seen
    ensures { (c : NodeContent) → has_seen result c ≡ false }
{
    Seen {
        inodes: BTreeMap::new(alloc),
        blocks: BTreeMap::new(alloc),
        names: BTreeMap::new(alloc),
        cuts: Vec::new(alloc),
    }
}

// Keeps what a node shows.
pub(crate) fn note(alloc: Global, seen: &mut Seen, content: &NodeContent) -> Result<(), Memory>
    ensures { OnOk result ((c : NodeContent) → has_seen seen.new c ≡ (shows_told content.now c || has_seen seen.old c)) }
{
    match content {
        NodeContent::Inode { ino, .. } => {
            note_inode(&mut seen.inodes, *ino)?;
        }
        NodeContent::Block { ino, block } => {
            note_block(&mut seen.blocks, *ino, *block)?;
        }
        NodeContent::Entry { dir, name, .. } => {
            note_name(alloc, &mut seen.names, *dir, name)?;
        }
        NodeContent::Truncation { ino, new_size } => {
            note_cut(&mut seen.cuts, *ino, *new_size)?;
        }
        NodeContent::Unknown { .. } => {}
    }
    Ok(())
}

fn note_inode(inodes: &mut BTreeMap<u32, bool>, ino: u32) -> Result<(), Memory>
    ensures { OnOk result ((q : ℕ) → get nat_cmp inodes.new q ≡ cond (is_at (nat_cmp ino) q) (Some true) (get nat_cmp inodes.old q)) }
{
    inodes.insert(ino, true)?;
    Ok(())
}

fn note_block(blocks: &mut BTreeMap<(u32, u32), bool>, ino: u32, block: u32) -> Result<(), Memory>
    ensures { OnOk result ((q : ℕ × ℕ) → get pair_cmp blocks.new q ≡ cond (is_at (pair_cmp (ino, block)) q) (Some true) (get pair_cmp blocks.old q)) }
{
    blocks.insert((ino, block), true)?;
    Ok(())
}

fn note_name(
    alloc: Global,
    names: &mut BTreeMap<(u32, OrderedName), bool>,
    dir: u32,
    name: &Name,
) -> Result<(), Memory>
    ensures { OnOk result ((q : ℕ × List ℕ) → get name_cmp names.new q ≡ cond (is_at (name_cmp (dir, name.now)) q) (Some true) (get name_cmp names.old q)) }
{
    let key = (dir, ordered(alloc, name)?);
    names.insert(key, true)?;
    Ok(())
}

fn note_cut(cuts: &mut Vec<Cut>, ino: u32, size: u64) -> Result<(), Memory>
    ensures { OnOk result ((q number : ℕ) → cut_seen cuts.new.items q number ≡ (cut_seen cuts.old.items q number || ((q == ino) && nat_le size (4096 * number)))) }
{
    cuts.push(Cut { ino, size })?;
    Ok(())
}

// A name as a key of a map.
fn ordered(alloc: Global, name: &Name) -> Result<OrderedName, Memory>
    ensures { IfOk result (λ key. key ≡ name.now) }
{
    let name = Name::from_slice(alloc, name.as_slice())?;
    Ok(OrderedName::from_name(name))
}

// Whether something that was kept is what a node shows.
pub(crate) fn has_seen(alloc: Global, seen: &Seen, content: &NodeContent) -> Result<bool, Memory>
    ensures { IfOk result (λ found. found ≡ has_seen seen.now content.now) }
{
    match content {
        NodeContent::Inode { ino, .. } => Ok(seen.inodes.contains_key(ino)),
        NodeContent::Block { ino, block } => Ok(has_block(seen, *ino, *block)),
        NodeContent::Entry { dir, name, linked } => {
            if !*linked {
                return Ok(false);
            }
            let found = has_name(alloc, &seen.names, *dir, name)?;
            Ok(found)
        }
        NodeContent::Truncation { .. } | NodeContent::Unknown { .. } => Ok(false),
    }
}

fn has_block(seen: &Seen, ino: u32, block: u32) -> bool
    ensures { result ≡ (is_some (get pair_cmp seen.now.blocks (ino, block)) || cut_seen seen.now.cuts.items ino block) }
{
    if has_pair(&seen.blocks, ino, block) {
        return true;
    }
    is_cut(seen.cuts.as_slice(), ino, block)
}

fn has_pair(blocks: &BTreeMap<(u32, u32), bool>, ino: u32, block: u32) -> bool
    ensures { result ≡ is_some (get pair_cmp blocks.now (ino, block)) }
{
    let key = (ino, block);
    blocks.contains_key(&key)
}

fn has_name(
    alloc: Global,
    names: &BTreeMap<(u32, OrderedName), bool>,
    dir: u32,
    name: &Name,
) -> Result<bool, Memory>
    ensures { IfOk result (λ found. found ≡ is_some (get name_cmp names.now (dir, name.now))) }
{
    let key = (dir, ordered(alloc, name)?);
    let found = names.contains_key(&key);
    Ok(found)
}

// Whether a block stands behind one of these sizes.
fn is_cut(cuts: &[Cut], ino: u32, block: u32) -> bool
    ensures { result ≡ cut_seen cuts.now ino block }
{
    for cut in cuts {
        if ino == cut.ino && cut.size <= BLOCK_BYTES * block as u64 {
            return true;
        }
    }
    false
}
