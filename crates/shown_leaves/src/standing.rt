// What nodes show, where a node is known to stand.

ghost use Rattle.std.specs.Prelude.{◌≡◌, ℕ, IfOk, IsFalse, IsTrue, Some, false, length};
ghost use Rattle.leaf_map.specs.Kept.{Placed, shown};
ghost use Rattle.media_leaf.specs.LeafNode.{IsLeafNode, LeafNode, inode, block, entry, truncation};
ghost use Rattle.media_leaf.specs.declared.data_node.DataNode.{DataNode};
ghost use Rattle.media_leaf.specs.declared.dent_node.DentNode.{DentNode};
ghost use Rattle.media_leaf.specs.declared.ino_node.InoNode.{InoNode};
ghost use Rattle.media_leaf.specs.declared.trun_node.TrunNode.{TrunNode};
ghost use Rattle.sound_image.specs.Leaves.{IsPlacedIn};
ghost use Rattle.tree_check.specs.Told.{shown_told};
ghost use Rattle.ubi_volume.specs.Volume.{Keeps, SameShape};
ghost use Rattle.ubi_volume.specs.Faults.{HasAreaCause, StaysSureArea};
ghost use Rattle.shown_leaves.specs.Sources.{IsSourceIn, IsReadFrom};

use crate::shown::{block_shown, entry_shown, inode_shown, truncation_shown};
use crate::sourced_leaf::Source;
use media_leaf::{TrunNode, one_node};
use node_fields::{u16_at, u32_at, u64_at};
use std::alloc::Global;
use tree_check::Shown;
use ubi_volume::{AreaFault, Volume};
use ubifs_base::{Memory, Name};

// No leaf node has more bytes: those of an inode, and as many as a symbolic link's target or a block can have.
pub(crate) const MOST_BYTES: u32 = 160 + 4096;

// Where the numbers of a node stand: its type, its key, and behind these those of an inode and of an entry.
const TYPE_PLACE: usize = 20;

const KEY_PLACE: usize = 24;

const LINKS_PLACE: usize = 24 + 68;

const MODE_PLACE: usize = 24 + 80;

const INODE_END: usize = 160;

const INUM_PLACE: usize = 24 + 16;

const KIND_PLACE: usize = 24 + 25;

const SIZE_PLACE: usize = 24 + 26;

const NAME_PLACE: usize = 24 + 32;

/// What the node shows that is known to stand at a place. So its checksum isn't computed. The buffer has room for any leaf node.
pub(crate) fn read_standing<V: Volume>(
    alloc: Global,
    volume: &mut V,
    source: Source,
    buffer: &mut [u8],
) -> Result<Shown, AreaFault>
    requires room { length buffer.old ≡ 4256 }
    ensures len { length buffer.new ≡ length buffer.old }
    ensures shown { IfOk result (λ s. (node : Placed) → IsReadFrom source node → IsPlacedIn (V.state volume.old).holds node → shown_told (shown node.node) ≡ Some s) }
    ensures keeps { Keeps (V.state volume.old) (V.state volume.new) }
    ensures shape { SameShape (V.state volume.old) (V.state volume.new) }
    ensures cause { HasAreaCause (V.state volume.old).faults (V.state volume.new).faults result }
    ensures sure { StaysSureArea (V.state volume.old) (V.state volume.new) result }
{
    if !has_place(volume, source) {
        return Ok(Shown::Nothing);
    }
    let bytes = buffer.split_at_mut(source.len as usize).0;
    volume.read(source.lnum, source.offs, bytes)?;
    let shown = shown_in(alloc, bytes)?;
    Ok(shown)
}

// Whether a place lies in the volume, and is no longer than any leaf node.
fn has_place<V: Volume>(volume: &V, source: Source) -> bool
    ensures yes { IsTrue result → IsSourceIn (V.state volume.now) source }
    ensures no { IsFalse result → (node : Placed) → IsReadFrom source node → IsPlacedIn (V.state volume.now).holds node → ⊥ }
{
    let size = volume.leb_size();
    if source.lnum >= volume.leb_cnt() {
        return false;
    }
    if source.offs > size {
        return false;
    }
    if source.len > size - source.offs {
        return false;
    }
    if source.len > MOST_BYTES {
        return false;
    }
    true
}

// What the node shows that the bytes are, all of them.
fn shown_in(alloc: Global, bytes: &[u8]) -> Result<Shown, Memory>
    ensures { IfOk result (λ s. (sqnum group : ℕ) (node : LeafNode) → IsLeafNode bytes.now sqnum group node → shown_told (shown node) ≡ Some s) }
{
    if bytes.len() <= TYPE_PLACE {
        return Ok(Shown::Nothing);
    }
    match bytes[TYPE_PLACE] {
        0 => Ok(inode_in(bytes)),
        1 => Ok(block_in(bytes)),
        2 => entry_in(alloc, bytes),
        4 => truncation_in(alloc, bytes),
        _ => Ok(Shown::Nothing),
    }
}

fn inode_in(bytes: &[u8]) -> Shown
    ensures { (sqnum group : ℕ) (node : InoNode) → IsLeafNode bytes.now sqnum group (inode node) → shown_told (shown (inode node)) ≡ Some result }
{
    if bytes.len() < INODE_END {
        return Shown::Nothing;
    }
    inode_shown(
        u32_at(bytes, KEY_PLACE),
        u32_at(bytes, MODE_PLACE),
        u32_at(bytes, LINKS_PLACE),
    )
}

fn block_in(bytes: &[u8]) -> Shown
    ensures { (sqnum group : ℕ) (node : DataNode) → IsLeafNode bytes.now sqnum group (block node) → shown_told (shown (block node)) ≡ Some result }
{
    if bytes.len() < KEY_PLACE + 8 {
        return Shown::Nothing;
    }
    block_shown(
        u32_at(bytes, KEY_PLACE),
        u32_at(bytes, KEY_PLACE + 4) % (1 << 29),
    )
}

// Of an entry of a directory.
fn entry_in(alloc: Global, bytes: &[u8]) -> Result<Shown, Memory>
    ensures { IfOk result (λ s. (sqnum group : ℕ) (node : DentNode) → node.attribute ≡ false → IsLeafNode bytes.now sqnum group (entry node) → shown_told (shown (entry node)) ≡ Some s) }
{
    if bytes.len() < NAME_PLACE {
        return Ok(Shown::Nothing);
    }
    let size = u16_at(bytes, SIZE_PLACE) as usize;
    let behind = bytes.split_at(NAME_PLACE).1;
    if size > behind.len() {
        return Ok(Shown::Nothing);
    }
    let inum = u64_at(bytes, INUM_PLACE);
    if inum > 0xffff_ffff {
        return Ok(Shown::Nothing);
    }
    let name = Name::from_slice(alloc, behind.split_at(size).0)?;
    Ok(entry_shown(
        u32_at(bytes, KEY_PLACE),
        name,
        inum as u32,
        bytes[KIND_PLACE],
    ))
}

fn truncation_in(alloc: Global, bytes: &[u8]) -> Result<Shown, Memory>
    ensures { IfOk result (λ s. (sqnum group : ℕ) (node : TrunNode) → IsLeafNode bytes.now sqnum group (truncation node) → shown_told (shown (truncation node)) ≡ Some s) }
{
    one_node();
    let Some(node) = TrunNode::decode(alloc, bytes)? else {
        return Ok(Shown::Nothing);
    };
    Ok(truncation_shown(&node))
}
