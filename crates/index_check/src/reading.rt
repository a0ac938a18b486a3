// An index node is read from a volume, or what stands in its place.

ghost use Rattle.std.specs.Prelude.{◌≡◌, ◌+◌, ◌^◌, ◌<◌, ◌≤◌, ℕ, IfOk, IfSome, IfNone, length};
ghost use Rattle.ubifs_base.specs.NodeLaws.{IsBytes};
ghost use Rattle.media_sys.specs.Index.{Index as AnIndexNode, index_of};
ghost use Rattle.index_media.specs.Stored.{IsIndexNodeAt};
ghost use Rattle.sound_image.specs.IndexBreaches.{LacksIndexNode};
ghost use Rattle.index_check.specs.IndexWalk.{IsIndexNodeIn, OnlyReads, told_misfit};

use crate::value_misfit::ValueMisfit;
use image_check::type_byte;
use media_sys::{Branch, IdxNode};
use node_fields::u32_at;
use std::alloc::Global;
use ubi_volume::{AreaFault, Volume};
use ubifs_base::Memory;

// No index node has more bytes: a header, its number of branches and its level, and 256 branches.
const MOST_BYTES: u32 = 28 + 20 * 256;

/// The index node to which a branch leads; none where no intact one of its length stands there.
pub(crate) fn read_node<V: Volume>(
    alloc: Global,
    volume: &mut V,
    branch: &Branch,
) -> Result<Option<IdxNode>, AreaFault>
    ensures found { IfOk result (λ read. IfSome read (λ node. IsIndexNodeAt (V.state volume.old).holds branch.now (index_of node))) }
    ensures none { IfOk result (λ read. IfNone read ((said : AnIndexNode) → IsIndexNodeAt (V.state volume.old).holds branch.now said → ⊥)) }
    ensures reads { OnlyReads (V.state volume.old) (V.state volume.new) result }
{
    let size = volume.leb_size();
    if branch.lnum >= volume.leb_cnt() {
        return Ok(None);
    }
    if branch.offs > size {
        return Ok(None);
    }
    if branch.len > size - branch.offs {
        return Ok(None);
    }
    if branch.len > MOST_BYTES {
        return Ok(None);
    }
    let mut bytes = vec![in alloc; 0; branch.len as usize]?;
    volume.read(branch.lnum, branch.offs, &mut bytes)?;
    let read = IdxNode::decode(alloc, &bytes)?;
    Ok(read)
}

// The length of the intact index node with which bytes begin; none where they begin with none.
fn node_len_in(alloc: Global, front: &[u8]) -> Result<Option<u32>, Memory>
    ensures found { IfOk result (λ read. IfSome read (IsIndexNodeIn front.now 0)) }
    ensures none { IfOk result (λ read. IfNone read ((len : ℕ) → IsIndexNodeIn front.now 0 len → ⊥)) }
{
    if front.len() < 24 {
        return Ok(None);
    }
    let len = u32_at(front, 16);
    if len as usize > front.len() {
        return Ok(None);
    }
    let read = IdxNode::decode(alloc, front.split_at(len as usize).0)?;
    let Some(_) = read else {
        return Ok(None);
    };
    Ok(Some(len))
}

// What is wrong where a branch leads, in the bytes that stand there.
fn lack_in(alloc: Global, front: &[u8], branch: &Branch) -> Result<ValueMisfit, Memory>
    requires { IsIndexNodeIn front.now 0 branch.now.len → ⊥ }
    ensures { IfOk result (λ misfit. LacksIndexNode (λ _. front.now) (record branch.now { offs = 0 }) (told_misfit misfit)) }
{
    let there = node_len_in(alloc, front)?;
    match there {
        None => Ok(ValueMisfit {
            wanted: 9,
            found: type_byte(front, 0) as u64,
        }),
        Some(len) => Ok(ValueMisfit {
            wanted: branch.len as u64,
            found: len as u64,
        }),
    }
}

// The same, of a volume, whose bytes are read into room for as many as a node can have, or for all that are left of the LEB.
fn lack_read<V: Volume>(
    alloc: Global,
    volume: &mut V,
    branch: &Branch,
    front: &mut [u8],
) -> Result<ValueMisfit, AreaFault>
    requires lnum { branch.now.lnum < (V.state volume.old).leb_cnt }
    requires range { branch.now.offs + length front.old ≤ (V.state volume.old).leb_size }
    requires far { length front.old < 5148 → branch.now.offs + length front.old ≡ (V.state volume.old).leb_size }
    requires none { (said : AnIndexNode) → IsIndexNodeAt (V.state volume.old).holds branch.now said → ⊥ }
    ensures lack { IfOk result (λ misfit. LacksIndexNode (V.state volume.old).holds branch.now (told_misfit misfit)) }
    ensures reads { OnlyReads (V.state volume.old) (V.state volume.new) result }
{
    volume.read(branch.lnum, branch.offs, front)?;
    let misfit = lack_in(alloc, front, branch)?;
    Ok(misfit)
}

/// What is wrong where a branch leads to no intact index node of its length.
pub(crate) fn read_lack<V: Volume>(
    alloc: Global,
    volume: &mut V,
    branch: &Branch,
) -> Result<ValueMisfit, AreaFault>
    requires none { (said : AnIndexNode) → IsIndexNodeAt (V.state volume.old).holds branch.now said → ⊥ }
    ensures lack { IfOk result (λ misfit. LacksIndexNode (V.state volume.old).holds branch.now (told_misfit misfit)) }
    ensures reads { OnlyReads (V.state volume.old) (V.state volume.new) result }
{
    let size = volume.leb_size();
    if branch.lnum >= volume.leb_cnt() {
        return Ok(ValueMisfit {
            wanted: 9,
            found: 255,
        });
    }
    if branch.offs > size {
        return Ok(ValueMisfit {
            wanted: 9,
            found: 255,
        });
    }
    let len = (size - branch.offs).min(MOST_BYTES);
    let mut front = vec![in alloc; 0; len as usize]?;
    lack_read(alloc, volume, branch, &mut front)
}
