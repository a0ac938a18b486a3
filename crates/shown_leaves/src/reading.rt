// A leaf node is read from a volume.

ghost use Rattle.std.specs.Prelude.{IfOk, take, drop};
ghost use Rattle.ubi_volume.specs.Volume.{Keeps, SameShape};
ghost use Rattle.ubi_volume.specs.Faults.{HasAreaCause, StaysSureArea};
ghost use Rattle.shown_leaves.specs.Stored.{IsStoredIn};

use crate::stored_node::StoredNode;
use media_leaf::{DataNode, DentNode, InoNode, TrunNode};
use std::alloc::Global;
use ubi_volume::{AreaFault, Volume};
use ubifs_base::Memory;

// No leaf node has more bytes: those of an inode, and as many as a symbolic link's target or a block can have.
const MOST_BYTES: u32 = 160 + 4096;

// The leaf node that these bytes of a LEB are, or as many of them as there are; none where they are none.
pub(crate) fn read_node<V: Volume>(
    alloc: Global,
    volume: &mut V,
    lnum: u32,
    offs: u32,
    len: u32,
) -> Result<Option<StoredNode>, AreaFault>
    ensures read { IfOk result (IsStoredIn (take len (drop offs ((V.state volume.old).holds lnum)))) }
    ensures keeps { Keeps (V.state volume.old) (V.state volume.new) }
    ensures shape { SameShape (V.state volume.old) (V.state volume.new) }
    ensures cause { HasAreaCause (V.state volume.old).faults (V.state volume.new).faults result }
    ensures sure { StaysSureArea (V.state volume.old) (V.state volume.new) result }
{
    let size = volume.leb_size();
    if lnum >= volume.leb_cnt() {
        return Ok(None);
    }
    if offs > size {
        return Ok(None);
    }
    let count = len.min(size - offs);
    if count > MOST_BYTES {
        return Ok(None);
    }
    let mut bytes = vec![in alloc; 0; count as usize]?;
    volume.read(lnum, offs, &mut bytes)?;
    let node = node_in(alloc, &bytes)?;
    Ok(node)
}

// The leaf node that bytes are; none where they are none.
fn node_in(alloc: Global, bytes: &[u8]) -> Result<Option<StoredNode>, Memory>
    ensures { IfOk result (IsStoredIn bytes.now) }
{
    if let Some(node) = InoNode::decode(alloc, bytes)? {
        return Ok(Some(StoredNode::Inode { node }));
    }
    if let Some(node) = DentNode::decode(alloc, bytes)? {
        return Ok(Some(StoredNode::Entry { node }));
    }
    if let Some(node) = DataNode::decode(alloc, bytes)? {
        return Ok(Some(StoredNode::Block { node }));
    }
    if let Some(node) = TrunNode::decode(alloc, bytes)? {
        return Ok(Some(StoredNode::Truncation { node }));
    }
    Ok(None)
}
