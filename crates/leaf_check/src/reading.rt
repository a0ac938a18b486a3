// What stands at a leaf's place is read from a volume.

ghost use Rattle.std.specs.Prelude.{◌≡◌, ◌+◌, ◌≤◌, ◌<◌, IfNone, IfOk, IfSome, IsFalse, IsTrue, length};
ghost use Rattle.ubi_volume.specs.Volume.{Keeps, SameShape};
ghost use Rattle.ubi_volume.specs.Faults.{HasAreaCause, HasCause, StaysSure, StaysSureArea};
ghost use Rattle.leaf_check.specs.Committed.{IsReadFor};
ghost use Rattle.leaf_check.specs.LeafReads.{HasWholeLeaf, IsLeafRead, IsPlaceFor};

use crate::leaf_bytes::LeafBytes;
use crate::nodes::whole_leaf;
use index_tree::Leaf;
use leb_scan::Found;
use std::alloc::Global;
use ubi_volume::{AreaFault, VolFault, Volume};
use ubifs_base::Memory;

/// No leaf node has more bytes: an inode has 160, and at most a page of data.
pub(crate) const MOST_BYTES: u32 = 160 + 4096;

/// The leaf node that stands at a leaf's place with its length, if one does. The buffer, which has room for any leaf node, begins with
/// its bytes then.
pub(crate) fn read_node<V: Volume>(
    volume: &mut V,
    leaf: &Leaf,
    buffer: &mut [u8],
) -> Result<Option<Found>, VolFault>
    requires { length buffer.old ≡ 4256 }
    ensures len { length buffer.new ≡ length buffer.old }
    ensures some { IfOk result (λ read. IfSome read (IsLeafRead (V.state volume.old).holds leaf.now buffer.new)) }
    ensures none { IfOk result (λ read. IfNone read (HasWholeLeaf (V.state volume.old).holds leaf.now → ⊥)) }
    ensures keeps { Keeps (V.state volume.old) (V.state volume.new) }
    ensures shape { SameShape (V.state volume.old) (V.state volume.new) }
    ensures cause { HasCause (V.state volume.old).faults (V.state volume.new).faults result }
    ensures sure { StaysSure (V.state volume.old) (V.state volume.new) result }
{
    if !has_place(volume, leaf) {
        return Ok(None);
    }
    let bytes = buffer.split_at_mut(leaf.len as usize).0;
    volume.read(leaf.lnum, leaf.offs, bytes)?;
    Ok(whole_leaf(bytes))
}

/// The bytes at a leaf's place. They take the last of the spare rooms, or memory of their own.
pub(crate) fn read_bytes<V: Volume>(
    alloc: Global,
    volume: &mut V,
    leaf: &Leaf,
    spare: &mut Vec<Vec<u8>>,
) -> Result<LeafBytes, AreaFault>
    ensures read { IfOk result (IsReadFor (V.state volume.old).holds leaf.now) }
    ensures keeps { Keeps (V.state volume.old) (V.state volume.new) }
    ensures shape { SameShape (V.state volume.old) (V.state volume.new) }
    ensures cause { HasAreaCause (V.state volume.old).faults (V.state volume.new).faults result }
    ensures sure { StaysSureArea (V.state volume.old) (V.state volume.new) result }
{
    if !has_place(volume, leaf) {
        return Ok(LeafBytes {
            leaf: *leaf,
            bytes: None,
        });
    }
    let mut bytes = room_of(alloc, leaf.len as usize, spare)?;
    volume.read(leaf.lnum, leaf.offs, &mut bytes)?;
    Ok(LeafBytes {
        leaf: *leaf,
        bytes: Some(bytes),
    })
}

// What new room is filled with.
const ZEROS: [u8; 4256] = [0; 4256];

// Room for so many bytes: the last of the spare ones, or one of its own.
fn room_of(alloc: Global, len: usize, spare: &mut Vec<Vec<u8>>) -> Result<Vec<u8>, Memory>
    requires { len ≤ 4256 }
    ensures { IfOk result (λ room. length room.items ≡ len) }
{
    let mut room = match spare.pop() {
        Some(room) => room,
        None => Vec::new(alloc),
    };
    room.truncate(len);
    let more = len - room.len();
    room.extend_from_slice(ZEROS.split_at(more).0)?;
    Ok(room)
}

// Whether a leaf's place lies in the volume, and is no longer than any leaf node.
fn has_place<V: Volume>(volume: &V, leaf: &Leaf) -> bool
    ensures yes { IsTrue result → IsPlaceFor (V.state volume.now) leaf.now }
    ensures no { IsFalse result → HasWholeLeaf (V.state volume.now).holds leaf.now → ⊥ }
{
    let size = volume.leb_size();
    if leaf.lnum >= volume.leb_cnt() {
        return false;
    }
    if leaf.offs > size {
        return false;
    }
    if leaf.len > size - leaf.offs {
        return false;
    }
    if leaf.len > MOST_BYTES {
        return false;
    }
    true
}
