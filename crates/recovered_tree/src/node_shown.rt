// What a leaf's node shows.

ghost use Rattle.std.specs.Prelude.{◌≡◌, IfOk, take, drop};
ghost use Rattle.leaf_map.specs.Kept.{shown};
ghost use Rattle.media_leaf.specs.LeafNode.{inode};
ghost use Rattle.recovered_tree.specs.Sets.{IsShownIn};
ghost use Rattle.ubi_volume.specs.Faults.{HasAreaCause, StaysSureArea};
ghost use Rattle.ubi_volume.specs.Volume.{Keeps, SameShape};

use fs_model::{Change, Inode};
use group_nodes::{kind_of_mode, read_change};
use media_leaf::{InoNode, one_node};
use std::alloc::Global;
use ubi_volume::{AreaFault, Volume};
use ubifs_base::Memory;

// No leaf node has more bytes: those of an inode, and as many as a symbolic link's target or a block can have.
const MOST_BYTES: u32 = 160 + 4096;

// What the node shows that these bytes of a LEB are, or as many of them as there are; anything where they are none.
pub(crate) fn read_shown<V: Volume>(
    alloc: Global,
    volume: &mut V,
    lnum: u32,
    offs: u32,
    len: u32,
) -> Result<Option<Change>, AreaFault>
    ensures shown { IfOk result (IsShownIn (take len (drop offs ((V.state volume.old).holds lnum)))) }
    ensures keeps { Keeps (V.state volume.old) (V.state volume.new) }
    ensures shape { SameShape (V.state volume.old) (V.state volume.new) }
    ensures cause { HasAreaCause (V.state volume.old).faults (V.state volume.new).faults result }
    ensures sure { StaysSureArea (V.state volume.old) (V.state volume.new) result }
{
    let size = volume.leb_size();
    if lnum >= volume.leb_cnt() {
        return Ok(None);
    }
    if offs > size {
        return Ok(None);
    }
    let count = len.min(size - offs);
    if count > MOST_BYTES {
        return Ok(None);
    }
    let mut bytes = vec![in alloc; 0; count as usize]?;
    volume.read(lnum, offs, &mut bytes)?;
    let shown = shown_in(alloc, &bytes)?;
    Ok(shown)
}

// What the node shows that bytes are; anything where they are none. An inode without links is shown too.
fn shown_in(alloc: Global, bytes: &[u8]) -> Result<Option<Change>, Memory>
    ensures { IfOk result (IsShownIn bytes.now) }
{
    one_node();
    if let Some(node) = InoNode::decode(alloc, bytes)? {
        return Ok(inode_shown(node));
    }
    read_change(alloc, bytes)
}

fn inode_shown(node: InoNode) -> Option<Change>
    ensures { result ≡ shown (inode node) }
{
    let kind = kind_of_mode(node.mode)?;
    let inode = Inode {
        kind,
        mode: node.mode % 0o10000,
        uid: node.uid,
        gid: node.gid,
        flags: node.flags,
        nlink: node.nlink,
        size: node.size,
        atime: node.atime,
        ctime: node.ctime,
        mtime: node.mtime,
        extra: node.bytes,
    };
    Some(Change::SetInode {
        ino: node.ino,
        inode,
    })
}
