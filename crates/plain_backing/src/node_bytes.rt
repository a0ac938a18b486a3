// The bytes of leaf nodes on the medium, and inodes without a name.

ghost use Rattle.std.specs.Prelude.{◌≡◌, ◌+◌, unwrap_or, length};
ghost use Rattle.std.specs.Option.{option_map};
ghost use Rattle.fs_model.specs.Cover.{round_8, inode_bytes, block_bytes};
ghost use Rattle.plain_backing.specs.Orphans.{orphans_in};

use fs_model::Inode;
use ubifs_base::{Bytes, Name};

/// The bytes of an inode's node.
pub(crate) fn inode_bytes(inode: &Inode) -> u64
    ensures { result ≡ inode_bytes inode.now }
{
    node_bytes(160, inode.extra.as_slice())
}

/// The bytes of a block's node.
pub(crate) fn block_bytes(bytes: &Bytes) -> u64
    ensures { result ≡ block_bytes bytes.now }
{
    node_bytes(48, bytes.as_slice())
}

/// The bytes of the node of an entry with this name.
pub(crate) fn name_bytes(name: &Name) -> u64
    ensures { result ≡ round_8 (57 + length name.now) }
{
    node_bytes(57, name.as_slice())
}

/// The bytes of the node of an inode that there was.
pub(crate) fn freed_inode(old: &Option<Inode>) -> u64
    ensures { result ≡ unwrap_or (option_map inode_bytes old.now) 0 }
{
    match old {
        Some(inode) => inode_bytes(inode),
        None => 0,
    }
}

/// The bytes of the node of a block that there was.
pub(crate) fn freed_block(old: &Option<Bytes>) -> u64
    ensures { result ≡ unwrap_or (option_map block_bytes old.now) 0 }
{
    match old {
        Some(bytes) => block_bytes(bytes),
        None => 0,
    }
}

/// One for an inode without a name.
pub(crate) fn orphans_in(inode: &Inode) -> u64
    ensures { result ≡ orphans_in inode.now }
{
    if inode.nlink == 0 { 1 } else { 0 }
}

/// One for an inode without a name that there was.
pub(crate) fn freed_orphans(old: &Option<Inode>) -> u64
    ensures { result ≡ unwrap_or (option_map orphans_in old.now) 0 }
{
    match old {
        Some(inode) => orphans_in(inode),
        None => 0,
    }
}

// The bytes of a node with this head and these bytes behind it, rounded up to a multiple of 8.
fn node_bytes(head: u8, rest: &[u8]) -> u64
    ensures { result ≡ round_8 (head + length rest.now) }
{
    (head as u64 + rest.len() as u64 + 7) / 8 * 8
}
