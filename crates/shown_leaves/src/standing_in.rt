// What stands in for a node that nobody can read.

ghost use Rattle.std.specs.Prelude.{◌≡◌, [], Some};
ghost use Rattle.std.specs.Option.{option_map};
ghost use Rattle.media_leaf.specs.LeafNode.{inode, block};
ghost use Rattle.group_nodes.specs.Nodes.{gone_inode, inode_node};
ghost use Rattle.leaf_map.specs.Recovered.{stand_in};
ghost use Rattle.shown_leaves.specs.Stored.{leaf_node};

use crate::stored_node::StoredNode;
use media_leaf::{DataNode, InoNode};
use std::alloc::Global;
use ubifs_base::{Bytes, Key};

// The mode of a file of which nobody may do anything.
const FILE_MODE: u32 = 0o100000;

// What stands in for the node of a key: an inode without links, or a block without a byte. A name can't be told.
pub(crate) fn stand_in(alloc: Global, key: &Key) -> Option<StoredNode>
    ensures { option_map leaf_node result ≡ stand_in key.now }
{
    match *key {
        Key::Ino { ino } => Some(gone_inode(alloc, ino)),
        Key::Block { ino, block } => Some(empty_block(alloc, ino, block)),
        Key::Dent { .. } | Key::Xent { .. } => None,
    }
}

fn gone_inode(alloc: Global, ino: u32) -> StoredNode
    ensures { leaf_node result ≡ inode (inode_node ino gone_inode) }
{
    StoredNode::Inode {
        node: InoNode {
            ino,
            size: 0,
            atime: 0,
            ctime: 0,
            mtime: 0,
            nlink: 0,
            uid: 0,
            gid: 0,
            mode: FILE_MODE,
            flags: 0,
            xattr_cnt: 0,
            xattr_size: 0,
            xattr_names: 0,
            bytes: no_bytes(alloc),
        },
    }
}

fn empty_block(alloc: Global, ino: u32, number: u32) -> StoredNode
    ensures { leaf_node result ≡ block (record { ino = ino; block = number; bytes = [] }) }
{
    StoredNode::Block {
        node: DataNode {
            ino,
            block: number,
            bytes: no_bytes(alloc),
        },
    }
}

fn no_bytes(alloc: Global) -> Bytes
    ensures { result ≡ [] }
{
    Bytes::from_vec(Vec::new(alloc))
}
