// Changes of a tree.

use crate::{Entry, Inode};
use ubifs_base::{Bytes, Name};

/// A change of a tree, which one leaf node of the journal carries: an inode, an entry, an entry that goes, a block, the
/// end of a file that is cut off (`UBIFS_TRUN_NODE` of ubifs-media.h), or an inode that goes with its blocks.
#[derive(Clone, Drop)]
pub enum Change {
    SetInode {
        ino: u32,
        inode: Inode,
    },
    SetEntry {
        entry: Entry,
    },
    DropEntry {
        dir: u32,
        name: Name,
    },
    SetBlock {
        ino: u32,
        block: u32,
        bytes: Bytes,
    },
    CutBlocks {
        ino: u32,
        old_size: u64,
        new_size: u64,
    },
    DropInode {
        ino: u32,
    },
}
