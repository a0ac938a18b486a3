// A page that is written back.

use crate::Inode;
use ubifs_base::Bytes;

/// A page of a file as it is written back: its bytes up to the file's end, and the inode as it is then. Its data node
/// takes 4,144 bytes at most and the inode's node 160, which one credit pays.
#[derive(Drop)]
pub struct PageNode {
    pub ino: u32,
    pub block: u32,
    pub bytes: Bytes,
    pub inode: Inode,
}
