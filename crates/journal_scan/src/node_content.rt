// What a leaf node says.

use ubifs_base::{Key, Name};

/// What a leaf node of the journal says, without its data. An inode is linked if its links are over 0, and else it goes. An
/// entry is linked if its inode number is over 0, and else its name goes. `Unknown` is a node that shows nothing of a tree: an
/// attribute of an inode, which is linked, or an inode whose mode names no kind. Of it only its key is told; an inode that isn't
/// linked goes all the same.
#[derive(Debug, Drop)]
pub enum NodeContent {
    Inode { ino: u32, linked: bool },
    Block { ino: u32, block: u32 },
    Entry { dir: u32, name: Name, linked: bool },
    Truncation { ino: u32, new_size: u64 },
    Unknown { key: Key, linked: bool },
}
