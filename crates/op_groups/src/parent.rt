// A directory, as it was looked up.

use fs_model::Inode;

/// A directory's number and the inode that was found there; in a proper tree there always is one.
#[derive(Drop)]
pub struct Parent {
    pub ino: u32,
    pub inode: Option<Inode>,
}
