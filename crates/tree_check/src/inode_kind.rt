// Inodes and their kinds.

use fs_model::Kind;

/// The number of an inode that a leaf shows, and the kind that it shows for it.
#[derive(Clone, Copy)]
pub(crate) struct InodeKind {
    pub(crate) ino: u32,
    pub(crate) kind: Kind,
}
