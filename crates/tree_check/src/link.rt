// Names that lead to inodes, and the root.

/// The number of the root's inode (`UBIFS_ROOT_INO` of ubifs-media.h).
pub(crate) const ROOT: u32 = 1;

/// A directory, and an inode that one of its entries names.
#[derive(Clone, Copy)]
pub(crate) struct Link {
    pub(crate) dir: u32,
    pub(crate) ino: u32,
}
