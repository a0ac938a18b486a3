// What an entry adds to its directory.

/// The links and the bytes by which the inode of a directory counts an entry.
#[derive(Clone, Copy)]
pub struct Share {
    pub links: u32,
    pub bytes: u64,
}
