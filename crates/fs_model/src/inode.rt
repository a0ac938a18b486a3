// Inodes and directory entries.

use ubifs_base::{Bytes, Name};

/// What an inode is, by the file type bits of its mode.
#[derive(Clone, Copy, Debug, PartialEq, Eq)]
pub enum Kind {
    File,
    Dir,
    Symlink,
    Block,
    Char,
    Fifo,
    Socket,
}

/// An inode (`struct ubifs_ino_node` of ubifs-media.h). Times are seconds since 1970, `mode` has the permission bits
/// alone, and `extra` is a symbolic link's target or a device's number.
#[derive(Clone, Drop)]
pub struct Inode {
    pub kind: Kind,
    pub mode: u32,
    pub uid: u32,
    pub gid: u32,
    pub flags: u32,
    pub nlink: u32,
    pub size: u64,
    pub atime: u64,
    pub ctime: u64,
    pub mtime: u64,
    pub extra: Bytes,
}

/// A name in a directory (`struct ubifs_dent_node` of ubifs-media.h), and the inode that it names.
#[derive(Clone, Drop)]
pub struct Entry {
    pub dir: u32,
    pub name: Name,
    pub ino: u32,
    pub kind: Kind,
}
