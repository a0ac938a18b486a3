// Operations on files.

use ubifs_base::Name;

/// An operation on files, as a caller asks for it. A slot is one of the caller's 16 places for open files; offsets,
/// lengths and sizes are bytes, and a mode has the permission bits alone. A path is `/`, or components that each follow
/// a slash.
#[derive(Drop)]
pub enum Op {
    Create {
        path: Name,
        mode: u32,
    },
    Mkdir {
        path: Name,
        mode: u32,
    },
    Symlink {
        path: Name,
        target: Name,
    },
    Link {
        old: Name,
        new: Name,
    },
    Unlink {
        path: Name,
    },
    Rmdir {
        path: Name,
    },
    Rename {
        old: Name,
        new: Name,
    },
    OpenFile {
        path: Name,
        slot: u8,
    },
    Close {
        slot: u8,
    },
    Read {
        slot: u8,
        offs: u64,
        len: u32,
    },
    Write {
        slot: u8,
        offs: u64,
        len: u32,
        byte: u8,
    },
    Truncate {
        slot: u8,
        size: u64,
    },
    Fsync {
        slot: u8,
    },
    Flush,
    List {
        path: Name,
    },
    Stat {
        path: Name,
    },
    Readlink {
        path: Name,
    },
    Chmod {
        path: Name,
        mode: u32,
    },
}
