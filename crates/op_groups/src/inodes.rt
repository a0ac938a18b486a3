// Inodes that are new, and inodes that change. None of it takes memory.

ghost use Rattle.std.specs.Prelude.{◌≡◌};
ghost use Rattle.fs_model.specs.Making.{new_inode, new_file, new_dir, new_symlink, touched};
ghost use Rattle.fs_model.specs.Links.{less_linked};

use fs_model::{Inode, Kind};
use std::alloc::Global;
use ubifs_base::{Bytes, Name};

/// A regular file without bytes, made at this moment, in seconds since 1970.
pub fn new_file(alloc: Global, mode: u32, now: u64) -> Inode
    ensures { result ≡ new_file mode now }
{
    new_inode(
        Kind::File,
        mode,
        1,
        0,
        Bytes::from_vec(Vec::new(alloc)),
        now,
    )
}

/// An empty directory, made at this moment.
pub fn new_dir(alloc: Global, mode: u32, now: u64) -> Inode
    ensures { result ≡ new_dir mode now }
{
    new_inode(
        Kind::Dir,
        mode,
        2,
        160,
        Bytes::from_vec(Vec::new(alloc)),
        now,
    )
}

/// A symbolic link to a target, made at this moment.
pub fn new_symlink(target: Name, now: u64) -> Inode
    ensures { result ≡ new_symlink target now }
{
    let size = target.len() as u64;
    new_inode(
        Kind::Symlink,
        0o777,
        1,
        size,
        Bytes::from_vec(target.into_vec()),
        now,
    )
}

/// An inode that was changed at this moment.
pub fn touched(now: u64, inode: Inode) -> Inode
    ensures { result ≡ touched now inode }
{
    Inode {
        ctime: now,
        mtime: now,
        ..inode
    }
}

/// An inode with one link less; a directory, which has but one name, has none then.
pub fn less_linked(now: u64, inode: Inode) -> Inode
    ensures { result ≡ less_linked now inode }
{
    let nlink = match inode.kind {
        Kind::Dir => 0,
        _ => inode.nlink.saturating_sub(1),
    };
    touched(now, Inode { nlink, ..inode })
}

fn new_inode(kind: Kind, mode: u32, nlink: u32, size: u64, extra: Bytes, now: u64) -> Inode
    ensures { result ≡ new_inode kind mode nlink size extra now }
{
    Inode {
        kind,
        mode,
        uid: 0,
        gid: 0,
        flags: 0,
        nlink,
        size,
        atime: now,
        ctime: now,
        mtime: now,
        extra,
    }
}
