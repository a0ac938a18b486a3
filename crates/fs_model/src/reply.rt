// Answers to operations.

use crate::{Kind, Refusal, Rows};
use ubifs_base::Bytes as ByteList;

/// What an operation answers: nothing, an inode number, how many bytes were written, the bytes that were read, a
/// directory's entries, what an inode is, a symbolic link's target, or why it was refused. `Off` is for a line of a
/// caller who has no store.
#[derive(Drop)]
pub enum Reply {
    Done,
    Ino {
        ino: u32,
    },
    Count {
        n: u32,
    },
    Bytes {
        bytes: ByteList,
    },
    List {
        rows: Rows,
    },
    Stat {
        kind: Kind,
        ino: u32,
        mode: u32,
        nlink: u32,
        size: u64,
        mtime: u64,
    },
    Target {
        bytes: ByteList,
    },
    Refused {
        refusal: Refusal,
    },
    Off,
}
