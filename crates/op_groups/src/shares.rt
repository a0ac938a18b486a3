// What entries add to their directories. None of it takes memory.

ghost use Rattle.std.specs.Prelude.{◌≡◌};
ghost use Rattle.fs_model.specs.Directory.{counted, no_share, share_of};

use crate::needs::name_bytes;
use fs_model::{Entry, Inode, Kind, Share};

/// What an entry adds to its directory: a link where it names a directory, and the bytes of its node.
pub(crate) fn share_of(entry: &Entry) -> Share
    ensures { result ≡ share_of entry.now }
{
    Share {
        links: match entry.kind {
            Kind::Dir => 1,
            _ => 0,
        },
        bytes: name_bytes(&entry.name),
    }
}

pub(crate) fn no_share() -> Share
    ensures { result ≡ no_share }
{
    Share { links: 0, bytes: 0 }
}

/// A directory's inode once this came and that went.
pub(crate) fn counted(came: Share, gone: Share, inode: Inode) -> Inode
    ensures { result ≡ counted came gone inode }
{
    match inode.kind {
        Kind::Dir => {
            let nlink = inode
                .nlink
                .saturating_add(came.links)
                .saturating_sub(gone.links)
                .max(1);
            let size = inode
                .size
                .saturating_add(came.bytes)
                .saturating_sub(gone.bytes);
            Inode {
                nlink,
                size,
                ..inode
            }
        }
        _ => inode,
    }
}
