// The bytes that leaf nodes take.

ghost use Rattle.std.specs.Prelude.{◌≡◌, ◌+◌, ◌<◌, ℕ, length};
ghost use Rattle.group_nodes.specs.Texts.{padded_leaf_bytes};
ghost use Rattle.fs_model.specs.Cover.{round_8};
ghost use Rattle.fs_model.specs.Files.{Tree as FilesTree};
ghost use Rattle.image_maker.specs.Leaves.{block_leaf, entry_leaf, inode_leaf};

use fs_model::{Entry, Inode};
use ubifs_base::Bytes;

// The bytes of an inode's node.
pub(crate) fn inode_len(inode: &Inode) -> u64
    ensures len { (tree : FilesTree) (ino : ℕ) → padded_leaf_bytes (inode_leaf tree ino inode.now) ≡ result }
    ensures some { 0 < result }
{
    node_len(160, inode.extra.as_slice())
}

// The bytes of a block's node.
pub(crate) fn block_len(bytes: &Bytes) -> u64
    ensures len { (key : ℕ × ℕ) → padded_leaf_bytes (block_leaf (key, bytes.now)) ≡ result }
    ensures some { 0 < result }
{
    node_len(48, bytes.as_slice())
}

// The bytes of an entry's node.
pub(crate) fn entry_len(entry: &Entry) -> u64
    ensures len { padded_leaf_bytes (entry_leaf entry.now) ≡ result }
    ensures some { 0 < result }
{
    node_len(57, entry.name.as_slice())
}

// The bytes of a node with this head and these bytes behind it, rounded up to a multiple of 8.
fn node_len(head: u8, rest: &[u8]) -> u64
    ensures { result ≡ round_8 (head + length rest.now) }
{
    (head as u64 + rest.len() as u64 + 7) / 8 * 8
}
