// A file's size.

ghost use Rattle.std.specs.Prelude.{◌≡◌, ◌+◌, ◌*◌, ℕ};
ghost use Rattle.std.specs.Option.{option_map_or};
ghost use Rattle.fs_model.specs.Files.{Tree, size_of};
ghost use Rattle.fs_model.specs.Proper.{IsProper};
ghost use Rattle.op_groups.specs.Facts.{IsLastBlock};

use fs_model::{BLOCK_SIZE, Inode};

/// A file's size in bytes, where `last` is the number of its last block, if it has one, and `stored` tells how many bytes
/// a read of that block found. Takes no memory.
pub fn size_of(inode: &Inode, last: Option<u32>, stored: u32) -> u64
    ensures { (tree : Tree) (ino : ℕ) → IsProper tree → IsLastBlock tree.blocks ino last stored → result ≡ size_of tree ino inode.now }
{
    inode.size.max(end_of(last, stored))
}

// Where a block with so many bytes ends, and 0 where there is none.
fn end_of(last: Option<u32>, stored: u32) -> u64
    ensures { result ≡ option_map_or (λ block. 4096 * block + stored) last 0 }
{
    match last {
        Some(block) => BLOCK_SIZE * block as u64 + stored as u64,
        None => 0,
    }
}
