// The groups that set a file's size, and the permission bits of an inode.

ghost use Rattle.std.specs.Prelude.{◌≡◌, ◌<◌, ◌≤◌, ◌/◌, ◌++◌, ◌∷◌, [], IfOk, OnOk};
ghost use Rattle.fs_model.specs.declared.change.Change.TheVariants.{SetInode};
ghost use Rattle.fs_model.specs.Files.{Blocks, Tree, block_at, size_of};
ghost use Rattle.fs_model.specs.Handles.{size_limit};
ghost use Rattle.fs_model.specs.Making.{touched};
ghost use Rattle.fs_model.specs.Truncation.{shortening, truncating};

use crate::inodes::touched;
use fs_model::{BLOCK_SIZE, Change, Group, Inode};
use std::alloc::Global;
use ubifs_base::{Bytes, Memory};

/// The group that sets a file's size, in bytes: `present` is the size that it has, and `last` the stored bytes of the
/// block in which the new size ends, which is asked for only where that size is smaller.
pub fn truncating(
    alloc: Global,
    ino: u32,
    inode: Inode,
    size: u64,
    present: u64,
    last: &[u8],
    now: u64,
) -> Result<Group, Memory>
    requires { size ≤ size_limit }
    ensures { IfOk result (λ group. (tree : Tree) → size_of tree ino inode ≡ present → (size < present → block_at tree.blocks ino (size / 4096) ≡ last.now) → group ≡ truncating tree ino inode size now) }
{
    let mut group = Group::new(alloc);
    group.push(Change::SetInode {
        ino,
        inode: touched(now, Inode { size, ..inode }),
    })?;
    if size < present {
        group.push(Change::CutBlocks {
            ino,
            old_size: present,
            new_size: size,
        })?;
        push_shortened(alloc, &mut group, ino, size, last)?;
    }
    Ok(group)
}

// Appends the block in which a size ends, where it is longer.
fn push_shortened(
    alloc: Global,
    group: &mut Group,
    ino: u32,
    size: u64,
    last: &[u8],
) -> Result<(), Memory>
    requires { size ≤ size_limit }
    ensures { OnOk result ((blocks : Blocks) → block_at blocks ino (size / 4096) ≡ last.now → group.new ≡ group.old ++ shortening blocks ino size) }
{
    let kept = (size % BLOCK_SIZE) as usize;
    if kept != 0 && kept < last.len() {
        group.push(Change::SetBlock {
            ino,
            block: (size / BLOCK_SIZE) as u32,
            bytes: Bytes::from_slice(alloc, last.split_at(kept).0)?,
        })?;
    }
    Ok(())
}

/// The group that sets the permission bits of an inode.
pub fn setting_mode(
    alloc: Global,
    ino: u32,
    inode: Inode,
    mode: u32,
    now: u64,
) -> Result<Group, Memory>
    ensures { IfOk result (λ group. group ≡ SetInode ino (touched now (record inode { mode = mode })) ∷ []) }
{
    let mut group = Group::new(alloc);
    group.push(Change::SetInode {
        ino,
        inode: touched(now, Inode { mode, ..inode }),
    })?;
    Ok(group)
}
