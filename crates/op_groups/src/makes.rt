// The group that makes an inode under a name.

ghost use Rattle.std.specs.Prelude.{◌≡◌, ◌<◌, ◌++◌, ◌∷◌, [], IfOk, OnOk, nat_le};
ghost use Rattle.std.specs.Option.{option_map_or};
ghost use Rattle.fs_model.specs.declared.change.Change.TheVariants.{SetInode};
ghost use Rattle.fs_model.specs.Files.{Tree};
ghost use Rattle.fs_model.specs.Directory.{counted};
ghost use Rattle.fs_model.specs.Making.{inode_limit, making, touched};
ghost use Rattle.op_groups.specs.Facts.{IsParent};

use crate::inodes::touched;
use crate::parent::Parent;
use crate::shares::{counted, no_share, share_of};
use fs_model::{Change, Entry, Group, Inode, Share};
use std::alloc::Global;
use ubifs_base::{Memory, Name};

/// Inode numbers end below this one (`INUM_WATERMARK` of Linux fs/ubifs).
const INODE_LIMIT: u32 = 0xFFFF_FF00;

/// Whether no inode number is left above the highest that was ever used.
pub fn is_used_up(highest: u32) -> bool
    ensures { result ≡ nat_le inode_limit highest }
{
    highest >= INODE_LIMIT
}

/// The group that makes an inode under a name in a directory, with the number above the highest that was ever used.
pub fn making(
    alloc: Global,
    highest: u32,
    parent: Parent,
    name: Name,
    inode: Inode,
    now: u64,
) -> Result<Group, Memory>
    requires { highest < inode_limit }
    ensures { IfOk result (λ group. (tree : Tree) → tree.highest ≡ highest → IsParent tree parent → group ≡ making tree parent.ino name inode now) }
{
    let ino = highest + 1;
    let entry = Entry {
        dir: parent.ino,
        name,
        ino,
        kind: inode.kind,
    };
    let came = share_of(&entry);
    let mut group = Group::new(alloc);
    group.push(Change::SetEntry { entry })?;
    group.push(Change::SetInode { ino, inode })?;
    push_touched(&mut group, parent, now, came, no_share())?;
    Ok(group)
}

/// Appends that a directory, if its inode is there, changes at this moment, as an entry comes and another goes.
pub(crate) fn push_touched(
    group: &mut Group,
    dir: Parent,
    now: u64,
    came: Share,
    gone: Share,
) -> Result<(), Memory>
    ensures { OnOk result (group.new ≡ group.old ++ option_map_or (λ inode. SetInode dir.ino (touched now (counted came gone inode)) ∷ []) dir.inode []) }
{
    let Parent { ino, inode } = dir;
    if let Some(inode) = inode {
        group.push(Change::SetInode {
            ino,
            inode: touched(now, counted(came, gone, inode)),
        })?;
    }
    Ok(())
}
