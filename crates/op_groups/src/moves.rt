// The group that moves an entry.

ghost use Rattle.std.specs.Prelude.{◌≡◌, IfOk};
ghost use Rattle.std.specs.Option.{option_to_list};
ghost use Rattle.fs_model.specs.Files.{Files};
ghost use Rattle.fs_model.specs.Rename.{moving};
ghost use Rattle.op_groups.specs.Facts.{AreParents};

use crate::makes::push_touched;
use crate::parent::Parent;
use crate::shares::{no_share, share_of};
use fs_model::{Change, Entry, Group, Inode};
use std::alloc::Global;
use ubifs_base::{Memory, Name};

/// The group that moves an entry to a name in a directory: `lost` is what becomes of the inode that had this name, and
/// `old` the inode of the directory that the entry leaves. Where both directories are one, `to` needs no inode.
pub fn moving(
    alloc: Global,
    from: Entry,
    to: Parent,
    name: Name,
    lost: Option<Change>,
    old: Option<Inode>,
    now: u64,
) -> Result<Group, Memory>
    ensures { IfOk result (λ group. (files : Files) → AreParents files.tree from old to → group ≡ moving files from to.ino name (option_to_list lost) now) }
{
    let gone = share_of(&from);
    let new = Entry {
        dir: to.ino,
        name,
        ino: from.ino,
        kind: from.kind,
    };
    let came = match &lost {
        Some(_) => no_share(),
        None => share_of(&new),
    };
    let old = Parent {
        ino: from.dir,
        inode: old,
    };
    let mut group = Group::new(alloc);
    group.push(Change::SetEntry { entry: new })?;
    group.push(Change::DropEntry {
        dir: from.dir,
        name: from.name,
    })?;
    if let Some(change) = lost {
        group.push(change)?;
    }
    if old.ino == to.ino {
        push_touched(&mut group, old, now, came, gone)?;
    } else {
        push_touched(&mut group, old, now, no_share(), gone)?;
        push_touched(&mut group, to, now, came, no_share())?;
    }
    Ok(group)
}
