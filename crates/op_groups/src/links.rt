// The groups that give a name to an inode that is there, and that take one away.

ghost use Rattle.std.specs.Prelude.{◌≡◌, ◌<◌, IfOk};
ghost use Rattle.fs_model.specs.Directory.{is_linked_out};
ghost use Rattle.fs_model.specs.Files.{Tree, Files, inode_at};
ghost use Rattle.fs_model.specs.Links.{linking, losing, removing};
ghost use Rattle.fs_model.specs.Orphan.{is_open};
ghost use Rattle.op_groups.specs.Facts.{IsParent};

use crate::inodes::{less_linked, touched};
use crate::makes::push_touched;
use crate::parent::Parent;
use crate::shares::{no_share, share_of};
use fs_model::{Change, Entry, Group, Inode};
use std::alloc::Global;
use ubifs_base::{Memory, Name};

/// Whether there is no link left for a further one (EMLINK of link(2)).
pub fn is_linked_out(links: u64) -> bool
    ensures { result ≡ is_linked_out links }
{
    links >= 65_000
}

/// The group that gives an inode, which an entry names, a further name in a directory.
pub fn linking(
    alloc: Global,
    entry: Entry,
    inode: Inode,
    parent: Parent,
    name: Name,
    now: u64,
) -> Result<Group, Memory>
    requires { inode.nlink < 65000 }
    ensures { IfOk result (λ group. (tree : Tree) → IsParent tree parent → group ≡ linking tree entry inode parent.ino name now) }
{
    let ino = entry.ino;
    let nlink = inode.nlink + 1;
    let new = Entry {
        dir: parent.ino,
        name,
        ..entry
    };
    let came = share_of(&new);
    let mut group = Group::new(alloc);
    group.push(Change::SetEntry { entry: new })?;
    group.push(Change::SetInode {
        ino,
        inode: touched(now, Inode { nlink, ..inode }),
    })?;
    push_touched(&mut group, parent, now, came, no_share())?;
    Ok(group)
}

/// What becomes of an inode that loses a name: with the last one it goes, unless somebody has it open, and then it stays
/// without a name. Takes no memory.
pub fn losing(ino: u32, now: u64, inode: Inode, held_open: bool) -> Change
    ensures { (files : Files) → is_open files ino ≡ held_open → result ≡ losing files ino now inode }
{
    let left = less_linked(now, inode);
    if left.nlink == 0 && !held_open {
        Change::DropInode { ino }
    } else {
        Change::SetInode { ino, inode: left }
    }
}

/// The group that takes a name away: `inode` is what the entry names, `held_open` whether somebody has it open, and `parent`
/// the inode of the directory.
pub fn removing(
    alloc: Global,
    entry: Entry,
    inode: Inode,
    held_open: bool,
    parent: Option<Inode>,
    now: u64,
) -> Result<Group, Memory>
    ensures { IfOk result (λ group. (files : Files) → is_open files entry.ino ≡ held_open → inode_at files.tree entry.dir ≡ parent → group ≡ removing files entry inode now) }
{
    let dir = entry.dir;
    let gone = share_of(&entry);
    let mut group = Group::new(alloc);
    group.push(Change::DropEntry {
        dir,
        name: entry.name,
    })?;
    group.push(losing(entry.ino, now, inode, held_open))?;
    let dir = Parent {
        ino: dir,
        inode: parent,
    };
    push_touched(&mut group, dir, now, no_share(), gone)?;
    Ok(group)
}
