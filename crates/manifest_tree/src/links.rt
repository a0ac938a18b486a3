// The group of a further name.

ghost use Rattle.std.specs.Prelude.{◌≡◌, ◌<◌, IfOk, Some};
ghost use Rattle.fs_model.specs.declared.inode.Entry.{Entry as AnyEntry};
ghost use Rattle.fs_model.specs.declared.inode.Kind.TheVariants.{Dir, File};
ghost use Rattle.fs_model.specs.Directory.{counted, no_share, share_of};
ghost use Rattle.fs_model.specs.Files.{Tree as AnyTree, inode_at};
ghost use Rattle.fs_model.specs.Links.{linking};

use fs_model::{Change, Entry, Group, Inode};
use op_groups::touched;
use std::alloc::Global;
use ubifs_base::{Memory, Name};

/// The group that gives a file a further name in a directory, whose inode is `parent`. A manifest knows no limit of links,
/// and all times are 0. The error is want of memory.
pub fn linking(
    alloc: Global,
    entry: Entry,
    inode: Inode,
    dir: u32,
    parent: Inode,
    name: Name,
) -> Result<Group, Memory>
    requires few { inode.nlink < 4294967295 }
    requires file { entry.kind ≡ File }
    requires parent { parent.kind ≡ Dir }
    ensures { IfOk result (λ group. (tree : AnyTree) → inode_at tree dir ≡ Some parent → group ≡ linking tree entry inode dir name 0) }
{
    let ino = entry.ino;
    let nlink = inode.nlink + 1;
    let parent = with_entry(parent, &name);
    let new = Entry { dir, name, ..entry };
    let mut group = Group::new(alloc);
    group.push(Change::SetEntry { entry: new })?;
    group.push(Change::SetInode {
        ino,
        inode: touched(0, Inode { nlink, ..inode }),
    })?;
    group.push(Change::SetInode {
        ino: dir,
        inode: touched(0, parent),
    })?;
    Ok(group)
}

// A directory once the entry of a file comes with this name. Takes no memory.
fn with_entry(parent: Inode, name: &Name) -> Inode
    requires { parent.kind ≡ Dir }
    ensures { (entry : AnyEntry) → entry.kind ≡ File → entry.name ≡ name.now → result ≡ counted (share_of entry) no_share parent }
{
    let bytes = (57 + name.as_slice().len() as u64 + 7) / 8 * 8;
    let nlink = parent.nlink.max(1);
    let size = parent.size.saturating_add(bytes);
    Inode {
        nlink,
        size,
        ..parent
    }
}
