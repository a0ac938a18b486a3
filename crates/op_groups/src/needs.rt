// What a group asks of admission. None of it takes memory.

ghost use Rattle.std.specs.Prelude.{◌≡◌, ◌<◌, ◌^◌, ◌+◌, length, sum_by};
ghost use Rattle.fs_model.specs.Cover.{round_8, inode_bytes};
ghost use Rattle.fs_model.specs.Files.{Tree};
ghost use Rattle.fs_model.specs.Need.{group_need, truncation_need};
ghost use Rattle.op_groups.specs.Facts.{IsGone, bytes_asked};

use fs_model::{Change, Class, Group, Inode, Need};
use ubifs_base::Name;

/// The bytes of an inode's node, rounded up to 8.
pub fn inode_bytes(inode: &Inode) -> u64
    ensures { result ≡ inode_bytes inode.now }
{
    node_bytes(160, inode.extra.as_slice())
}

/// What a group asks for where nothing refuses it: `gone` is the bytes of the inode that goes with it, if one does.
pub fn group_need(group: &Group, gone: u64, class: Class) -> Need
    requires { sum_by (bytes_asked gone) group.now < 2 ^ 64 }
    ensures { (tree : Tree) → IsGone tree gone group.now → result ≡ group_need tree group.now class }
{
    let changes = group.as_slice();
    Need {
        credits: 0,
        bytes: all_bytes(changes, gone),
        nodes: changes.len() as u64,
        class,
    }
}

/// What the group of a new size asks for: an inode, and where the size is smaller a truncation and a whole block too.
pub fn truncation_need(group: &Group) -> Need
    ensures { result ≡ truncation_need group.now }
{
    let (bytes, nodes, class) = match group.as_slice() {
        [] => (0, 0, Class::Ordinary),
        [_] => (160, 1, Class::Ordinary),
        [_, _, ..] => (160 + 56 + 4144, 3, Class::Removal),
    };
    Need {
        credits: 0,
        bytes,
        nodes,
        class,
    }
}

// The bytes that the nodes of changes take at most.
fn all_bytes(changes: &[Change], gone: u64) -> u64
    requires { sum_by (bytes_asked gone) changes.now < 2 ^ 64 }
    ensures { result ≡ sum_by (bytes_asked gone) changes.now }
{
    changes
        .iter()
        .map(|change| change_bytes(change, gone))
        .sum()
}

// The bytes that a change's node takes at most.
fn change_bytes(change: &Change, gone: u64) -> u64
    ensures { result ≡ bytes_asked gone change.now }
{
    match change {
        Change::SetInode { ino: _, inode } => inode_bytes(inode),
        Change::SetEntry { entry } => name_bytes(&entry.name),
        Change::DropEntry { dir: _, name } => name_bytes(name),
        Change::SetBlock {
            ino: _,
            block: _,
            bytes,
        } => node_bytes(48, bytes.as_slice()),
        Change::CutBlocks {
            ino: _,
            old_size: _,
            new_size: _,
        } => 56,
        Change::DropInode { ino: _ } => gone,
    }
}

/// The bytes of the node of an entry with this name.
pub(crate) fn name_bytes(name: &Name) -> u64
    ensures { result ≡ round_8 (57 + length name.now) }
{
    node_bytes(57, name.as_slice())
}

// The bytes of a node with this head and these bytes behind it, rounded up to a multiple of 8.
fn node_bytes(head: u8, rest: &[u8]) -> u64
    ensures { result ≡ round_8 (head + length rest.now) }
{
    (head as u64 + rest.len() as u64 + 7) / 8 * 8
}
