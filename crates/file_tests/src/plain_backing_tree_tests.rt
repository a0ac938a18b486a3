// A tree that groups make, and a group that is refused memory.

use fs_model::{Change, Entry, Group, Inode, Kind};
use plain_backing::Tree;
use std::alloc::Global;
use ubifs_base::{Bytes, Memory, Name};

// The inodes 65 and 66 with blocks, names in the directories 1 and 2, and a block of no inode.
const FIRST: &[u8] = b"ijbaz076n";

// A name goes and comes back, a block is cut, and an inode that was set in the same group goes.
const SECOND: &[u8] = b"BceCxkyKJ";

fn set_inode(alloc: Global, ino: u32, kind: Kind) -> Change {
    Change::SetInode {
        ino,
        inode: Inode {
            kind,
            mode: 0o644,
            uid: 0,
            gid: 0,
            flags: 0,
            nlink: 1,
            size: 0,
            atime: 1,
            ctime: 1,
            mtime: 1,
            extra: Bytes::from_vec(Vec::new(alloc)),
        },
    }
}

fn set_entry(alloc: Global, dir: u32, name: &[u8], ino: u32) -> Result<Change, Memory> {
    let name = Name::from_slice(alloc, name)?;
    let kind = Kind::File;
    Ok(Change::SetEntry {
        entry: Entry {
            dir,
            name,
            ino,
            kind,
        },
    })
}

fn drop_entry(alloc: Global, dir: u32, name: &[u8]) -> Result<Change, Memory> {
    let name = Name::from_slice(alloc, name)?;
    Ok(Change::DropEntry { dir, name })
}

fn set_block(alloc: Global, ino: u32, block: u32, bytes: &[u8]) -> Result<Change, Memory> {
    let bytes = Bytes::from_slice(alloc, bytes)?;
    Ok(Change::SetBlock { ino, block, bytes })
}

// The change of a letter: a small one sets and a capital one drops, but for `x`, which cuts.
fn change(alloc: Global, letter: u8) -> Result<Change, Memory> {
    match letter {
        b'i' => Ok(set_inode(alloc, 65, Kind::File)),
        b'j' => Ok(set_inode(alloc, 66, Kind::File)),
        b'k' => Ok(set_inode(alloc, 70, Kind::Dir)),
        b'a' => set_entry(alloc, 1, b"a", 65),
        b'b' => set_entry(alloc, 1, b"b", 66),
        b'c' => set_entry(alloc, 1, b"c", 65),
        b'e' => set_entry(alloc, 1, b"b", 65),
        b'z' => set_entry(alloc, 2, b"a", 66),
        b'B' => drop_entry(alloc, 1, b"b"),
        b'C' => drop_entry(alloc, 1, b"c"),
        b'0' => set_block(alloc, 65, 0, b"abc"),
        b'7' => set_block(alloc, 65, 7, b"de"),
        b'6' => set_block(alloc, 66, 1, b"f"),
        b'n' => set_block(alloc, 67, 1, b"nobody"),
        b'y' => set_block(alloc, 70, 0, b"x"),
        b'x' => Ok(Change::CutBlocks {
            ino: 65,
            old_size: 28674,
            new_size: 3,
        }),
        b'K' => Ok(Change::DropInode { ino: 70 }),
        _ => Ok(Change::DropInode { ino: 66 }),
    }
}

// The changes of the letters, in order.
fn group(alloc: Global, letters: &[u8]) -> Result<Group, Memory> {
    let mut group = Group::new(alloc);
    for letter in letters {
        let change = change(alloc, *letter)?;
        group.push(change)?;
    }
    Ok(group)
}

// The highest number, the bytes, the cells of inodes, blocks and entries, and the last blocks of 65 and 66.
type Told = (u32, u64, (usize, usize, usize), (Option<u32>, Option<u32>));

const EMPTY: Told = (64, 0, (0, 0, 0), (None, None));

// Two inodes of 160, three names of 64, and blocks of 56, 56 and 56.
const AFTER_FIRST: Told = (67, 680, (2, 3, 3), (Some(7), Some(1)));

// One inode, three names, and the block 0.
const AFTER_SECOND: Told = (70, 408, (1, 1, 3), (Some(0), None));

fn told(tree: &Tree) -> Told {
    (
        tree.highest(),
        tree.bytes(),
        tree.count_cells(),
        (tree.last_block(65), tree.last_block(66)),
    )
}

// A group that is refused memory is made again.
fn surely_made(alloc: Global, letters: &[u8]) -> Result<Group, Memory> {
    match group(alloc, letters) {
        Ok(group) => Ok(group),
        Err(_) => group(alloc, letters),
    }
}

// Whether a group makes of one tree the other. One that is refused memory changes nothing, and leaves no empty cell; it is
// applied again, and no cell is empty then.
fn makes(
    alloc: Global,
    tree: &mut Tree,
    group: &Group,
    before: &Told,
    after: &Told,
) -> Result<bool, Memory> {
    if tree.apply(alloc, group).is_err() {
        if told(tree) != *before {
            return Ok(false);
        }
        tree.apply(alloc, group)?;
    }
    Ok(told(tree) == *after)
}

// The mode of an inode, 0 where there is none.
fn mode_of(tree: &Tree, ino: u32) -> u32 {
    match tree.inode(ino) {
        Some(inode) => inode.mode,
        None => 0,
    }
}

// The inode behind a name, 0 where there is none.
fn looked_up(alloc: Global, tree: &Tree, dir: u32, bytes: &[u8]) -> Result<u32, Memory> {
    let name = Name::from_slice(alloc, bytes)?;
    match tree.entry(alloc, dir, &name)? {
        Some(entry) => Ok(entry.ino),
        None => Ok(0),
    }
}

// The inodes that two entries of a directory name, and zeros for any other number of entries.
fn inodes_in(alloc: Global, tree: &Tree, dir: u32) -> Result<(u32, u32), Memory> {
    let entries = tree.entries_in(alloc, dir)?;
    match entries.as_slice() {
        [first, second] => Ok((first.ino, second.ino)),
        _ => Ok((0, 0)),
    }
}

// Two groups make a tree, and each call tells of it.
fn groups_make_a_tree(alloc: Global) -> Result<bool, Memory> {
    let first = surely_made(alloc, FIRST)?;
    let second = surely_made(alloc, SECOND)?;
    let mut tree = Tree::new(alloc, 64);
    if !makes(alloc, &mut tree, &first, &EMPTY, &AFTER_FIRST)?
        || !tree.has_block(65, 7)
        || tree.has_block(67, 1)
        || !makes(alloc, &mut tree, &second, &AFTER_FIRST, &AFTER_SECOND)?
    {
        return Ok(false);
    }
    Ok(
        mode_of(&tree, 65) == 0o644
            && tree.block(65, 0) == b"abc".as_slice()
            && looked_up(alloc, &tree, 2, b"a")? == 66
            && inodes_in(alloc, &tree, 1)? == (65, 65),
    )
}

#[test]
fn trees_are_as_worked(rt: HostRuntime) {
    assert_eq!(rt; groups_make_a_tree(rt.alloc()), Ok(true));
}
