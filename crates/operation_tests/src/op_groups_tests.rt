// Paths and groups by hand.

use fs_model::{Change, Class, Entry, Group, Kind};
use op_groups::{
    Parent, components, dir_links, front_of, group_need, has_long_name, has_no_entry, inode_bytes,
    is_name_path, is_path, is_root, is_under, last_of, linking, losing, making, moving, new_dir,
    new_file, new_symlink, pop_last, removing, setting_mode, size_of, truncating, truncation_need,
};
use std::alloc::{AllocError, Global};
use ubifs_base::{Memory, Name};

fn name(alloc: Global, bytes: &[u8]) -> Result<Name, AllocError> {
    Name::from_slice(alloc, bytes)
}

// Whether this is so of a text: it is a path, it has a name; and no name of it is too long.
fn is_told(heap: Global, text: &[u8], is_any: bool, is_name: bool) -> Result<bool, Memory> {
    let path = name(heap, text)?;
    Ok(is_path(&path) == is_any && is_name_path(&path) == is_name && !has_long_name(&path))
}

// The components of a path.
fn parts(heap: Global, text: &[u8]) -> Result<Vec<Name>, Memory> {
    let path = name(heap, text)?;
    components(heap, &path)
}

fn are_ordered(names: &[Name]) -> bool {
    names.len() == 3
        && last_of(names) == b"def".as_slice()
        && last_of(front_of(names)) == b"c".as_slice()
}

fn is_last_taken(names: &mut Vec<Name>) -> bool {
    match pop_last(names) {
        Some(last) => last.as_slice() == b"def".as_slice(),
        None => false,
    }
}

// Components come in order, and the last one can be taken off.
fn are_taken_apart(heap: Global) -> Result<bool, Memory> {
    let mut names = parts(heap, b"/ab/c/def".as_slice())?;
    Ok(are_ordered(names.as_slice()) && is_last_taken(&mut names) && names.len() == 2)
}

fn are_above(heap: Global) -> Result<bool, Memory> {
    let above = parts(heap, b"/ab".as_slice())?;
    let below = parts(heap, b"/ab/c/def".as_slice())?;
    Ok(
        is_under(above.as_slice(), below.as_slice())
            && !is_under(below.as_slice(), above.as_slice())
            && !is_under(above.as_slice(), above.as_slice()),
    )
}

fn root_has_no_name(heap: Global) -> Result<bool, Memory> {
    let root = name(heap, b"/".as_slice())?;
    let names = components(heap, &root)?;
    Ok(is_root(&root) && names.is_empty())
}

// A directory of this number.
fn parent(heap: Global, ino: u32) -> Parent {
    Parent {
        ino,
        inode: Some(new_dir(heap, 0o755, 1)),
    }
}

// A letter for each change: a capital one for what is set, a small one for what goes.
fn letter(change: &Change) -> u8 {
    match change {
        Change::SetInode { ino: _, inode: _ } => b'I',
        Change::SetEntry { entry: _ } => b'E',
        Change::DropEntry { dir: _, name: _ } => b'e',
        Change::SetBlock {
            ino: _,
            block: _,
            bytes: _,
        } => b'B',
        Change::CutBlocks {
            ino: _,
            old_size: _,
            new_size: _,
        } => b'b',
        Change::DropInode { ino: _ } => b'i',
    }
}

// Whether these are the letters of a group, in order.
fn is_spelled(changes: &[Change], letters: &[u8]) -> bool {
    if changes.len() != letters.len() {
        return false;
    }
    for (change, wanted) in changes.iter().zip(letters) {
        if letter(change) != *wanted {
            return false;
        }
    }
    true
}

// The same of a group for which there may be no memory.
fn is_made_of(group: Result<Group, Memory>, letters: &[u8]) -> Result<bool, Memory> {
    let group = group?;
    Ok(is_spelled(group.as_slice(), letters))
}

// The entry of file 65 under a name in the root.
fn entry(alloc: Global, text: &[u8]) -> Result<Entry, AllocError> {
    Ok(Entry {
        dir: 1,
        name: name(alloc, text)?,
        ino: 65,
        kind: Kind::File,
    })
}

// What a group puts, in order: of a name that is made, of one that is given, and of one that goes.
fn made(heap: Global) -> Result<Group, Memory> {
    let name = name(heap, b"f")?;
    making(heap, 64, parent(heap, 1), name, new_file(heap, 0o644, 2), 3)
}

fn linked(heap: Global) -> Result<Group, Memory> {
    let target = name(heap, b"f")?;
    let old = entry(heap, b"f")?;
    let new = name(heap, b"g")?;
    linking(heap, old, new_symlink(target, 2), parent(heap, 1), new, 3)
}

fn removed(heap: Global, held_open: bool) -> Result<Group, Memory> {
    let old = entry(heap, b"f")?;
    removing(heap, old, new_file(heap, 0o644, 2), held_open, None, 3)
}

// What goes when an entry moves over a file, and nothing else.
fn lost(heap: Global, over: bool) -> Option<Change> {
    if over {
        Some(losing(66, 3, new_file(heap, 0o644, 2), false))
    } else {
        None
    }
}

// An entry that moves to a directory, over a file or not.
fn moved(heap: Global, dir: u32, over: bool) -> Result<Group, Memory> {
    let old = entry(heap, b"f")?;
    let new = name(heap, b"g")?;
    let from = Some(new_dir(heap, 0o755, 1));
    moving(heap, old, parent(heap, dir), new, lost(heap, over), from, 3)
}

// A file of 9 bytes that gets this size.
fn resized(heap: Global, size: u32) -> Result<Group, Memory> {
    let file = new_file(heap, 0o644, 2);
    truncating(heap, 65, file, size as u64, 9, b"abcdefghi", 3)
}

// The bytes that it asks for.
fn is_asked(heap: Global, size: u32, bytes: u64) -> Result<bool, Memory> {
    let group = resized(heap, size)?;
    Ok(truncation_need(&group).bytes == bytes)
}

// The size in an inode where the last block doesn't end there.
fn is_sized(heap: Global) -> bool {
    size_of(&new_file(heap, 0o644, 2), Some(2), 5) == 8197
}

// What a file that goes asks for.
fn removal_is_reckoned(heap: Global) -> Result<bool, Memory> {
    let gone = inode_bytes(&new_file(heap, 0o644, 2));
    let mut group = Group::new(heap);
    group.push(Change::DropInode { ino: 65 })?;
    let need = group_need(&group, gone, Class::Removal);
    Ok((need.bytes, need.nodes) == (160, 1))
}

// What is reckoned of a directory with two entries.
fn directory_is_reckoned(heap: Global) -> Result<bool, Memory> {
    let file = entry(heap, b"f")?;
    let dir = Entry {
        dir: 1,
        name: name(heap, b"sub")?,
        ino: 66,
        kind: Kind::Dir,
    };
    let entries = [file, dir];
    Ok(dir_links(&entries) == 3 && !has_no_entry(&entries))
}

// What is tried in a row with its bytes: a text, which is a path or has a name or neither; a group, of which the bytes are the
// letters; or something without bytes.
enum Case {
    Text { is_any: bool, is_name: bool },
    Apart,
    Above,
    Root,
    Made,
    Linked,
    Removed { held_open: bool },
    Moved { dir: u32, over: bool },
    Resized { size: u32 },
    ModeSet,
    Asked { size: u32, bytes: u64 },
    Sized,
    Removal,
    Directory,
}

fn is_right(heap: Global, case: &Case, bytes: &[u8]) -> Result<bool, Memory> {
    match case {
        Case::Text { is_any, is_name } => is_told(heap, bytes, *is_any, *is_name),
        Case::Apart => are_taken_apart(heap),
        Case::Above => are_above(heap),
        Case::Root => root_has_no_name(heap),
        Case::Asked { size, bytes } => is_asked(heap, *size, *bytes),
        Case::Sized => Ok(is_sized(heap)),
        Case::Removal => removal_is_reckoned(heap),
        Case::Directory => directory_is_reckoned(heap),
        _ => is_made_of(group_of(heap, case), bytes),
    }
}

// The group of a row.
fn group_of(heap: Global, case: &Case) -> Result<Group, Memory> {
    match case {
        Case::Made => made(heap),
        Case::Linked => linked(heap),
        Case::Removed { held_open } => removed(heap, *held_open),
        Case::Moved { dir, over } => moved(heap, *dir, *over),
        Case::Resized { size } => resized(heap, *size),
        _ => setting_mode(heap, 65, new_file(heap, 0o644, 2), 0o600, 3),
    }
}

// A text with a bad component, with a zero byte or without a leading slash is no path. An entry moves within its directory over
// a file, and into another one. A size in the middle of a block that is longer shortens it; one at a block's start, or a
// greater one, doesn't.
const ROWS: &[(&str, Case, &[u8])] = &[
    (
        "slash",
        Case::Text {
            is_any: true,
            is_name: false,
        },
        b"/",
    ),
    (
        "one name",
        Case::Text {
            is_any: true,
            is_name: true,
        },
        b"/a",
    ),
    (
        "three names",
        Case::Text {
            is_any: true,
            is_name: true,
        },
        b"/ab/c/def",
    ),
    (
        "three dots",
        Case::Text {
            is_any: true,
            is_name: true,
        },
        b"/...",
    ),
    (
        "dots and letters",
        Case::Text {
            is_any: true,
            is_name: true,
        },
        b"/.a/..b/c.",
    ),
    (
        "byte 255 and a space",
        Case::Text {
            is_any: true,
            is_name: true,
        },
        b"/\xFF ",
    ),
    (
        "empty",
        Case::Text {
            is_any: false,
            is_name: false,
        },
        b"",
    ),
    (
        "no slash",
        Case::Text {
            is_any: false,
            is_name: false,
        },
        b"a",
    ),
    (
        "slash within",
        Case::Text {
            is_any: false,
            is_name: false,
        },
        b"a/b",
    ),
    (
        "two slashes",
        Case::Text {
            is_any: false,
            is_name: false,
        },
        b"//",
    ),
    (
        "slash at the end",
        Case::Text {
            is_any: false,
            is_name: false,
        },
        b"/a/",
    ),
    (
        "empty within",
        Case::Text {
            is_any: false,
            is_name: false,
        },
        b"/a//b",
    ),
    (
        "dot",
        Case::Text {
            is_any: false,
            is_name: false,
        },
        b"/a/./b",
    ),
    (
        "two dots",
        Case::Text {
            is_any: false,
            is_name: false,
        },
        b"/../a",
    ),
    (
        "zero byte",
        Case::Text {
            is_any: false,
            is_name: false,
        },
        b"/a\0b",
    ),
    ("taken apart", Case::Apart, b""),
    ("above", Case::Above, b""),
    ("root", Case::Root, b""),
    ("made", Case::Made, b"EII"),
    ("linked", Case::Linked, b"EII"),
    ("removed", Case::Removed { held_open: false }, b"ei"),
    ("held open", Case::Removed { held_open: true }, b"eI"),
    ("over a file", Case::Moved { dir: 1, over: true }, b"EeiI"),
    (
        "to another",
        Case::Moved {
            dir: 70,
            over: false,
        },
        b"EeII",
    ),
    ("within", Case::Resized { size: 3 }, b"IbB"),
    (
        "asked within",
        Case::Asked {
            size: 3,
            bytes: 4360,
        },
        b"",
    ),
    ("to nothing", Case::Resized { size: 0 }, b"Ib"),
    ("grown", Case::Resized { size: 10 }, b"I"),
    (
        "asked grown",
        Case::Asked {
            size: 10,
            bytes: 160,
        },
        b"",
    ),
    ("size", Case::Sized, b""),
    ("mode", Case::ModeSet, b"I"),
    ("removal", Case::Removal, b""),
    ("directory", Case::Directory, b""),
];

#[test]
fn paths_and_groups_are_right(rt: HostRuntime) {
    for (row, case, bytes) in ROWS {
        assert_eq!(rt; is_right(rt.alloc(), case, bytes), Ok(true), "{row}");
    }
}
