// Blocks of a file and lists of changes and entries, by hand.

use fs_model::{Blocks, Change, Entry, Group, Kind, Rows};
use std::alloc::Global;
use ubifs_base::{Bytes, Memory, Name};

// A file with four bytes over a page boundary.
fn written(alloc: Global) -> Result<Blocks, Memory> {
    let mut blocks = Blocks::new(alloc);
    blocks.write(alloc, 65, 4094, 4, b'a')?;
    Ok(blocks)
}

// They are read with the zeros around them.
fn are_read(alloc: Global, blocks: &Blocks) -> Result<bool, Memory> {
    let read = blocks.read(alloc, 65, 4092, 8)?;
    Ok(
        read.as_slice() == b"\0\0aaaa\0\0".as_slice()
            && (
                blocks.get(65, 0).len(),
                blocks.get(65, 1).len(),
                blocks.get(66, 0).len(),
            ) == (4096, 2, 0),
    )
}

// The second block gives way to another.
fn is_replaced(alloc: Global, blocks: &mut Blocks) -> Result<bool, Memory> {
    let bytes = Bytes::from_slice(alloc, b"bcd")?;
    match blocks.insert(65, 1, bytes)? {
        Some(old) => Ok(old.as_slice() == b"aa".as_slice()),
        None => Ok(false),
    }
}

// The number and the length of the first block, which is taken out, and its last byte.
fn taken(blocks: &mut Blocks) -> ((u32, u32), usize, u8) {
    match blocks.pop_first() {
        Some((key, bytes)) => match bytes.as_slice().last() {
            Some(last) => (key, bytes.len(), *last),
            None => (key, 0, 0),
        },
        None => ((0, 0), 0, 0),
    }
}

fn keeps_what_is_written(alloc: Global) -> Result<bool, Memory> {
    let mut blocks = written(alloc)?;
    Ok(
        are_read(alloc, &blocks)?
            && is_replaced(alloc, &mut blocks)?
            && blocks.get(65, 1) == b"bcd".as_slice()
            && taken(&mut blocks) == ((65, 0), 4096, b'a')
            && taken(&mut blocks) == ((65, 1), 3, b'd')
            && taken(&mut blocks) == ((0, 0), 0, 0),
    )
}

fn group_keeps_its_changes(alloc: Global) -> Result<bool, Memory> {
    let mut group = Group::new(alloc);
    group.push(Change::DropInode { ino: 65 })?;
    group.push(Change::DropInode { ino: 66 })?;
    let again = Group::from_vec(group.into_vec());
    Ok(again.as_slice().len() == 2)
}

fn directory_keeps_its_rows(alloc: Global) -> Result<bool, Memory> {
    let mut entries = Vec::new(alloc);
    entries.push(Entry {
        dir: 1,
        name: Name::from_slice(alloc, b"f".as_slice())?,
        ino: 65,
        kind: Kind::File,
    })?;
    let rows = Rows::from_vec(entries);
    Ok(rows.as_slice().len() == 1 && rows.into_vec().len() == 1)
}

#[test]
fn what_is_put_in_is_kept(rt: HostRuntime) {
    let alloc = rt.alloc();
    let lists = [
        ("blocks", keeps_what_is_written(alloc)),
        ("group", group_keeps_its_changes(alloc)),
        ("rows", directory_keeps_its_rows(alloc)),
    ];
    for (list, is_kept) in lists {
        assert_eq!(rt; is_kept, Ok(true), "{list}");
    }
}
