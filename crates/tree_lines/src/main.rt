//! Prints the files of a sound image, whose file the first word names: a line for each path from the root on, in the order of names. Each
//! has the number of its inode, the letter of its kind, its permission bits in octal, owner, group, links, size, time of change in seconds,
//! the checksum of its contents with zeros in holes, its path, and the target of a symbolic link or a device's number. Bytes that can't
//! stand in a word are `%` and two hex digits. Without a word nothing is printed. The status is 1 where there is no sound image.
#![tactic(auto)]

use fs_model::{Inode, Kind};
use image_dump::open_image;
use io_edges::{FileKeeper, Keeper, OutSink, Sink};
use plain_backing::Tree;
use recovered_tree::read_tree_of;
use sound_image::contents_say_one_thing;
use std::alloc::{AllocError, Global};
use std::env;
use std::thread::Threads;
use text_lines::push_number;
use ubifs_base::{Memory, crc32};

/// The number of the root's inode (`UBIFS_ROOT_INO` of ubifs-media.h).
const ROOT: u32 = 1;

/// Bytes of a block.
const BLOCK: usize = 4096;

/// The digits of numbers of 4 bits.
const DIGITS: &[u8; 16] = b"0123456789abcdef";

// An inode, and a path that leads to it.
#[derive(Drop)]
struct Row {
    ino: u32,
    path: Vec<u8>,
}

fn main(rt: HostRuntime) -> anyhow::Result<()> {
    let mut words = env::args(&rt)?;
    words.next();
    let Some(word) = words.next() else {
        return Ok(());
    };
    let mut keeper = FileKeeper::new(rt.alloc(), rt.clone()?);
    let image = keeper.read(&word)?;
    let tree = read(&rt, rt.alloc(), &image)?;
    let text = lines_of(rt.alloc(), &tree)?;
    let mut out = OutSink::new(rt.clone()?);
    out.write(text.as_slice())?;
    Ok(())
}

// The files of an image.
fn read<R: Threads + Sync>(rt: &R, alloc: Global, image: &[u8]) -> anyhow::Result<Tree> {
    contents_say_one_thing();
    let mut opened = open_image(alloc, image)?;
    let files = read_tree_of(rt, alloc, &mut opened.volume)?;
    Ok(files.tree)
}

// The lines of a tree.
fn lines_of(alloc: Global, tree: &Tree) -> Result<Vec<u8>, Memory> {
    let mut text = Vec::new(alloc);
    let mut left = Vec::new(alloc);
    left.push(Row {
        ino: ROOT,
        path: Vec::new(alloc),
    })?;
    for _ in 0..u64::MAX {
        let Some(row) = left.pop() else {
            break;
        };
        let Some(inode) = tree.inode(row.ino) else {
            continue;
        };
        push_line(alloc, &mut text, tree, &row, inode)?;
        if let Kind::Dir = inode.kind {
            push_below(alloc, &mut left, tree, &row)?;
        }
    }
    Ok(text)
}

// Appends what a directory names, so that the first name is last.
fn push_below(alloc: Global, left: &mut Vec<Row>, tree: &Tree, dir: &Row) -> Result<(), Memory> {
    let entries = tree.entries_in(alloc, dir.ino)?;
    for entry in entries.iter().rev() {
        let mut path = Vec::from_slice(alloc, dir.path.as_slice())?;
        path.push(b'/')?;
        path.extend_from_slice(entry.name.as_slice())?;
        left.push(Row {
            ino: entry.ino,
            path,
        })?;
    }
    Ok(())
}

// Appends the line of a path.
fn push_line(
    alloc: Global,
    text: &mut Vec<u8>,
    tree: &Tree,
    row: &Row,
    inode: &Inode,
) -> Result<(), Memory> {
    let contents = contents_of(alloc, tree, row.ino, inode)?;
    push_number(text, row.ino as u64)?;
    text.push(b' ')?;
    text.push(letter_of(inode.kind))?;
    let words = format!(in alloc;
        " {:04o} {} {} {} {} {} {:08x} ",
        inode.mode,
        inode.uid,
        inode.gid,
        inode.nlink,
        inode.size.max(contents.len() as u64),
        inode.mtime,
        crc32(contents.as_slice())
    )?;
    text.extend_from_slice(words.as_bytes())?;
    push_path(text, row.path.as_slice())?;
    if !inode.extra.as_slice().is_empty() {
        text.push(b' ')?;
        push_escaped(text, inode.extra.as_slice())?;
    }
    text.push(b'\n')?;
    Ok(())
}

// The bytes of a file, with zeros in holes and up to its size; none of what is no file.
fn contents_of(alloc: Global, tree: &Tree, ino: u32, inode: &Inode) -> Result<Vec<u8>, Memory> {
    let mut contents = Vec::new(alloc);
    let Kind::File = inode.kind else {
        return Ok(contents);
    };
    for (key, bytes) in tree.blocks_of(ino) {
        contents.resize(key.1 as usize * BLOCK, 0)?;
        contents.extend_from_slice(bytes.as_slice())?;
    }
    let size = inode.size as usize;
    if contents.len() < size {
        contents.resize(size, 0)?;
    }
    Ok(contents)
}

fn letter_of(kind: Kind) -> u8 {
    match kind {
        Kind::File => b'f',
        Kind::Dir => b'd',
        Kind::Symlink => b'l',
        Kind::Block => b'b',
        Kind::Char => b'c',
        Kind::Fifo => b'p',
        Kind::Socket => b's',
    }
}

// Appends a path; that of the root is a slash.
fn push_path(text: &mut Vec<u8>, path: &[u8]) -> Result<(), AllocError> {
    if path.is_empty() {
        text.push(b'/')?;
    }
    push_escaped(text, path)
}

// Appends bytes, those that can't stand in a word as `%` and two hex digits.
fn push_escaped(text: &mut Vec<u8>, bytes: &[u8]) -> Result<(), AllocError> {
    for byte in bytes {
        if b' ' < *byte && *byte < 127 && *byte != b'%' {
            text.push(*byte)?;
        } else {
            text.push(b'%')?;
            text.push(DIGITS[(*byte / 16) as usize])?;
            text.push(DIGITS[(*byte % 16) as usize])?;
        }
    }
    Ok(())
}
