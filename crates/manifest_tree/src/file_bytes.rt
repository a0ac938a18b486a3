// The bytes of files that are copied.

ghost use Rattle.std.specs.Prelude.{◌≡◌, ◌+◌, ◌/◌, ◌<◌, ◌≤◌, ◌^◌, OnOk, length};
ghost use Rattle.fs_model.specs.Proper.{IsProper};
ghost use Rattle.manifest_tree.specs.CopiedFiles.{with_bytes, with_bytes_page, with_files};

use crate::copied::CopiedFile;
use crate::places::copied;
use fs_laws::a_page_keeps_trees_proper;
use fs_model::{Change, Group, Inode, Kind};
use plain_backing::Tree;
use std::alloc::Global;
use ubifs_base::{Bytes, Memory};

/// The bytes of a page.
const PAGE: usize = 4096;

/// The most bytes of a file.
const FILE_BYTES: usize = 1 << 41;

/// Gives the files that a manifest copies their bytes, in order, in blocks of 4,096 of which the last may be shorter. The
/// error is want of memory, here and below; a file of more than 2^41 bytes is answered by it too.
pub fn fill_copied(
    alloc: Global,
    tree: &mut Tree,
    copied: &[CopiedFile],
    files: &[Bytes],
) -> Result<(), Memory>
    requires proper { IsProper tree.old }
    ensures filled { OnOk result (tree.new ≡ with_files copied.now files.now tree.old) }
    ensures proper { IsProper tree.new }
{
    let mut unused = files;
    let mut left = copied;
    'filling: while let Some((file, more)) = left.split_first() {
        let Some((bytes, rest)) = unused.split_first() else {
            return Ok(());
        };
        fill_bytes(alloc, tree, file.ino, bytes.as_slice())?;
        left = more;
        unused = rest;
    }
    Ok(())
}

// Gives a file its bytes.
fn fill_bytes(alloc: Global, tree: &mut Tree, ino: u32, bytes: &[u8]) -> Result<(), Memory>
    requires proper { IsProper tree.old }
    ensures filled { OnOk result (tree.new ≡ with_bytes ino bytes.now tree.old) }
    ensures proper { IsProper tree.new }
{
    if bytes.len() > FILE_BYTES {
        return Err(Memory);
    }
    let pages = (bytes.len() + (PAGE - 1)) / PAGE;
    for page in 0..pages {
        put_bytes(alloc, tree, ino, bytes, page as u32)?;
    }
    Ok(())
}

// Puts a page of them.
fn put_bytes(
    alloc: Global,
    tree: &mut Tree,
    ino: u32,
    bytes: &[u8],
    page: u32,
) -> Result<(), Memory>
    requires proper { IsProper tree.old }
    requires few { length bytes.now ≤ 2 ^ 41 }
    requires within { page < (length bytes.now + 4095) / 4096 }
    ensures put { OnOk result (tree.new ≡ with_bytes_page ino bytes.now tree.old page) }
    ensures proper { IsProper tree.new }
{
    let Some(inode) = copied(tree.inode(ino))? else {
        return Err(Memory);
    };
    match inode.kind {
        Kind::File => {}
        _ => return Err(Memory),
    }
    let rest = bytes.split_at(PAGE * page as usize).1;
    let part = rest.split_at(rest.len().min(PAGE)).0;
    let block = Bytes::from_slice(alloc, part)?;
    let inode = Inode {
        size: bytes.len() as u64,
        ..inode
    };
    let mut group = Group::new(alloc);
    group.push(Change::SetInode { ino, inode })?;
    group.push(Change::SetBlock {
        ino,
        block: page,
        bytes: block,
    })?;
    a_page_keeps_trees_proper();
    tree.apply(alloc, &group)
}
