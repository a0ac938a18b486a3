// The pages of a file.

ghost use Rattle.std.specs.Prelude.{◌≡◌, ◌+◌, ◌/◌, ◌<◌, ◌≤◌, ◌⊎◌, OnOk, Some, true};
ghost use Rattle.fs_model.specs.declared.inode.Inode.{Inode as AnyInode};
ghost use Rattle.fs_model.specs.declared.inode.Kind.TheVariants.{File};
ghost use Rattle.fs_model.specs.Files.{inode_at};
ghost use Rattle.fs_model.specs.Proper.{IsProper};
ghost use Rattle.manifest_tree.specs.ManifestTree.{with_copies, with_copies_page};

use fs_laws::a_page_keeps_trees_proper;
use fs_model::{Change, Group, Inode, Kind};
use op_groups::{is_bad_mode, new_file};
use plain_backing::Tree;
use std::alloc::Global;
use ubifs_base::{Bytes, Memory};

/// The bytes of a page.
const PAGE: u32 = 4096;

/// Fills a new file with so many copies of a byte. The error is want of memory, here and below.
pub fn fill(
    alloc: Global,
    tree: &mut Tree,
    ino: u32,
    mode: u32,
    len: u32,
    byte: u8,
) -> Result<(), Memory>
    requires proper { IsProper tree.old }
    requires few { len ≤ 16777216 }
    ensures filled { OnOk result (tree.new ≡ with_copies ino mode len byte tree.old) }
    ensures proper { IsProper tree.new }
{
    let pages = (len + (PAGE - 1)) / PAGE;
    for page in 0..pages {
        put_page(alloc, tree, ino, mode, len, byte, page)?;
    }
    Ok(())
}

// Puts a page of it.
fn put_page(
    alloc: Global,
    tree: &mut Tree,
    ino: u32,
    mode: u32,
    len: u32,
    byte: u8,
    page: u32,
) -> Result<(), Memory>
    requires proper { IsProper tree.old }
    requires few { len ≤ 16777216 }
    requires within { page < (len + 4095) / 4096 }
    ensures put { OnOk result (tree.new ≡ with_copies_page ino mode len byte tree.old page) }
    ensures proper { IsProper tree.new }
{
    if ino == 0 {
        return Err(Memory);
    }
    if is_bad_mode(mode) {
        return Err(Memory);
    }
    if !is_single(tree, ino) {
        return Err(Memory);
    }
    let left = (len - PAGE * page).min(PAGE);
    let bytes = Bytes::from_vec(vec![in alloc; byte; left as usize]?);
    let inode = Inode {
        size: len as u64,
        ..new_file(alloc, mode, 0)
    };
    let mut group = Group::new(alloc);
    group.push(Change::SetInode { ino, inode })?;
    group.push(Change::SetBlock {
        ino,
        block: page,
        bytes,
    })?;
    a_page_keeps_trees_proper();
    tree.apply(alloc, &group)
}

// Whether a number is that of a regular file with one link.
fn is_single(tree: &Tree, ino: u32) -> bool
    ensures { result ≡ true → (inode : AnyInode) × (inode_at tree.now ino ≡ Some inode) × (inode.kind ≡ File) × (inode.nlink ≡ 1) }
{
    match tree.inode(ino) {
        Some(inode) => matches!(inode.kind, Kind::File) && inode.nlink == 1,
        None => false,
    }
}
