// What a line makes, by its kind.

ghost use Rattle.std.specs.Prelude.{◌≡◌, ◌≤◌, ◌<◌, IsTrue, IfOk, OnOk, OnErr, Some, None, true, if◌then◌else◌};
ghost use Rattle.fs_model.specs.Change.{apply};
ghost use Rattle.fs_model.specs.declared.inode.Kind.TheVariants.{Dir, File as AFile};
ghost use Rattle.fs_model.specs.declared.inode.Inode.{Inode as AnyInode};
ghost use Rattle.fs_model.specs.Files.{inode_at};
ghost use Rattle.fs_model.specs.Links.{linking};
ghost use Rattle.fs_model.specs.Making.{inode_limit, making, new_dir, new_file, new_symlink};
ghost use Rattle.fs_model.specs.Proper.{IsProper, are_bytes};
ghost use Rattle.op_groups.specs.Facts.{IsParent};
ghost use Rattle.script_text.specs.declared.manifest_line.ManifestLine.TheVariants.{File, Link, Symlink};
ghost use Rattle.manifest_tree.specs.ManifestTree.{line_made, with_new};
ghost use Rattle.manifest_tree.specs.Places.{IsFreePlace};

use crate::filling::fill;
use crate::links::linking;
use crate::places::{FreePlace, copied, find_file, find_place};
use fs_laws::{a_new_file_keeps_trees_proper, a_new_symbolic_link_keeps_trees_proper};
use fs_model::{Entry, Inode, Kind};
use op_groups::{
    Parent, is_bad_mode, is_bad_target, is_used_up, making, new_dir, new_file, new_symlink,
};
use plain_backing::Tree;
use std::alloc::Global;
use ubifs_base::{Memory, Name};

/// Makes a directory, or answers that the line isn't in the grammar. The error is want of memory, here and below.
pub fn make_dir(alloc: Global, tree: &mut Tree, path: &Name, mode: u32) -> Result<bool, Memory>
    requires proper { IsProper tree.old }
    requires path { IsTrue (are_bytes path.now) }
    ensures made { IfOk result (λ made. with_new tree.old path.now (new_dir mode 0) ≡ (if made then Some tree.new else None)) }
    ensures proper { IsProper tree.new }
{
    let Some(place) = find_place(alloc, tree, path)? else {
        return Ok(false);
    };
    if is_bad_mode(mode) {
        return Err(Memory);
    }
    if !has_dir(&place.parent) {
        return Err(Memory);
    }
    if is_used_up(tree.highest()) {
        return Err(Memory);
    }
    a_new_file_keeps_trees_proper();
    put_new(alloc, tree, place, new_dir(alloc, mode, 0))?;
    Ok(true)
}

/// Makes a file of so many copies of a byte.
pub fn make_file(
    alloc: Global,
    tree: &mut Tree,
    path: &Name,
    mode: u32,
    len: u32,
    byte: u8,
) -> Result<bool, Memory>
    requires proper { IsProper tree.old }
    requires path { IsTrue (are_bytes path.now) }
    requires few { len ≤ 16777216 }
    ensures made { IfOk result (λ made. line_made tree.old (File path.now mode len byte) ≡ (if made then Some tree.new else None)) }
    ensures proper { IsProper tree.new }
{
    let highest = tree.highest();
    if is_used_up(highest) {
        return Err(Memory);
    }
    if !make_empty_file(alloc, tree, path, mode)? {
        return Ok(false);
    }
    fill(alloc, tree, highest + 1, mode, len, byte)?;
    Ok(true)
}

/// Makes a file without bytes.
pub fn make_empty_file(
    alloc: Global,
    tree: &mut Tree,
    path: &Name,
    mode: u32,
) -> Result<bool, Memory>
    requires proper { IsProper tree.old }
    requires path { IsTrue (are_bytes path.now) }
    ensures made { IfOk result (λ made. with_new tree.old path.now (new_file mode 0) ≡ (if made then Some tree.new else None)) }
    ensures proper { IsProper tree.new }
{
    let Some(place) = find_place(alloc, tree, path)? else {
        return Ok(false);
    };
    if is_bad_mode(mode) {
        return Err(Memory);
    }
    if is_used_up(tree.highest()) {
        return Err(Memory);
    }
    a_new_file_keeps_trees_proper();
    put_new(alloc, tree, place, new_file(alloc, mode, 0))?;
    Ok(true)
}

/// Makes a symbolic link.
pub fn make_symlink(
    alloc: Global,
    tree: &mut Tree,
    path: &Name,
    target: &Name,
) -> Result<bool, Memory>
    requires proper { IsProper tree.old }
    requires path { IsTrue (are_bytes path.now) }
    requires target { IsTrue (are_bytes target.now) }
    ensures made { IfOk result (λ made. line_made tree.old (Symlink path.now target.now) ≡ (if made then Some tree.new else None)) }
    ensures proper { IsProper tree.new }
{
    if is_bad_target(target) {
        return Ok(false);
    }
    let Some(place) = find_place(alloc, tree, path)? else {
        return Ok(false);
    };
    if is_used_up(tree.highest()) {
        return Err(Memory);
    }
    let target = Name::from_slice(alloc, target.as_slice())?;
    a_new_symbolic_link_keeps_trees_proper();
    put_new(alloc, tree, place, new_symlink(target, 0))?;
    Ok(true)
}

/// Gives a file a further name. A manifest's lines give it fewer than the 2^32 - 1 that are answered by want of memory.
pub fn make_link(alloc: Global, tree: &mut Tree, named: &Name, path: &Name) -> Result<bool, Memory>
    requires proper { IsProper tree.old }
    requires path { IsTrue (are_bytes path.now) }
    ensures made { IfOk result (λ made. line_made tree.old (Link named.now path.now) ≡ (if made then Some tree.new else None)) }
    ensures proper { IsProper tree.new }
{
    let Some(entry) = find_file(alloc, tree, named)? else {
        return Ok(false);
    };
    let Some(inode) = copied(tree.inode(entry.ino))? else {
        return Ok(false);
    };
    let Some(place) = find_place(alloc, tree, path)? else {
        return Ok(false);
    };
    put_name(alloc, tree, entry, inode, place, path)?;
    Ok(true)
}

// Puts a further name of a file at a place.
fn put_name(
    alloc: Global,
    tree: &mut Tree,
    entry: Entry,
    inode: Inode,
    place: FreePlace,
    path: &Name,
) -> Result<(), Memory>
    requires proper { IsProper tree.old }
    requires path { IsTrue (are_bytes path.now) }
    requires place { IsFreePlace tree.old path.now place }
    requires inode { inode_at tree.old entry.ino ≡ Some inode }
    requires file { entry.kind ≡ AFile }
    ensures ok { OnOk result (tree.new ≡ apply tree.old (linking tree.old entry inode place.parent.ino place.name 0)) }
    ensures proper { IsProper tree.new }
{
    let FreePlace { parent, name } = place;
    let Parent {
        ino: dir,
        inode: parent,
    } = parent;
    let Some(parent) = parent else {
        return Err(Memory);
    };
    if !is_of_kind(&parent, Kind::Dir) {
        return Err(Memory);
    }
    if !is_of_kind(&inode, Kind::File) {
        return Err(Memory);
    }
    if inode.nlink == u32::MAX {
        return Err(Memory);
    }
    if is_used_up(tree.highest()) {
        return Err(Memory);
    }
    a_new_file_keeps_trees_proper();
    let group = linking(alloc, entry, inode, dir, parent, name)?;
    tree.apply(alloc, &group)
}

// Whether an inode is of a kind.
fn is_of_kind(inode: &Inode, kind: Kind) -> bool
    ensures { result ≡ true → inode.now.kind ≡ kind }
{
    match (inode.kind, kind) {
        (Kind::File, Kind::File) => true,
        (Kind::Dir, Kind::Dir) => true,
        _ => false,
    }
}

// Puts a new inode at a place.
fn put_new(alloc: Global, tree: &mut Tree, place: FreePlace, inode: Inode) -> Result<(), Memory>
    requires limit { tree.old.highest < inode_limit }
    requires parent { IsParent tree.old place.parent }
    ensures ok { OnOk result (tree.new ≡ apply tree.old (making tree.old place.parent.ino place.name inode 0)) }
    ensures err { OnErr result (tree.new ≡ tree.old) }
{
    let group = making(alloc, tree.highest(), place.parent, place.name, inode, 0)?;
    tree.apply(alloc, &group)
}

// Whether the inode of a directory was found.
fn has_dir(parent: &Parent) -> bool
    ensures { result ≡ true → (inode : AnyInode) × (parent.now.inode ≡ Some inode) × (inode.kind ≡ Dir) }
{
    match &parent.inode {
        Some(inode) => is_of_kind(inode, Kind::Dir),
        None => false,
    }
}
