// Where a new name can stand.

ghost use Rattle.std.specs.Prelude.{◌≡◌, None, Ok, IfOk, IfSome, IfNone};
ghost use Rattle.std.specs.Option.{option_copied};
ghost use Rattle.fs_model.specs.declared.inode.Kind.TheVariants.{File};
ghost use Rattle.fs_model.specs.Path.{only_dir, walked};
ghost use Rattle.manifest_tree.specs.ManifestTree.{free_in, free_place, only_file};
ghost use Rattle.manifest_tree.specs.Places.{IsFreePlace, IsPlaceIn};

use crate::walks::walk;
use fs_model::{Entry, Inode, Kind};
use op_groups::{Parent, components, has_long_name, is_name_path, pop_last};
use plain_backing::Tree;
use std::alloc::Global;
use ubifs_base::{Memory, Name};

/// A directory, and a name that it doesn't have.
#[derive(Drop)]
pub struct FreePlace {
    pub parent: Parent,
    pub name: Name,
}

/// The place of a path, if its name can be made there. The error is want of memory, here and below.
pub fn find_place(alloc: Global, tree: &Tree, path: &Name) -> Result<Option<FreePlace>, Memory>
    ensures found { IfOk result (λ found. IfSome found (IsFreePlace tree.now path.now)) }
    ensures none { IfOk result (λ found. IfNone found (free_place tree.now path.now ≡ None)) }
{
    if !is_name_path(path) {
        return Ok(None);
    }
    if has_long_name(path) {
        return Ok(None);
    }
    let mut names = components(alloc, path)?;
    let Some(name) = pop_last(&mut names) else {
        return Err(Memory);
    };
    let Some(dir) = walk(alloc, tree, &names)? else {
        return Ok(None);
    };
    place_in(alloc, tree, dir, name)
}

// The place of a name in a directory.
fn place_in(alloc: Global, tree: &Tree, dir: Entry, name: Name) -> Result<Option<FreePlace>, Memory>
    ensures found { IfOk result (λ found. IfSome found (IsPlaceIn tree.now dir name)) }
    ensures none { IfOk result (λ found. IfNone found (free_in tree.now name (only_dir (Ok dir)) ≡ None)) }
{
    match dir.kind {
        Kind::Dir => {}
        _ => return Ok(None),
    }
    if tree.entry(alloc, dir.ino, &name)?.is_some() {
        return Ok(None);
    }
    let inode = copied(tree.inode(dir.ino))?;
    let parent = Parent {
        ino: dir.ino,
        inode,
    };
    Ok(Some(FreePlace { parent, name }))
}

/// A copy of an inode that was found.
pub fn copied(inode: Option<&Inode>) -> Result<Option<Inode>, Memory>
    ensures { IfOk result (λ copy. copy ≡ option_copied inode.entry) }
{
    match inode {
        Some(inode) => Ok(Some(inode.clone()?)),
        None => Ok(None),
    }
}

/// The regular file that a path names.
pub fn find_file(alloc: Global, tree: &Tree, path: &Name) -> Result<Option<Entry>, Memory>
    ensures found { IfOk result (λ entry. entry ≡ only_file (walked tree.now path.now)) }
    ensures file { IfOk result (λ entry. IfSome entry (λ it. it.kind ≡ File)) }
{
    let names = components(alloc, path)?;
    let Some(entry) = walk(alloc, tree, &names)? else {
        return Ok(None);
    };
    match entry.kind {
        Kind::File => Ok(Some(entry)),
        _ => Ok(None),
    }
}
