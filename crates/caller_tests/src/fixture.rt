// A file system over a fresh volume.

ghost use Rattle.std.specs.Prelude.{◌≡◌, IfOk, length};
ghost use Rattle.fs_model.specs.Making.{new_dir};
ghost use Rattle.fs_model.specs.Worked.{fresh};
ghost use Rattle.plain_backing.specs.PlainBacking.{backing_state_of};
ghost use Rattle.vfs_ops.specs.Fs.{files_state};

use fs_laws::a_fresh_volume_is_sound;
use fs_model::{Change, Group, Inode, Kind, Mode, Space};
use plain_backing::{PlainBacking, Tree};
use std::alloc::Global;
use ubifs_base::{Bytes, Geometry, Memory, RawGeometry};
use vfs_ops::Fs;

// The root's inode on a fresh volume.
fn root(alloc: Global) -> Inode
    ensures { result ≡ new_dir 493 0 }
{
    Inode {
        kind: Kind::Dir,
        mode: 493,
        uid: 0,
        gid: 0,
        flags: 0,
        nlink: 2,
        size: 160,
        atime: 0,
        ctime: 0,
        mtime: 0,
        extra: Bytes::from_vec(Vec::new(alloc)),
    }
}

// A tree of the root alone.
fn fresh_tree(alloc: Global) -> Result<Tree, Memory>
    ensures { IfOk result (λ tree. tree ≡ fresh.tree) }
{
    let mut tree = Tree::new(alloc, 64);
    let mut group = Group::new(alloc);
    group.push(Change::SetInode {
        ino: 1,
        inode: root(alloc),
    })?;
    tree.apply(alloc, &group)?;
    Ok(tree)
}

// A fresh volume of 256 main LEBs, which takes eight orphans.
fn fresh_backing(alloc: Global) -> Result<PlainBacking, Memory>
    ensures tree { IfOk result (λ backing. (backing_state_of backing).tree ≡ fresh.tree) }
    ensures credits { IfOk result (λ backing. (backing_state_of backing).space.credits ≡ 0) }
{
    let Ok(geo) = Geometry::new(&RawGeometry::plain(16384, 512, 256, 8)) else {
        return Err(Memory);
    };
    let tree = fresh_tree(alloc)?;
    let space = Space {
        used: 160,
        held: 0,
        credits: 0,
        empty: 254,
        index: 1,
        weight: 1,
        main: geo.main_lebs(),
    };
    Ok(PlainBacking::new(alloc, geo, tree, space, 8, Mode::ReadWrite)?)
}

// A file system over a fresh volume, with no dirty page.
pub(crate) fn fresh_files(alloc: Global) -> Result<Fs<PlainBacking>, Memory>
    ensures { IfOk result (λ fs. (files_state fs).backing.space.credits ≡ length (files_state fs).kept.pages.dirty) }
{
    a_fresh_volume_is_sound();
    let backing = fresh_backing(alloc)?;
    match Fs::new(alloc, backing, 4) {
        Ok(fs) => Ok(fs),
        Err((fault, _)) => Err(fault),
    }
}
