// A name is moved: rename(2).

ghost use Rattle.std.specs.Prelude.{◌≡◌, false, Some, None, Ok, IfOk, IfErr};
ghost use Rattle.std.specs.Option.{option_to_list};
ghost use Rattle.fs_model.specs.Path.{components, last_of, parent_of, walked};
ghost use Rattle.fs_model.specs.Rename.{comes_linked_out, is_under, moved, moving, renamed};
ghost use Rattle.buffered_files.specs.Present.{present, IsKept};
ghost use Rattle.vfs_plans.specs.Answers.{IsFault, IsRefused, Looks};
ghost use Rattle.vfs_plans.specs.Parts.{ends_of, lost_to};

use crate::faults::or_memory;
use crate::kinds::is_dir;
use crate::lookups::{entry, inode, is_filled};
use crate::makes::is_full;
use crate::place::Place;
use crate::walks::{placed, walk};
use buffered_files::Kept;
use fs_model::{Backing, Change, Entry, Group, Refusal, Reply};
use op_groups::{Parent, components, has_long_name, is_name_path, is_under, losing, moving};
use std::alloc::Global;
use ubifs_base::Name;

/// The group that gives an entry another name and directory; none where both names are the same inode's.
pub fn renamed<B: Backing>(
    alloc: Global,
    backing: &mut B,
    kept: &Kept,
    now: u64,
    old: &Name,
    new: &Name,
) -> Result<(Reply, Group), Refusal>
    requires kept { IsKept (B.state backing.old).tree kept.now }
    ensures found { IfOk result (λ found. renamed (present (B.state backing.old).tree kept.now) now old.now new.now ≡ Ok (found.0, found.1)) }
    ensures refused { IfErr result (IsRefused (B.state backing.old) (B.state backing.new) (renamed (present (B.state backing.old).tree kept.now) now old.now new.now)) }
    ensures looks { Looks (B.outlook backing.old) (B.outlook backing.new) (B.state backing.old) (B.state backing.new) }
{
    if !(is_name_path(old) && is_name_path(new)) {
        return Err(Refusal::Einval);
    }
    if has_long_name(old) || has_long_name(new) {
        return Err(Refusal::Enametoolong);
    }
    let (from, place) = ends_of(alloc, backing, kept, old, new)?;
    let over = entry(backing, kept, place.parent.ino, &place.name)?;
    let plan = moved(alloc, backing, kept, now, from, place, over)?;
    Ok(plan)
}

// Where a name moves from and to.
fn ends_of<B: Backing>(
    alloc: Global,
    backing: &mut B,
    kept: &Kept,
    old: &Name,
    new: &Name,
) -> Result<(Entry, Place), Refusal>
    ensures from { IfOk result (λ ends. walked (present (B.state backing.old).tree kept.now).tree old.now ≡ Ok ends.0) }
    ensures to { IfOk result (λ ends. parent_of (present (B.state backing.old).tree kept.now).tree new.now ≡ Ok ends.1.parent) }
    ensures last { IfOk result (λ ends. ends.1.name ≡ last_of (components new.now)) }
    ensures apart { IfOk result (λ ends. is_under (components old.now) (components new.now) ≡ false) }
    ensures refused { IfErr result (IsRefused (B.state backing.old) (B.state backing.new) (ends_of (present (B.state backing.old).tree kept.now).tree old.now new.now)) }
    ensures looks { Looks (B.outlook backing.old) (B.outlook backing.new) (B.state backing.old) (B.state backing.new) }
{
    let old_names = or_memory(components(alloc, old))?;
    let new_names = or_memory(components(alloc, new))?;
    let under = is_under(&old_names, &new_names);
    let from = walk(alloc, backing, kept, &old_names)?;
    let place = placed(alloc, backing, kept, new_names)?;
    if under {
        return Err(Refusal::Einval);
    }
    Ok((from, place))
}

// The group that moves an entry to a place, over what stands there.
fn moved<B: Backing>(
    alloc: Global,
    backing: &mut B,
    kept: &Kept,
    now: u64,
    from: Entry,
    place: Place,
    over: Option<Entry>,
) -> Result<(Reply, Group), Refusal>
    requires kept { IsKept (B.state backing.old).tree kept.now }
    ensures found { IfOk result (λ found. moved (present (B.state backing.old).tree kept.now) now from place.parent.ino place.name over ≡ Ok (found.0, found.1)) }
    ensures refused { IfErr result (IsRefused (B.state backing.old) (B.state backing.new) (moved (present (B.state backing.old).tree kept.now) now from place.parent.ino place.name over)) }
    ensures looks { Looks (B.outlook backing.old) (B.outlook backing.new) (B.state backing.old) (B.state backing.new) }
{
    match over {
        Some(over) => moved_over(alloc, backing, kept, now, from, place, over),
        None => moved_free(alloc, backing, kept, now, from, place),
    }
}

// The group that moves an entry to a place where nothing is.
fn moved_free<B: Backing>(
    alloc: Global,
    backing: &mut B,
    kept: &Kept,
    now: u64,
    from: Entry,
    place: Place,
) -> Result<(Reply, Group), Refusal>
    requires kept { IsKept (B.state backing.old).tree kept.now }
    ensures found { IfOk result (λ found. moved (present (B.state backing.old).tree kept.now) now from place.parent.ino place.name None ≡ Ok (found.0, found.1)) }
    ensures refused { IfErr result (IsRefused (B.state backing.old) (B.state backing.new) (moved (present (B.state backing.old).tree kept.now) now from place.parent.ino place.name None)) }
    ensures looks { Looks (B.outlook backing.old) (B.outlook backing.new) (B.state backing.old) (B.state backing.new) }
{
    if comes_linked_out(backing, kept, &from, place.parent.ino)? {
        return Err(Refusal::Emlink);
    }
    let group = move_to(alloc, backing, kept, now, from, place, None)?;
    Ok((Reply::Done, group))
}

// The group that moves an entry over another one.
fn moved_over<B: Backing>(
    alloc: Global,
    backing: &mut B,
    kept: &Kept,
    now: u64,
    from: Entry,
    place: Place,
    over: Entry,
) -> Result<(Reply, Group), Refusal>
    requires kept { IsKept (B.state backing.old).tree kept.now }
    ensures found { IfOk result (λ found. moved (present (B.state backing.old).tree kept.now) now from place.parent.ino place.name (Some over) ≡ Ok (found.0, found.1)) }
    ensures refused { IfErr result (IsRefused (B.state backing.old) (B.state backing.new) (moved (present (B.state backing.old).tree kept.now) now from place.parent.ino place.name (Some over))) }
    ensures looks { Looks (B.outlook backing.old) (B.outlook backing.new) (B.state backing.old) (B.state backing.new) }
{
    if over.ino == from.ino {
        return Ok((Reply::Done, Group::new(alloc)));
    }
    let lost = lost_to(backing, kept, now, &from, &over)?;
    let group = move_to(alloc, backing, kept, now, from, place, Some(lost))?;
    Ok((Reply::Done, group))
}

// What becomes of the inode that loses its name to another entry.
fn lost_to<B: Backing>(
    backing: &mut B,
    kept: &Kept,
    now: u64,
    from: &Entry,
    over: &Entry,
) -> Result<Change, Refusal>
    requires kept { IsKept (B.state backing.old).tree kept.now }
    ensures found { IfOk result (λ lost. lost_to (present (B.state backing.old).tree kept.now) now from.now over.now ≡ Ok lost) }
    ensures refused { IfErr result (IsRefused (B.state backing.old) (B.state backing.new) (lost_to (present (B.state backing.old).tree kept.now) now from.now over.now)) }
    ensures looks { Looks (B.outlook backing.old) (B.outlook backing.new) (B.state backing.old) (B.state backing.new) }
{
    if is_dir(from.kind) && !is_dir(over.kind) {
        return Err(Refusal::Enotdir);
    }
    if !is_dir(from.kind) && is_dir(over.kind) {
        return Err(Refusal::Eisdir);
    }
    if is_filled(backing, kept, over)? {
        return Err(Refusal::Enotempty);
    }
    match inode(backing, kept, over.ino)? {
        Some(inode) => {
            let held_open = kept.handles.has_open(over.ino);
            Ok(losing(over.ino, now, inode, held_open))
        }
        None => Err(Refusal::Enoent),
    }
}

// Whether a directory comes to another one that has no link left for it.
fn comes_linked_out<B: Backing>(
    backing: &mut B,
    kept: &Kept,
    from: &Entry,
    dir: u32,
) -> Result<bool, Refusal>
    requires kept { IsKept (B.state backing.old).tree kept.now }
    ensures found { IfOk result (λ full. full ≡ comes_linked_out (present (B.state backing.old).tree kept.now) from.now dir) }
    ensures refused { IfErr result (IsFault (B.state backing.old) (B.state backing.new)) }
    ensures looks { Looks (B.outlook backing.old) (B.outlook backing.new) (B.state backing.old) (B.state backing.new) }
{
    if from.dir == dir {
        return Ok(false);
    }
    is_full(backing, kept, dir, from.kind)
}

// The group that moves an entry to a place, where this becomes of the inode that had the name.
fn move_to<B: Backing>(
    alloc: Global,
    backing: &mut B,
    kept: &Kept,
    now: u64,
    from: Entry,
    place: Place,
    lost: Option<Change>,
) -> Result<Group, Refusal>
    requires kept { IsKept (B.state backing.old).tree kept.now }
    ensures found { IfOk result (λ group. group ≡ moving (present (B.state backing.old).tree kept.now) from place.parent.ino place.name (option_to_list lost) now) }
    ensures refused { IfErr result (IsFault (B.state backing.old) (B.state backing.new)) }
    ensures looks { Looks (B.outlook backing.old) (B.outlook backing.new) (B.state backing.old) (B.state backing.new) }
{
    let left = inode(backing, kept, from.dir)?;
    let to = Parent {
        ino: place.parent.ino,
        inode: inode(backing, kept, place.parent.ino)?,
    };
    let group = or_memory(moving(alloc, from, to, place.name, lost, left, now))?;
    Ok(group)
}
