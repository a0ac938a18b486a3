// Paths are walked.

ghost use Rattle.std.specs.Prelude.{◌≡◌, ◌⊎◌, None, Ok, Err, IfOk, IfErr};
ghost use Rattle.fs_model.specs.Files.{entry_at};
ghost use Rattle.fs_model.specs.Path.{child, components, front_of, last_of, only_dir, parent_of, reached, root_entry, walked};
ghost use Rattle.buffered_files.specs.Present.{present};
ghost use Rattle.vfs_plans.specs.Answers.{IsRefused, Looks};
ghost use Rattle.vfs_plans.specs.Parts.{free_parent};

use crate::faults::or_memory;
use crate::lookups::entry;
use crate::place::Place;
use buffered_files::Kept;
use fs_model::{Backing, Entry, Kind, Refusal};
use op_groups::{components, pop_last};
use std::alloc::Global;
use ubifs_base::Name;

/// The entry to which names lead from the root, each in the directory before it; the root's own entry where there are none.
pub fn walk<B: Backing>(
    alloc: Global,
    backing: &mut B,
    kept: &Kept,
    names: &[Name],
) -> Result<Entry, Refusal>
    ensures found { IfOk result (λ entry. reached (present (B.state backing.old).tree kept.now).tree (Ok root_entry) names.now ≡ Ok entry) }
    ensures refused { IfErr result (IsRefused (B.state backing.old) (B.state backing.new) (reached (present (B.state backing.old).tree kept.now).tree (Ok root_entry) names.now)) }
    ensures looks { Looks (B.outlook backing.old) (B.outlook backing.new) (B.state backing.old) (B.state backing.new) }
{
    let mut at = root(alloc);
    let mut done = 0;
    while done < names.len() {
        at = child(backing, kept, &at, &names[done])?;
        done += 1;
    }
    Ok(at)
}

/// The directory to which names lead.
pub fn parent_of<B: Backing>(
    alloc: Global,
    backing: &mut B,
    kept: &Kept,
    names: &[Name],
) -> Result<Entry, Refusal>
    ensures found { IfOk result (λ entry. only_dir (reached (present (B.state backing.old).tree kept.now).tree (Ok root_entry) names.now) ≡ Ok entry) }
    ensures refused { IfErr result (IsRefused (B.state backing.old) (B.state backing.new) (only_dir (reached (present (B.state backing.old).tree kept.now).tree (Ok root_entry) names.now))) }
    ensures looks { Looks (B.outlook backing.old) (B.outlook backing.new) (B.state backing.old) (B.state backing.new) }
{
    let at = walk(alloc, backing, kept, names)?;
    match at.kind {
        Kind::Dir => Ok(at),
        _ => Err(Refusal::Enotdir),
    }
}

/// The entry that a path names.
pub fn walked<B: Backing>(
    alloc: Global,
    backing: &mut B,
    kept: &Kept,
    path: &Name,
) -> Result<Entry, Refusal>
    ensures found { IfOk result (λ entry. walked (present (B.state backing.old).tree kept.now).tree path.now ≡ Ok entry) }
    ensures refused { IfErr result (IsRefused (B.state backing.old) (B.state backing.new) (walked (present (B.state backing.old).tree kept.now).tree path.now)) }
    ensures looks { Looks (B.outlook backing.old) (B.outlook backing.new) (B.state backing.old) (B.state backing.new) }
{
    let names = or_memory(components(alloc, path))?;
    walk(alloc, backing, kept, &names)
}

// The place of a path: the directory in which its last component stands, and that component.
fn place_of<B: Backing>(
    alloc: Global,
    backing: &mut B,
    kept: &Kept,
    path: &Name,
) -> Result<Place, Refusal>
    ensures found { IfOk result (λ place. parent_of (present (B.state backing.old).tree kept.now).tree path.now ≡ Ok place.parent) }
    ensures last { IfOk result (λ place. place.name ≡ last_of (components path.now)) }
    ensures refused { IfErr result (IsRefused (B.state backing.old) (B.state backing.new) (parent_of (present (B.state backing.old).tree kept.now).tree path.now)) }
    ensures looks { Looks (B.outlook backing.old) (B.outlook backing.new) (B.state backing.old) (B.state backing.new) }
{
    let names = or_memory(components(alloc, path))?;
    placed(alloc, backing, kept, names)
}

/// The place of a path that names nothing yet.
pub(crate) fn free_place<B: Backing>(
    alloc: Global,
    backing: &mut B,
    kept: &Kept,
    path: &Name,
) -> Result<Place, Refusal>
    ensures found { IfOk result (λ place. parent_of (present (B.state backing.old).tree kept.now).tree path.now ≡ Ok place.parent) }
    ensures last { IfOk result (λ place. place.name ≡ last_of (components path.now)) }
    ensures free { IfOk result (λ place. entry_at (present (B.state backing.old).tree kept.now).tree place.parent.ino place.name ≡ None) }
    ensures refused { IfErr result (IsRefused (B.state backing.old) (B.state backing.new) (free_parent (present (B.state backing.old).tree kept.now).tree path.now)) }
    ensures looks { Looks (B.outlook backing.old) (B.outlook backing.new) (B.state backing.old) (B.state backing.new) }
{
    let place = place_of(alloc, backing, kept, path)?;
    if entry(backing, kept, place.parent.ino, &place.name)?.is_some() {
        return Err(Refusal::Eexist);
    }
    Ok(place)
}

/// The place to which components lead: the directory in which the last one stands, and that one.
pub(crate) fn placed<B: Backing>(
    alloc: Global,
    backing: &mut B,
    kept: &Kept,
    mut names: Vec<Name>,
) -> Result<Place, Refusal>
    ensures found { IfOk result (λ place. only_dir (reached (present (B.state backing.old).tree kept.now).tree (Ok root_entry) (front_of names.items)) ≡ Ok place.parent) }
    ensures last { IfOk result (λ place. place.name ≡ last_of names.items) }
    ensures refused { IfErr result (IsRefused (B.state backing.old) (B.state backing.new) (only_dir (reached (present (B.state backing.old).tree kept.now).tree (Ok root_entry) (front_of names.items)))) }
    ensures looks { Looks (B.outlook backing.old) (B.outlook backing.new) (B.state backing.old) (B.state backing.new) }
{
    let name = pop_last(&mut names).unwrap_or(Name::from_vec(Vec::new(alloc)));
    let parent = parent_of(alloc, backing, kept, &names)?;
    Ok(Place { parent, name })
}

// The entry that `/` stands for.
fn root(alloc: Global) -> Entry
    ensures { result ≡ root_entry }
{
    Entry {
        dir: 1,
        name: Name::from_vec(Vec::new(alloc)),
        ino: 1,
        kind: Kind::Dir,
    }
}

// One name further, below a directory.
fn child<B: Backing>(
    backing: &mut B,
    kept: &Kept,
    at: &Entry,
    name: &Name,
) -> Result<Entry, Refusal>
    ensures found { IfOk result (λ entry. child (present (B.state backing.old).tree kept.now).tree name.now (Ok at.now) ≡ Ok entry) }
    ensures refused { IfErr result (IsRefused (B.state backing.old) (B.state backing.new) (child (present (B.state backing.old).tree kept.now).tree name.now (Ok at.now))) }
    ensures looks { Looks (B.outlook backing.old) (B.outlook backing.new) (B.state backing.old) (B.state backing.new) }
{
    match at.kind {
        Kind::Dir => {}
        _ => return Err(Refusal::Enotdir),
    }
    match backing.lookup(at.ino, name) {
        Ok(Some(entry)) => Ok(entry),
        Ok(None) => Err(Refusal::Enoent),
        Err(fault) => Err(Refusal::from(fault)),
    }
}
