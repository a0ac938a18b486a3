// A whole script.

ghost use Rattle.std.specs.Prelude.{◌≡◌, ◌≤◌, ◌*◌, Bool, None, IfOk, false, length};
ghost use Rattle.std.specs.List.{AllByRecursion};
ghost use Rattle.ubifs_base.specs.RawOf.{raw_of};
ghost use Rattle.fs_model.specs.Proper.{IsProper};
ghost use Rattle.script_text.specs.Script.{IsInRange, Leads};
ghost use Rattle.script_run.specs.Played.{CanBeImaged, IsCoveredIn, IsPlayed, IsPlayedOn};

use crate::lines::play_lines;
use crate::nameless::without_nameless;
use crate::opening::{Opening, mounted_space, writable_volume};
use crate::reading::read_text;
use fs_laws::a_mount_keeps_trees_proper;
use fs_model::Space;
use plain_backing::Tree;
use script_text::Part;
use space_sums::{more_never_lowers_the_need, settled};
use std::alloc::Global;
use std::sync::Wait;
use std::thread::Threads;
use ubifs_base::{Geometry, Memory};
use writeback::Gate;

/// What a script printed, and the tree that it left: the one that was put, without what has no name.
#[derive(Drop)]
pub struct Run {
    pub text: Vec<u8>,
    pub tree: Tree,
}

/// What became of a script. It was run on a volume that may be written. Or it printed this on one that may only be read, which stays as it was.
#[derive(Drop)]
pub enum Played {
    Written { run: Run },
    Unchanged { text: Vec<u8> },
}

/// Runs a script on a volume with these files, whose image has this space once it is recovered, before any commit. The volume may only be
/// read if `settled` of its numbers gives a cause. A worker of the script waits at the gate before each put. The error is want of memory.
pub fn play<R: Threads + Wait + Sync, G: Gate + Sync>(
    rt: &R,
    alloc: Global,
    geometry: Geometry,
    tree: Tree,
    space: &Space,
    parts: Vec<Part>,
    gate: &G,
) -> Result<Played, Memory>
    requires proper { IsProper tree }
    requires order { (last : Bool) × Leads false parts.items last }
    requires range { AllByRecursion IsInRange parts.items }
    requires few { length parts.items ≤ 100000 }
    ensures played { IfOk result (IsPlayedOn (raw_of geometry) tree space.now parts.items) }
    ensures imaged { IfOk result (CanBeImaged (raw_of geometry)) }
{
    let space = mounted_space(&geometry, &tree, space)?;
    match settled(&geometry, &space) {
        None => {
            let run = write_lines(
                rt,
                alloc,
                writable_volume(geometry, tree, &space),
                parts,
                gate,
            )?;
            Ok(Played::Written { run })
        }
        Some(cause) => {
            let text = read_text(alloc, geometry, tree, cause, parts)?;
            Ok(Played::Unchanged { text })
        }
    }
}

// Runs a script on a volume that may be written.
fn write_lines<R: Threads + Wait + Sync, G: Gate + Sync>(
    rt: &R,
    alloc: Global,
    opening: Opening,
    parts: Vec<Part>,
    gate: &G,
) -> Result<Run, Memory>
    requires order { (last : Bool) × Leads false parts.items last }
    requires range { AllByRecursion IsInRange parts.items }
    requires few { length parts.items ≤ 100000 }
    ensures played { IfOk result (IsPlayed (raw_of opening.geometry) opening.tree opening.space.weight parts.items) }
    ensures proper { IfOk result (λ run. IsProper run.tree) }
    ensures covered { IfOk result (λ run. IsCoveredIn (raw_of opening.geometry) run.tree) }
{
    a_mount_keeps_trees_proper();
    more_never_lowers_the_need();
    let played = play_lines(rt, alloc, opening, parts, gate)?;
    let text = played.text;
    let tree = without_nameless(alloc, played.session.fs.into_parts().into_tree())?;
    Ok(Run { text, tree })
}
