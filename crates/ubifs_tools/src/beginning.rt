// A run, from the image of a volume on.

ghost use Rattle.std.specs.Prelude.{◌≡◌, ◌≤◌, Bool, false, IfOk, length};
ghost use Rattle.std.specs.List.{AllByRecursion};
ghost use Rattle.ubifs_base.specs.NodeLaws.{IsBytes};
ghost use Rattle.ubifs_base.specs.RawOf.{raw_of};
ghost use Rattle.fs_model.specs.Files.{Tree as ATree};
ghost use Rattle.fs_model.specs.Proper.{IsProper};
ghost use Rattle.script_text.specs.Script.{IsInRange, Leads};
ghost use Rattle.ubifs_tools.specs.Performed.{IsRunOn};
ghost use Rattle.ubifs_tools.specs.RunCommand.{IsRunOf};

use crate::image::image_bytes;
use fs_model::Space;
use image_report::{ImageFiles, image_files};
use plain_backing::Tree;
use script_run::{Played, play};
use script_text::Part;
use std::alloc::Global;
use std::sync::Wait;
use std::thread::Threads;
use ubifs_base::{Geometry, Memory};
use writeback::Gate;

/// What a run printed, and the image that it leaves.
#[derive(Drop)]
pub(crate) struct RunOutput {
    pub(crate) text: Vec<u8>,
    pub(crate) image: Vec<u8>,
}

/// What became of an image on which a run was to begin: a line that says what is wrong with it first, or how the run ended.
#[derive(Drop)]
pub(crate) enum RunOn {
    Unsound { line: Vec<u8> },
    Ended { output: RunOutput },
}

/// Runs a script on the volume of an image, if that is sound.
pub(crate) fn run_on<R: Threads + Wait + Sync, G: Gate + Sync>(
    rt: &R,
    alloc: Global,
    start: Vec<u8>,
    parts: Vec<Part>,
    gate: &G,
) -> Result<RunOn, Memory>
    requires order { (last : Bool) × Leads false parts.items last }
    requires range { AllByRecursion IsInRange parts.items }
    requires few { length parts.items ≤ 100000 }
    ensures { IfOk result (IsRunOn start.items parts.items) }
{
    show_bytes(&start);
    match image_files(rt, alloc, &start)? {
        ImageFiles::Unsound { line } => Ok(RunOn::Unsound { line }),
        ImageFiles::Sound {
            geometry,
            tree,
            space,
        } => {
            let output = run_volume(rt, alloc, geometry, tree, &space, parts, start, gate)?;
            Ok(RunOn::Ended { output })
        }
    }
}

// Each item is a byte.
fn show_bytes(bytes: &[u8])
    ensures { IsBytes bytes.now }
{}

// Runs a script on a volume of this geometry and tree, whose image has this space. It leaves the image of what it put; or this one, if the volume may
// only be read.
fn run_volume<R: Threads + Wait + Sync, G: Gate + Sync>(
    rt: &R,
    alloc: Global,
    geometry: Geometry,
    tree: Tree,
    space: &Space,
    parts: Vec<Part>,
    start: Vec<u8>,
    gate: &G,
) -> Result<RunOutput, Memory>
    requires proper { IsProper tree }
    requires small { geometry.big ≡ false }
    requires order { (last : Bool) × Leads false parts.items last }
    requires range { AllByRecursion IsInRange parts.items }
    requires few { length parts.items ≤ 100000 }
    ensures { IfOk result (λ output. (left : ATree) × IsRunOf (record { geo = raw_of geometry; start = start.items; tree = tree; space = space.now; parts = parts.items; text = output.text.items; image = output.image.items; left = left })) }
{
    match play(rt, alloc, geometry, tree, space, parts, gate)? {
        Played::Written { run } => {
            let image = image_bytes(alloc, &geometry, &run.tree)?;
            Ok(RunOutput {
                text: run.text,
                image,
            })
        }
        Played::Unchanged { text } => Ok(RunOutput { text, image: start }),
    }
}
