// A run that makes no image.

ghost use Rattle.std.specs.Prelude.{◌≡◌, ◌≤◌, ◌<◌, Bool, false, length};
ghost use Rattle.std.specs.List.{AllByRecursion};
ghost use Rattle.fs_model.specs.Proper.{IsProper};
ghost use Rattle.script_text.specs.Script.{IsInRange, Leads};

use crate::copies::{Copies, read_copies};
use crate::lines::{Told, bad_text, unread, usage};
use crate::volume::{Volume, volume_of};
use io_edges::{KeepFault, Keeper};
use manifest_tree::{fill_copied, read_names};
use plain_backing::Tree;
use script_run::{Played, play};
use script_text::{Manifest, Part, parts_are_in_range, read_script};
use std::alloc::Global;
use std::sync::Wait;
use std::thread::Threads;
use ubifs_base::Memory;
use writeback::OpenGate;

/// Reads a manifest and a script, of these names, and runs the script.
pub(crate) fn run<R: Threads + Wait + Sync, K: Keeper>(
    rt: &R,
    alloc: Global,
    words: &[String],
    keeper: &mut K,
) -> Result<Told, Memory> {
    let Some((manifest, rest)) = words.split_first() else {
        return usage(alloc);
    };
    let Some((script, _more)) = rest.split_first() else {
        return usage(alloc);
    };
    let volume = match keeper.read(manifest) {
        Ok(bytes) => bytes,
        Err(KeepFault::Memory) => return Err(Memory),
        Err(_) => return unread(alloc, manifest),
    };
    match keeper.read(script) {
        Ok(bytes) => run_texts(rt, alloc, &volume, &bytes, keeper),
        Err(KeepFault::Memory) => Err(Memory),
        Err(_) => unread(alloc, script),
    }
}

// Runs a script on the files of a manifest.
fn run_texts<R: Threads + Wait + Sync, K: Keeper>(
    rt: &R,
    alloc: Global,
    manifest: &[u8],
    script: &[u8],
    keeper: &mut K,
) -> Result<Told, Memory> {
    let named = match read_names(alloc, manifest) {
        Ok(named) => named,
        Err(fault) => return bad_text(alloc, b"manifest".as_slice(), fault),
    };
    let parts = match read_script(alloc, script) {
        Ok(script) => script.parts,
        Err(fault) => return bad_text(alloc, b"script".as_slice(), fault),
    };
    parts_are_in_range();
    let volume = named.volume;
    let mut tree = named.tree;
    match read_copies(alloc, &named.copied, keeper)? {
        Copies::Unread { told } => Ok(told),
        Copies::Read { files } => {
            fill_copied(alloc, &mut tree, &named.copied, &files)?;
            run_files(rt, alloc, volume, tree, parts)
        }
    }
}

// Runs a script on these files.
fn run_files<R: Threads + Wait + Sync>(
    rt: &R,
    alloc: Global,
    manifest: Manifest,
    tree: Tree,
    parts: Vec<Part>,
) -> Result<Told, Memory>
    requires proper { IsProper tree }
    requires main { manifest.main < 2147483648 }
    requires order { (last : Bool) × Leads false parts.items last }
    requires range { AllByRecursion IsInRange parts.items }
    requires few { length parts.items ≤ 100000 }
{
    match volume_of(alloc, &manifest, &tree)? {
        Volume::Refused { told } => Ok(told),
        Volume::Ready { geometry, space } => {
            let gate = OpenGate {};
            let text = match play(rt, alloc, geometry, tree, &space, parts, &gate)? {
                Played::Written { run } => run.text,
                Played::Unchanged { text } => text,
            };
            Ok(Told { status: 0, text })
        }
    }
}
