// The work of a run, over its two files.

ghost use Rattle.std.specs.Prelude.{◌≡◌, ◌↔◌, ◌<◌, ◌≤◌, ◌∷◌, [], ℕ, Bool, List, IsTrue, IfOk, IsErr, false, codes, length};
ghost use Rattle.std.specs.Fmt.{decimal};
ghost use Rattle.std.specs.List.{AllByRecursion};
ghost use Rattle.text_lines.specs.Lines.{line_of};
ghost use Rattle.fs_model.specs.Proper.{IsProper};
ghost use Rattle.io_edges.specs.Keeper.{KeeperState};
ghost use Rattle.script_text.specs.Script.{IsInRange, IsScript, Leads, OnLine};
ghost use Rattle.ubifs_tools.specs.Command.{bad_line, field_name};
ghost use Rattle.ubifs_tools.specs.Copies.{FilesStay, IsFilledManifest};
ghost use Rattle.ubifs_tools.specs.RunCommand.{BeginsAsManifest};
ghost use Rattle.ubifs_tools.specs.Performed.{IsRan};

use crate::beginning::{RunOn, run_on};
use crate::mkfs::{Copied, fill_named, make};
use image_report::{one_text_is_told, the_bytes_of_a_volume_hold_what_it_holds};
use io_edges::Keeper;
use manifest_tree::{MadeManifest, read_names};
use script_text::{Part, TextFault, parts_are_in_range, read_script};
use std::alloc::Global;
use std::sync::Wait;
use std::thread::Threads;
use text_lines::line_of_three;
use ubifs_base::{GeomFault, GeomField, Memory};
use writeback::Gate;

/// What became of a manifest's tree: a line that says why there is no image, or the text of what was made, and the image.
#[derive(Drop)]
pub(crate) enum Performed {
    BadGeometry { line: Vec<u8> },
    Done { text: Vec<u8>, image: Vec<u8> },
}

/// What became of the files of a run: its text and the image. Or a line for a file that wasn't read, for a bad text, for an image that isn't sound,
/// or for a manifest of which no image is made.
#[derive(Drop)]
pub(crate) enum Ran {
    Unread { line: Vec<u8> },
    BadText { line: Vec<u8> },
    BadImage { line: Vec<u8> },
    BadGeometry { line: Vec<u8> },
    Done { text: Vec<u8>, image: Vec<u8> },
}

/// Reads a volume and a script, and runs the script on the volume. The volume's bytes are a manifest, if they begin as one, and else an image.
/// A run on a manifest is one on the image that `mkfs` makes of it.
pub(crate) fn perform<R: Threads + Wait + Sync, K: Keeper, G: Gate + Sync>(
    rt: &R,
    alloc: Global,
    volume: Vec<u8>,
    script: &[u8],
    keeper: &mut K,
    gate: &G,
) -> Result<Ran, Memory>
    ensures stay { FilesStay (K.state keeper.old) (K.state keeper.new) }
    ensures ran { IfOk result (IsRan (K.state keeper.old) (K.state keeper.new) (volume.items, script.now)) }
{
    if begins_as_manifest(&volume) {
        perform_on_manifest(rt, alloc, &volume, script, keeper, gate)
    } else {
        perform_on_image(rt, alloc, volume, script, gate)
    }
}

// Whether bytes are read as a manifest.
fn begins_as_manifest(bytes: &[u8]) -> bool
    ensures { IsTrue result ↔ BeginsAsManifest bytes.now }
{
    if bytes.len() < 7 {
        return false;
    }
    bytes.split_at(7).0 == b"volume ".as_slice()
}

// Reads a manifest, a script, and the files that the manifest copies, and runs the script on the image that is made of them.
fn perform_on_manifest<R: Threads + Wait + Sync, K: Keeper, G: Gate + Sync>(
    rt: &R,
    alloc: Global,
    manifest: &[u8],
    script: &[u8],
    keeper: &mut K,
    gate: &G,
) -> Result<Ran, Memory>
    requires { BeginsAsManifest manifest.now }
    ensures stay { FilesStay (K.state keeper.old) (K.state keeper.new) }
    ensures ran { IfOk result (IsRan (K.state keeper.old) (K.state keeper.new) (manifest.now, script.now)) }
{
    let named = match read_names(alloc, manifest) {
        Ok(named) => named,
        Err(fault) => {
            let line = bad_text_line(alloc, b"manifest".as_slice(), fault)?;
            return Ok(Ran::BadText { line });
        }
    };
    let parts = match read_script(alloc, script) {
        Ok(script) => script.parts,
        Err(fault) => {
            let line = bad_text_line(alloc, b"script".as_slice(), fault)?;
            return Ok(Ran::BadText { line });
        }
    };
    parts_are_in_range();
    match fill_named(alloc, named, keeper)? {
        Copied::Unread { line } => Ok(Ran::Unread { line }),
        Copied::Made { made } => run_made(rt, alloc, &made, parts, gate),
    }
}

// Runs a script on the image of a manifest's tree.
fn run_made<R: Threads + Wait + Sync, G: Gate + Sync>(
    rt: &R,
    alloc: Global,
    made: &MadeManifest,
    parts: Vec<Part>,
    gate: &G,
) -> Result<Ran, Memory>
    requires proper { IsProper made.now.tree }
    requires main { made.now.volume.main < 2147483648 }
    requires order { (last : Bool) × Leads false parts.items last }
    requires range { AllByRecursion IsInRange parts.items }
    requires few { length parts.items ≤ 100000 }
    ensures { (files new : KeeperState) (text script : List ℕ) → BeginsAsManifest text → IsFilledManifest files text made.now.volume made.now.tree → IsScript script parts.items → IfOk result (IsRan files new (text, script)) }
{
    one_text_is_told();
    the_bytes_of_a_volume_hold_what_it_holds();
    match make(alloc, made)? {
        Performed::BadGeometry { line } => Ok(Ran::BadGeometry { line }),
        Performed::Done { text: _, image } => match run_on(rt, alloc, image, parts, gate)? {
            // This isn't met: what was made is sound.
            RunOn::Unsound { line } => Ok(Ran::BadImage { line }),
            RunOn::Ended { output } => Ok(Ran::Done {
                text: output.text,
                image: output.image,
            }),
        },
    }
}

// Reads a script and an image, and runs the script on the image's volume. No file is read.
fn perform_on_image<R: Threads + Wait + Sync, G: Gate + Sync>(
    rt: &R,
    alloc: Global,
    image: Vec<u8>,
    script: &[u8],
    gate: &G,
) -> Result<Ran, Memory>
    requires { BeginsAsManifest image.items → ⊥ }
    ensures { (old new : KeeperState) → IfOk result (IsRan old new (image.items, script.now)) }
{
    let parts = match read_script(alloc, script) {
        Ok(script) => script.parts,
        Err(fault) => {
            let line = bad_text_line(alloc, b"script".as_slice(), fault)?;
            return Ok(Ran::BadText { line });
        }
    };
    parts_are_in_range();
    match run_on(rt, alloc, image, parts, gate)? {
        RunOn::Unsound { line } => Ok(Ran::BadImage { line }),
        RunOn::Ended { output } => Ok(Ran::Done {
            text: output.text,
            image: output.image,
        }),
    }
}

// The line for a text whose first bad line is told.
pub(crate) fn bad_text_line(alloc: Global, word: &[u8], fault: TextFault) -> Result<Vec<u8>, Memory>
    ensures line { IfOk result (λ line. OnLine fault (λ number. line.items ≡ bad_line word.now number)) }
    ensures memory { fault ≡ TextFault.Memory → IsErr result }
{
    match fault {
        TextFault::Memory => Err(Memory),
        TextFault::Line { number } => {
            let number = number.to_string(alloc)?;
            Ok(line_of_three(alloc, word, b"line".as_slice(), number.as_bytes())?)
        }
    }
}

// The line for a field that is out of range.
pub(crate) fn bad_geometry_line(alloc: Global, fault: GeomFault) -> Result<Vec<u8>, Memory>
    ensures { IfOk result (λ line. line.items ≡ line_of (codes "geometry" ∷ field_name fault.field ∷ decimal fault.value ∷ [])) }
{
    let value = fault.value.to_string(alloc)?;
    Ok(line_of_three(
        alloc,
        b"geometry".as_slice(),
        name_of(fault.field),
        value.as_bytes(),
    )?)
}

fn name_of(field: GeomField) -> &'static [u8]
    ensures { result.now ≡ field_name field }
{
    match field {
        GeomField::LebSize => b"leb_size".as_slice(),
        GeomField::MinIo => b"min_io".as_slice(),
        GeomField::LogLebs => b"log_lebs".as_slice(),
        GeomField::LptLebs => b"lpt_lebs".as_slice(),
        GeomField::OrphLebs => b"orph_lebs".as_slice(),
        GeomField::LebCnt => b"leb_cnt".as_slice(),
        GeomField::MaxLebCnt => b"max_leb_cnt".as_slice(),
        GeomField::Fanout => b"fanout".as_slice(),
        GeomField::LsaveCnt => b"lsave_cnt".as_slice(),
    }
}

// The line for a volume with too few main LEBs.
pub(crate) fn small_line(alloc: Global, main: u32) -> Result<Vec<u8>, Memory>
    ensures { IfOk result (λ line. line.items ≡ line_of (codes "small" ∷ decimal main ∷ codes "24" ∷ [])) }
{
    let main = main.to_string(alloc)?;
    Ok(line_of_three(
        alloc,
        b"small".as_slice(),
        main.as_bytes(),
        b"24".as_slice(),
    )?)
}
