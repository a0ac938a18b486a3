// The command `run`.

ghost use Rattle.std.specs.Prelude.{IfOk, OnErr};
ghost use Rattle.io_edges.specs.Keeper.{SameFiles};
ghost use Rattle.ubifs_tools.specs.Ended.{IsRunEnded, IsWrittenOut, NamesFile, NamesRunFile};

use crate::perform::{Ran, perform};
use io_edges::{KeepFault, Keeper};
use std::alloc::Global;
use std::sync::Wait;
use std::thread::Threads;
use text_lines::line_of_two;
use ubifs_base::Memory;
use writeback::Gate;

/// How a making of an image ended: a line that says why nothing was done, or the text of what was done.
#[derive(Drop)]
pub(crate) enum Ended {
    Unread { line: Vec<u8> },
    BadText { line: Vec<u8> },
    BadGeometry { line: Vec<u8> },
    Done { text: Vec<u8> },
}

/// How a run ended: the same, or a line that says what is wrong with an image.
#[derive(Drop)]
pub(crate) enum RunEnded {
    Unread { line: Vec<u8> },
    BadText { line: Vec<u8> },
    BadImage { line: Vec<u8> },
    BadGeometry { line: Vec<u8> },
    Done { text: Vec<u8> },
}

/// Reads the manifest or the image, the script, and the files that the manifest copies, does the work, and writes the image.
pub(crate) fn run<R: Threads + Wait + Sync, K: Keeper, G: Gate + Sync>(
    rt: &R,
    alloc: Global,
    manifest: &str,
    script: &str,
    image: &str,
    keeper: &mut K,
    gate: &G,
) -> Result<RunEnded, Memory>
    ensures ended { IfOk result (IsRunEnded (K.state keeper.old) (K.state keeper.new) manifest.now script.now image.now) }
    ensures err { OnErr result (SameFiles (K.state keeper.old) (K.state keeper.new)) }
{
    let volume = match keeper.read(manifest) {
        Ok(volume) => volume,
        Err(KeepFault::Memory) => return Err(Memory),
        Err(_) => return run_unread(alloc, manifest),
    };
    let script_text = match keeper.read(script) {
        Ok(text) => text,
        Err(KeepFault::Memory) => return Err(Memory),
        Err(_) => return run_unread(alloc, script),
    };
    match perform(rt, alloc, volume, &script_text, keeper, gate)? {
        Ran::Unread { line } => Ok(RunEnded::Unread { line }),
        Ran::BadText { line } => Ok(RunEnded::BadText { line }),
        Ran::BadImage { line } => Ok(RunEnded::BadImage { line }),
        Ran::BadGeometry { line } => Ok(RunEnded::BadGeometry { line }),
        Ran::Done { text, image: bytes } => write_image(alloc, image, &bytes, text, keeper),
    }
}

// Writes the image of a run, which printed this.
fn write_image<K: Keeper>(
    alloc: Global,
    image: &str,
    bytes: &[u8],
    text: Vec<u8>,
    keeper: &mut K,
) -> Result<RunEnded, Memory>
    ensures written { IfOk result (IsWrittenOut (K.state keeper.old) (K.state keeper.new) image.now bytes.now text.items) }
    ensures err { OnErr result (SameFiles (K.state keeper.old) (K.state keeper.new)) }
{
    match keeper.write(image, bytes) {
        Ok(()) => Ok(RunEnded::Done { text }),
        Err(KeepFault::Memory) => Err(Memory),
        Err(_) => run_unread(alloc, image),
    }
}

// The line for a file that a run didn't read or write.
fn run_unread(alloc: Global, name: &str) -> Result<RunEnded, Memory>
    ensures { IfOk result (NamesRunFile name.now) }
{
    let line = line_of_two(alloc, b"file".as_slice(), name.as_bytes())?;
    Ok(RunEnded::Unread { line })
}

// The line for a file that wasn't read or written.
pub(crate) fn unread(alloc: Global, name: &str) -> Result<Ended, Memory>
    ensures { IfOk result (NamesFile name.now) }
{
    let line = line_of_two(alloc, b"file".as_slice(), name.as_bytes())?;
    Ok(Ended::Unread { line })
}
