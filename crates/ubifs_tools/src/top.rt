// The program's one call.

ghost use Rattle.std.specs.Prelude.{◌≡◌, ◌≢◌, ◌≤◌, ◌⊎◌, ◌↔◌, ◌∷◌, [], ℕ, List, map, codes};
ghost use Rattle.std.specs.String.{string_bytes};
ghost use Rattle.ubifs_base.specs.Faults.{Rose};
ghost use Rattle.text_lines.specs.Lines.{line_of};
ghost use Rattle.io_edges.specs.Keeper.{SameFiles};
ghost use Rattle.command_words.specs.Words.{IsOutsideGrammar, OnImage, OnMkfs, OnRun};
ghost use Rattle.ubifs_tools.specs.Command.{IsPrinted, IsTold};
ghost use Rattle.ubifs_tools.specs.RunCommand.{IsBadText, IsBadVolume, IsBadGeometry, IsUnread};
ghost use Rattle.ubifs_tools.specs.ImageCommand.{IsBadImage, IsNoImage, IsTextOf};
ghost use Rattle.ubifs_tools.specs.Ended.{IsFinished, IsRunTurnedDown};
ghost use Rattle.ubifs_tools.specs.Making.{HasNoImage, IsBadTree, IsMkfsFinished, IsMkfsTurnedDown, IsMkfsUnread};

use crate::command::{Ended, RunEnded, run};
use crate::image_command::{Reported, report};
use crate::mkfs::mkfs;
use command_words::{Command, ImageCommand, read_words};
use io_edges::{Keeper, Sink, SinkFault};
use std::alloc::Global;
use std::sync::Wait;
use std::thread::Threads;
use ubifs_base::Memory;
use writeback::Gate;

/// Runs the command that the words say, over the keeper's files, and prints to the sink. A script's workers wait at the gate, each between a page and
/// its put. The answer is the status. 0: the work was done. 1: the words aren't a command. 2: a text isn't in its grammar. 3: an image isn't sound.
/// 4: a file wasn't read or written. 5: the output failed. 6: there was no memory. 7: the manifest's geometry is out of range, or its tree has no
/// room.
pub fn ubifs<R: Threads + Wait + Sync, K: Keeper, O: Sink, G: Gate + Sync>(
    rt: &R,
    alloc: Global,
    words: &[String],
    keeper: &mut K,
    out: &mut O,
    gate: &G,
) -> u8
    ensures known { result ≤ 7 }

    // The words are neither a run of three files, nor a check or a dump of one, nor a making of an image.
    ensures words { (result ≡ 1) ↔ IsOutsideGrammar (map string_bytes words.now) }
    ensures usage { result ≡ 1 → IsPrinted (O.state out.old) (O.state out.new) (line_of (codes "usage" ∷ [])) }

    // The work was done, and all of its text was printed.
    ensures done { result ≡ 0 → OnRun (map string_bytes words.now) (λ manifest script image. (text : List ℕ)
        × IsFinished (K.state keeper.old) (K.state keeper.new) manifest script image text × IsTold (O.state out.old) (O.state out.new) text)
        ⊎ OnImage (map string_bytes words.now) (λ command image. (text : List ℕ)
        × IsTextOf command (K.state keeper.old) (K.state keeper.new) image text × IsTold (O.state out.old) (O.state out.new) text)
        ⊎ OnMkfs (map string_bytes words.now) (λ manifest image. (text : List ℕ)
        × IsMkfsFinished (K.state keeper.old) (K.state keeper.new) manifest image text × IsTold (O.state out.old) (O.state out.new) text) }

    // Nothing was done, and the line says why.
    ensures text { result ≡ 2 → OnRun (map string_bytes words.now) (λ manifest script image. (line : List ℕ)
        × IsRunTurnedDown (K.state keeper.old) (K.state keeper.new) manifest script (λ texts. IsBadText texts line)
        × IsPrinted (O.state out.old) (O.state out.new) line)
        ⊎ OnMkfs (map string_bytes words.now) (λ manifest image. (line : List ℕ)
        × IsMkfsTurnedDown (K.state keeper.old) (K.state keeper.new) manifest (λ text. IsBadTree text line)
        × IsPrinted (O.state out.old) (O.state out.new) line) }
    ensures image { result ≡ 3 → OnRun (map string_bytes words.now) (λ manifest script image. (line : List ℕ)
        × IsRunTurnedDown (K.state keeper.old) (K.state keeper.new) manifest script (λ texts. IsBadVolume texts line)
        × IsPrinted (O.state out.old) (O.state out.new) line)
        ⊎ OnImage (map string_bytes words.now) (λ command image. (line : List ℕ)
        × IsBadImage (K.state keeper.old) (K.state keeper.new) image line × IsPrinted (O.state out.old) (O.state out.new) line) }
    ensures geometry { result ≡ 7 → OnRun (map string_bytes words.now) (λ manifest script image. (line : List ℕ)
        × IsRunTurnedDown (K.state keeper.old) (K.state keeper.new) manifest script (λ texts. IsBadGeometry (K.state keeper.old) texts line)
        × IsPrinted (O.state out.old) (O.state out.new) line)
        ⊎ OnMkfs (map string_bytes words.now) (λ manifest image. (line : List ℕ)
        × IsMkfsTurnedDown (K.state keeper.old) (K.state keeper.new) manifest (λ text. HasNoImage (K.state keeper.old) text line)
        × IsPrinted (O.state out.old) (O.state out.new) line) }
    ensures files { result ≡ 4 → OnRun (map string_bytes words.now) (λ manifest script image. (line : List ℕ)
        × IsUnread (K.state keeper.old) (K.state keeper.new) manifest script image line
        × SameFiles (K.state keeper.old) (K.state keeper.new) × IsPrinted (O.state out.old) (O.state out.new) line)
        ⊎ OnImage (map string_bytes words.now) (λ command image. (line : List ℕ)
        × IsNoImage (K.state keeper.old) (K.state keeper.new) image line
        × SameFiles (K.state keeper.old) (K.state keeper.new) × IsPrinted (O.state out.old) (O.state out.new) line)
        ⊎ OnMkfs (map string_bytes words.now) (λ manifest image. (line : List ℕ)
        × IsMkfsUnread (K.state keeper.old) (K.state keeper.new) manifest image line × IsPrinted (O.state out.old) (O.state out.new) line) }

    // The work was done, but the sink failed.
    ensures failed { result ≡ 5 → Rose (O.state out.old).faults (O.state out.new).faults }
    ensures output { result ≡ 5 → OnRun (map string_bytes words.now) (λ manifest script image. (text : List ℕ)
        × IsFinished (K.state keeper.old) (K.state keeper.new) manifest script image text × IsPrinted (O.state out.old) (O.state out.new) text)
        ⊎ OnImage (map string_bytes words.now) (λ command image. (text : List ℕ)
        × IsTextOf command (K.state keeper.old) (K.state keeper.new) image text × IsPrinted (O.state out.old) (O.state out.new) text)
        ⊎ OnMkfs (map string_bytes words.now) (λ manifest image. (text : List ℕ)
        × IsMkfsFinished (K.state keeper.old) (K.state keeper.new) manifest image text × IsPrinted (O.state out.old) (O.state out.new) text) }

    // There was no memory.
    ensures memory { result ≡ 6 → IsPrinted (O.state out.old) (O.state out.new) (line_of (codes "memory" ∷ [])) }

    // A file changes only where a run was done, or an image was made.
    ensures kept { SameFiles (K.state keeper.old) (K.state keeper.new)
        ⊎ OnRun (map string_bytes words.now) (λ manifest script image. (text : List ℕ)
        × IsFinished (K.state keeper.old) (K.state keeper.new) manifest script image text)
        ⊎ OnMkfs (map string_bytes words.now) (λ manifest image. (text : List ℕ)
        × IsMkfsFinished (K.state keeper.old) (K.state keeper.new) manifest image text) }
{
    match read_words(alloc, words) {
        Ok(
            Some(
                Command::Run {
                    volume,
                    script,
                    image,
                },
            ),
        ) => run_told(rt, alloc, volume, script, image, keeper, out, gate),
        Ok(Some(Command::OfImage { command, image })) => {
            image_told(rt, alloc, command, image, keeper, out)
        }
        Ok(Some(Command::Mkfs { manifest, image })) => mkfs_told(
            alloc, manifest, image, keeper, out,
        ),
        Ok(None) => told(out, b"usage\n".as_slice(), 1),
        Err(Memory) => told(out, b"memory\n".as_slice(), 6),
    }
}

// Runs a script, and prints what became of it.
fn run_told<R: Threads + Wait + Sync, K: Keeper, O: Sink, G: Gate + Sync>(
    rt: &R,
    alloc: Global,
    manifest: &str,
    script: &str,
    image: &str,
    keeper: &mut K,
    out: &mut O,
    gate: &G,
) -> u8
    ensures known { (result ≤ 7) × (result ≢ 1) }
    ensures done { result ≡ 0 → (text : List ℕ)
        × IsFinished (K.state keeper.old) (K.state keeper.new) manifest.now script.now image.now text × IsTold (O.state out.old) (O.state out.new) text }
    ensures text { result ≡ 2 → (line : List ℕ)
        × IsRunTurnedDown (K.state keeper.old) (K.state keeper.new) manifest.now script.now (λ texts. IsBadText texts line)
        × IsPrinted (O.state out.old) (O.state out.new) line }
    ensures image { result ≡ 3 → (line : List ℕ)
        × IsRunTurnedDown (K.state keeper.old) (K.state keeper.new) manifest.now script.now (λ texts. IsBadVolume texts line)
        × IsPrinted (O.state out.old) (O.state out.new) line }
    ensures geometry { result ≡ 7 → (line : List ℕ)
        × IsRunTurnedDown (K.state keeper.old) (K.state keeper.new) manifest.now script.now (λ texts. IsBadGeometry (K.state keeper.old) texts line)
        × IsPrinted (O.state out.old) (O.state out.new) line }
    ensures files { result ≡ 4 → (line : List ℕ)
        × IsUnread (K.state keeper.old) (K.state keeper.new) manifest.now script.now image.now line
        × SameFiles (K.state keeper.old) (K.state keeper.new) × IsPrinted (O.state out.old) (O.state out.new) line }
    ensures failed { result ≡ 5 → Rose (O.state out.old).faults (O.state out.new).faults }
    ensures output { result ≡ 5 → (text : List ℕ)
        × IsFinished (K.state keeper.old) (K.state keeper.new) manifest.now script.now image.now text × IsPrinted (O.state out.old) (O.state out.new) text }
    ensures memory { result ≡ 6 → IsPrinted (O.state out.old) (O.state out.new) (line_of (codes "memory" ∷ [])) }
    ensures kept { SameFiles (K.state keeper.old) (K.state keeper.new)
        ⊎ ((text : List ℕ) × IsFinished (K.state keeper.old) (K.state keeper.new) manifest.now script.now image.now text) }
{
    match run(rt, alloc, manifest, script, image, keeper, gate) {
        Ok(RunEnded::Unread { line }) => told(out, &line, 4),
        Ok(RunEnded::BadText { line }) => told(out, &line, 2),
        Ok(RunEnded::BadImage { line }) => told(out, &line, 3),
        Ok(RunEnded::BadGeometry { line }) => told(out, &line, 7),
        Ok(RunEnded::Done { text }) => printed(out, &text),
        Err(Memory) => told(out, b"memory\n".as_slice(), 6),
    }
}

// Makes an image of a manifest, and prints what became of it.
fn mkfs_told<K: Keeper, O: Sink>(
    alloc: Global,
    manifest: &str,
    image: &str,
    keeper: &mut K,
    out: &mut O,
) -> u8
    ensures known { (result ≤ 7) × (result ≢ 1) × (result ≢ 3) }
    ensures done { result ≡ 0 → (text : List ℕ)
        × IsMkfsFinished (K.state keeper.old) (K.state keeper.new) manifest.now image.now text × IsTold (O.state out.old) (O.state out.new) text }
    ensures text { result ≡ 2 → (line : List ℕ)
        × IsMkfsTurnedDown (K.state keeper.old) (K.state keeper.new) manifest.now (λ text. IsBadTree text line)
        × IsPrinted (O.state out.old) (O.state out.new) line }
    ensures geometry { result ≡ 7 → (line : List ℕ)
        × IsMkfsTurnedDown (K.state keeper.old) (K.state keeper.new) manifest.now (λ text. HasNoImage (K.state keeper.old) text line)
        × IsPrinted (O.state out.old) (O.state out.new) line }
    ensures files { result ≡ 4 → (line : List ℕ)
        × IsMkfsUnread (K.state keeper.old) (K.state keeper.new) manifest.now image.now line × IsPrinted (O.state out.old) (O.state out.new) line }
    ensures failed { result ≡ 5 → Rose (O.state out.old).faults (O.state out.new).faults }
    ensures output { result ≡ 5 → (text : List ℕ)
        × IsMkfsFinished (K.state keeper.old) (K.state keeper.new) manifest.now image.now text × IsPrinted (O.state out.old) (O.state out.new) text }
    ensures memory { result ≡ 6 → IsPrinted (O.state out.old) (O.state out.new) (line_of (codes "memory" ∷ [])) }
    ensures kept { SameFiles (K.state keeper.old) (K.state keeper.new)
        ⊎ ((text : List ℕ) × IsMkfsFinished (K.state keeper.old) (K.state keeper.new) manifest.now image.now text) }
{
    match mkfs(alloc, manifest, image, keeper) {
        Ok(Ended::Unread { line }) => told(out, &line, 4),
        Ok(Ended::BadText { line }) => told(out, &line, 2),
        Ok(Ended::BadGeometry { line }) => told(out, &line, 7),
        Ok(Ended::Done { text }) => printed(out, &text),
        Err(Memory) => told(out, b"memory\n".as_slice(), 6),
    }
}

// Looks at an image, and prints what was asked for or what is wrong with it.
fn image_told<R: Threads + Sync, K: Keeper, O: Sink>(
    rt: &R,
    alloc: Global,
    command: ImageCommand,
    image: &str,
    keeper: &mut K,
    out: &mut O,
) -> u8
    ensures known { (result ≤ 6) × (result ≢ 1) × (result ≢ 2) }
    ensures done { result ≡ 0 → (text : List ℕ)
        × IsTextOf command (K.state keeper.old) (K.state keeper.new) image.now text × IsTold (O.state out.old) (O.state out.new) text }
    ensures image { result ≡ 3 → (line : List ℕ)
        × IsBadImage (K.state keeper.old) (K.state keeper.new) image.now line × IsPrinted (O.state out.old) (O.state out.new) line }
    ensures files { result ≡ 4 → (line : List ℕ)
        × IsNoImage (K.state keeper.old) (K.state keeper.new) image.now line
        × SameFiles (K.state keeper.old) (K.state keeper.new) × IsPrinted (O.state out.old) (O.state out.new) line }
    ensures failed { result ≡ 5 → Rose (O.state out.old).faults (O.state out.new).faults }
    ensures output { result ≡ 5 → (text : List ℕ)
        × IsTextOf command (K.state keeper.old) (K.state keeper.new) image.now text × IsPrinted (O.state out.old) (O.state out.new) text }
    ensures memory { result ≡ 6 → IsPrinted (O.state out.old) (O.state out.new) (line_of (codes "memory" ∷ [])) }
    ensures kept { SameFiles (K.state keeper.old) (K.state keeper.new) }
{
    match report(rt, alloc, command, image, keeper) {
        Ok(Reported::Unread { line }) => told(out, &line, 4),
        Ok(Reported::BadImage { line }) => told(out, &line, 3),
        Ok(Reported::Done { text }) => printed(out, &text),
        Err(Memory) => told(out, b"memory\n".as_slice(), 6),
    }
}

// Prints the text of work that was done.
fn printed<O: Sink>(out: &mut O, text: &[u8]) -> u8
    ensures known { (result ≡ 0) ⊎ (result ≡ 5) ⊎ (result ≡ 6) }
    ensures done { result ≡ 0 → IsTold (O.state out.old) (O.state out.new) text.now }
    ensures failed { result ≡ 5 → Rose (O.state out.old).faults (O.state out.new).faults }
    ensures output { result ≡ 5 → IsPrinted (O.state out.old) (O.state out.new) text.now }
    ensures memory { result ≡ 6 → IsPrinted (O.state out.old) (O.state out.new) (line_of (codes "memory" ∷ [])) }
{
    match out.write(text) {
        Ok(()) => 0,
        Err(SinkFault::Failed { .. }) => 5,
        Err(SinkFault::Memory) => 6,
    }
}

// Prints the line of a status, as far as the sink takes it.
fn told<O: Sink>(out: &mut O, line: &[u8], status: u8) -> u8
    ensures status { result ≡ status }
    ensures printed { IsPrinted (O.state out.old) (O.state out.new) line.now }
{
    let _ = out.write(line);
    status
}
