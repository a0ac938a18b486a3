// The commands that read an image: `check` and `dump`.

ghost use Rattle.std.specs.Prelude.{◌≡◌, IfOk, OnErr};
ghost use Rattle.io_edges.specs.Keeper.{SameFiles};
ghost use Rattle.image_report.specs.Told.{IsReportText};
ghost use Rattle.ubifs_tools.specs.Command.{file_line};
ghost use Rattle.ubifs_tools.specs.ImageCommand.{Tells};
ghost use Rattle.ubifs_tools.specs.Reported.{IsReported};

use command_words::ImageCommand;
use image_report::{ImageText, check_text, dump_text};
use io_edges::{KeepFault, Keeper};
use std::alloc::Global;
use std::thread::Threads;
use text_lines::line_of_two;
use ubifs_base::Memory;

/// How such a command ended: a line that says why nothing was told, or the text.
#[derive(Drop)]
pub(crate) enum Reported {
    Unread { line: Vec<u8> },
    BadImage { line: Vec<u8> },
    Done { text: Vec<u8> },
}

/// Reads the image and tells what was asked for.
pub(crate) fn report<R: Threads + Sync, K: Keeper>(
    rt: &R,
    alloc: Global,
    command: ImageCommand,
    image: &str,
    keeper: &mut K,
) -> Result<Reported, Memory>
    ensures ended { IfOk result (IsReported command (K.state keeper.old) (K.state keeper.new) image.now) }
    ensures err { OnErr result (SameFiles (K.state keeper.old) (K.state keeper.new)) }
{
    let bytes = match keeper.read(image) {
        Ok(bytes) => bytes,
        Err(KeepFault::Memory) => return Err(Memory),
        Err(_) => {
            let line = line_of_two(alloc, b"file".as_slice(), image.as_bytes())?;
            return Ok(Reported::Unread { line });
        }
    };
    match text_of(rt, alloc, command, &bytes)? {
        ImageText::Unsound { line } => Ok(Reported::BadImage { line }),
        ImageText::Sound { text } => Ok(Reported::Done { text }),
    }
}

// What is told of the bytes of an image.
fn text_of<R: Threads + Sync>(
    rt: &R,
    alloc: Global,
    command: ImageCommand,
    bytes: &[u8],
) -> Result<ImageText, Memory>
    ensures { IfOk result (IsReportText (Tells command bytes.now) bytes.now) }
{
    match command {
        ImageCommand::Check => check_text(rt, alloc, bytes),
        ImageCommand::Dump => dump_text(rt, alloc, bytes),
    }
}
