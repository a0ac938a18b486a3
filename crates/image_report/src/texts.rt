// The texts of a check and of a dump.

ghost use Rattle.std.specs.Prelude.{◌≡◌, IfOk, OnOk};
ghost use Rattle.ubifs_base.specs.RawOf.{raw_of};
ghost use Rattle.image_dump.specs.Listing.{IsListing};
ghost use Rattle.image_dump.specs.Opening.{IsImageOpened, contents_of};
ghost use Rattle.image_report.specs.Told.{IsReportText, ListsSound, TellsSound};

use crate::looking::{Looked, look};
use crate::sound_line::sound_line;
use image_dump::{Opened, dump};
use std::alloc::Global;
use std::thread::Threads;
use ubi_volume::AreaFault;
use ubifs_base::Memory;

/// What is told of an image: a line that says what is wrong with it first, or the text that was asked for.
#[derive(Drop)]
pub enum ImageText {
    Unsound { line: Vec<u8> },
    Sound { text: Vec<u8> },
}

/// The line of a sound image: whether it is clean, and its space once it is recovered and before any commit. Memory is the only error.
pub fn check_text<R: Threads + Sync>(
    rt: &R,
    alloc: Global,
    bytes: &[u8],
) -> Result<ImageText, Memory>
    ensures { IfOk result (IsReportText (TellsSound bytes.now) bytes.now) }
{
    let looked = look(rt, alloc, bytes)?;
    match looked {
        Looked::Unsound { line } => Ok(ImageText::Unsound { line }),
        Looked::Sound { sound, .. } => {
            let text = sound_line(alloc, sound.clean, &sound.space)?;
            Ok(ImageText::Sound { text })
        }
    }
}

/// The listing of a sound image: the nodes of each LEB. Memory is the only error.
pub fn dump_text<R: Threads + Sync>(
    rt: &R,
    alloc: Global,
    bytes: &[u8],
) -> Result<ImageText, Memory>
    ensures { IfOk result (IsReportText (ListsSound bytes.now) bytes.now) }
{
    match look(rt, alloc, bytes)? {
        Looked::Unsound { line } => Ok(ImageText::Unsound { line }),
        Looked::Sound { opened, .. } => {
            let text = listing(alloc, bytes, opened)?;
            Ok(ImageText::Sound { text })
        }
    }
}

// The listing of the volume of an image.
fn listing(alloc: Global, bytes: &[u8], opened: Opened<'_>) -> Result<Vec<u8>, Memory>
    requires { IsImageOpened bytes.now opened }
    ensures { IfOk result (λ text. IsListing (raw_of opened.entry.geometry) (contents_of (raw_of opened.entry.geometry) bytes.now) (raw_of opened.entry.geometry).leb_cnt text.items) }
{
    let Opened {
        mut volume,
        geometry,
    } = opened;
    let mut text = Vec::new(alloc);
    match dump(alloc, &mut volume, &geometry, &mut text) {
        Ok(()) => Ok(text),
        Err(AreaFault::Memory) => Err(Memory),
        Err(AreaFault::Volume { .. }) => unreachable!(),
    }
}
