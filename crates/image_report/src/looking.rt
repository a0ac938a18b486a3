// An image is opened and checked.

ghost use Rattle.std.specs.Prelude.{IfOk};
ghost use Rattle.image_dump.specs.Opening.{IsImageOpened};
ghost use Rattle.image_report.specs.Looked.{IsLooked};

use crate::breach_line::{breach_line, fault_line};
use image_check::CheckFault;
use image_dump::{ImageFault, Opened, open_image};
use recovered_tree::{Sound, check};
use sound_image::contents_say_one_thing;
use std::alloc::Global;
use std::thread::Threads;
use ubifs_base::Memory;

// A line that says what is wrong with an image, or its volume with what is told of it.
#[derive(Drop)]
pub(crate) enum Looked<'a> {
    Unsound { line: Vec<u8> },
    Sound { opened: Opened<'a>, sound: Sound },
}

// Opens an image and checks it.
pub(crate) fn look<'a, R: Threads + Sync>(
    rt: &R,
    alloc: Global,
    bytes: &'a [u8],
) -> Result<Looked<'a>, Memory>
    ensures { IfOk result (IsLooked bytes.now) }
{
    match open_image(alloc, bytes) {
        Ok(opened) => check_opened(rt, alloc, bytes, opened),
        Err(ImageFault::Memory) => Err(Memory),
        Err(fault) => {
            let line = fault_line(alloc, fault)?;
            Ok(Looked::Unsound { line })
        }
    }
}

// Checks the volume of an image.
fn check_opened<'a, R: Threads + Sync>(
    rt: &R,
    alloc: Global,
    bytes: &[u8],
    opened: Opened<'a>,
) -> Result<Looked<'a>, Memory>
    requires { IsImageOpened bytes.now opened }
    ensures { IfOk result (IsLooked bytes.now) }
{
    contents_say_one_thing();
    let Opened {
        mut volume,
        geometry,
    } = opened;
    match check(rt, alloc, &mut volume) {
        Ok(sound) => Ok(Looked::Sound {
            opened: Opened { volume, geometry },
            sound,
        }),
        Err(CheckFault::Unsound { breach }) => {
            let line = breach_line(alloc, breach)?;
            Ok(Looked::Unsound { line })
        }
        Err(CheckFault::Memory) => Err(Memory),
        Err(CheckFault::Volume { .. }) => unreachable!(),
    }
}
