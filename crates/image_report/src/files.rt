// The files of an image.

ghost use Rattle.std.specs.Prelude.{IfOk};
ghost use Rattle.image_dump.specs.Opening.{IsImageOpened};
ghost use Rattle.image_report.specs.Told.{AreImageFiles};

use crate::breach_line::{breach_line, fault_line};
use fs_model::Space;
use image_check::CheckFault;
use image_dump::{ImageFault, Opened, open_image};
use plain_backing::Tree;
use recovered_tree::{read_tree_of, summary_of, the_files_of_an_image_are_proper};
use sound_image::contents_say_one_thing;
use std::alloc::Global;
use std::thread::Threads;
use ubifs_base::{Geometry, Memory};

/// A line that says what is wrong with an image first, or its geometry, its files, and its space once it is recovered and before any commit.
#[derive(Drop)]
pub enum ImageFiles {
    Unsound {
        line: Vec<u8>,
    },
    Sound {
        geometry: Geometry,
        tree: Tree,
        space: Space,
    },
}

/// The files of a sound image: those of which a mount makes its files, a proper tree; and its space. Memory is the only error.
pub fn image_files<R: Threads + Sync>(
    rt: &R,
    alloc: Global,
    bytes: &[u8],
) -> Result<ImageFiles, Memory>
    ensures { IfOk result (AreImageFiles bytes.now) }
{
    match open_image(alloc, bytes) {
        Ok(opened) => files_in(rt, alloc, bytes, opened),
        Err(ImageFault::Memory) => Err(Memory),
        Err(fault) => {
            let line = fault_line(alloc, fault)?;
            Ok(ImageFiles::Unsound { line })
        }
    }
}

// The files that the volume of an image holds.
fn files_in<R: Threads + Sync>(
    rt: &R,
    alloc: Global,
    bytes: &[u8],
    opened: Opened<'_>,
) -> Result<ImageFiles, Memory>
    requires { IsImageOpened bytes.now opened }
    ensures { IfOk result (AreImageFiles bytes.now) }
{
    contents_say_one_thing();
    the_files_of_an_image_are_proper();
    let Opened {
        mut volume,
        geometry,
    } = opened;
    match read_tree_of(rt, alloc, &mut volume) {
        Ok(files) => {
            let space = summary_of(alloc, &files.read)?.space;
            Ok(ImageFiles::Sound {
                geometry,
                tree: files.tree,
                space,
            })
        }
        Err(CheckFault::Unsound { breach }) => {
            let line = breach_line(alloc, breach)?;
            Ok(ImageFiles::Unsound { line })
        }
        Err(CheckFault::Memory) => Err(Memory),
        Err(CheckFault::Volume { .. }) => unreachable!(),
    }
}
