// What is told in place of a run.

use script_text::TextFault;
use std::alloc::Global;
use text_lines::{line_of_three, line_of_two};
use ubifs_base::{GeomFault, GeomField, Memory};

/// A text, and the status with which the program ends.
#[derive(Drop)]
pub(crate) struct Told {
    pub(crate) status: u8,
    pub(crate) text: Vec<u8>,
}

/// The words aren't those of two files.
pub(crate) fn usage(alloc: Global) -> Result<Told, Memory> {
    let text = Vec::from_slice(alloc, b"usage\n".as_slice())?;
    Ok(Told { status: 1, text })
}

/// A file wasn't read.
pub(crate) fn unread(alloc: Global, name: &str) -> Result<Told, Memory> {
    let text = line_of_two(alloc, b"file".as_slice(), name.as_bytes())?;
    Ok(Told { status: 4, text })
}

/// A text isn't in its grammar.
pub(crate) fn bad_text(alloc: Global, word: &[u8], fault: TextFault) -> Result<Told, Memory> {
    match fault {
        TextFault::Memory => Err(Memory),
        TextFault::Line { number } => {
            let number = number.to_string(alloc)?;
            let text = line_of_three(alloc, word, b"line".as_slice(), number.as_bytes())?;
            Ok(Told { status: 2, text })
        }
    }
}

/// A field of a geometry is out of its range.
pub(crate) fn bad_geometry(alloc: Global, fault: GeomFault) -> Result<Told, Memory> {
    let value = fault.value.to_string(alloc)?;
    no_image(
        alloc,
        b"geometry".as_slice(),
        name_of(fault.field),
        value.as_bytes(),
    )
}

/// There are too few main LEBs.
pub(crate) fn small(alloc: Global, main: u32) -> Result<Told, Memory> {
    let main = main.to_string(alloc)?;
    no_image(
        alloc,
        b"small".as_slice(),
        main.as_bytes(),
        b"24".as_slice(),
    )
}

/// The tree has no room.
pub(crate) fn full(alloc: Global, need: u64, room: u64) -> Result<Told, Memory> {
    let need = need.to_string(alloc)?;
    let room = room.to_string(alloc)?;
    no_image(alloc, b"full".as_slice(), need.as_bytes(), room.as_bytes())
}

// The manifest has no image.
fn no_image(alloc: Global, why: &[u8], first: &[u8], second: &[u8]) -> Result<Told, Memory> {
    let text = line_of_three(alloc, why, first, second)?;
    Ok(Told { status: 7, text })
}

fn name_of(field: GeomField) -> &'static [u8] {
    match field {
        GeomField::LebSize => b"leb_size".as_slice(),
        GeomField::MinIo => b"min_io".as_slice(),
        GeomField::LogLebs => b"log_lebs".as_slice(),
        GeomField::LptLebs => b"lpt_lebs".as_slice(),
        GeomField::OrphLebs => b"orph_lebs".as_slice(),
        GeomField::LebCnt => b"leb_cnt".as_slice(),
        GeomField::MaxLebCnt => b"max_leb_cnt".as_slice(),
        GeomField::Fanout => b"fanout".as_slice(),
        GeomField::LsaveCnt => b"lsave_cnt".as_slice(),
    }
}
