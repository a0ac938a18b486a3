// The line of a sound image.

ghost use Rattle.std.specs.Prelude.{◌≡◌, IfOk};
ghost use Rattle.image_report.specs.Lines.{clean_word, sound_line as line_of_sound};

use fs_model::Space;
use std::alloc::{AllocError, Global};
use text_lines::{push_number_word, push_word};

// The line that tells whether an image is clean, and its space.
pub(crate) fn sound_line(alloc: Global, clean: bool, space: &Space) -> Result<Vec<u8>, AllocError>
    ensures { IfOk result (λ line. line.items ≡ line_of_sound clean space.now) }
{
    let mut line = Vec::from_slice(alloc, b"sound".as_slice())?;
    push_word(&mut line, word_of_clean(clean))?;
    push_word(&mut line, b"used".as_slice())?;
    push_number_word(&mut line, space.used)?;
    push_word(&mut line, b"empty".as_slice())?;
    push_number_word(&mut line, space.empty as u64)?;
    push_word(&mut line, b"index".as_slice())?;
    push_number_word(&mut line, space.index as u64)?;
    push_word(&mut line, b"weight".as_slice())?;
    push_number_word(&mut line, space.weight)?;
    line.push(b'\n')?;
    Ok(line)
}

// The word for an image whose buds hold no node, or hold one.
fn word_of_clean(clean: bool) -> &'static [u8]
    ensures { result.now ≡ clean_word clean }
{
    if clean {
        b"clean".as_slice()
    } else {
        b"unclean".as_slice()
    }
}
