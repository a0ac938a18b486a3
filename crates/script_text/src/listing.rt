// Words of entries, kinds, modes and targets.

ghost use Rattle.std.specs.Prelude.{◌≡◌, ◌++◌, ◌∷◌, [], OnOk};
ghost use Rattle.text_lines.specs.Lines.{spaced};
ghost use Rattle.script_text.specs.Reply.{escaped, escaped_byte, kind_letter, row_word, rows_words};
ghost use Rattle.script_text.specs.Escapes.{is_printable};
ghost use Rattle.script_text.specs.Words.{octal};

use crate::run::hex_digit;
use fs_model::{Entry, Kind};
use std::alloc::AllocError;
use text_lines::{push_number, push_number_word, push_word};

/// Appends how many entries there are, and a word for each.
pub fn push_rows(line: &mut Vec<u8>, rows: &[Entry]) -> Result<(), AllocError>
    ensures { OnOk result (line.new.items ≡ line.old.items ++ spaced (rows_words rows.now)) }
{
    push_number_word(line, rows.len() as u64)?;
    for entry in rows {
        push_row(line, entry)?;
    }
    Ok(())
}

/// Appends a space and an entry's word: its name, its kind and its inode number.
fn push_row(line: &mut Vec<u8>, entry: &Entry) -> Result<(), AllocError>
    ensures { OnOk result (line.new.items ≡ line.old.items ++ (32 ∷ row_word entry.now)) }
{
    push_escaped_word(line, entry.name.as_slice())?;
    line.push(b':')?;
    line.push(kind_letter(entry.kind))?;
    line.push(b':')?;
    push_number(line, u64::from(entry.ino))
}

/// Appends a space and the bytes of a name or a target, those that can't stand in a word as `%` and two hex digits.
pub fn push_escaped_word(line: &mut Vec<u8>, bytes: &[u8]) -> Result<(), AllocError>
    ensures { OnOk result (line.new.items ≡ line.old.items ++ (32 ∷ escaped bytes.now)) }
{
    line.push(b' ')?;
    for byte in bytes {
        push_byte(line, *byte)?;
    }
    Ok(())
}

fn push_byte(line: &mut Vec<u8>, byte: u8) -> Result<(), AllocError>
    ensures { OnOk result (line.new.items ≡ line.old.items ++ escaped_byte byte) }
{
    if is_shown(byte) {
        line.push(byte)?;
        return Ok(());
    }
    line.push(b'%')?;
    line.push(hex_digit(byte / 16))?;
    line.push(hex_digit(byte % 16))?;
    Ok(())
}

/// Whether a byte stands in a word by itself.
pub fn is_shown(byte: u8) -> bool
    ensures { result ≡ is_printable byte }
{
    b' ' < byte && byte < 127 && byte != b'%'
}

/// Appends a space and a kind's letter.
pub fn push_kind_word(line: &mut Vec<u8>, kind: Kind) -> Result<(), AllocError>
    ensures { OnOk result (line.new.items ≡ line.old.items ++ (32 ∷ kind_letter kind ∷ [])) }
{
    line.push(b' ')?;
    line.push(kind_letter(kind))?;
    Ok(())
}

fn kind_letter(kind: Kind) -> u8
    ensures { result ≡ kind_letter kind }
{
    match kind {
        Kind::File => b'f',
        Kind::Dir => b'd',
        Kind::Symlink => b'l',
        Kind::Block => b'b',
        Kind::Char => b'c',
        Kind::Fifo => b'p',
        Kind::Socket => b's',
    }
}

/// Appends a space and a number in octal digits.
pub fn push_octal_word(line: &mut Vec<u8>, n: u32) -> Result<(), AllocError>
    ensures { OnOk result (line.new.items ≡ line.old.items ++ (32 ∷ octal n)) }
{
    let text = format!(in *line.allocator(); "{n:o}")?;
    push_word(line, text.as_bytes())
}
