// Lines of a manifest behind its first one.

ghost use Rattle.std.specs.Prelude.{◌≡◌, ◌∷◌, [], IfOk, IfSome, IfNone, true, false, ℕ, List, codes};
ghost use Rattle.script_text.specs.ManifestLines.{IsManifestLineOf, HasFewBytes, made_name, made_words};
ghost use Rattle.script_text.specs.MadeNames.{SaysMade};
ghost use Rattle.script_text.specs.Words.{AreSpacedWords, FileName, IsFileWord, Mode, Number};
ghost use Rattle.script_text.specs.declared.manifest_line.ManifestLine.{ManifestLine};

use crate::arguments::{length_and_byte, path_and_mode, path_and_target, two_paths};
use crate::cut::{cut, has_byte};
use crate::part::LENGTH;
use crate::words::{mode_word, path_word};
use std::alloc::{AllocError, Global};
use std::str;
use ubifs_base::Name;

/// What a line of a manifest makes: a directory, a file of so many copies of a byte, a file with the bytes of another that
/// is named, a symbolic link, or a further name of a file.
#[derive(Drop)]
pub enum ManifestLine {
    Dir {
        path: Name,
        mode: u32,
    },
    File {
        path: Name,
        mode: u32,
        len: u32,
        byte: u8,
    },
    Copy {
        path: Name,
        mode: u32,
        name: Name,
    },
    Symlink {
        path: Name,
        target: Name,
    },
    Link {
        old: Name,
        new: Name,
    },
}

/// The most bytes that a file of a manifest has.
const FILE_BYTES: u32 = 1 << 24;

/// What a line makes, if it is in the grammar by its words. The line is without its newline. The error is want of memory,
/// here and below.
pub fn manifest_line(alloc: Global, text: &[u8]) -> Result<Option<ManifestLine>, AllocError>
    ensures found { IfOk result (λ found. IfSome found (λ line. IsManifestLineOf line text.now)) }
    ensures none { IfOk result (λ found. IfNone found ((line : ManifestLine) → IsManifestLineOf line text.now → ⊥)) }
{
    if LENGTH < text.len() {
        return Ok(None);
    }
    let Some((name, words)) = cut(text, b' ') else {
        return Ok(None);
    };
    let found = line_of_name(alloc, name, words)?;
    Ok(found)
}

// The line that has this first word, and these behind it.
fn line_of_name(
    alloc: Global,
    name: &[u8],
    words: &[u8],
) -> Result<Option<ManifestLine>, AllocError>
    ensures found { IfOk result (λ found. IfSome found (λ line. SaysMade name.now line words.now)) }
    ensures none { IfOk result (λ found. IfNone found ((line : ManifestLine) → SaysMade name.now line words.now → ⊥)) }
{
    if name == b"dir".as_slice() {
        return dir_line(alloc, words);
    }
    if name == b"file".as_slice() {
        return file_line(alloc, words);
    }
    if name == b"copy".as_slice() {
        return copy_line(alloc, words);
    }
    if name == b"symlink".as_slice() {
        return symlink_line(alloc, words);
    }
    if name == b"link".as_slice() {
        return link_line(alloc, words);
    }
    Ok(None)
}

fn dir_line(alloc: Global, words: &[u8]) -> Result<Option<ManifestLine>, AllocError>
    ensures found { IfOk result (λ found. IfSome found (λ line. SaysMade (codes "dir") line words.now)) }
    ensures none { IfOk result (λ found. IfNone found ((line : ManifestLine) → SaysMade (codes "dir") line words.now → ⊥)) }
{
    let Some((path, mode)) = path_and_mode(alloc, words)? else {
        return Ok(None);
    };
    Ok(Some(ManifestLine::Dir { path, mode }))
}

fn file_line(alloc: Global, words: &[u8]) -> Result<Option<ManifestLine>, AllocError>
    ensures found { IfOk result (λ found. IfSome found (λ line. SaysMade (codes "file") line words.now)) }
    ensures none { IfOk result (λ found. IfNone found ((line : ManifestLine) → SaysMade (codes "file") line words.now → ⊥)) }
{
    let Some((first, rest)) = cut(words, b' ') else {
        return Ok(None);
    };
    let Some(path) = path_word(alloc, first)? else {
        return Ok(None);
    };
    let Some((mode, len, byte)) = mode_and_bytes(rest) else {
        return Ok(None);
    };
    if FILE_BYTES < len {
        return Ok(None);
    }
    Ok(Some(ManifestLine::File {
        path,
        mode,
        len,
        byte,
    }))
}

// A mode, a length and a byte.
fn mode_and_bytes(words: &[u8]) -> Option<(u32, u32, u8)>
    ensures found { IfSome result (λ parts. AreSpacedWords (Mode parts.0 ∷ Number 32 parts.1 ∷ Number 8 parts.2 ∷ []) words.now) }
    ensures none { IfNone result ((mode len byte : ℕ) → AreSpacedWords (Mode mode ∷ Number 32 len ∷ Number 8 byte ∷ []) words.now → ⊥) }
{
    let (first, rest) = cut(words, b' ')?;
    let mode = mode_word(first)?;
    let (len, byte) = length_and_byte(rest)?;
    Some((mode, len, byte))
}

fn copy_line(alloc: Global, words: &[u8]) -> Result<Option<ManifestLine>, AllocError>
    ensures found { IfOk result (λ found. IfSome found (λ line. SaysMade (codes "copy") line words.now)) }
    ensures none { IfOk result (λ found. IfNone found ((line : ManifestLine) → SaysMade (codes "copy") line words.now → ⊥)) }
{
    let Some((first, rest)) = cut(words, b' ') else {
        return Ok(None);
    };
    let Some(path) = path_word(alloc, first)? else {
        return Ok(None);
    };
    let Some((mode, name)) = mode_and_name(rest) else {
        return Ok(None);
    };
    let name = Name::from_slice(alloc, name)?;
    Ok(Some(ManifestLine::Copy { path, mode, name }))
}

// A mode and a file's name.
fn mode_and_name(words: &[u8]) -> Option<(u32, &[u8])>
    ensures found { IfSome result (λ parts. AreSpacedWords (Mode parts.0 ∷ FileName parts.1.now ∷ []) words.now) }
    ensures none { IfNone result ((mode : ℕ) → (name : List ℕ) → AreSpacedWords (Mode mode ∷ FileName name ∷ []) words.now → ⊥) }
{
    let (first, rest) = cut(words, b' ')?;
    let mode = mode_word(first)?;
    if !is_file_word(rest) {
        return None;
    }
    Some((mode, rest))
}

// Whether a word names a file as it stands.
fn is_file_word(word: &[u8]) -> bool
    ensures found { result ≡ true → IsFileWord word.now }
    ensures none { result ≡ false → IsFileWord word.now → ⊥ }
{
    if word.is_empty() {
        return false;
    }
    if has_byte(word, b' ') {
        return false;
    }
    if has_byte(word, b'\n') {
        return false;
    }
    match str::from_utf8(word) {
        Ok(_) => true,
        Err(_) => false,
    }
}

fn symlink_line(alloc: Global, words: &[u8]) -> Result<Option<ManifestLine>, AllocError>
    ensures found { IfOk result (λ found. IfSome found (λ line. SaysMade (codes "symlink") line words.now)) }
    ensures none { IfOk result (λ found. IfNone found ((line : ManifestLine) → SaysMade (codes "symlink") line words.now → ⊥)) }
{
    let Some((path, target)) = path_and_target(alloc, words)? else {
        return Ok(None);
    };
    Ok(Some(ManifestLine::Symlink { path, target }))
}

fn link_line(alloc: Global, words: &[u8]) -> Result<Option<ManifestLine>, AllocError>
    ensures found { IfOk result (λ found. IfSome found (λ line. SaysMade (codes "link") line words.now)) }
    ensures none { IfOk result (λ found. IfNone found ((line : ManifestLine) → SaysMade (codes "link") line words.now → ⊥)) }
{
    let Some((old, new)) = two_paths(alloc, words)? else {
        return Ok(None);
    };
    Ok(Some(ManifestLine::Link { old, new }))
}
