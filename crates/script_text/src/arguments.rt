// The words behind an operation's.

ghost use Rattle.std.specs.Prelude.{◌≡◌, ◌∷◌, [], IfOk, IfSome, IfNone, ℕ, List};
ghost use Rattle.script_text.specs.Words.{AreSpacedWords, Mode, Number, Path, Target};

use crate::cut::cut;
use crate::number::number;
use crate::words::{mode_word, path_word, spelled};
use std::alloc::{AllocError, Global};
use ubifs_base::Name;

/// A path and a mode. The error is want of memory, here and below.
pub fn path_and_mode(alloc: Global, words: &[u8]) -> Result<Option<(Name, u32)>, AllocError>
    ensures found { IfOk result (λ found. IfSome found (λ parts. AreSpacedWords (Path parts.0 ∷ Mode parts.1 ∷ []) words.now)) }
    ensures none { IfOk result (λ found. IfNone found ((path : List ℕ) → (mode : ℕ) → AreSpacedWords (Path path ∷ Mode mode ∷ []) words.now → ⊥)) }
{
    let Some((first, rest)) = cut(words, b' ') else {
        return Ok(None);
    };
    let Some(path) = path_word(alloc, first)? else {
        return Ok(None);
    };
    let Some(mode) = mode_word(rest) else {
        return Ok(None);
    };
    Ok(Some((path, mode)))
}

/// A path and a target.
pub fn path_and_target(alloc: Global, words: &[u8]) -> Result<Option<(Name, Name)>, AllocError>
    ensures found { IfOk result (λ found. IfSome found (λ parts. AreSpacedWords (Path parts.0 ∷ Target parts.1 ∷ []) words.now)) }
    ensures none { IfOk result (λ found. IfNone found ((path target : List ℕ) → AreSpacedWords (Path path ∷ Target target ∷ []) words.now → ⊥)) }
{
    let Some((first, rest)) = cut(words, b' ') else {
        return Ok(None);
    };
    let Some(path) = path_word(alloc, first)? else {
        return Ok(None);
    };
    let Some(target) = spelled(alloc, rest)? else {
        return Ok(None);
    };
    Ok(Some((path, target)))
}

/// Two paths.
pub fn two_paths(alloc: Global, words: &[u8]) -> Result<Option<(Name, Name)>, AllocError>
    ensures found { IfOk result (λ found. IfSome found (λ parts. AreSpacedWords (Path parts.0 ∷ Path parts.1 ∷ []) words.now)) }
    ensures none { IfOk result (λ found. IfNone found ((old new : List ℕ) → AreSpacedWords (Path old ∷ Path new ∷ []) words.now → ⊥)) }
{
    let Some((first, rest)) = cut(words, b' ') else {
        return Ok(None);
    };
    let Some(old) = path_word(alloc, first)? else {
        return Ok(None);
    };
    let Some(new) = path_word(alloc, rest)? else {
        return Ok(None);
    };
    Ok(Some((old, new)))
}

/// A path and a slot.
pub fn path_and_slot(alloc: Global, words: &[u8]) -> Result<Option<(Name, u8)>, AllocError>
    ensures found { IfOk result (λ found. IfSome found (λ parts. AreSpacedWords (Path parts.0 ∷ Number 8 parts.1 ∷ []) words.now)) }
    ensures none { IfOk result (λ found. IfNone found ((path : List ℕ) → (slot : ℕ) → AreSpacedWords (Path path ∷ Number 8 slot ∷ []) words.now → ⊥)) }
{
    let Some((first, rest)) = cut(words, b' ') else {
        return Ok(None);
    };
    let Some(path) = path_word(alloc, first)? else {
        return Ok(None);
    };
    let Some(slot) = slot_word(rest) else {
        return Ok(None);
    };
    Ok(Some((path, slot)))
}

/// A slot or a byte.
pub fn slot_word(word: &[u8]) -> Option<u8>
    ensures found { IfSome result (λ slot. AreSpacedWords (Number 8 slot ∷ []) word.now) }
    ensures none { IfNone result ((slot : ℕ) → AreSpacedWords (Number 8 slot ∷ []) word.now → ⊥) }
{
    let slot = number(word, 0xff)?;
    Some(slot as u8)
}

/// A slot and a size.
pub fn slot_and_size(words: &[u8]) -> Option<(u8, u64)>
    ensures found { IfSome result (λ parts. AreSpacedWords (Number 8 parts.0 ∷ Number 64 parts.1 ∷ []) words.now) }
    ensures none { IfNone result ((slot size : ℕ) → AreSpacedWords (Number 8 slot ∷ Number 64 size ∷ []) words.now → ⊥) }
{
    let (first, rest) = cut(words, b' ')?;
    let slot = slot_word(first)?;
    let size = number(rest, u64::MAX)?;
    Some((slot, size))
}

/// A slot, an offset and a length.
pub fn read_words(words: &[u8]) -> Option<(u8, u64, u32)>
    ensures found { IfSome result (λ parts. AreSpacedWords (Number 8 parts.0 ∷ Number 64 parts.1 ∷ Number 32 parts.2 ∷ []) words.now) }
    ensures none { IfNone result ((slot offs len : ℕ) → AreSpacedWords (Number 8 slot ∷ Number 64 offs ∷ Number 32 len ∷ []) words.now → ⊥) }
{
    let (first, rest) = cut(words, b' ')?;
    let slot = slot_word(first)?;
    let (offs, len) = offset_and_length(rest)?;
    Some((slot, offs, len))
}

/// A slot, an offset, a length and a byte.
pub fn write_words(words: &[u8]) -> Option<(u8, u64, u32, u8)>
    ensures found { IfSome result (λ parts. AreSpacedWords (Number 8 parts.0 ∷ Number 64 parts.1 ∷ Number 32 parts.2 ∷ Number 8 parts.3 ∷ []) words.now) }
    ensures none { IfNone result ((slot offs len byte : ℕ) → AreSpacedWords (Number 8 slot ∷ Number 64 offs ∷ Number 32 len ∷ Number 8 byte ∷ []) words.now → ⊥) }
{
    let (first, rest) = cut(words, b' ')?;
    let slot = slot_word(first)?;
    let (second, more) = cut(rest, b' ')?;
    let offs = number(second, u64::MAX)?;
    let (len, byte) = length_and_byte(more)?;
    Some((slot, offs, len, byte))
}

/// An offset and a length.
fn offset_and_length(words: &[u8]) -> Option<(u64, u32)>
    ensures found { IfSome result (λ parts. AreSpacedWords (Number 64 parts.0 ∷ Number 32 parts.1 ∷ []) words.now) }
    ensures none { IfNone result ((offs len : ℕ) → AreSpacedWords (Number 64 offs ∷ Number 32 len ∷ []) words.now → ⊥) }
{
    let (first, rest) = cut(words, b' ')?;
    let offs = number(first, u64::MAX)?;
    let len = number(rest, 0xffff_ffff)?;
    Some((offs, len as u32))
}

/// A length and a byte.
pub fn length_and_byte(words: &[u8]) -> Option<(u32, u8)>
    ensures found { IfSome result (λ parts. AreSpacedWords (Number 32 parts.0 ∷ Number 8 parts.1 ∷ []) words.now) }
    ensures none { IfNone result ((len byte : ℕ) → AreSpacedWords (Number 32 len ∷ Number 8 byte ∷ []) words.now → ⊥) }
{
    let (first, rest) = cut(words, b' ')?;
    let len = number(first, 0xffff_ffff)?;
    let byte = slot_word(rest)?;
    Some((len as u32, byte))
}
