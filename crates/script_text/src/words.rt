// Words of paths, targets and modes.

ghost use Rattle.std.specs.Prelude.{◌≡◌, ◌<◌, ◌/◌, ◌%◌, ◌∷◌, IfOk, IfSome, IfNone, ℕ, List, length};
ghost use Rattle.std.specs.List.{list_any};
ghost use Rattle.fs_model.specs.Path.{between_slashes, is_empty};
ghost use Rattle.script_text.specs.Escapes.{hex_digit};
ghost use Rattle.script_text.specs.Words.{BeginsWithByte, IsMode, IsWordSpelled, IsWord, Path, Target, is_rooted, octal_number};

use crate::listing::is_shown;
use std::alloc::{AllocError, Global};
use ubifs_base::Name;

/// The path that a word spells. The error is want of memory.
pub fn path_word(alloc: Global, word: &[u8]) -> Result<Option<Name>, AllocError>
    ensures found { IfOk result (λ found. IfSome found (λ path. IsWord (Path path) word.now)) }
    ensures none { IfOk result (λ found. IfNone found ((path : List ℕ) → IsWord (Path path) word.now → ⊥)) }
{
    let Some(bytes) = spelled(alloc, word)? else {
        return Ok(None);
    };
    if !is_rooted(bytes.as_slice()) {
        return Ok(None);
    }
    Ok(Some(bytes))
}

/// The bytes that a word spells. The error is want of memory.
pub fn spelled(alloc: Global, word: &[u8]) -> Result<Option<Name>, AllocError>
    ensures found { IfOk result (λ found. IfSome found (λ bytes. IsWordSpelled word.now bytes)) }
    ensures only { IfOk result (λ found. IfSome found (λ bytes. (others : List ℕ) → IsWordSpelled word.now others → bytes ≡ others)) }
    ensures none { IfOk result (λ found. IfNone found ((bytes : List ℕ) → IsWordSpelled word.now bytes → ⊥)) }
{
    let mut bytes = Vec::new(alloc);
    let mut rest = word;
    while !rest.is_empty() {
        let Some((byte, more)) = first_byte(rest) else {
            return Ok(None);
        };
        bytes.push(byte)?;
        rest = more;
    }
    Ok(Some(Name::from_vec(bytes)))
}

/// The byte that a word begins with, and what stands behind it.
fn first_byte(word: &[u8]) -> Option<(u8, &[u8])>
    ensures found { IfSome result (λ parts. BeginsWithByte word.now parts.0 parts.1.now) }
    ensures shorter { IfSome result (λ parts. length parts.1.now < length word.now) }
    ensures none { IfNone result ((byte : ℕ) → (rest : List ℕ) → BeginsWithByte word.now byte rest → ⊥) }
{
    let (first, rest) = word.split_first()?;
    if *first == b'%' {
        return hex_byte(rest);
    }
    if is_shown(*first) {
        Some((*first, rest))
    } else {
        None
    }
}

/// The byte that two hex digits say, and what stands behind them.
fn hex_byte(digits: &[u8]) -> Option<(u8, &[u8])>
    ensures within { IfSome result (λ parts. parts.0 < 256) }
    ensures found { IfSome result (λ parts. digits.now ≡ hex_digit (parts.0 / 16) ∷ hex_digit (parts.0 % 16) ∷ parts.1.now) }
    ensures none { IfNone result ((byte : ℕ) → (rest : List ℕ) → byte < 256 → digits.now ≡ hex_digit (byte / 16) ∷ hex_digit (byte % 16) ∷ rest → ⊥) }
{
    let (first, more) = digits.split_first()?;
    let (second, rest) = more.split_first()?;
    let high = hex_value(*first)?;
    let low = hex_value(*second)?;
    Some((16 * high + low, rest))
}

/// What a lower-case hex digit says.
fn hex_value(digit: u8) -> Option<u8>
    ensures within { IfSome result (λ n. n < 16) }
    ensures found { IfSome result (λ n. digit ≡ hex_digit n) }
    ensures none { IfNone result ((n : ℕ) → n < 16 → digit ≡ hex_digit n → ⊥) }
{
    if b'0' <= digit && digit <= b'9' {
        return Some(digit - b'0');
    }
    if b'a' <= digit && digit <= b'f' {
        return Some(digit - b'a' + 10);
    }
    None
}

/// Whether bytes are `/`, or components each after a slash, none of them empty.
fn is_rooted(bytes: &[u8]) -> bool
    ensures { result ≡ is_rooted bytes.now }
{
    match bytes.split_first() {
        Some((first, names)) => { *first == b'/' && (names.is_empty() || !has_empty_part(names)) }
        None => false,
    }
}

/// Whether nothing stands between two slashes, before the first or behind the last.
fn has_empty_part(names: &[u8]) -> bool
    ensures { result ≡ list_any is_empty (between_slashes names.now) }
{
    let mut empty = true;
    for byte in names {
        if *byte == b'/' {
            if empty {
                return true;
            }
            empty = true;
        } else {
            empty = false;
        }
    }
    empty
}

/// The mode that a word spells.
pub fn mode_word(word: &[u8]) -> Option<u32>
    ensures found { IfSome result (λ mode. IsMode word.now mode) }
    ensures none { IfNone result ((mode : ℕ) → IsMode word.now mode → ⊥) }
{
    if word.is_empty() || 4 < word.len() {
        return None;
    }
    let mut mode = 0;
    for digit in word {
        if *digit < b'0' || b'7' < *digit {
            return None;
        }
        mode = 8 * mode + u32::from(*digit - b'0');
    }
    Some(mode)
}
