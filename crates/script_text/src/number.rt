// Numbers in texts.

ghost use Rattle.std.specs.Prelude.{◌≡◌, ◌<◌, ◌≤◌, ◌^◌, ◌++◌, ◌∷◌, ℕ, List, IfSome, IfNone, IsTrue, ◌↔◌};
ghost use Rattle.std.specs.Fmt.{decimal};
ghost use Rattle.script_text.specs.Words.{IsPlainNumeral};

use crate::cut::cut;
use std::str;

/// The number that the bytes are, where it is `most` or less: decimal digits without a sign, and without a leading zero
/// except `0` itself.
pub fn number(bytes: &[u8], most: u64) -> Option<u64>
    ensures found { IfSome result (λ n. bytes.now ≡ decimal n) }
    ensures within { IfSome result (λ n. n ≤ most) }
    ensures none { IfNone result ((n : ℕ) → n ≤ most → bytes.now ≡ decimal n → ⊥) }
{
    match any_number(bytes) {
        Some(n) => { if n <= most { Some(n) } else { None } }
        None => None,
    }
}

/// The number before the first such byte, which is no digit, and what stands behind that byte.
pub fn first_number(bytes: &[u8], separator: u8, most: u64) -> Option<(u64, &[u8])>
    requires { separator < 48 }
    ensures found { IfSome result (λ parts. bytes.now ≡ decimal parts.0 ++ (separator ∷ parts.1.now)) }
    ensures within { IfSome result (λ parts. parts.0 ≤ most) }
    ensures none { IfNone result ((n : ℕ) → (rest : List ℕ) → n ≤ most → bytes.now ≡ decimal n ++ (separator ∷ rest) → ⊥) }
{
    match cut(bytes, separator) {
        Some((word, rest)) => match number(word, most) {
            Some(n) => Some((n, rest)),
            None => None,
        },
        None => None,
    }
}

fn any_number(bytes: &[u8]) -> Option<u64>
    ensures found { IfSome result (λ n. bytes.now ≡ decimal n) }
    ensures none { IfNone result ((n : ℕ) → n < 2 ^ 64 → bytes.now ≡ decimal n → ⊥) }
{
    match str::from_utf8(bytes) {
        Ok(text) => number_of_text(text),
        Err(_) => None,
    }
}

fn number_of_text(text: &str) -> Option<u64>
    ensures found { IfSome result (λ n. text.now ≡ decimal n) }
    ensures none { IfNone result ((n : ℕ) → n < 2 ^ 64 → text.now ≡ decimal n → ⊥) }
{
    match text.parse::<u64>() {
        Ok(n) => {
            if is_plain(text.as_bytes()) {
                Some(n)
            } else {
                None
            }
        }
        Err(_) => None,
    }
}

fn is_plain(bytes: &[u8]) -> bool
    ensures { IsTrue result ↔ IsPlainNumeral bytes.now }
{
    if bytes.is_empty() {
        return true;
    }
    if bytes[0] == b'+' {
        return false;
    }
    if bytes[0] == b'0' {
        return bytes.len() == 1;
    }
    true
}
