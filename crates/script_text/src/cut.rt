// Cutting a text.

ghost use Rattle.std.specs.Prelude.{◌≡◌, ◌++◌, ◌∷◌, ◌<◌, ◌≤◌, IfSome, IfNone, true, false, length, take, slice_index, ℕ, List};
ghost use Rattle.script_text.specs.Words.{Lacks};

/// What stands before the first such byte, and what stands behind it.
pub fn cut(bytes: &[u8], byte: u8) -> Option<(&[u8], &[u8])>
    ensures found { IfSome result (λ parts. bytes.now ≡ parts.0.now ++ (byte ∷ parts.1.now)) }
    ensures first { IfSome result (λ parts. Lacks byte parts.0.now) }
    ensures none { IfNone result (Lacks byte bytes.now) }
{
    let at = place_of(bytes, byte);
    if at == bytes.len() {
        return None;
    }
    let (before, rest) = bytes.split_at(at);
    Some((before, rest.split_at(1).1))
}

/// The place of the first such byte, or the length.
fn place_of(bytes: &[u8], byte: u8) -> usize
    ensures within { result ≤ length bytes.now }
    ensures before { Lacks byte (take result bytes.now) }
    ensures at { result < length bytes.now → slice_index bytes.now result ≡ byte }
{
    for (i, x) in bytes.iter().enumerate() {
        if *x == byte {
            return i;
        }
    }
    bytes.len()
}

/// Whether a byte is there.
pub fn has_byte(bytes: &[u8], byte: u8) -> bool
    ensures found { result ≡ true → Lacks byte bytes.now → ⊥ }
    ensures none { result ≡ false → Lacks byte bytes.now }
{
    match cut(bytes, byte) {
        Some(_) => true,
        None => false,
    }
}

/// What stands behind these bytes, where the text begins with them.
pub fn after<'a>(bytes: &'a [u8], front: &[u8]) -> Option<&'a [u8]>
    ensures found { IfSome result (λ rest. bytes.now ≡ front.now ++ rest.now) }
    ensures none { IfNone result ((rest : List ℕ) → bytes.now ≡ front.now ++ rest → ⊥) }
{
    bytes.strip_prefix(front)
}
