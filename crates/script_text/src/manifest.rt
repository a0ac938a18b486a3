// Manifests.

ghost use Rattle.std.specs.Prelude.{◌≡◌, ◌≤◌, IfOk, IfErr, IfSome, IfNone, ◌++◌, ℕ, Bool, List};
ghost use Rattle.std.specs.Fmt.{decimal};
ghost use Rattle.script_text.specs.Script.{OnLine};
ghost use Rattle.script_text.specs.Manifest.{IsManifest, IsFirstBadManifestLine, HasRange, volume_end, volume_line};
ghost use Rattle.script_text.specs.declared.manifest.Manifest.{Manifest};

use crate::TextFault;
use crate::cut::after;
use crate::number::first_number;

/// The geometry that a manifest's first line says: the bytes of a LEB, the least bytes that are written at once, the
/// LEBs of the main area, and the fanout of the index; and whether the main area has just the LEBs that leaves and index
/// take, and an empty one.
#[derive(Clone, Copy, Debug, PartialEq, Eq)]
pub struct Manifest {
    pub leb_size: u32,
    pub min_io: u32,
    pub main: u32,
    pub fanout: u32,
    pub packed: bool,
}

/// Reads a manifest: the line `volume L U M F`, without `packed`, and the line `end`, where the numbers are decimal and
/// fit their fields, M being below 2^31. The fault is the first line that isn't in this grammar. Takes no memory.
pub fn read_manifest(bytes: &[u8]) -> Result<Manifest, TextFault>
    ensures ok { IfOk result (λ m. IsManifest bytes.now m) }
    ensures line { IfErr result (λ fault. OnLine fault (IsFirstBadManifestLine bytes.now)) }
    ensures no_memory { IfErr result (λ fault. fault ≡ TextFault.Memory → ⊥) }
{
    let Some((manifest, rest)) = volume(bytes) else {
        return Err(TextFault::Line { number: 1 });
    };
    if manifest.packed {
        return Err(TextFault::Line { number: 1 });
    }
    let Some(more) = after(rest, b"end\n".as_slice()) else {
        return Err(TextFault::Line { number: 2 });
    };
    if !more.is_empty() {
        return Err(TextFault::Line { number: 3 });
    }
    Ok(manifest)
}

/// The geometry of the first line, and what stands behind that line.
pub fn volume(bytes: &[u8]) -> Option<(Manifest, &[u8])>
    ensures found { IfSome result (λ parts. bytes.now ≡ volume_line parts.0 ++ parts.1.now) }
    ensures range { IfSome result (λ parts. HasRange parts.0) }
    ensures none { IfNone result ((m : Manifest) → (rest : List ℕ) → HasRange m → bytes.now ≡ volume_line m ++ rest → ⊥) }
{
    let words = after(bytes, b"volume ".as_slice())?;
    let (leb_size, words) = first_number(words, b' ', 0xffff_ffff)?;
    let (min_io, words) = first_number(words, b' ', 0xffff_ffff)?;
    let (main, words) = first_number(words, b' ', 0x7fff_ffff)?;
    let (fanout, packed, rest) = fanout_words(words)?;
    let manifest = Manifest {
        leb_size: leb_size as u32,
        min_io: min_io as u32,
        main: main as u32,
        fanout: fanout as u32,
        packed,
    };
    Some((manifest, rest))
}

/// The fanout, whether `packed` stands behind it, and what stands behind the line.
fn fanout_words(words: &[u8]) -> Option<(u64, bool, &[u8])>
    ensures found { IfSome result (λ parts. words.now ≡ decimal parts.0 ++ volume_end parts.1 parts.2.now) }
    ensures within { IfSome result (λ parts. parts.0 ≤ 4294967295) }
    ensures none { IfNone result ((n : ℕ) → (packed : Bool) → (rest : List ℕ) → n ≤ 4294967295 → words.now ≡ decimal n ++ volume_end packed rest → ⊥) }
{
    if let Some((fanout, rest)) = first_number(words, b'\n', 0xffff_ffff) {
        return Some((fanout, false, rest));
    }
    let (fanout, more) = first_number(words, b' ', 0xffff_ffff)?;
    let rest = after(more, b"packed\n".as_slice())?;
    Some((fanout, true, rest))
}
