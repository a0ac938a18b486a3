// Manifests, line by line.

ghost use Rattle.std.specs.Prelude.{◌≡◌, IfOk, IfErr};
ghost use Rattle.script_text.specs.ManifestLines.{AreManifestLines, HasNoVolume, IsListedManifest};
ghost use Rattle.script_text.specs.Script.{OnLine};

use crate::TextFault;
use crate::cut::cut;
use crate::manifest::{Manifest, volume};
use crate::manifest_line::{ManifestLine, manifest_line};
use crate::script::LINES;
use std::alloc::{AllocError, Global};

/// The lines of a manifest up to the first that isn't in the grammar by its words alone, whose number is `bad`.
#[derive(Drop)]
pub struct ListedManifest {
    pub volume: Manifest,
    pub lines: Vec<ManifestLine>,
    pub bad: Option<u64>,
}

/// Lists a manifest: the line `volume L U M F` or `volume L U M F packed`, then `dir PATH MODE`, `file PATH MODE LEN BYTE`,
/// `copy PATH MODE NAME`, `symlink PATH TARGET` and `link OLD NEW`, and `end` as the last, in 100,000 lines at most, each of
/// 10,000 bytes at most before its newline. Words are as in a script; LEN is 16,777,216 at most, and NAME is UTF-8. A line that is missing or has no newline is bad, and so is one behind
/// `end`; lines are counted from 1. The fault is want of memory, or line 1.
pub fn list_manifest(alloc: Global, bytes: &[u8]) -> Result<ListedManifest, TextFault>
    ensures ok { IfOk result (λ m. IsListedManifest bytes.now m.volume m.lines.items m.bad) }
    ensures line { IfErr result (λ fault. OnLine fault (λ number. (number ≡ 1) × HasNoVolume bytes.now)) }
{
    let Some((volume, rest)) = volume(bytes) else {
        return Err(TextFault::Line { number: 1 });
    };
    let (lines, bad) = list_lines(alloc, rest)?;
    Ok(ListedManifest { volume, lines, bad })
}

// The lines behind the first, and the number of the first bad one.
fn list_lines(alloc: Global, text: &[u8]) -> Result<(Vec<ManifestLine>, Option<u64>), AllocError>
    ensures { IfOk result (λ parts. AreManifestLines 1 text.now parts.0.items parts.1) }
{
    let mut lines = Vec::new(alloc);
    let mut rest = text;
    for before in 1..LINES {
        let Some((line, more)) = cut(rest, b'\n') else {
            return Ok((lines, Some(before + 1)));
        };
        if line == b"end".as_slice() {
            if more.is_empty() {
                return Ok((lines, None));
            }
            return Ok((lines, Some(before + 2)));
        }
        let Some(made) = manifest_line(alloc, line)? else {
            return Ok((lines, Some(before + 1)));
        };
        lines.push(made)?;
        rest = more;
    }
    Ok((lines, Some(LINES + 1)))
}
