// Parts of a script.

ghost use Rattle.std.specs.Prelude.{◌≡◌, ◌≤◌, IfOk, IfSome, IfNone, ℕ, List, ◌++◌, ◌∷◌, Bool};
ghost use Rattle.std.specs.Fmt.{decimal};
ghost use Rattle.script_text.specs.Script.{HasAllowedNumber, IsLineOf, MayStand, mounted_after, part_words};
ghost use Rattle.script_text.specs.Words.{AreSpacedWords};
ghost use Rattle.script_text.specs.declared.part.Part.{Part};
ghost use Rattle.script_text.specs.declared.part.Part.TheVariants.{Mount, Unmount, Now, Workers, Line};

use crate::cut::after;
use crate::number::{first_number, number};
use crate::operations::operation;
use fs_model::Op;
use std::alloc::{AllocError, Global};

/// What a line of a script says: a step of the volume's life, the time from there on in seconds since 1970, how many workers
/// are at work beside the callers from there on, or an operation of a caller.
#[derive(Drop)]
pub enum Part {
    Mount,
    Unmount,
    Now { now: u64 },
    Workers { count: u16 },
    Line { caller: u16, op: Op },
}

/// The most bytes that a line has before its newline.
pub const LENGTH: usize = 10_000;

/// The last caller; the first is 1.
pub const CALLERS: u64 = 16;

/// The most workers.
pub const WORKERS: u64 = 8;

/// The part that a line spells, where it may stand there. The line is without its newline.
pub fn next_part(alloc: Global, mounted: bool, line: &[u8]) -> Result<Option<Part>, AllocError>
    ensures stands { IfOk result (λ found. IfSome found (λ part. MayStand mounted part)) }
    ensures found { IfOk result (λ found. IfSome found (λ part. IsLineOf part line.now)) }
    ensures none { IfOk result (λ found. IfNone found ((part : Part) → MayStand mounted part → IsLineOf part line.now → ⊥)) }
{
    if LENGTH < line.len() {
        return Ok(None);
    }
    if let Some((caller, words)) = first_number(line, b' ', CALLERS) {
        if !mounted || caller == 0 {
            return Ok(None);
        }
        let Some(op) = operation(alloc, words)? else {
            return Ok(None);
        };
        return Ok(Some(Part::Line {
            caller: caller as u16,
            op,
        }));
    }
    Ok(control(mounted, line))
}

/// The part that a line without a caller spells, where it may stand there.
fn control(mounted: bool, line: &[u8]) -> Option<Part>
    ensures stands { IfSome result (λ part. MayStand mounted part) }
    ensures allowed { IfSome result (λ part. HasAllowedNumber part) }
    ensures found { IfSome result (λ part. AreSpacedWords (part_words part) line.now) }
    ensures none { IfNone result ((part : Part) → MayStand mounted part → IsLineOf part line.now → (caller : ℕ) × (rest : List ℕ) × (caller ≤ 16) × (line.now ≡ decimal caller ++ (32 ∷ rest))) }
{
    if !mounted && line == b"mount".as_slice() {
        return Some(Part::Mount);
    }
    if mounted && line == b"unmount".as_slice() {
        return Some(Part::Unmount);
    }
    if let Some(now) = number_behind(line, b"now ".as_slice(), u64::MAX) {
        return Some(Part::Now { now });
    }
    let count = number_behind(line, b"workers ".as_slice(), WORKERS)?;
    Some(Part::Workers {
        count: count as u16,
    })
}

/// The number behind these bytes, where the line is both and the number `most` or less.
fn number_behind(line: &[u8], front: &[u8], most: u64) -> Option<u64>
    ensures found { IfSome result (λ n. line.now ≡ front.now ++ decimal n) }
    ensures within { IfSome result (λ n. n ≤ most) }
    ensures none { IfNone result ((n : ℕ) → n ≤ most → line.now ≡ front.now ++ decimal n → ⊥) }
{
    let word = after(line, front)?;
    number(word, most)
}

/// Whether a volume is mounted behind a part.
pub fn mounted_after(mounted: bool, part: &Part) -> bool
    ensures { result ≡ mounted_after mounted part.now }
{
    match part {
        Part::Mount => true,
        Part::Unmount => false,
        Part::Now { .. } | Part::Workers { .. } | Part::Line { .. } => mounted,
    }
}
