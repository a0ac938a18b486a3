// What a cut leaves of the unmappings that may be undone.

ghost use Rattle.std.specs.Prelude.{◌≡◌, ◌≢◌, ◌+◌, ◌<◌, ◌≤◌, ◌%◌, ℕ, Some, length, All, slice_get};
ghost use Rattle.ubi_volume.specs.Lebs.{IsLeb, view_of, views};
ghost use Rattle.ubi_volume.specs.Patterns.{IsSettled, digits_at, digits_behind};

use crate::leb::Leb;
use crate::loading::written_len;
use std::mem::swap;

// The cut leaves of a LEB what the digit says, and takes nothing else of it back later.
fn settle_leb(leb: &mut Leb, size: u32, unit: u32, digits: u64)
    requires leb { IsLeb size leb.old }
    requires unit { 0 < unit }
    requires whole { size % unit ≡ 0 }
    ensures settled { IsSettled unit digits (view_of (Some leb.old)) (view_of (Some leb.new)) }
    ensures leb { IsLeb size leb.new }
{
    let undone = leb.undo && digits % 4 != 0;
    if undone {
        swap(&mut leb.content, &mut leb.before);
    }
    leb.undo = false;
    leb.written = written_len(unit, &leb.content);
}

// The same of one of several, and the digits that are left for those behind it.
fn settle_at(lebs: &mut [Leb], size: u32, unit: u32, lnum: usize, digits: u64) -> u64
    requires lnum { lnum < length lebs.old }
    requires sizes { All (IsLeb size) lebs.old }
    requires unit { 0 < unit }
    requires whole { size % unit ≡ 0 }
    ensures settled { IsSettled unit digits (views lebs.old lnum) (views lebs.new lnum) }
    ensures others { (k : ℕ) → k ≢ lnum → slice_get lebs.new k ≡ slice_get lebs.old k }
    ensures len { length lebs.new ≡ length lebs.old }
    ensures sizes { All (IsLeb size) lebs.new }
    ensures rest { result ≡ digits_behind digits (views lebs.old lnum).pending }
{
    let leb = &mut lebs[lnum];
    let rest = if leb.undo { digits / 4 } else { digits };
    settle_leb(leb, size, unit, digits);
    rest
}

// The same of all, in order.
pub(crate) fn settle_lebs(lebs: &mut [Leb], size: u32, unit: u32, digits: u64)
    requires sizes { All (IsLeb size) lebs.old }
    requires unit { 0 < unit }
    requires whole { size % unit ≡ 0 }
    ensures settled { (k : ℕ) → k < length lebs.old → IsSettled unit (digits_at digits (views lebs.old) k) (views lebs.old k) (views lebs.new k) }
    ensures len { length lebs.new ≡ length lebs.old }
    ensures sizes { All (IsLeb size) lebs.new }
{
    let mut rest = digits;
    for lnum in 0..lebs.len() {
        rest = settle_at(lebs, size, unit, lnum, rest);
    }
}
