// What is counted of main LEBs.

ghost use Rattle.std.specs.Prelude.{◌≡◌, ◌+◌, ◌<◌, ◌^◌, ◌==◌, ◌&&◌, ◌||◌, not, false, filter, length};
ghost use Rattle.std.specs.List.{find, range_with_len};
ghost use Rattle.std.specs.Option.{option_map_or};
ghost use Rattle.image_space.specs.Uses.{counts_in, is_bare_use, is_indexed_in, is_vain_in, is_vain_use};

use crate::leb_use::LebUse;

/// How many of these LEBs have nodes of the index; the first has this number.
pub(crate) fn index_lebs(first: u32, uses: &[LebUse]) -> u32
    requires { first + length uses.now < 2 ^ 32 }
    ensures { result ≡ length (filter (is_indexed_in first uses.now) (range_with_len first (length uses.now))) }
{
    let mut count = 0;
    for at in 0..uses.len() {
        if uses[at].indexed {
            count += 1;
        }
    }
    count
}

/// How many of these LEBs count as empty: the bare ones that the log doesn't name, and the lowest that the collector opened in vain.
pub(crate) fn empty_lebs(first: u32, uses: &[LebUse]) -> u32
    requires { first + length uses.now < 2 ^ 32 }
    ensures { result ≡ length (filter (counts_in first uses.now) (range_with_len first (length uses.now))) }
{
    let opened = opened_in_vain(first, uses);
    let mut count = 0;
    for at in 0..uses.len() {
        if is_empty(uses[at], first + at as u32, opened) {
            count += 1;
        }
    }
    count
}

// Whether a LEB counts as empty, if this is the lowest that the collector opened in vain.
fn is_empty(leb: LebUse, lnum: u32, opened: Option<u32>) -> bool
    ensures { result ≡ (is_bare_use leb && (not leb.named || option_map_or (λ n. n == lnum) opened false)) }
{
    if !is_bare(leb) {
        return false;
    }
    if !leb.named {
        return true;
    }
    match opened {
        Some(vain) => vain == lnum,
        None => false,
    }
}

// The lowest of these LEBs that the collector opened and in which nothing stands.
fn opened_in_vain(first: u32, uses: &[LebUse]) -> Option<u32>
    requires { first + length uses.now < 2 ^ 32 }
    ensures { result ≡ find (is_vain_in first uses.now) (range_with_len first (length uses.now)) }
{
    for at in 0..uses.len() {
        if is_vain(uses[at]) {
            return Some(first + at as u32);
        }
    }
    None
}

// Whether nothing stands in a LEB.
fn is_bare(leb: LebUse) -> bool
    ensures { result ≡ is_bare_use leb }
{
    !leb.indexed && !leb.filled
}

// Whether nothing stands in a LEB that the log names for the collector alone.
fn is_vain(leb: LebUse) -> bool
    ensures { result ≡ is_vain_use leb }
{
    is_bare(leb) && leb.named && !leb.for_others
}
