// Who plays in a tournament.

ghost use Rattle.std.specs.Prelude.{◌≡◌};
ghost use Rattle.media_lpt.specs.declared.lprop.Lprop.{Lprop as AnyLprop};
ghost use Rattle.lprops_tree.specs.MainArea.{used_bytes, IsWithinLeb};
ghost use Rattle.lprops_tree.specs.Tournament as tournament;
ghost use Rattle.lprops_tree.specs.Candidates as candidates;
ghost use Rattle.ubifs_base.specs.RawOf.{raw_of};

use media_lpt::{LebKind, Lprop};
use ubifs_base::Geometry;

/// A LEB that may be picked, with the bytes by which it is.
#[derive(Clone, Copy)]
pub(crate) struct Candidate {
    pub(crate) used: u32,
    pub(crate) number: u32,
}

/// Who stands for a LEB that may not be picked: everybody else wins.
pub(crate) const NOBODY: Candidate = Candidate {
    used: u32::MAX,
    number: u32::MAX,
};

fn rank(one: Candidate) -> u64
    ensures { result ≡ tournament.rank one }
{
    one.used as u64 * 4294967296 + one.number as u64
}

pub(crate) fn winner(a: Candidate, b: Candidate) -> Candidate
    ensures { result ≡ tournament.winner a b }
{
    if rank(a) <= rank(b) { a } else { b }
}

// The number of the winner, unless it is nobody or has more used bytes.
pub(crate) fn pick(best: Candidate, most: u32) -> Option<u32>
    ensures { result ≡ candidates.picked best most }
{
    if best.number == NOBODY.number || best.used > most {
        return None;
    }
    Some(best.number)
}

// Who stands for a LEB where a free one is picked.
pub(crate) fn free_candidate(lnum: u32, kind: LebKind) -> Candidate
    ensures { result ≡ candidates.free_candidate lnum kind }
{
    match kind {
        LebKind::Free => Candidate {
            used: 0,
            number: lnum,
        },
        LebKind::Leaf | LebKind::Index | LebKind::Bud | LebKind::Taken => NOBODY,
    }
}

// Who stands for a LEB where one with leaves is picked.
pub(crate) fn leaf_candidate(used: u32, lnum: u32, kind: LebKind) -> Candidate
    ensures { result ≡ candidates.leaf_candidate used lnum kind }
{
    match kind {
        LebKind::Leaf => Candidate { used, number: lnum },
        LebKind::Free | LebKind::Index | LebKind::Bud | LebKind::Taken => NOBODY,
    }
}

// Bytes that are neither free nor dirty.
pub(crate) fn used_bytes(geo: &Geometry, prop: Lprop) -> u32
    requires { IsWithinLeb (raw_of geo.now) prop }
    ensures { result ≡ used_bytes (raw_of geo.now) prop }
{
    geo.leb_size - (prop.free + prop.dirty)
}
