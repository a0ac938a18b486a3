// Sums over all main LEBs.

ghost use Rattle.std.specs.Prelude.{◌≡◌, ◌+◌, ◌-◌, ◌≤◌, ◌<◌, ◌^◌};
ghost use Rattle.ubifs_base.specs.RawOf.{raw_of};
ghost use Rattle.lprops_tree.specs.MainArea.{IsWithinLeb};
ghost use Rattle.lprops_tree.specs.Totals as sums;

use crate::candidate::used_bytes;
use media_lpt::{LebKind, Lprop};
use ubifs_base::Geometry;

/// Sums over all main LEBs: their free and dirty bytes, the bytes that leaves use, and how many LEBs are free and how many
/// are the index's (`struct ubifs_lp_stats` of the Linux sources).
#[derive(Clone, Copy, Debug, PartialEq, Eq)]
pub struct Totals {
    pub free: u64,
    pub dirty: u64,
    pub used: u64,
    pub empty: u32,
    pub index: u32,
}

// What one LEB adds.
pub(crate) fn totals_of_leb(geo: &Geometry, prop: Lprop, kind: LebKind) -> Totals
    requires { IsWithinLeb (raw_of geo.now) prop }
    ensures { result ≡ sums.leb_totals (raw_of geo.now) (prop, kind) }
{
    Totals {
        free: prop.free as u64,
        dirty: prop.dirty as u64,
        used: leaf_bytes(geo, prop),
        empty: count_free(kind),
        index: count_index(kind),
    }
}

fn leaf_bytes(geo: &Geometry, prop: Lprop) -> u64
    requires { IsWithinLeb (raw_of geo.now) prop }
    ensures { result ≡ sums.leaf_bytes (raw_of geo.now) prop }
{
    if prop.index {
        return 0;
    }
    used_bytes(geo, prop) as u64
}

fn count_free(kind: LebKind) -> u32
    ensures { result ≡ sums.free_one kind }
{
    match kind {
        LebKind::Free => 1,
        LebKind::Leaf | LebKind::Index | LebKind::Bud | LebKind::Taken => 0,
    }
}

fn count_index(kind: LebKind) -> u32
    ensures { result ≡ sums.index_one kind }
{
    match kind {
        LebKind::Index => 1,
        LebKind::Free | LebKind::Leaf | LebKind::Bud | LebKind::Taken => 0,
    }
}

// One LEB's numbers are taken off, and others added.
pub(crate) fn exchange(totals: &Totals, old: &Totals, new: &Totals) -> Totals
    requires old { sums.IsPart old.now totals.now }
    requires all { sums.IsFew totals.now }
    requires new { sums.IsFew new.now }
    ensures { result ≡ sums.exchanged totals.now old.now new.now }
{
    Totals {
        free: totals.free - old.free + new.free,
        dirty: totals.dirty - old.dirty + new.dirty,
        used: totals.used - old.used + new.used,
        empty: totals.empty - old.empty + new.empty,
        index: totals.index - old.index + new.index,
    }
}
