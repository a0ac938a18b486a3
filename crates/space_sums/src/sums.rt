// What both tests reckon with.

ghost use Rattle.std.specs.Prelude.{◌≡◌, ◌-◌, ◌*◌, ◌<◌, ◌^◌};
ghost use Rattle.fs_model.specs.Cover as cover;
ghost use Rattle.ubifs_base.specs.Geometry.{leb_reserve};
ghost use Rattle.ubifs_base.specs.RawOf.{raw_of};

use ubifs_base::Geometry;

// LEBs that an index of this weight takes.
pub(crate) fn index_lebs(geo: &Geometry, weight: u64) -> u64
    requires { weight < 2 ^ 43 }
    ensures value { result ≡ cover.index_lebs (raw_of geo.now) weight }
    ensures few { result < 2 ^ 44 }
{
    let per_leb = geo.index_nodes_per_leb() as u64;
    (weight + per_leb - 1) / per_leb
}

// LEBs to keep for an index of this weight, of which some are there.
pub(crate) fn index_room(geo: &Geometry, present: u32, weight: u64) -> u64
    requires { weight < 2 ^ 43 }
    ensures value { result ≡ cover.index_room (raw_of geo.now) present weight }
    ensures few { result < 2 ^ 46 }
{
    let lebs = index_lebs(geo, weight);
    (3 * lebs).max(present as u64 + lebs)
}

// Bytes that leaves may take of a main area of which so many LEBs are kept.
pub(crate) fn leaf_bytes(geo: &Geometry, main: u32, index: u64, reserve: u64) -> u64
    requires index { index < 2 ^ 46 }
    requires reserve { reserve < 16 }
    ensures { result ≡ (main - index - reserve) * (geo.now.leb_size - leb_reserve (raw_of geo.now)) }
{
    let free = (main as u64).saturating_sub(index).saturating_sub(reserve);
    free * usable(geo)
}

// Bytes of a LEB that the sums count on.
fn usable(geo: &Geometry) -> u64
    ensures value { result ≡ geo.now.leb_size - leb_reserve (raw_of geo.now) }
    ensures few { result < 2 ^ 22 }
{
    (geo.leb_size as u64).saturating_sub(geo.leb_reserve() as u64)
}
