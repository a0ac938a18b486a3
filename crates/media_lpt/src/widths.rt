// How many bits the fields of a geometry's nodes take.

ghost use Rattle.std.specs.Prelude.{◌≡◌, ◌-◌, ◌<◌, ◌≤◌, ◌^◌};
ghost use Rattle.ubifs_base.specs.Properties as properties;
ghost use Rattle.ubifs_base.specs.RawOf.{raw_of};
ghost use Rattle.media_lpt.specs.Nodes.{lnum_bits};

use ubifs_base::Geometry;

#[tactic(auto, unfolding(ubifs_base::specs::Properties::fls))]
fn fls(n: u32) -> u32
    ensures number { result ≡ properties.fls n }
    ensures small { result ≤ 32 }
{
    32 - n.leading_zeros()
}

/// The bits of a node's number.
pub(crate) fn node_number(geo: &Geometry) -> u32
    ensures number { result ≡ properties.node_number_bits (raw_of geo.now) }
    ensures small { result ≤ 32 }
{
    if !geo.big {
        return 0;
    }
    fls(geo.max_leb_cnt.div_ceil(4).saturating_sub(1))
}

/// The bits of a main LEB's free or dirty space, in units of 8 bytes.
pub(crate) fn space(geo: &Geometry) -> u32
    ensures number { result ≡ properties.space_bits (raw_of geo.now) }
    ensures small { result ≤ 29 }
{
    fls(geo.leb_size).saturating_sub(3)
}

/// The bits of a LEB of the properties area.
pub(crate) fn place_lnum(geo: &Geometry) -> u32
    ensures number { result ≡ properties.place_lnum_bits (raw_of geo.now) }
    ensures small { result ≤ 32 }
{
    fls(geo.lpt_lebs)
}

/// The bits of an offset.
pub(crate) fn place_offs(geo: &Geometry) -> u32
    ensures number { result ≡ properties.place_offs_bits (raw_of geo.now) }
    ensures small { result ≤ 32 }
{
    fls(geo.leb_size.saturating_sub(1))
}

/// The bits of a properties LEB's free or dirty space.
pub(crate) fn row_space(geo: &Geometry) -> u32
    ensures number { result ≡ properties.fls geo.now.leb_size }
    ensures small { result ≤ 32 }
{
    fls(geo.leb_size)
}

/// The bits of a LEB number.
pub(crate) fn lnum(geo: &Geometry) -> u32
    ensures number { result ≡ lnum_bits (raw_of geo.now) }
    ensures small { result ≤ 32 }
{
    fls(geo.max_leb_cnt.saturating_sub(1))
}
