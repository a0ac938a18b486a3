// A tree of properties is written.

ghost use Rattle.std.specs.Prelude.{◌≡◌, ◌≢◌, ◌+◌, ◌<◌, ◌≤◌, ◌-◌, ◌%◌, ◌++◌, IfOk, length, take, replicate};
ghost use Rattle.ubifs_base.specs.Areas.{lpt_first, orph_first};
ghost use Rattle.ubifs_base.specs.Properties.{tree_len};
ghost use Rattle.ubifs_base.specs.RawOf.{raw_of};
ghost use Rattle.ubi_volume.specs.Volume.{SameShape, filled};
ghost use Rattle.ubi_volume.specs.Faults.{HasAreaCause, StaysSureArea};
ghost use Rattle.ubi_volume.specs.Geometry.{IsGeometryOf};
ghost use Rattle.lpt_area.specs.Written.{AreProps, IsWritten, ChangesOne, KeepsTrees, IsTreeLeb, next_lpt, in_units};

use crate::LptAt;
use crate::levels::{lay_levels, lay_pnodes};
use crate::table::lay_ltab;
use media_lpt::Lprop;
use std::alloc::{AllocError, Global};
use ubi_volume::{AreaFault, Volume};
use ubifs_base::Geometry;

/// Writes the properties of all main LEBs, in order, as a new tree, and tells where it stands. The tree goes into the LEB
/// of the properties area next behind `after`, round the area, by one change: all pnodes that max_leb_cnt gives, in order,
/// nnodes level by level upwards, the ltab, and 0xFF to the end of the unit (Hunter 2008, "LEB properties"). Takes memory
/// for the bytes of a LEB.
///
/// A tree of which each node stands in `after` stands in what a power cut at any moment leaves, where a cut before left
/// nothing else of that LEB.
pub fn write_tree<V: Volume>(
    alloc: Global,
    volume: &mut V,
    geo: &Geometry,
    props: &[Lprop],
    after: u32,
) -> Result<LptAt, AreaFault>
    requires geometry { IsGeometryOf (raw_of geo.now) (V.state volume.old) }
    requires props { AreProps (raw_of geo.now) props.now }
    ensures done { IfOk result (IsWritten (raw_of geo.now) after props.now (V.state volume.new)) }
    ensures any_moment { ChangesOne (V.state volume.old) (V.state volume.new) (next_lpt (raw_of geo.now) after) }
    ensures old_stays { KeepsTrees (raw_of geo.now) (V.state volume.old) (V.state volume.new) after }
    ensures shape { SameShape (V.state volume.old) (V.state volume.new) }
    ensures cause { HasAreaCause (V.state volume.old).faults (V.state volume.new).faults result }
    ensures sure { StaysSureArea (V.state volume.old) (V.state volume.new) result }
{
    let lnum = next_lpt(geo, after);
    let mut leb = vec![in alloc; 0; geo.leb_size as usize]?;
    let at = lay_tree(alloc, geo, props, lnum, &mut leb)?;
    volume.change(lnum, &leb[..at.nhead_offs as usize])?;
    Ok(at)
}

// The LEB of the properties area next behind this one, round the area.
fn next_lpt(geo: &Geometry, after: u32) -> u32
    ensures next { result ≡ next_lpt (raw_of geo.now) after }
    ensures low { lpt_first (raw_of geo.now) ≤ result }
    ensures high { result < orph_first (raw_of geo.now) }
    ensures other { result ≢ after }
{
    let first = geo.lpt_first();
    if after < first {
        return first;
    }
    if after >= geo.orph_first() - 1 {
        return first;
    }
    after + 1
}

// Lays a tree for this LEB into the buffer, which has the size of a LEB. It is written up to `nhead_offs`.
fn lay_tree(
    alloc: Global,
    geo: &Geometry,
    props: &[Lprop],
    lnum: u32,
    leb: &mut [u8],
) -> Result<LptAt, AllocError>
    requires props { AreProps (raw_of geo.now) props.now }
    requires low { lpt_first (raw_of geo.now) ≤ lnum }
    requires high { lnum < orph_first (raw_of geo.now) }
    requires room { length leb.old ≡ geo.now.leb_size }
    ensures laid { IfOk result (λ at. IsTreeLeb (raw_of geo.now) lnum props.now (filled geo.now.leb_size (take at.nhead_offs leb.new)) at) }
    ensures some { IfOk result (λ at. 0 < at.nhead_offs) }
    ensures whole { IfOk result (λ at. at.nhead_offs % geo.now.min_io ≡ 0) }
    ensures fits { IfOk result (λ at. at.nhead_offs ≤ geo.now.leb_size) }
    ensures size { length leb.new ≡ length leb.old }
{
    let pnodes = lay_pnodes(geo, props, leb);
    let root = lay_levels(geo, lnum, pnodes, leb);
    let ltab_offs = root.offs + root.len;
    let used = ltab_offs + geo.ltab_len();
    let end = in_units(geo, used);
    lay_ltab(alloc, geo, lnum, end, leb, ltab_offs as usize)?;
    pad(leb, used as usize, end as usize);
    Ok(LptAt {
        lnum,
        offs: root.offs,
        ltab_lnum: lnum,
        ltab_offs,
        nhead_lnum: lnum,
        nhead_offs: end,
    })
}

// So many bytes, rounded up to whole units.
fn in_units(geo: &Geometry, len: u32) -> u32
    requires { len ≤ geo.now.leb_size }
    ensures number { result ≡ in_units geo.now.min_io len }
    ensures more { len ≤ result }
    ensures fits { result ≤ geo.now.leb_size }
    ensures whole { result % geo.now.min_io ≡ 0 }
{
    let unit = geo.min_io;
    (len + (unit - 1)) / unit * unit
}

// Makes the bytes from the one offset to the other 0xFF.
fn pad(leb: &mut [u8], from: usize, to: usize)
    requires order { from ≤ to }
    requires room { to ≤ length leb.old }
    ensures front { take to leb.new ≡ take from leb.old ++ replicate (to - from) 255 }
    ensures size { length leb.new ≡ length leb.old }
{
    let (front, _behind) = leb.split_at_mut(to);
    let (_before, padding) = front.split_at_mut(from);
    padding.fill(0xff);
}
