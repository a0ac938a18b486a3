// A row of nodes of one level is read.

ghost use Rattle.std.specs.Prelude.{◌≡◌, ◌<◌, ◌≤◌, ◌≢◌, ℕ, List, IfOk, IfSome, IfNone, length, All};
ghost use Rattle.ubifs_base.specs.Properties.{pnode_len, nnode_len};
ghost use Rattle.ubifs_base.specs.RawOf.{raw_of};
ghost use Rattle.ubi_volume.specs.Volume.{Keeps, SameShape};
ghost use Rattle.ubi_volume.specs.Faults.{HasCause, StaysSure, HasAreaCause, StaysSureArea};
ghost use Rattle.media_lpt.specs.Nodes.{IsPlace};
ghost use Rattle.lpt_area.specs.Tree.{AtPlace, Row, HasPnode, HasNnode, no_place, empty_leb};
ghost use Rattle.lpt_area.specs.Only.{IsOnly, HasNone};
ghost use Rattle.ubi_volume.specs.Geometry.{IsGeometryOf};

use media_lpt::{Lprop, LptPlace, Nnode, Pnode, one_node};
use std::alloc::Global;
use ubi_volume::{AreaFault, VolFault, Volume};
use ubifs_base::Geometry;

pub(crate) const NO_PLACE: LptPlace = LptPlace { lnum: 0, offs: 0 };

// The places that the nnodes at these places name, from left to right.
pub(crate) fn nnode_row<V: Volume>(
    alloc: Global,
    volume: &mut V,
    geo: &Geometry,
    row: &[LptPlace],
) -> Result<Option<Vec<LptPlace>>, AreaFault>
    requires geometry { IsGeometryOf (raw_of geo.now) (V.state volume.old) }
    requires row { All (IsPlace (raw_of geo.now)) row.now }
    ensures found { IfOk result (λ r. IfSome r (λ all. IsOnly (Row (HasNnode (raw_of geo.now)) no_place (V.state volume.old).holds row.now) all.items)) }
    ensures places { IfOk result (λ r. IfSome r (λ all. All (IsPlace (raw_of geo.now)) all.items)) }
    ensures none { IfOk result (λ r. IfNone r (HasNone (Row (HasNnode (raw_of geo.now)) no_place (V.state volume.old).holds row.now))) }
    ensures keeps { Keeps (V.state volume.old) (V.state volume.new) }
    ensures shape { SameShape (V.state volume.old) (V.state volume.new) }
    ensures cause { HasAreaCause (V.state volume.old).faults (V.state volume.new).faults result }
    ensures sure { StaysSureArea (V.state volume.old) (V.state volume.new) result }
{
    let mut node = vec![in alloc; 0; geo.nnode_len() as usize]?;
    let mut all = Vec::new(alloc);
    for place in row {
        let Some(four) = nnode_at(volume, geo, *place, &mut node)? else {
            return Ok(None);
        };
        all.extend_from_slice(&four)?;
    }
    Ok(Some(all))
}

// The properties that the pnodes at these places say, from left to right.
pub(crate) fn pnode_row<V: Volume>(
    alloc: Global,
    volume: &mut V,
    geo: &Geometry,
    row: &[LptPlace],
) -> Result<Option<Vec<Lprop>>, AreaFault>
    requires geometry { IsGeometryOf (raw_of geo.now) (V.state volume.old) }
    requires row { All (IsPlace (raw_of geo.now)) row.now }
    ensures found { IfOk result (λ r. IfSome r (λ all. IsOnly (Row (HasPnode (raw_of geo.now)) (empty_leb (raw_of geo.now)) (V.state volume.old).holds row.now) all.items)) }
    ensures none { IfOk result (λ r. IfNone r (HasNone (Row (HasPnode (raw_of geo.now)) (empty_leb (raw_of geo.now)) (V.state volume.old).holds row.now))) }
    ensures keeps { Keeps (V.state volume.old) (V.state volume.new) }
    ensures shape { SameShape (V.state volume.old) (V.state volume.new) }
    ensures cause { HasAreaCause (V.state volume.old).faults (V.state volume.new).faults result }
    ensures sure { StaysSureArea (V.state volume.old) (V.state volume.new) result }
{
    let mut node = vec![in alloc; 0; geo.pnode_len() as usize]?;
    let mut all = Vec::new(alloc);
    for place in row {
        let Some(four) = pnode_at(volume, geo, *place, &mut node)? else {
            return Ok(None);
        };
        all.extend_from_slice(&four)?;
    }
    Ok(Some(all))
}

// The four places that a place says. The buffer has the size of an nnode.
fn nnode_at<V: Volume>(
    volume: &mut V,
    geo: &Geometry,
    place: LptPlace,
    node: &mut [u8],
) -> Result<Option<[LptPlace; 4]>, VolFault>
    requires geometry { IsGeometryOf (raw_of geo.now) (V.state volume.old) }
    requires place { IsPlace (raw_of geo.now) place }
    requires room { length node.old ≡ nnode_len (raw_of geo.now) }
    ensures found { IfOk result (λ r. IfSome r (λ four. IsOnly (AtPlace (HasNnode (raw_of geo.now)) no_place ((V.state volume.old).holds place.lnum) place) four)) }
    ensures places { IfOk result (λ r. IfSome r (λ four. All (IsPlace (raw_of geo.now)) four)) }
    ensures none { IfOk result (λ r. IfNone r (HasNone (AtPlace (HasNnode (raw_of geo.now)) no_place ((V.state volume.old).holds place.lnum) place))) }
    ensures len { length node.new ≡ length node.old }
    ensures keeps { Keeps (V.state volume.old) (V.state volume.new) }
    ensures shape { SameShape (V.state volume.old) (V.state volume.new) }
    ensures cause { HasCause (V.state volume.old).faults (V.state volume.new).faults result }
    ensures sure { StaysSure (V.state volume.old) (V.state volume.new) result }
{
    one_node();
    if place.lnum == 0 {
        return Ok(Some([NO_PLACE; 4]));
    }
    if place.offs as usize + node.len() > geo.leb_size as usize {
        return Ok(None);
    }
    volume.read(place.lnum, place.offs, node)?;
    let Some(found) = Nnode::decode(geo, node) else {
        return Ok(None);
    };
    Ok(Some(found.places))
}

// The properties of four main LEBs that a place says. The buffer has the size of a pnode.
fn pnode_at<V: Volume>(
    volume: &mut V,
    geo: &Geometry,
    place: LptPlace,
    node: &mut [u8],
) -> Result<Option<[Lprop; 4]>, VolFault>
    requires geometry { IsGeometryOf (raw_of geo.now) (V.state volume.old) }
    requires place { IsPlace (raw_of geo.now) place }
    requires room { length node.old ≡ pnode_len (raw_of geo.now) }
    ensures found { IfOk result (λ r. IfSome r (λ four. IsOnly (AtPlace (HasPnode (raw_of geo.now)) (empty_leb (raw_of geo.now)) ((V.state volume.old).holds place.lnum) place) four)) }
    ensures none { IfOk result (λ r. IfNone r (HasNone (AtPlace (HasPnode (raw_of geo.now)) (empty_leb (raw_of geo.now)) ((V.state volume.old).holds place.lnum) place))) }
    ensures len { length node.new ≡ length node.old }
    ensures keeps { Keeps (V.state volume.old) (V.state volume.new) }
    ensures shape { SameShape (V.state volume.old) (V.state volume.new) }
    ensures cause { HasCause (V.state volume.old).faults (V.state volume.new).faults result }
    ensures sure { StaysSure (V.state volume.old) (V.state volume.new) result }
{
    one_node();
    if place.lnum == 0 {
        return Ok(Some([empty_leb(geo); 4]));
    }
    if place.offs as usize + node.len() > geo.leb_size as usize {
        return Ok(None);
    }
    volume.read(place.lnum, place.offs, node)?;
    let Some(found) = Pnode::decode(geo, node) else {
        return Ok(None);
    };
    Ok(Some(found.props))
}

// The properties of an empty LEB.
fn empty_leb(geo: &Geometry) -> Lprop
    ensures { result ≡ empty_leb (raw_of geo.now) }
{
    Lprop {
        free: geo.leb_size,
        dirty: 0,
        index: false,
    }
}
