// The rule on the tree of LEB properties.

ghost use Rattle.std.specs.Prelude.{◌≡◌, None, IfOk, IfErr, length};
ghost use Rattle.ubifs_base.specs.Areas.{main_lebs};
ghost use Rattle.ubifs_base.specs.RawOf.{raw_of};
ghost use Rattle.ubi_volume.specs.Geometry.{IsGeometryOf};
ghost use Rattle.ubi_volume.specs.Volume.{Keeps, SameShape};
ghost use Rattle.ubi_volume.specs.Faults.{HasAreaCause, StaysSureArea};
ghost use Rattle.small_areas.specs.Addresses.{addresses_of, first_past};
ghost use Rattle.lpt_area.specs.Tree.{row_len as row_len_of};
ghost use Rattle.sound_image.specs.Properties.{HasProperties};
ghost use Rattle.sound_image.specs.PropertyBreaches.{IsWrongProperty};
ghost use Rattle.sound_image.specs.Wrong.{IsFirstWrong};
ghost use Rattle.sound_image.specs.declared.rule.Rule.TheVariants as rules;
ghost use Rattle.image_check.specs.PropertyWalk.{IsAreaOf, IsWalkedTo, breach_at, lpt_leb_in};
ghost use Rattle.image_check.specs.Told.{HasCheckCause, IsBreachOf, StaysSureCheck, TellsBreach};

use crate::fault::CheckFault;
use crate::property_rows::{PlacesRead, nnode_row, pnode_row};
use crate::told::told;
use crate::wrong_value::WrongValue;
use media_lpt::{Lprop, LptPlace, one_node};
use media_sys::Master;
use sound_image::{Breach, Rule};
use std::alloc::{AllocError, Global};
use ubi_volume::{AreaFault, Volume, read_leb};
use ubifs_base::Geometry;

/// The rule on the tree of LEB properties: from the root on, where the master says that it stands, each node over main LEBs is in
/// its grammar, in whichever LEB it is named, and stands in the root's LEB (Hunter 2008, "LEB properties"). Answers the properties of
/// all main LEBs, in order. Takes memory for the properties area, a LEB, and a row of the tree.
pub fn check_properties<V: Volume>(
    alloc: Global,
    volume: &mut V,
    geometry: &Geometry,
    master: &Master,
) -> Result<Vec<Lprop>, CheckFault>
    requires geometry { IsGeometryOf (raw_of geometry.now) (V.state volume.old) }
    requires placed { first_past (addresses_of (raw_of geometry.now) master.now) ≡ None }
    ensures met { IfOk result (λ props. HasProperties (V.state volume.old).holds (raw_of geometry.now) master.now props.items) }
    ensures count { IfOk result (λ props. length props.items ≡ main_lebs (raw_of geometry.now)) }
    ensures broken { IfErr result (TellsBreach (IsBreachOf rules.Properties (IsFirstWrong (IsWrongProperty (V.state volume.old).holds (raw_of geometry.now) master.now)))) }
    ensures keeps { Keeps (V.state volume.old) (V.state volume.new) × SameShape (V.state volume.old) (V.state volume.new) }
    ensures cause { HasCheckCause (V.state volume.old).faults (V.state volume.new).faults result }
    ensures sure { StaysSureCheck (V.state volume.old) (V.state volume.new) result }
{
    told(read_properties(alloc, volume, geometry, master))
}

// Tells the properties, or what is wrong in their tree first.
fn read_properties<V: Volume>(
    alloc: Global,
    volume: &mut V,
    geometry: &Geometry,
    master: &Master,
) -> Result<Result<Vec<Lprop>, Breach>, AreaFault>
    requires geometry { IsGeometryOf (raw_of geometry.now) (V.state volume.old) }
    requires placed { first_past (addresses_of (raw_of geometry.now) master.now) ≡ None }
    ensures met { IfOk result (λ found. IfOk found (λ props. HasProperties (V.state volume.old).holds (raw_of geometry.now) master.now props.items)) }
    ensures broken { IfOk result (λ found. IfErr found (IsBreachOf rules.Properties (IsFirstWrong (IsWrongProperty (V.state volume.old).holds (raw_of geometry.now) master.now)))) }
    ensures keeps { Keeps (V.state volume.old) (V.state volume.new) }
    ensures shape { SameShape (V.state volume.old) (V.state volume.new) }
    ensures cause { HasAreaCause (V.state volume.old).faults (V.state volume.new).faults result }
    ensures sure { StaysSureArea (V.state volume.old) (V.state volume.new) result }
{
    let mut leb = vec![in alloc; 0; volume.leb_size() as usize]?;
    let area = read_area(alloc, volume, geometry, &mut leb)?;
    let answer = tree_in(alloc, geometry, master, &area)?;
    Ok(answer)
}

// The bytes of all LEBs of the properties area, one behind another. The buffer has the size of a LEB.
fn read_area<V: Volume>(
    alloc: Global,
    volume: &mut V,
    geometry: &Geometry,
    leb: &mut [u8],
) -> Result<Vec<u8>, AreaFault>
    requires geometry { IsGeometryOf (raw_of geometry.now) (V.state volume.old) }
    requires whole { length leb.old ≡ (V.state volume.old).leb_size }
    ensures area { IfOk result (λ area. IsAreaOf (raw_of geometry.now) (V.state volume.old).holds area.items) }
    ensures keeps { Keeps (V.state volume.old) (V.state volume.new) }
    ensures shape { SameShape (V.state volume.old) (V.state volume.new) }
    ensures cause { HasAreaCause (V.state volume.old).faults (V.state volume.new).faults result }
    ensures sure { StaysSureArea (V.state volume.old) (V.state volume.new) result }
{
    let mut area = Vec::new(alloc);
    for lnum in geometry.lpt_first()..geometry.orph_first() {
        read_leb(volume, lnum, leb)?;
        area.extend_from_slice(leb)?;
    }
    Ok(area)
}

// What the tree says from its root down in the bytes of the properties area.
fn tree_in(
    alloc: Global,
    geo: &Geometry,
    master: &Master,
    area: &[u8],
) -> Result<Result<Vec<Lprop>, Breach>, AllocError>
    requires { first_past (addresses_of (raw_of geo.now) master.now) ≡ None }
    ensures met { IfOk result (λ found. IfOk found (λ props. HasProperties (lpt_leb_in (raw_of geo.now) area.now) (raw_of geo.now) master.now props.items)) }
    ensures broken { IfOk result (λ found. IfErr found (IsBreachOf rules.Properties (IsFirstWrong (IsWrongProperty (lpt_leb_in (raw_of geo.now) area.now) (raw_of geo.now) master.now)))) }
{
    one_node();
    let row = pnode_places(alloc, geo, master, area)?;
    let read = pnode_row(alloc, geo, master.lpt_lnum, area, &row.all, row.first)?;
    if let Some(node) = read.first {
        return Ok(Err(breach_of(node)));
    }
    let mut props = read.all;
    props.truncate(geo.main_lebs() as usize);
    Ok(Ok(props))
}

// What is wrong at a node breaks the rule on properties.
fn breach_of(node: WrongValue) -> Breach
    ensures { result ≡ breach_at node }
{
    Breach::Damaged {
        rule: Rule::Properties,
        lnum: node.lnum,
        offs: node.offs,
        wanted: node.wanted,
        found: node.found,
    }
}

// The places of the pnodes over main LEBs to which intact nodes lead, and what is wrong first of the nodes above them.
fn pnode_places(
    alloc: Global,
    geo: &Geometry,
    master: &Master,
    area: &[u8],
) -> Result<PlacesRead, AllocError>
    requires { first_past (addresses_of (raw_of geo.now) master.now) ≡ None }
    ensures { IfOk result (λ read. IsWalkedTo (raw_of geo.now) master.now (lpt_leb_in (raw_of geo.now) area.now) 0 read.all.items read.first) }
{
    one_node();
    let mut row = Vec::new(alloc);
    row.push(LptPlace {
        lnum: master.lpt_lnum,
        offs: master.lpt_offs,
    })?;
    let mut read = PlacesRead {
        all: row,
        first: None,
    };
    let mut level = geo.tree_height();
    while level > 0 {
        let mut below = nnode_row(alloc, geo, master.lpt_lnum, area, &read.all, read.first)?;
        level -= 1;
        below.all.truncate(row_len(geo, level) as usize);
        read = below;
    }
    Ok(read)
}

// The number of nodes of a level that stand over main LEBs.
fn row_len(geo: &Geometry, level: u32) -> u32
    ensures { result ≡ row_len_of (raw_of geo.now) level }
{
    let mut nodes = geo.main_lebs().div_ceil(4);
    for _below in 0..level {
        nodes = nodes.div_ceil(4);
    }
    nodes
}
