// A tree of properties is read.

ghost use Rattle.std.specs.Prelude.{◌≡◌, ◌<◌, ◌≤◌, ◌≢◌, ℕ, List, [], ◌∷◌, IfOk, IfSome, IfNone, length, All};
ghost use Rattle.ubifs_base.specs.Areas.{main_lebs};
ghost use Rattle.ubifs_base.specs.Properties.{pnode_count, tree_height};
ghost use Rattle.ubifs_base.specs.RawOf.{raw_of};
ghost use Rattle.ubi_volume.specs.Volume.{Keeps, SameShape};
ghost use Rattle.ubi_volume.specs.Faults.{HasAreaCause, StaysSureArea};
ghost use Rattle.media_lpt.specs.declared.lprop.Lprop.{Lprop as AnLprop};
ghost use Rattle.media_lpt.specs.Nodes.{IsPlace};
ghost use Rattle.lpt_area.specs.Tree.{IsTree, IsBelow, root_of, row_len};
ghost use Rattle.lpt_area.specs.Only.{HasNone, SameFor};
ghost use Rattle.ubi_volume.specs.Geometry.{IsGeometryOf};

use crate::LptAt;
use crate::rows::{nnode_row, pnode_row};
use media_lpt::{Lprop, LptPlace};
use std::alloc::Global;
use ubi_volume::{AreaFault, Volume};
use ubifs_base::Geometry;

/// The properties of all main LEBs, in order, as the tree with this root says them (Hunter 2008, "LEB properties"). None
/// exactly where that is no tree: the root isn't in the properties area, or a node on the way to a main LEB doesn't stand
/// in its LEB, whole, as an nnode or a pnode. No place over main LEBs says that they are empty.
pub fn read_tree<V: Volume>(
    alloc: Global,
    volume: &mut V,
    geo: &Geometry,
    at: &LptAt,
) -> Result<Option<Vec<Lprop>>, AreaFault>
    requires geometry { IsGeometryOf (raw_of geo.now) (V.state volume.old) }
    ensures found { IfOk result (λ r. IfSome r (λ props. IsTree (raw_of geo.now) (V.state volume.old).holds (root_of at.now) props.items)) }
    ensures none { IfOk result (λ r. IfNone r (HasNone (IsTree (raw_of geo.now) (V.state volume.old).holds (root_of at.now)))) }
    ensures count { IfOk result (λ r. IfSome r (λ props. length props.items ≡ main_lebs (raw_of geo.now))) }
    ensures keeps { Keeps (V.state volume.old) (V.state volume.new) × SameShape (V.state volume.old) (V.state volume.new) }
    ensures cause { HasAreaCause (V.state volume.old).faults (V.state volume.new).faults result }
    ensures sure { StaysSureArea (V.state volume.old) (V.state volume.new) result }
{
    let root = at.root();
    if root.lnum < geo.lpt_first() {
        return Ok(None);
    }
    if root.lnum >= geo.orph_first() {
        return Ok(None);
    }
    read_below(alloc, volume, geo, root)
}

// What the tree says from this place, the root's, down.
fn read_below<V: Volume>(
    alloc: Global,
    volume: &mut V,
    geo: &Geometry,
    root: LptPlace,
) -> Result<Option<Vec<Lprop>>, AreaFault>
    requires geometry { IsGeometryOf (raw_of geo.now) (V.state volume.old) }
    requires root { IsPlace (raw_of geo.now) root }
    ensures found { IfOk result (λ r. IfSome r (λ props. IsBelow (raw_of geo.now) (V.state volume.old).holds (tree_height (pnode_count (raw_of geo.now))) (root ∷ []) props.items)) }
    ensures none { IfOk result (λ r. IfNone r (HasNone (IsBelow (raw_of geo.now) (V.state volume.old).holds (tree_height (pnode_count (raw_of geo.now))) (root ∷ [])))) }
    ensures keeps { Keeps (V.state volume.old) (V.state volume.new) }
    ensures shape { SameShape (V.state volume.old) (V.state volume.new) }
    ensures cause { HasAreaCause (V.state volume.old).faults (V.state volume.new).faults result }
    ensures sure { StaysSureArea (V.state volume.old) (V.state volume.new) result }
{
    let Some(row) = pnode_places(alloc, volume, geo, root)? else {
        return Ok(None);
    };
    let Some(mut props) = pnode_row(alloc, volume, geo, &row)? else {
        return Ok(None);
    };
    props.truncate(geo.main_lebs() as usize);
    Ok(Some(props))
}

// The places of the pnodes over main LEBs.
fn pnode_places<V: Volume>(
    alloc: Global,
    volume: &mut V,
    geo: &Geometry,
    root: LptPlace,
) -> Result<Option<Vec<LptPlace>>, AreaFault>
    requires geometry { IsGeometryOf (raw_of geo.now) (V.state volume.old) }
    requires root { IsPlace (raw_of geo.now) root }
    ensures found { IfOk result (λ r. IfSome r (λ row. SameFor (IsBelow (raw_of geo.now) (V.state volume.old).holds (tree_height (pnode_count (raw_of geo.now))) (root ∷ []))
        (IsBelow (raw_of geo.now) (V.state volume.old).holds 0 row.items))) }
    ensures places { IfOk result (λ r. IfSome r (λ row. All (IsPlace (raw_of geo.now)) row.items)) }
    ensures none { IfOk result (λ r. IfNone r (HasNone (IsBelow (raw_of geo.now) (V.state volume.old).holds (tree_height (pnode_count (raw_of geo.now))) (root ∷ [])))) }
    ensures keeps { Keeps (V.state volume.old) (V.state volume.new) }
    ensures shape { SameShape (V.state volume.old) (V.state volume.new) }
    ensures cause { HasAreaCause (V.state volume.old).faults (V.state volume.new).faults result }
    ensures sure { StaysSureArea (V.state volume.old) (V.state volume.new) result }
{
    let mut row = Vec::new(alloc);
    row.push(root)?;
    let mut level = geo.tree_height();
    while level > 0 {
        let Some(mut below) = nnode_row(alloc, volume, geo, &row)? else {
            return Ok(None);
        };
        level -= 1;
        below.truncate(row_len(geo, level) as usize);
        row = below;
    }
    Ok(Some(row))
}

// The number of nodes of a level that stand over main LEBs.
fn row_len(geo: &Geometry, level: u32) -> u32
    ensures { result ≡ row_len (raw_of geo.now) level }
{
    let mut nodes = geo.main_lebs().div_ceil(4);
    for _below in 0..level {
        nodes = nodes.div_ceil(4);
    }
    nodes
}
