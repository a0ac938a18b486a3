// The list of orphans.

ghost use Rattle.std.specs.Prelude.{◌≡◌, ◌<◌, ◌≤◌, ◌+◌, ◌-◌, ◌*◌, ◌%◌, ◌^◌, ◌++◌, ◌∷◌, [], true, List, ℕ, length, IfOk, OnOk};
ghost use Rattle.ubifs_base.specs.Areas.{orph_first};
ghost use Rattle.ubifs_base.specs.Gap.{gap_of};
ghost use Rattle.ubifs_base.specs.RawOf.{raw_of};
ghost use Rattle.ubi_volume.specs.Volume.{Keeps, SameShape, WorksOn, filled};
ghost use Rattle.ubi_volume.specs.Faults.{HasAreaCause, StaysSureArea};
ghost use Rattle.media_sys.specs.Orphans.{orphans_of};
ghost use Rattle.media_sys.specs.SystemNode.{IsSystemNode, orphans, written};
ghost use Rattle.leb_scan.specs.Text.{AnyNode, StandsAt};
ghost use Rattle.ubi_volume.specs.Geometry.{IsGeometryOf};
ghost use Rattle.small_areas.specs.Orphans.{orphan_limit, AreListed, HasOrphans, AreOrphans, list_len, list_nodes, list_units, list_size, list_bytes, IsListAnswered, ListUnderWay};

use leb_scan::{Found, Scanner};
use media_sys::OrphNode;
use std::alloc::{AllocError, Global};
use ubi_volume::{AreaFault, Volume, read_leb};
use ubifs_base::{Geometry, Memory, NodeType, ORPHAN_NODE_LEN, fill_gap};

/// Writes the list of orphans of a commit as one orphan node, the last of its commit, or as one padding unit if the list is
/// empty. It replaces the first LEB of the orphan area as one step, so a power cut at any moment leaves the list that was
/// there or the new one. The node takes the next sequence number, whatever the answer.
pub fn write_orphans<V: Volume>(
    alloc: Global,
    volume: &mut V,
    geometry: &Geometry,
    cmt_no: u64,
    inos: &[u32],
    sqnum: &mut u64,
) -> Result<(), AreaFault>
    requires geometry { IsGeometryOf (raw_of geometry.now) (V.state volume.old) }
    requires commit { cmt_no < 2 ^ 63 }
    requires fits { length inos.now ≤ orphan_limit geometry.now.leb_size }
    requires number { sqnum.old < 2 ^ 63 + 2 ^ 56 }
    ensures answer { IsListAnswered (raw_of geometry.now) (record { cmt_no = cmt_no; sqnum = sqnum.new; inos = inos.now }) (V.state volume.old) (V.state volume.new) result }
    ensures works { WorksOn (V.state volume.old) (V.state volume.new) (orph_first (raw_of geometry.now)) (ListUnderWay (raw_of geometry.now) (V.state volume.old) (record { cmt_no = cmt_no; sqnum = sqnum.new; inos = inos.now })) }
    ensures raised { sqnum.new ≡ sqnum.old + list_nodes inos.now }
    ensures shape { SameShape (V.state volume.old) (V.state volume.new) }
    ensures cause { HasAreaCause (V.state volume.old).faults (V.state volume.new).faults result }
    ensures sure { StaysSureArea (V.state volume.old) (V.state volume.new) result }
{
    let number = *sqnum + node_count(inos);
    *sqnum = number;
    let size = list_size(geometry, inos);
    let mut bytes = vec![in alloc; 0; size as usize]?;
    lay_list(alloc, cmt_no, number, inos, &mut bytes)?;
    volume.change(geometry.orph_first(), &bytes)?;
    Ok(())
}

/// The numbers of all intact orphan nodes of the orphan area, in order of LEB and offset. Takes memory for a LEB and for
/// the numbers.
pub fn read_orphans<V: Volume>(
    alloc: Global,
    volume: &mut V,
    geometry: &Geometry,
) -> Result<Vec<u32>, AreaFault>
    requires geometry { IsGeometryOf (raw_of geometry.now) (V.state volume.old) }
    ensures read { IfOk result (λ inos. AreOrphans (V.state volume.old).holds (orph_first (raw_of geometry.now)) geometry.now.orph_lebs inos.items) }
    ensures keeps { Keeps (V.state volume.old) (V.state volume.new) }
    ensures shape { SameShape (V.state volume.old) (V.state volume.new) }
    ensures cause { HasAreaCause (V.state volume.old).faults (V.state volume.new).faults result }
    ensures sure { StaysSureArea (V.state volume.old) (V.state volume.new) result }
{
    let mut leb = vec![in alloc; 0; volume.leb_size() as usize]?;
    let mut inos = Vec::new(alloc);
    read_area(alloc, volume, geometry, &mut leb, &mut inos)?;
    Ok(inos)
}

// Reads the LEBs of the orphan area, one after another.
fn read_area<V: Volume>(
    alloc: Global,
    volume: &mut V,
    geometry: &Geometry,
    leb: &mut [u8],
    inos: &mut Vec<u32>,
) -> Result<(), AreaFault>
    requires geometry { IsGeometryOf (raw_of geometry.now) (V.state volume.old) }
    requires whole { length leb.old ≡ (V.state volume.old).leb_size }
    requires size { length leb.old < 2 ^ 32 }
    requires none { inos.old.items ≡ [] }
    ensures read { OnOk result (AreOrphans (V.state volume.old).holds (orph_first (raw_of geometry.now)) geometry.now.orph_lebs inos.new.items) }
    ensures keeps { Keeps (V.state volume.old) (V.state volume.new) }
    ensures shape { SameShape (V.state volume.old) (V.state volume.new) }
    ensures cause { HasAreaCause (V.state volume.old).faults (V.state volume.new).faults result }
    ensures sure { StaysSureArea (V.state volume.old) (V.state volume.new) result }
{
    let first = geometry.orph_first();
    for at in 0..geometry.orph_lebs {
        read_list(alloc, volume, first + at, leb, inos)?;
    }
    Ok(())
}

// How many nodes a list takes.
fn node_count(inos: &[u32]) -> u64
    ensures { result ≡ list_nodes inos.now }
{
    if inos.is_empty() { 0 } else { 1 }
}

// The bytes of the units that a list takes.
fn list_size(geometry: &Geometry, inos: &[u32]) -> u32
    requires { length inos.now ≤ orphan_limit geometry.now.leb_size }
    ensures size { result ≡ list_size geometry.now.min_io inos.now }
    ensures room { list_len inos.now ≤ result }
    ensures some { 0 < result }
    ensures fits { result ≤ geometry.now.leb_size }
    ensures units { result % geometry.now.min_io ≡ 0 }
    ensures words { result % 8 ≡ 0 }
{
    if inos.is_empty() {
        return geometry.min_io;
    }
    in_units(geometry, ORPHAN_NODE_LEN + 8 * inos.len() as u32)
}

// So many bytes, rounded up to whole units.
fn in_units(geometry: &Geometry, len: u32) -> u32
    requires { len ≤ geometry.now.leb_size }
    ensures number { result ≡ list_units geometry.now.min_io len }
    ensures more { len ≤ result }
    ensures fits { result ≤ geometry.now.leb_size }
    ensures whole { result % geometry.now.min_io ≡ 0 }
{
    let unit = geometry.min_io;
    (len + (unit - 1)) / unit * unit
}

// Lays a list into the buffer.
fn lay_list(
    alloc: Global,
    cmt_no: u64,
    sqnum: u64,
    inos: &[u32],
    out: &mut [u8],
) -> Result<(), AllocError>
    requires commit { cmt_no < 2 ^ 63 }
    requires room { list_len inos.now ≤ length out.old }
    requires size { length out.old < 2 ^ 32 }
    requires words { length out.old % 8 ≡ 0 }
    ensures bytes { OnOk result (out.new ≡ list_bytes (length out.old) cmt_no sqnum inos.now) }
    ensures has { OnOk result ((leb_size : ℕ) → HasOrphans (filled leb_size out.new) inos.now) }
    ensures len { length out.new ≡ length out.old }
{
    if inos.is_empty() {
        fill_gap(out);
        return Ok(());
    }
    let node = OrphNode {
        cmt_no,
        last: true,
        inos: inos.to_vec(alloc)?,
    };
    lay_node(&node, sqnum, out);
    Ok(())
}

// Lays an orphan node, and a gap behind it.
fn lay_node(node: &OrphNode, sqnum: u64, out: &mut [u8])
    requires commit { node.now.cmt_no < 2 ^ 63 }
    requires room { 32 + 8 * length node.now.inos.items ≤ length out.old }
    requires size { length out.old < 2 ^ 32 }
    ensures bytes { out.new ≡ written sqnum 0 (orphans (orphans_of node.now)) ++ gap_of (length out.old - (32 + 8 * length node.now.inos.items)) }
    ensures node { IsSystemNode (written sqnum 0 (orphans (orphans_of node.now))) sqnum 0 (orphans (orphans_of node.now)) }
    ensures long { length (written sqnum 0 (orphans (orphans_of node.now))) ≡ 32 + 8 * length node.now.inos.items }
{
    let (front, gap) = out.split_at_mut(node.len() as usize);
    node.encode(sqnum, 0, front);
    fill_gap(gap);
}

// Reads a LEB, and appends the numbers of its orphan nodes.
fn read_list<V: Volume>(
    alloc: Global,
    volume: &mut V,
    lnum: u32,
    leb: &mut [u8],
    inos: &mut Vec<u32>,
) -> Result<(), AreaFault>
    requires lnum { lnum < (V.state volume.old).leb_cnt }
    requires whole { length leb.old ≡ (V.state volume.old).leb_size }
    requires size { length leb.old < 2 ^ 32 }
    ensures read { OnOk result ((here : List ℕ) × HasOrphans ((V.state volume.old).holds lnum) here × (inos.new.items ≡ inos.old.items ++ here)) }
    ensures len { length leb.new ≡ length leb.old }
    ensures keeps { Keeps (V.state volume.old) (V.state volume.new) }
    ensures shape { SameShape (V.state volume.old) (V.state volume.new) }
    ensures cause { HasAreaCause (V.state volume.old).faults (V.state volume.new).faults result }
    ensures sure { StaysSureArea (V.state volume.old) (V.state volume.new) result }
{
    read_leb(volume, lnum, leb)?;
    gather(alloc, leb, inos)?;
    Ok(())
}

// Appends the numbers of the orphan nodes of a LEB.
fn gather(alloc: Global, leb: &[u8], inos: &mut Vec<u32>) -> Result<(), AllocError>
    requires { length leb.now < 2 ^ 32 }
    ensures { OnOk result ((here : List ℕ) × HasOrphans leb.now here × (inos.new.items ≡ inos.old.items ++ here)) }
{
    let mut scanner = Scanner::new(0);
    while let Some(found) = scanner.next(leb) {
        take_numbers(alloc, leb, found, inos)?;
    }
    Ok(())
}

// Appends the numbers of a node, if it is an orphan node.
fn take_numbers(
    alloc: Global,
    leb: &[u8],
    found: Found,
    inos: &mut Vec<u32>,
) -> Result<(), AllocError>
    requires { (node : AnyNode) × StandsAt leb.now found.offs found node }
    ensures { OnOk result ((here : List ℕ) × AreListed leb.now (found ∷ []) here × (inos.new.items ≡ inos.old.items ++ here)) }
{
    if found.kind != NodeType::Orphans {
        return Ok(());
    }
    let rest = leb.split_at(found.offs as usize).1;
    let bytes = rest.split_at(found.len as usize).0;
    let Ok(decoded) = OrphNode::decode(alloc, bytes) else {
        return Err(AllocError);
    };
    let Some(node) = decoded else {
        return Ok(());
    };
    inos.extend_from_slice(&node.inos)
}
