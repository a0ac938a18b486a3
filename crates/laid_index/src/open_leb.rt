// The LEB that takes the next nodes.

ghost use Rattle.std.specs.Prelude.{◌≡◌, ◌+◌, ◌-◌, ◌*◌, ◌/◌, ◌^◌, ◌%◌, ◌<◌, ◌≤◌, ◌++◌, ◌∷◌, ℕ, List, [], length, IfOk, OnOk};
ghost use Rattle.ubifs_base.specs.Gap.{gap_of};
ghost use Rattle.ubifs_base.specs.RawOf.{raw_of};
ghost use Rattle.ubi_volume.specs.Geometry.{IsGeometryOf};
ghost use Rattle.ubi_volume.specs.Volume.{AreUnits, filled};
ghost use Rattle.lpt_area.specs.Written.{in_units as units};
ghost use Rattle.media_sys.specs.Index.{IsIdxNode, index_of};
ghost use Rattle.media_sys.specs.SystemNode.{IsSystemNode, index, written};
ghost use Rattle.index_media.specs.PlacedRow.{node_end};
ghost use Rattle.index_media.specs.Stored.{IsIndexNodeAt};
ghost use Rattle.laid_index.specs.Answered.{IsLayingAnswered};
ghost use Rattle.laid_index.specs.Opened.{GoesOnInLeb, IsNodeAppended, IsClosed, IsLebOpen, AreNodesReady, Lays, MakesRoom, node_text, open_lnum, taken_after};
ghost use Rattle.laid_index.specs.Packing.{len_over};
ghost use Rattle.laid_index.specs.Rows.{HasFirstKey};

use media_sys::{Branch, IdxNode};
use std::alloc::{AllocError, Global};
use ubi_volume::{AreaFault, Volume};
use ubifs_base::{Geometry, fill_gap};

// The first of the LEBs, the bytes that were taken of those that are written, the bytes of the open one, and the next
// sequence number.
#[derive(Drop)]
pub(crate) struct OpenLeb {
    pub(crate) first: u32,
    pub(crate) used: Vec<u32>,
    pub(crate) bytes: Vec<u8>,
    pub(crate) sqnum: u64,
}

impl OpenLeb {
    // The first LEB, which took none.
    pub(crate) fn new(
        alloc: Global,
        geometry: &Geometry,
        first: u32,
        sqnum: u64,
    ) -> Result<OpenLeb, AllocError>
        ensures first { IfOk result (λ leb. leb.first ≡ first) }
        ensures used { IfOk result (λ leb. leb.used.items ≡ []) }
        ensures bytes { IfOk result (λ leb. leb.bytes.items ≡ []) }
        ensures sqnum { IfOk result (λ leb. leb.sqnum ≡ sqnum) }
    {
        Ok(OpenLeb {
            first,
            used: Vec::new(alloc),
            bytes: Vec::with_capacity(alloc, geometry.leb_size as usize)?,
            sqnum,
        })
    }

    // Lays a node over these siblings, into this LEB where it fits, and else into the next; answers the branch to it.
    pub(crate) fn lay_node<V: Volume>(
        &mut self,
        alloc: Global,
        volume: &mut V,
        geometry: &Geometry,
        level: u16,
        siblings: &[Branch],
    ) -> Result<Branch, AreaFault>
        requires geometry { IsGeometryOf (raw_of geometry.now) (V.state volume.old) }
        requires node { IsIdxNode (record { level = level; branches = siblings.now }) }
        requires ready { AreNodesReady (raw_of geometry.now) (len_over (length siblings.now) ∷ []) self.old (V.state volume.old).holds }
        ensures lays { IfOk result (λ branch. Lays (raw_of geometry.now) (len_over (length siblings.now) ∷ []) (branch ∷ []) self.old (V.state volume.old).holds self.new (V.state volume.new).holds) }
        ensures stands { IfOk result (λ branch. (contents : ℕ → List ℕ) → GoesOnInLeb self.new (V.state volume.new).holds contents → IsIndexNodeAt contents branch (record { level = level; branches = siblings.now })) }
        ensures key { IfOk result (λ branch. HasFirstKey branch siblings.now) }
        ensures some { OnOk result (0 < length self.new.bytes.items) }
        ensures answer { IsLayingAnswered self.old.first (self.old.first + length (taken_after (raw_of geometry.now) self.old (len_over (length siblings.now) ∷ []))) (V.state volume.old) (V.state volume.new) result }
    {
        let len = 28 + 20 * siblings.len() as u32;
        self.make_room(volume, geometry, len)?;
        let branch = Branch {
            lnum: self.first + self.used.len() as u32,
            offs: self.bytes.len() as u32,
            len,
            key: siblings[0].key,
        };
        self.append(alloc, level, siblings)?;
        Ok(branch)
    }

    // Goes on to the next LEB where so many bytes don't fit.
    fn make_room<V: Volume>(
        &mut self,
        volume: &mut V,
        geometry: &Geometry,
        len: u32,
    ) -> Result<(), AreaFault>
        requires geometry { IsGeometryOf (raw_of geometry.now) (V.state volume.old) }
        requires most { len ≤ 5148 }
        requires ready { AreNodesReady (raw_of geometry.now) (len ∷ []) self.old (V.state volume.old).holds }
        ensures makes { OnOk result (MakesRoom (raw_of geometry.now) len self.old (V.state volume.old).holds self.new (V.state volume.new).holds) }
        ensures answer { IsLayingAnswered self.old.first (self.old.first + length (taken_after (raw_of geometry.now) self.old (len ∷ []))) (V.state volume.old) (V.state volume.new) result }
    {
        if self.bytes.len() + len as usize <= geometry.leb_size as usize {
            return Ok(());
        }
        self.close(volume, geometry)
    }

    // Writes the LEB, with a gap up to the unit, and goes on to the next.
    pub(crate) fn close<V: Volume>(
        &mut self,
        volume: &mut V,
        geometry: &Geometry,
    ) -> Result<(), AreaFault>
        requires geometry { IsGeometryOf (raw_of geometry.now) (V.state volume.old) }
        requires some { 0 < length self.old.bytes.items }
        requires fits { length self.old.bytes.items ≤ geometry.now.leb_size }
        requires lnum { open_lnum self.old < geometry.now.leb_cnt }
        ensures closed { OnOk result (IsClosed (raw_of geometry.now) self.old self.new (V.state volume.new).holds) }
        ensures answer { IsLayingAnswered (open_lnum self.old) (open_lnum self.old + 1) (V.state volume.old) (V.state volume.new) result }
    {
        let lnum = self.first + self.used.len() as u32;
        self.used.push(self.bytes.len() as u32)?;
        fill_unit(&mut self.bytes, geometry)?;
        write_leb(volume, lnum, &self.bytes)?;
        self.bytes.clear();
        Ok(())
    }

    // Puts a node behind those that are here.
    fn append(&mut self, alloc: Global, level: u16, siblings: &[Branch]) -> Result<(), AllocError>
        requires node { IsIdxNode (record { level = level; branches = siblings.now }) }
        requires number { self.old.sqnum + 1 < 2 ^ 64 }
        requires fits { length self.old.bytes.items ≤ 2097152 }
        ensures appended { OnOk result (IsNodeAppended (record { level = level; branches = siblings.now }) self.old self.new) }
    {
        let node = IdxNode {
            level,
            branches: Vec::from_slice(alloc, siblings)?,
        };
        append_text(&mut self.bytes, &node, self.sqnum)?;
        self.sqnum += 1;
        Ok(())
    }
}

// Appends a node, and 0xCE up to a multiple of 8.
fn append_text(bytes: &mut Vec<u8>, node: &IdxNode, sqnum: u64) -> Result<(), AllocError>
    requires node { IsIdxNode (index_of node.now) }
    requires fits { length bytes.old.items ≤ 2097152 }
    ensures bytes { OnOk result (bytes.new.items ≡ bytes.old.items ++ node_text sqnum (index_of node.now)) }
    ensures node { OnOk result (IsSystemNode (written sqnum 0 (index (index_of node.now))) sqnum 0 (index (index_of node.now))) }
    ensures long { OnOk result (length (written sqnum 0 (index (index_of node.now))) ≡ len_over (length node.now.branches.items)) }
    ensures text { OnOk result (length (node_text sqnum (index_of node.now)) ≡ node_end (len_over (length node.now.branches.items))) }
{
    let start = bytes.len();
    let len = node.len() as usize;
    bytes.resize(start + (len + 7) / 8 * 8, 0)?;
    put_text(bytes.split_at_mut(start).1, node, len, sqnum);
    Ok(())
}

// Puts a node of so many bytes, and 0xCE behind it, over all of these bytes.
fn put_text(out: &mut [u8], node: &IdxNode, len: usize, sqnum: u64)
    requires node { IsIdxNode (index_of node.now) }
    requires len { len ≡ len_over (length node.now.branches.items) }
    requires room { length out.old ≡ (len + 7) / 8 * 8 }
    ensures bytes { out.new ≡ node_text sqnum (index_of node.now) }
    ensures node { IsSystemNode (written sqnum 0 (index (index_of node.now))) sqnum 0 (index (index_of node.now)) }
    ensures long { length (written sqnum 0 (index (index_of node.now))) ≡ len_over (length node.now.branches.items) }
{
    let (own, gap) = out.split_at_mut(len);
    node.encode(sqnum, 0, own);
    fill_gap(gap);
}

// Replaces a LEB by these bytes.
fn write_leb<V: Volume>(volume: &mut V, lnum: u32, bytes: &[u8]) -> Result<(), AreaFault>
    requires lnum { lnum < (V.state volume.old).leb_cnt }
    requires range { length bytes.now ≤ (V.state volume.old).leb_size }
    requires units { AreUnits (V.state volume.old).min_io 0 (length bytes.now) }
    ensures done { OnOk result ((V.state volume.new).holds lnum ≡ filled (V.state volume.old).leb_size bytes.now) }
    ensures answer { IsLayingAnswered lnum (lnum + 1) (V.state volume.old) (V.state volume.new) result }
{
    volume.change(lnum, bytes)?;
    Ok(())
}

// Fills the gap up to the unit.
fn fill_unit(bytes: &mut Vec<u8>, geometry: &Geometry) -> Result<(), AllocError>
    requires fits { length bytes.old.items ≤ geometry.now.leb_size }
    ensures bytes { OnOk result (bytes.new.items ≡ bytes.old.items ++ gap_of (units geometry.now.min_io (length bytes.old.items) - length bytes.old.items)) }
    ensures len { OnOk result (length bytes.new.items ≡ units geometry.now.min_io (length bytes.old.items)) }
    ensures more { OnOk result (length bytes.old.items ≤ units geometry.now.min_io (length bytes.old.items)) }
    ensures whole { OnOk result (units geometry.now.min_io (length bytes.old.items) % geometry.now.min_io ≡ 0) }
    ensures fits { OnOk result (units geometry.now.min_io (length bytes.old.items) ≤ geometry.now.leb_size) }
{
    let start = bytes.len();
    let end = in_units(geometry, start as u32);
    bytes.resize(end as usize, 0)?;
    fill_gap(bytes.split_at_mut(start).1);
    Ok(())
}

// So many bytes, rounded up to whole units.
fn in_units(geometry: &Geometry, len: u32) -> u32
    requires { len ≤ geometry.now.leb_size }
    ensures number { result ≡ units geometry.now.min_io len }
    ensures more { len ≤ result }
    ensures fits { result ≤ geometry.now.leb_size }
    ensures whole { result % geometry.now.min_io ≡ 0 }
{
    let unit = geometry.min_io;
    (len + (unit - 1)) / unit * unit
}
