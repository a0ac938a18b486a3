// The index of given leaves, laid at once.

ghost use Rattle.std.specs.Prelude.{◌≡◌, ◌⊎◌, ◌+◌, ◌*◌, ◌^◌, ◌<◌, ◌≤◌, ◌++◌, ◌∷◌, ℕ, List, [], None, length, map, IfOk, OnOk, IsTrue};
ghost use Rattle.ubifs_base.specs.RawOf.{raw_of};
ghost use Rattle.ubi_volume.specs.Faults.{HasAreaCause, StaysSureArea};
ghost use Rattle.ubi_volume.specs.Frame.{IsSameLeb};
ghost use Rattle.ubi_volume.specs.Geometry.{IsGeometryOf};
ghost use Rattle.ubi_volume.specs.Volume.{SameShape};
ghost use Rattle.media_sys.specs.Index.{in_order};
ghost use Rattle.index_tree.specs.Keyed.{HaveKeys};
ghost use Rattle.index_tree.specs.declared.leaf.Leaf.{Leaf as ALeaf};
ghost use Rattle.index_media.specs.PlacedRow.{PlacedRow, branch_to, ended, node_at};
ghost use Rattle.laid_index.specs.Answered.{IsLayingAnswered, AreOthersSame};
ghost use Rattle.laid_index.specs.Indexed.{IsLaidIndex};
ghost use Rattle.laid_index.specs.Opened.{GoesOnInLeb, AreNodesReady, Lays, taken_after};
ghost use Rattle.laid_index.specs.Packing.{index_used, lens_above, level_lens};
ghost use Rattle.laid_index.specs.Rows.{AreInOrder, AreOver, StandOver};
ghost use Rattle.laid_index.specs.Crowned.{IsRowLaid, IsCrowned};

use crate::laid_index::LaidIndex;
use crate::open_leb::OpenLeb;
use index_tree::Leaf;
use media_sys::Branch;
use std::alloc::{AllocError, Global};
use ubi_volume::{AreaFault, Volume};
use ubifs_base::Geometry;

/// Lays the index of these leaves, which are in order of key, into the LEBs from `first` on, with sequence numbers from
/// `sqnum` on (`struct ubifs_idx_node` of ubifs-media.h). Nodes are full but for the last of each level. It takes
/// `index_lebs` LEBs, each replaced by one change, whatever it held; others stay as they were. After an error, and after a
/// cut while it runs, some of its LEBs may be written.
pub fn lay_index<V: Volume>(
    alloc: Global,
    volume: &mut V,
    geometry: &Geometry,
    leaves: &[Leaf],
    first: u32,
    sqnum: u64,
) -> Result<LaidIndex, AreaFault>
    requires geometry { IsGeometryOf (raw_of geometry.now) (V.state volume.old) }
    requires some { 0 < length leaves.now }
    requires keys { HaveKeys leaves.now }
    requires order { IsTrue (in_order None (map branch_to leaves.now)) }
    requires room { first + length (index_used (raw_of geometry.now) (length leaves.now)) ≤ geometry.now.leb_cnt }
    requires number { sqnum + length leaves.now < 2 ^ 64 }
    ensures laid { IfOk result (λ made. IsLaidIndex (raw_of geometry.now) (V.state volume.new).holds leaves.now first sqnum made) }
    ensures others { (k : ℕ) → (k < first) ⊎ (first + length (index_used (raw_of geometry.now) (length leaves.now)) ≤ k) → IsSameLeb (V.state volume.old) (V.state volume.new) k }
    ensures shape { SameShape (V.state volume.old) (V.state volume.new) }
    ensures cause { HasAreaCause (V.state volume.old).faults (V.state volume.new).faults result }
    ensures sure { StaysSureArea (V.state volume.old) (V.state volume.new) result }
{
    lay_leaves(alloc, volume, geometry, leaves, first, sqnum)
}

// Lays the index of these leaves.
fn lay_leaves<V: Volume>(
    alloc: Global,
    volume: &mut V,
    geometry: &Geometry,
    leaves: &[Leaf],
    first: u32,
    sqnum: u64,
) -> Result<LaidIndex, AreaFault>
    requires geometry { IsGeometryOf (raw_of geometry.now) (V.state volume.old) }
    requires some { 0 < length leaves.now }
    requires keys { HaveKeys leaves.now }
    requires order { IsTrue (in_order None (map branch_to leaves.now)) }
    requires room { first + length (index_used (raw_of geometry.now) (length leaves.now)) ≤ geometry.now.leb_cnt }
    requires number { sqnum + length leaves.now < 2 ^ 64 }
    ensures laid { IfOk result (λ made. IsLaidIndex (raw_of geometry.now) (V.state volume.new).holds leaves.now first sqnum made) }
    ensures answer { IsLayingAnswered first (first + length (index_used (raw_of geometry.now) (length leaves.now))) (V.state volume.old) (V.state volume.new) result }
{
    let branches = branches_to(alloc, leaves)?;
    let mut leb = OpenLeb::new(alloc, geometry, first, sqnum)?;
    let root = lay_levels(alloc, volume, geometry, &mut leb, 0, branches.as_slice())?;
    leb.close(volume, geometry)?;
    Ok(LaidIndex {
        root,
        used: leb.used,
        sqnum: leb.sqnum,
    })
}

// The branches to these leaves.
fn branches_to(alloc: Global, leaves: &[Leaf]) -> Result<Vec<Branch>, AllocError>
    ensures { IfOk result (λ branches. branches.items ≡ map branch_to leaves.now) }
{
    leaves.iter().map(|leaf| branch_to(leaf)).collect(alloc)
}

// The branch to a leaf.
fn branch_to(leaf: &Leaf) -> Branch
    ensures { result ≡ branch_to leaf.now }
{
    Branch {
        lnum: leaf.lnum,
        offs: leaf.offs,
        len: leaf.len,
        key: leaf.key,
    }
}

// Lays the nodes over these siblings, and all above them; answers the branch to the root.
fn lay_levels<V: Volume>(
    alloc: Global,
    volume: &mut V,
    geometry: &Geometry,
    leb: &mut OpenLeb,
    level: u16,
    siblings: &[Branch],
) -> Result<Branch, AreaFault>
    requires geometry { IsGeometryOf (raw_of geometry.now) (V.state volume.old) }
    requires some { 0 < length siblings.now }
    requires order { AreInOrder siblings.now }
    requires ready { AreNodesReady (raw_of geometry.now) (lens_above (length siblings.now) geometry.now.fanout (length siblings.now)) leb.old (V.state volume.old).holds }
    requires high { length siblings.now * 2 ^ level < 2 ^ 64 }
    ensures crowned { IfOk result (λ root. IsCrowned (raw_of geometry.now) level siblings.now (lens_above (length siblings.now) geometry.now.fanout (length siblings.now)) leb.old (V.state volume.old).holds root leb.new (V.state volume.new).holds) }
    ensures some { OnOk result (0 < length leb.new.bytes.items) }
    ensures answer { IsLayingAnswered leb.old.first (leb.old.first + length (taken_after (raw_of geometry.now) leb.old (lens_above (length siblings.now) geometry.now.fanout (length siblings.now)))) (V.state volume.old) (V.state volume.new) result }
{
    if siblings.len() <= geometry.fanout as usize {
        return leb.lay_node(alloc, volume, geometry, level, siblings);
    }
    let made = lay_level(alloc, volume, geometry, leb, level, siblings)?;
    lay_levels(alloc, volume, geometry, leb, level + 1, made.as_slice())
}

// Lays the nodes over these siblings; answers the branches to them.
fn lay_level<V: Volume>(
    alloc: Global,
    volume: &mut V,
    geometry: &Geometry,
    leb: &mut OpenLeb,
    level: u16,
    siblings: &[Branch],
) -> Result<Vec<Branch>, AreaFault>
    requires geometry { IsGeometryOf (raw_of geometry.now) (V.state volume.old) }
    requires order { AreInOrder siblings.now }
    requires ready { AreNodesReady (raw_of geometry.now) (level_lens geometry.now.fanout (length siblings.now)) leb.old (V.state volume.old).holds }
    ensures lays { IfOk result (λ made. Lays (raw_of geometry.now) (level_lens geometry.now.fanout (length siblings.now)) made.items leb.old (V.state volume.old).holds leb.new (V.state volume.new).holds) }
    ensures over { IfOk result (λ made. AreOver geometry.now.fanout siblings.now made.items []) }
    ensures stand { IfOk result (λ made. (contents : ℕ → List ℕ) → GoesOnInLeb leb.new (V.state volume.new).holds contents → StandOver contents geometry.now.fanout level siblings.now made.items) }
    ensures answer { IsLayingAnswered leb.old.first (leb.old.first + length (taken_after (raw_of geometry.now) leb.old (level_lens geometry.now.fanout (length siblings.now)))) (V.state volume.old) (V.state volume.new) result }
{
    let mut made = Vec::new(alloc);
    let mut rest = siblings;
    'laying: while !rest.is_empty() {
        let n = rest.len().min(geometry.fanout as usize);
        let (own, behind) = rest.split_at(n);
        let branch = leb.lay_node(alloc, volume, geometry, level, own)?;
        made.push(branch)?;
        rest = behind;
    }
    Ok(made)
}
