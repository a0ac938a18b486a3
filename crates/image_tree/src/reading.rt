// What the rules on leaves and on the tree speak of is read.

ghost use Rattle.std.specs.Prelude.{◌≡◌, ◌++◌, All, IfOk, map};
ghost use Rattle.ubifs_base.specs.RawOf.{raw_of};
ghost use Rattle.ubi_volume.specs.Geometry.{IsGeometryOf};
ghost use Rattle.ubi_volume.specs.Volume.{Keeps, SameShape};
ghost use Rattle.ubi_volume.specs.Faults.{HasAreaCause, StaysSureArea};
ghost use Rattle.sound_image.specs.Leaves.{HasItsNode};
ghost use Rattle.image_tree.specs.Reads.{IsTreeTold, leaves_told};

use crate::recovered_tree::RecoveredTree;
use crate::tree_read::TreeRead;
use index_tree::Leaf;
use journal_scan::JournalRead;
use leaf_check::read_committed;
use leaf_recovery::{RecoveredLeaf, RecoveredLeaves, recover};
use media_sys::RefNode;
use small_areas::read_orphans;
use std::alloc::Global;
use std::thread::Threads;
use ubi_volume::{AreaFault, Volume};
use ubifs_base::{Geometry, Memory};

// Reads the committed leaves and the orphans, and recovers the tree.
pub(crate) fn read_tree<R: Threads + Sync, V: Volume>(
    rt: &R,
    alloc: Global,
    volume: &mut V,
    geometry: &Geometry,
    leaves: &[Leaf],
    references: &[RefNode],
    journal: &JournalRead,
) -> Result<RecoveredTree, AreaFault>
    requires geometry { IsGeometryOf (raw_of geometry.now) (V.state volume.old) }
    ensures read { IfOk result (λ found. IsTreeTold (V.state volume.old).holds (raw_of geometry.now) leaves.now references.now journal.now found.read) }
    ensures intact { IfOk result (λ found. All (HasItsNode (V.state volume.old).holds) found.intact.items) }
    ensures keeps { Keeps (V.state volume.old) (V.state volume.new) }
    ensures shape { SameShape (V.state volume.old) (V.state volume.new) }
    ensures cause { HasAreaCause (V.state volume.old).faults (V.state volume.new).faults result }
    ensures sure { StaysSureArea (V.state volume.old) (V.state volume.new) result }
{
    let listed = read_orphans(alloc, volume, geometry)?;
    let committed = read_committed(rt, alloc, volume, leaves)?;
    let recovered = recover(
        alloc,
        committed.leaves.as_slice(),
        references,
        journal.nodes.as_slice(),
        journal.copies.as_slice(),
        listed.as_slice(),
    )?;
    Ok(RecoveredTree {
        read: TreeRead {
            committed: committed.leaves,
            listed,
            recovered,
        },
        intact: committed.intact,
    })
}

// The leaves of the index after recovery: with names that name no inode.
pub(crate) fn leaves_of(alloc: Global, recovered: &RecoveredLeaves) -> Result<Vec<Leaf>, Memory>
    ensures { IfOk result (λ all. all.items ≡ leaves_told recovered.now) }
{
    let mut all = places_of(alloc, recovered.kept.as_slice())?;
    all.extend_from_slice(recovered.empty.as_slice())?;
    Ok(all)
}

fn places_of(alloc: Global, kept: &[RecoveredLeaf]) -> Result<Vec<Leaf>, Memory>
    ensures { IfOk result (λ places. places.items ≡ map (λ x. x.leaf) kept.now) }
{
    let mut places = Vec::new(alloc);
    for leaf in kept {
        places.push(leaf.leaf)?;
    }
    Ok(places)
}
