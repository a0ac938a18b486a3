// A client of several calls, proved from their contracts alone.

ghost use Rattle.std.specs.Prelude.{◌≡◌, IfOk, OnOk, IsTrue};
ghost use Rattle.index_media.specs.Clean.{placed_of};
ghost use Rattle.index_media.specs.KeyedRow.{all_clean};
ghost use Rattle.index_media.specs.PlacedRow.{PlacedRow, plain};
ghost use Rattle.index_tree.specs.Shape.{contents};
ghost use Rattle.node_table.specs.Placing.{KeepsPlaces};
ghost use Rattle.node_table.specs.Changing.{AreChanges, changed_by, leaves_after_all};
ghost use Rattle.ubifs_base.specs.Key.{IsKey};
ghost use Rattle.node_cache.specs.Kept.{AreKept};
ghost use Rattle.node_cache.specs.Loaded.{IsReadOnlyCall, IsIndexOn};
ghost use Rattle.index_cache.specs.Paged.{keyed_tree_of, leaves_of, frozen_of, fanout_of, DoesIndexStand, KeepsNodes};

use crate::buffer::NodeBuffer;
use crate::paged::PagedIndex;
use index_media::an_insertion_goes_by_the_keys_of_branches;
use index_tree::Leaf;
use media_sys::Branch;
use node_cache::NodeCache;
use node_table::{Change, places_are_kept, roots_stay};
use std::alloc::Global;
use table_nodes::NodePlace;
use ubi_volume::{AreaFault, Volume};
use ubifs_base::{Geometry, Memory};

/// Takes up the index that stands on a volume, and makes changes of it. What is seen then are the leaves of the volume after the
/// changes, and nodes that no change touches stand where they stood.
pub fn load_and_change<V: Volume>(
    alloc: Global,
    volume: &mut V,
    geo: &Geometry,
    root: &Branch,
    changes: &[Change],
) -> Result<PagedIndex, AreaFault>
    requires index { (placed : PlacedRow) × IsIndexOn (V.state volume.old) geo.now.fanout root.now placed }
    requires changes { AreChanges changes.now }
    ensures tree { (placed : PlacedRow) → IsIndexOn (V.state volume.old) geo.now.fanout root.now placed
        → IfOk result (λ made. keyed_tree_of made ≡ changed_by geo.now.fanout changes.now (all_clean placed)) }
    ensures leaves { (placed : PlacedRow) → IsIndexOn (V.state volume.old) geo.now.fanout root.now placed
        → IfOk result (λ made. leaves_of made ≡ leaves_after_all changes.now (contents (plain placed))) }
    ensures reads { IsReadOnlyCall (V.state volume.old) (V.state volume.new) result }
{
    an_insertion_goes_by_the_keys_of_branches();
    let mut cache = NodeCache::new(alloc)?;
    let mut index = PagedIndex::at_root(alloc, volume, geo, root)?;
    let staged = index.stage(alloc, volume, &mut cache, changes)?;
    index.adopt(staged);
    Ok(index)
}

/// Stages two lists of changes, shows the first, puts a leaf at once, and shows the second then. What is seen at last is what the
/// second list makes of the index before.
pub fn adopt_both<V: Volume>(
    index: &mut PagedIndex,
    alloc: Global,
    volume: &mut V,
    cache: &mut NodeCache,
    first: &[Change],
    second: &[Change],
    leaf: Leaf,
) -> Result<(), AreaFault>
    requires stands { DoesIndexStand (V.state volume.old) index.old }
    requires kept { AreKept (V.state volume.old).holds cache.old }
    requires first { AreChanges first.now }
    requires second { AreChanges second.now }
    requires key { IsKey leaf.key }
    ensures tree { OnOk result (keyed_tree_of index.new ≡ changed_by (fanout_of index.old) second.now (keyed_tree_of index.old)) }
    ensures keeps { KeepsNodes index.old index.new }
{
    roots_stay();
    let one = index.stage(alloc, volume, cache, first)?;
    let other = index.stage(alloc, volume, cache, second)?;
    index.adopt(one);
    index.insert(alloc, volume, cache, leaf)?;
    index.adopt(other);
    Ok(())
}

/// Stages changes, gives the next dirty node of what is frozen a place, if there is one, and shows the changes then. What is seen
/// are the changes, and what is frozen is as before, but for places.
pub fn adopt_after_a_place<V: Volume>(
    index: &mut PagedIndex,
    alloc: Global,
    volume: &mut V,
    cache: &mut NodeCache,
    changes: &[Change],
    lnum: u32,
    offs: u32,
) -> Result<(), AreaFault>
    requires stands { DoesIndexStand (V.state volume.old) index.old }
    requires kept { AreKept (V.state volume.old).holds cache.old }
    requires changes { AreChanges changes.now }
    ensures tree { OnOk result (KeepsPlaces (changed_by (fanout_of index.old) changes.now (keyed_tree_of index.old)) (keyed_tree_of index.new)) }
    ensures frozen { KeepsPlaces (frozen_of index.old) (frozen_of index.new) }
{
    places_are_kept();
    let staged = index.stage(alloc, volume, cache, changes)?;
    let Some(found) = index.next_dirty() else {
        index.adopt(staged);
        return Ok(());
    };
    index.place(found.node, lnum, offs);
    index.adopt(staged);
    Ok(())
}

/// Writes the dirty nodes of a frozen index one after another, each to the next of these places; true exactly where none
/// is left. A place tells a LEB and an offset, and its length isn't looked at.
///
/// Whoever has a volume writes the bytes there before the node gets its place.
fn write_frozen(
    index: &mut PagedIndex,
    alloc: Global,
    sqnum: u64,
    buffer: &mut NodeBuffer,
    places: &[NodePlace],
) -> Result<bool, Memory>
    ensures clean { IfOk result (λ done. IsTrue done → frozen_of index.new ≡ all_clean (placed_of (frozen_of index.new))) }
    ensures frozen { KeepsPlaces (frozen_of index.old) (frozen_of index.new) }
    ensures tree { KeepsPlaces (keyed_tree_of index.old) (keyed_tree_of index.new) }
{
    places_are_kept();
    let Some(found) = index.next_dirty() else {
        return Ok(true);
    };
    let Some((place, rest)) = places.split_first() else {
        return Ok(false);
    };
    let mut bytes = vec![in alloc; 0; found.len as usize]?;
    if !index.write_node(found.node, sqnum, buffer, &mut bytes) {
        return Ok(false);
    }
    index.place(found.node, place.lnum, place.offs);
    write_frozen(index, alloc, sqnum, buffer, rest)
}

/// Freezes an index, makes changes of it then, and writes what is frozen beside them. Where it is true, what is frozen is a
/// placed row of the leaves from before the changes, in which each node that was clean has kept its place. What is seen are
/// the changes. The bytes of each node are made and let go, so nothing is on a medium.
pub fn commit_beside_changes<V: Volume>(
    index: &mut PagedIndex,
    alloc: Global,
    volume: &mut V,
    cache: &mut NodeCache,
    changes: &[Change],
    sqnum: u64,
    places: &[NodePlace],
) -> Result<bool, AreaFault>
    requires stands { DoesIndexStand (V.state volume.old) index.old }
    requires kept { AreKept (V.state volume.old).holds cache.old }
    requires changes { AreChanges changes.now }
    ensures clean { IfOk result (λ done. IsTrue done → all_clean (placed_of (frozen_of index.new)) ≡ frozen_of index.new) }
    ensures leaves { IfOk result (λ done. IsTrue done → contents (plain (placed_of (frozen_of index.new))) ≡ leaves_of index.old) }
    ensures places { OnOk result (KeepsPlaces (keyed_tree_of index.old) (frozen_of index.new)) }
    ensures tree { OnOk result (KeepsPlaces (changed_by (fanout_of index.old) changes.now (keyed_tree_of index.old)) (keyed_tree_of index.new)) }
{
    roots_stay();
    places_are_kept();
    index.freeze();
    let staged = index.stage(alloc, volume, cache, changes)?;
    index.adopt(staged);
    let mut buffer = NodeBuffer::new(alloc)?;
    let done = write_frozen(index, alloc, sqnum, &mut buffer, places)?;
    Ok(done)
}
