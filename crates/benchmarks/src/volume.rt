// The finds of an index that stands on a volume.

ghost use Rattle.std.specs.Prelude.{◌<◌, IfOk};
ghost use Rattle.ubifs_base.specs.Key.{IsKey};
ghost use Rattle.index_media.specs.KeyedRow.{KeyedRow};
ghost use Rattle.mounted_index.specs.Shown.{Shows};
ghost use Rattle.benchmarks.specs.OnVolume.{StandsInLebsBefore};

use crate::leaves::{FANOUT, mixed};
use index_commit::IndexFault;
use index_tree::Leaf;
use mounted_index::MountedIndex;
use node_table::Change;
use std::alloc::Global;
use std::time::Instant;
use ubi_volume::{AreaFault, MemVolume, VolShape, Volume};
use ubifs_base::{Geometry, Key, RawGeometry};

/// A volume with room for 640 commits.
const SHAPE: VolShape = VolShape {
    leb_size: 131_072,
    min_io: 2048,
    leb_cnt: 650,
};

/// The first LEB to which the index is committed.
const FIRST: u32 = 10;

/// How many leaves are put between two commits: the nodes that they change fit into a LEB.
const TURN: u32 = 1600;

/// Sequence numbers stay below.
const MOST: u64 = 1 << 32;

/// The sum of the places that are found for `n` keys, in an order that looks random, of an index of `n` leaves that stands on a volume, and
/// the nanoseconds of the finds.
pub(crate) fn in_volume(rt: &HostRuntime, n: u32) -> anyhow::Result<(u64, u128)>
    requires some { 0 < n }
{
    let alloc = rt.alloc();
    let geometry = Geometry::new(&RawGeometry::plain(131_072, 2048, 640, FANOUT))?;
    let mut volume = MemVolume::new(alloc, SHAPE)?;
    let mut index = MountedIndex::new(alloc, &volume, &geometry)?;
    fill(alloc, &mut volume, &geometry, &mut index, n)?;
    let start = Instant::now(rt)?;
    let sum = sum_mounted(alloc, &mut volume, &mut index, n)?;
    Ok((sum, start.elapsed(rt)?.as_nanos()))
}

// Puts the first `n` leaves, and leaves the index on the volume alone.
fn fill<V: Volume>(
    alloc: Global,
    volume: &mut V,
    geometry: &Geometry,
    index: &mut MountedIndex,
    n: u32,
) -> Result<(), IndexFault>
    requires standing { StandsInLebsBefore geometry.now (V.state volume.old) index.old 10 }
    ensures shown { IfOk result (λ _. (row : KeyedRow) × Shows (V.state volume.new) index.new row) }
{
    let mut next = FIRST;
    let mut sqnum = 0;
    for i in 0..n {
        put(alloc, volume, geometry, index, i, &mut next, &mut sqnum)?;
    }
    commit(alloc, volume, geometry, index, &mut next, &mut sqnum)
}

// Puts a leaf, and commits behind the last one of a turn.
fn put<V: Volume>(
    alloc: Global,
    volume: &mut V,
    geometry: &Geometry,
    index: &mut MountedIndex,
    i: u32,
    next: &mut u32,
    sqnum: &mut u64,
) -> Result<(), IndexFault>
    requires standing { StandsInLebsBefore geometry.now (V.state volume.old) index.old next.old }
    ensures standing { IfOk result (λ _. StandsInLebsBefore geometry.now (V.state volume.new) index.new next.new) }
{
    let changes: &[Change] = &[Change::Insert(leaf(i))];
    index.change(alloc, volume, changes)?;
    if i % TURN != TURN - 1 {
        return Ok(());
    }
    commit(alloc, volume, geometry, index, next, sqnum)
}

// Commits to the next LEB, and takes up the index from the root that is answered.
fn commit<V: Volume>(
    alloc: Global,
    volume: &mut V,
    geometry: &Geometry,
    index: &mut MountedIndex,
    next: &mut u32,
    sqnum: &mut u64,
) -> Result<(), IndexFault>
    requires standing { StandsInLebsBefore geometry.now (V.state volume.old) index.old next.old }
    ensures standing { IfOk result (λ _. StandsInLebsBefore geometry.now (V.state volume.new) index.new next.new) }
{
    let lnum = *next;
    if lnum >= volume.leb_cnt() || *sqnum >= MOST {
        return Err(IndexFault::Full { need: 1, given: 0 });
    }
    let at = index.commit(alloc, volume, &[lnum], sqnum)?;
    *next = lnum + 1;
    match at.root {
        None => Ok(()),
        Some(root) => {
            *index = MountedIndex::at_root(alloc, volume, geometry, &root)?;
            Ok(())
        }
    }
}

// The sum of the places that are found.
fn sum_mounted<V: Volume>(
    alloc: Global,
    volume: &mut V,
    index: &mut MountedIndex,
    n: u32,
) -> Result<u64, AreaFault>
    requires some { 0 < n }
    requires shown { (row : KeyedRow) × Shows (V.state volume.old) index.old row }
{
    let mut sum = 0u64;
    for i in 0..n {
        let key = Key::Ino { ino: mixed(i) % n };
        if let Some(leaf) = index.find(alloc, volume, &key, 0)? {
            sum = sum.wrapping_add(u64::from(leaf.offs));
        }
    }
    Ok(sum)
}

fn leaf(i: u32) -> Leaf
    ensures { IsKey result.key }
{
    Leaf {
        key: Key::Ino { ino: i },
        lnum: 1,
        offs: i,
        len: 160,
    }
}
