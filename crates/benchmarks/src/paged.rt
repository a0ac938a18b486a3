// The look-ups of an index that is in memory, as a mount has it, beside those of an index.

ghost use Rattle.node_cache.specs.Kept.{AreKept};
ghost use Rattle.ubifs_base.specs.Key.{IsKey};
ghost use Rattle.benchmarks.specs.Dirty.{AreAllDirty};

use crate::index::{index_of, sum_of};
use crate::leaves::{FANOUT, FEW, MANY, leaf, mixed};
use crate::volume::in_volume;
use index_cache::PagedIndex;
use index_commit::changes_keep_what_stands;
use index_tree::Leaf;
use node_cache::NodeCache;
use std::alloc::Global;
use std::time::Instant;
use ubi_volume::{AreaFault, MemVolume, VolShape, Volume};
use ubifs_base::Key;

/// How many leaves are put between two evictions.
const TURN: u32 = 10_000;

/// A small volume, of which nothing is read.
const SHAPE: VolShape = VolShape {
    leb_size: 16384,
    min_io: 512,
    leb_cnt: 16,
};

/// The sum of the places that a thousand finds answer, of a thousand leaves.
pub(crate) fn few(rt: &HostRuntime) -> anyhow::Result<u64> {
    let (sum, _) = in_paged(rt, FEW)?;
    Ok(sum)
}

/// Puts a million leaves, with keys in random order, into an `Index` of fanout 8 for the word `index`, and else into a `PagedIndex`, finds each again, and
/// prints the sum of their places and the nanoseconds of the finds. For the word `volume` the leaves come in the order of their keys, and stand on a
/// volume, in memory too; a million finds in random order keep at most 256 nodes.
pub(crate) fn timed(rt: &HostRuntime, kind: &str) -> anyhow::Result<()> {
    let (sum, nanoseconds) = match kind {
        "index" => in_index(rt, MANY)?,
        "volume" => in_volume(rt, MANY)?,
        _ => in_paged(rt, MANY)?,
    };
    println!(rt; "{sum} {nanoseconds}")?;
    Ok(())
}

// The sum of the places that a paged index finds for the first `n` keys, and the nanoseconds of the finds.
fn in_paged(rt: &HostRuntime, n: u32) -> anyhow::Result<(u64, u128)> {
    let alloc = rt.alloc();
    let mut volume = MemVolume::new(alloc, SHAPE)?;
    let mut cache = NodeCache::new(alloc)?;
    let mut index = PagedIndex::new(alloc, FANOUT);
    fill(alloc, &mut volume, &mut cache, &mut index, n)?;
    let start = Instant::now(rt)?;
    let sum = sum_paged(alloc, &mut volume, &mut cache, &index, n)?;
    Ok((sum, start.elapsed(rt)?.as_nanos()))
}

// The same of an index.
fn in_index(rt: &HostRuntime, n: u32) -> anyhow::Result<(u64, u128)> {
    let index = index_of(rt.alloc(), n)?;
    let start = Instant::now(rt)?;
    let sum = sum_of(&index, n);
    Ok((sum, start.elapsed(rt)?.as_nanos()))
}

// Puts the first `n` leaves. All nodes are dirty, so an eviction lets those go that changes left behind.
fn fill<V: Volume>(
    alloc: Global,
    volume: &mut V,
    cache: &mut NodeCache,
    index: &mut PagedIndex,
    n: u32,
) -> Result<(), AreaFault>
    requires dirty { AreAllDirty index.old }
    requires kept { AreKept (V.state volume.old).holds cache.old }
    ensures dirty { AreAllDirty index.new }
    ensures kept { AreKept (V.state volume.new).holds cache.new }
{
    for i in 0..n {
        put(alloc, volume, cache, index, leaf(i))?;
        if i % TURN == 0 {
            index.evict(alloc, volume)?;
        }
    }
    Ok(())
}

// Puts a leaf.
fn put<V: Volume>(
    alloc: Global,
    volume: &mut V,
    cache: &mut NodeCache,
    index: &mut PagedIndex,
    leaf: Leaf,
) -> Result<(), AreaFault>
    requires key { IsKey leaf.key }
    requires dirty { AreAllDirty index.old }
    requires kept { AreKept (V.state volume.old).holds cache.old }
    ensures dirty { AreAllDirty index.new }
    ensures kept { AreKept (V.state volume.new).holds cache.new }
{
    changes_keep_what_stands();
    index.trees_are_sound();
    index.insert(alloc, volume, cache, leaf)?;
    Ok(())
}

// The sum of the places that are found for the first `n` keys.
fn sum_paged<V: Volume>(
    alloc: Global,
    volume: &mut V,
    cache: &mut NodeCache,
    index: &PagedIndex,
    n: u32,
) -> Result<u64, AreaFault>
    requires dirty { AreAllDirty index.now }
    requires kept { AreKept (V.state volume.old).holds cache.old }
{
    let mut sum = 0u64;
    for i in 0..n {
        let key = Key::Ino { ino: mixed(i) };
        if let Some(leaf) = index.find(alloc, volume, cache, &key, 0)? {
            sum = sum.wrapping_add(u64::from(leaf.offs));
        }
    }
    Ok(sum)
}
