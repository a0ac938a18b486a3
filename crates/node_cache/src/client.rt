// Clients of several calls, proved from their contracts alone.

ghost use Rattle.std.specs.Prelude.{◌≡◌, ◌≢◌, ◌<◌, ℕ, All, IfOk, slice_get};
ghost use Rattle.std.specs.Option.{option_or};
ghost use Rattle.index_media.specs.PlacedRow.{PlacedRow, lebs_of, plain};
ghost use Rattle.index_tree.specs.Order.{key_rank, of_rank, first_after};
ghost use Rattle.index_tree.specs.Shape.{contents};
ghost use Rattle.node_cache.specs.Kept.{AreKept};
ghost use Rattle.node_cache.specs.Loaded.{IsIndexOn, IsReadOnlyCall};

use crate::cache::NodeCache;
use index_media::an_index_depends_on_its_lebs_alone;
use index_tree::Leaf;
use media_sys::Branch;
use std::alloc::Global;
use ubi_volume::{AreaFault, Volume};
use ubifs_base::Key;

/// The first leaf of a key, and if there is none, the first one of a greater key: two look-ups of one index, the second with what the
/// first one has kept.
pub fn find_from<V: Volume>(
    alloc: Global,
    volume: &mut V,
    root: &Branch,
    key: &Key,
) -> Result<Option<Leaf>, AreaFault>
    requires index { (fanout : ℕ) × (placed : PlacedRow) × IsIndexOn (V.state volume.old) fanout root.now placed }
    ensures found { (fanout : ℕ) (placed : PlacedRow) → IsIndexOn (V.state volume.old) fanout root.now placed
        → IfOk result (λ found. found ≡ option_or (slice_get (of_rank (key_rank key.now) (contents (plain placed))) 0) (first_after (key_rank key.now) (contents (plain placed)))) }
    ensures reads { IsReadOnlyCall (V.state volume.old) (V.state volume.new) result }
{
    let mut cache = NodeCache::new(alloc)?;
    match cache.find(alloc, volume, root, key, 0)? {
        Some(leaf) => Ok(Some(leaf)),
        None => cache.after(alloc, volume, root, key),
    }
}

/// Unmaps a LEB in which no node of an index stands, and looks a key up then, with what is kept of other LEBs.
pub fn find_after_unmapping<V: Volume>(
    cache: &mut NodeCache,
    alloc: Global,
    volume: &mut V,
    lnum: u32,
    root: &Branch,
    key: &Key,
) -> Result<Option<Leaf>, AreaFault>
    requires lnum { lnum < (V.state volume.old).leb_cnt }
    requires index { (fanout : ℕ) × (placed : PlacedRow) × IsIndexOn (V.state volume.old) fanout root.now placed × All (λ k. k ≢ lnum) (lebs_of placed) }
    requires kept { AreKept (V.state volume.old).holds cache.old }
    ensures found { (fanout : ℕ) (placed : PlacedRow) → IsIndexOn (V.state volume.old) fanout root.now placed → All (λ k. k ≢ lnum) (lebs_of placed)
        → IfOk result (λ found. found ≡ slice_get (of_rank (key_rank key.now) (contents (plain placed))) 0) }
    ensures kept { AreKept (V.state volume.new).holds cache.new }
{
    an_index_depends_on_its_lebs_alone();
    cache.forget(lnum);
    volume.unmap(lnum)?;
    cache.find(alloc, volume, root, key, 0)
}
