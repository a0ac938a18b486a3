// The root of an index is read from a volume.

ghost use Rattle.std.specs.Prelude.{◌≡◌, ◌<◌, [], ◌∷◌, IfOk, map, take};
ghost use Rattle.index_media.specs.Stored.{IsIndexNodeAt};
ghost use Rattle.media_sys.specs.Index.{Index as AnIndexNode};
ghost use Rattle.ubifs_base.specs.Key.{IsKey};
ghost use Rattle.ubifs_base.specs.declared.key.Key.{Key as AKey};
ghost use Rattle.index_cache.specs.Loaded.{root_at};
ghost use Rattle.node_cache.specs.Loaded.{IsReadOnlyCall};

use media_sys::Branch;
use node_cache::read_node;
use std::alloc::Global;
use table_nodes::NodePlace;
use ubi_volume::{AreaFault, Volume};
use ubifs_base::Key;

/// Reads the branch to the root that stands at a place (`root_lnum`, `root_offs` and `root_len` of `struct ubifs_mst_node`).
/// Its key is that of the root's first branch, since no branch of a parent gives it one.
pub fn read_root<V: Volume>(
    alloc: Global,
    volume: &mut V,
    place: &NodePlace,
) -> Result<Branch, AreaFault>
    requires lnum { place.now.lnum < (V.state volume.old).leb_cnt }
    requires node { (key : AKey) × (said : AnIndexNode) × IsIndexNodeAt (V.state volume.old).holds (root_at place.now key) said }
    ensures place { IfOk result (λ root. root ≡ root_at place.now root.key) }
    ensures first { (key : AKey) (said : AnIndexNode) → IsIndexNodeAt (V.state volume.old).holds (root_at place.now key) said
        → IfOk result (λ root. map (λ branch. branch.key) (take 1 said.branches) ≡ root.key ∷ []) }
    ensures key { IfOk result (λ root. IsKey root.key) }
    ensures reads { IsReadOnlyCall (V.state volume.old) (V.state volume.new) result }
{
    let root = Branch {
        lnum: place.lnum,
        offs: place.offs,
        len: place.len,
        key: Key::Ino { ino: 0 },
    };
    let node = read_node(alloc, volume, &root)?;
    match node.branches.as_slice().split_first() {
        None => Err(AreaFault::Memory),
        Some((first, _)) => Ok(Branch {
            lnum: place.lnum,
            offs: place.offs,
            len: place.len,
            key: first.key,
        }),
    }
}
