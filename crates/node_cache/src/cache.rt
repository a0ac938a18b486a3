// The nodes that are kept.

ghost use Rattle.std.specs.Prelude.{◌≡◌};

use lru::LruCache;
use media_sys::IdxNode;

/// Index nodes of a volume by their places: at most 256, those that were used last.
#[derive(Drop)]
pub struct NodeCache {
    pub(crate) nodes: LruCache<(u32, u32, u32), IdxNode>,
    ghost most: { nodes.cap ≡ 256 },
}
