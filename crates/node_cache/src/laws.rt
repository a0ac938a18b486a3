// How long nodes that are kept are good.

ghost use Rattle.std.specs.Prelude.{◌≡◌, ℕ, List, Contains};
ghost use Rattle.media_sys.specs.declared.idx_node.IdxNode.{IdxNode as ANode};
ghost use Rattle.node_cache.specs.Kept.{AreKept};
ghost use Rattle.node_cache.specs.declared.cache.NodeCache.{NodeCache as ACache};

/// Nodes that are kept are good as long as their LEBs hold what they held, whatever others hold.
pub fn kept_nodes_stay()
    ensures { (old new : ℕ → List ℕ) (cache : ACache) → ((place : ℕ × ℕ × ℕ) (node : ANode) → Contains cache.nodes.entries (place, node) → new place.0 ≡ old place.0)
        → AreKept old cache → AreKept new cache }
{}
