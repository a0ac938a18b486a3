// The nodes of a LEB are let go, before the LEB changes.

ghost use Rattle.std.specs.Prelude.{◌≡◌, ◌≢◌, ℕ, List};
ghost use Rattle.node_cache.specs.Kept.{AreKept, beside_leb, kept_in};

use crate::cache::NodeCache;
use lru::LruCache;
use media_sys::IdxNode;

/// The first place in this LEB of which a node is kept.
fn place_in(nodes: &LruCache<(u32, u32, u32), IdxNode>, lnum: u32) -> Option<(u32, u32, u32)>
    ensures { result ≡ kept_in lnum nodes.now.entries }
{
    for (place, _) in nodes.iter() {
        if place.0 == lnum {
            return Some(*place);
        }
    }
    None
}

/// Lets go the nodes of a LEB.
fn let_go(nodes: &mut LruCache<(u32, u32, u32), IdxNode>, lnum: u32)
    ensures rest { nodes.new.entries ≡ beside_leb lnum nodes.old.entries }
    ensures capacity { nodes.new.cap ≡ nodes.old.cap }
{
    while let Some(place) = place_in(nodes, lnum) {
        nodes.pop(&place);
    }
}

impl NodeCache {
    /// Lets go the nodes of a LEB that is about to be written or unmapped. Those of other LEBs stay, in their order.
    pub fn forget(&mut self, lnum: u32)
        ensures rest { self.new.nodes.entries ≡ beside_leb lnum self.old.nodes.entries }
        ensures kept { (old new : ℕ → List ℕ) → ((k : ℕ) → k ≢ lnum → new k ≡ old k) → AreKept old self.old → AreKept new self.new }
    {
        let_go(&mut self.nodes, lnum);
    }
}
