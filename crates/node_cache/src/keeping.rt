// A node is taken out of those that are kept, and given back.

ghost use Rattle.std.specs.Prelude.{◌≡◌, ◌<◌, ◌≤◌, ℕ, List, [], IfOk, IfSome, length};
ghost use Rattle.index_media.specs.Stored.{IsIndexNodeAt};
ghost use Rattle.media_sys.specs.Index.{Index as AnIndexNode, index_of};
ghost use Rattle.node_cache.specs.Kept.{AreKept, IsIndexNodeOf, branch_place};
ghost use Rattle.node_cache.specs.Loaded.{IsReadOnlyCall};

use crate::cache::NodeCache;
use crate::reading::read_node;
use lru::LruCache;
use media_sys::{Branch, IdxNode};
use std::alloc::Global;
use std::num::NonZeroUsize;
use ubi_volume::{AreaFault, Volume};
use ubifs_base::Memory;

// So many nodes are kept.
const MOST_NODES: usize = 256;

/// A copy of a node.
fn copied(alloc: Global, node: &IdxNode) -> Result<IdxNode, Memory>
    ensures { IfOk result (λ made. index_of made ≡ index_of node.now) }
{
    let mut branches = Vec::new(alloc);
    branches.extend_from_slice(node.branches.as_slice())?;
    Ok(IdxNode {
        level: node.level,
        branches,
    })
}

impl NodeCache {
    /// No node.
    pub fn new(alloc: Global) -> Result<NodeCache, Memory>
        ensures none { IfOk result (λ made. made.nodes.entries ≡ []) }
        ensures kept { IfOk result (λ made. (contents : ℕ → List ℕ) → AreKept contents made) }
    {
        match NonZeroUsize::new(MOST_NODES) {
            Some(most) => Ok(NodeCache {
                nodes: LruCache::sparse(alloc, most)?,
            }),
            None => Err(Memory),
        }
    }

    /// How many nodes are kept.
    pub fn len(&self) -> usize
        ensures len { result ≡ length self.now.nodes.entries }
        ensures most { result ≤ 256 }
    {
        self.nodes.len()
    }

    /// Lets all nodes go.
    pub fn clear(&mut self)
        ensures none { self.new.nodes.entries ≡ [] }
        ensures kept { (contents : ℕ → List ℕ) → AreKept contents self.new }
    {
        self.nodes.clear();
    }

    /// Takes the node to which a branch leads out, if it is kept.
    fn take_kept(&mut self, branch: &Branch) -> Option<IdxNode>
        ensures node { (contents : ℕ → List ℕ) → AreKept contents self.old → IfSome result (IsIndexNodeOf contents (branch_place branch.now)) }
        ensures kept { (contents : ℕ → List ℕ) → AreKept contents self.old → AreKept contents self.new }
    {
        self.nodes.pop(&(branch.lnum, branch.offs, branch.len))
    }

    /// Takes the node to which a branch leads out, or reads it.
    pub(crate) fn take<V: Volume>(
        &mut self,
        alloc: Global,
        volume: &mut V,
        branch: &Branch,
    ) -> Result<IdxNode, AreaFault>
        requires lnum { branch.now.lnum < (V.state volume.old).leb_cnt }
        requires node { (said : AnIndexNode) × IsIndexNodeAt (V.state volume.old).holds branch.now said }
        requires kept { AreKept (V.state volume.old).holds self.old }
        ensures said { (said : AnIndexNode) → IsIndexNodeAt (V.state volume.old).holds branch.now said → IfOk result (λ node. index_of node ≡ said) }
        ensures few { IfOk result (λ node. length node.branches.items ≤ 256) }
        ensures reads { IsReadOnlyCall (V.state volume.old) (V.state volume.new) result }
        ensures kept { AreKept (V.state volume.new).holds self.new }
    {
        match self.take_kept(branch) {
            Some(node) => Ok(node),
            None => read_node(alloc, volume, branch),
        }
    }

    /// The node to which a branch leads, of those that are kept, or read and kept then: the one that was used last. What is answered is
    /// a copy of it.
    ///
    /// `Memory` and `Volume` are the faults.
    pub fn node<V: Volume>(
        &mut self,
        alloc: Global,
        volume: &mut V,
        branch: &Branch,
    ) -> Result<IdxNode, AreaFault>
        requires lnum { branch.now.lnum < (V.state volume.old).leb_cnt }
        requires node { (said : AnIndexNode) × IsIndexNodeAt (V.state volume.old).holds branch.now said }
        requires kept { AreKept (V.state volume.old).holds self.old }
        ensures said { (said : AnIndexNode) → IsIndexNodeAt (V.state volume.old).holds branch.now said → IfOk result (λ node. index_of node ≡ said) }
        ensures reads { IsReadOnlyCall (V.state volume.old) (V.state volume.new) result }
        ensures kept { AreKept (V.state volume.new).holds self.new }
    {
        let node = self.take(alloc, volume, branch)?;
        let copy = copied(alloc, &node);
        self.keep(branch, node);
        Ok(copy?)
    }

    /// The level of the node to which a branch leads.
    pub(crate) fn level_at<V: Volume>(
        &mut self,
        alloc: Global,
        volume: &mut V,
        branch: &Branch,
    ) -> Result<u16, AreaFault>
        requires lnum { branch.now.lnum < (V.state volume.old).leb_cnt }
        requires node { (said : AnIndexNode) × IsIndexNodeAt (V.state volume.old).holds branch.now said }
        requires kept { AreKept (V.state volume.old).holds self.old }
        ensures level { (said : AnIndexNode) → IsIndexNodeAt (V.state volume.old).holds branch.now said → IfOk result (λ level. level ≡ said.level) }
        ensures reads { IsReadOnlyCall (V.state volume.old) (V.state volume.new) result }
        ensures kept { AreKept (V.state volume.new).holds self.new }
    {
        let node = self.take(alloc, volume, branch)?;
        let level = node.level;
        self.keep(branch, node);
        Ok(level)
    }

    /// Keeps the node to which a branch leads, as the one that was used last. If there is no memory, it isn't kept.
    pub(crate) fn keep(&mut self, branch: &Branch, node: IdxNode)
        ensures kept { (contents : ℕ → List ℕ) → AreKept contents self.old → IsIndexNodeOf contents (branch_place branch.now) node → AreKept contents self.new }
    {
        match self.nodes.put((branch.lnum, branch.offs, branch.len), node) {
            Ok(_) => (),
            Err(_) => (),
        }
    }
}
