// An index node is read from a volume.

ghost use Rattle.std.specs.Prelude.{◌≡◌, ◌<◌, ◌≤◌, ℕ, IfOk, length};
ghost use Rattle.index_media.specs.Stored.{IsIndexNodeAt};
ghost use Rattle.media_sys.specs.Index.{Index as AnIndexNode, index_of};
ghost use Rattle.media_sys.specs.SystemNode.{IsSystemNode, index};
ghost use Rattle.node_cache.specs.Loaded.{IsReadOnlyCall};

use media_sys::{Branch, IdxNode, one_node};
use std::alloc::Global;
use ubi_volume::{AreaFault, Volume};
use ubifs_base::Memory;

/// The index node that bytes are. Bytes that are none are answered as want of memory: no caller hands such.
fn decoded(alloc: Global, bytes: &[u8]) -> Result<IdxNode, Memory>
    ensures said { (sqnum group : ℕ) (said : AnIndexNode) → IsSystemNode bytes.now sqnum group (index said) → IfOk result (λ node. index_of node ≡ said) }
    ensures few { IfOk result (λ node. length node.branches.items ≤ 256) }
{
    one_node();
    match IdxNode::decode(alloc, bytes)? {
        None => Err(Memory),
        Some(node) => Ok(node),
    }
}

/// Reads the index node to which a branch leads.
pub fn read_node<V: Volume>(
    alloc: Global,
    volume: &mut V,
    branch: &Branch,
) -> Result<IdxNode, AreaFault>
    requires lnum { branch.now.lnum < (V.state volume.old).leb_cnt }
    requires node { (said : AnIndexNode) × IsIndexNodeAt (V.state volume.old).holds branch.now said }
    ensures said { (said : AnIndexNode) → IsIndexNodeAt (V.state volume.old).holds branch.now said → IfOk result (λ node. index_of node ≡ said) }
    ensures few { IfOk result (λ node. length node.branches.items ≤ 256) }
    ensures reads { IsReadOnlyCall (V.state volume.old) (V.state volume.new) result }
{
    let mut bytes = vec![in alloc; 0; branch.len as usize]?;
    volume.read(branch.lnum, branch.offs, &mut bytes)?;
    let node = decoded(alloc, &bytes)?;
    Ok(node)
}
