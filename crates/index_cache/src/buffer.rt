// Memory for one index node.

ghost use Rattle.std.specs.Prelude.{◌≤◌, vec_capacity};

use media_sys::IdxNode;
use std::alloc::Global;
use ubifs_base::Memory;

// The most branches that an index node has.
const MOST_BRANCHES: usize = 256;

/// Memory for one index node: whoever has it writes one node after another, and takes no more memory for that.
#[derive(Drop)]
pub struct NodeBuffer {
    pub(crate) node: IdxNode,
    ghost room: { 256 ≤ vec_capacity node.branches },
}

impl NodeBuffer {
    /// Takes the memory: for as many branches as an index node may have.
    pub fn new(alloc: Global) -> Result<NodeBuffer, Memory> {
        let branches = Vec::with_capacity(alloc, MOST_BRANCHES)?;
        let node = IdxNode { level: 0, branches };
        Ok(NodeBuffer { node })
    }
}
