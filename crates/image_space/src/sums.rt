// The bytes of leaves, and the weight of nodes.

ghost use Rattle.std.specs.Prelude.{◌≡◌, ◌+◌, IfOk, sum_by};
ghost use Rattle.fs_model.specs.Cover.{round_8 as rounded};
ghost use Rattle.image_space.specs.Weight.{bytes_of_leaf, node_weight as weight_told, weight_by_lengths};

use index_tree::Leaf;
use media_sys::Branch;
use ubifs_base::{BRANCH_LEN, INDEX_NODE_LEN, Memory};

/// The bytes that leaves take, each length rounded up to 8.
pub(crate) fn bytes_used(leaves: &[Leaf]) -> Result<u64, Memory>
    ensures { IfOk result (λ used. used ≡ sum_by bytes_of_leaf leaves.now) }
{
    let mut used: u64 = 0;
    let mut left = leaves;
    'adding: while let Some((leaf, rest)) = left.split_first() {
        used = added(used, round_8(leaf.len))?;
        left = rest;
    }
    Ok(used)
}

/// The weight of these nodes, and of so many more that are applied to their index.
pub(crate) fn weight_of(fanout: u32, nodes: &[Branch], applied: u64) -> Result<u64, Memory>
    ensures { IfOk result (λ weight. weight ≡ weight_by_lengths fanout nodes.now + applied) }
{
    let mut weight: u64 = 0;
    let mut left = nodes;
    'adding: while let Some((node, rest)) = left.split_first() {
        weight = added(weight, node_weight(fanout, *node))?;
        left = rest;
    }
    let whole = added(weight, applied)?;
    Ok(whole)
}

// What a node of this length weighs: 2 if it has as many branches as it may have, and else 1.
fn node_weight(fanout: u32, node: Branch) -> u64
    ensures { result ≡ weight_told fanout node }
{
    let full = INDEX_NODE_LEN as u64 + BRANCH_LEN as u64 * fanout as u64;
    if node.len as u64 >= full { 2 } else { 1 }
}

// A length, rounded up to 8.
fn round_8(len: u32) -> u64
    ensures { result ≡ rounded len }
{
    (len as u64 + 7) / 8 * 8
}

// A sum of 64 bits.
fn added(a: u64, b: u64) -> Result<u64, Memory>
    ensures { IfOk result (λ sum. sum ≡ a + b) }
{
    match a.checked_add(b) {
        Some(sum) => Ok(sum),
        None => Err(Memory),
    }
}
