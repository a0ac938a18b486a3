// What nodes take of main LEBs.

ghost use Rattle.std.specs.Prelude.{◌≡◌, ◌+◌, ◌∷◌, [], IfOk, OnOk, map};
ghost use Rattle.index_media.specs.PlacedRow.{branch_to as branch_of, node_end as rounded};
ghost use Rattle.space_check.specs.Sums.{AreAdded, AreSums};

use index_tree::Leaf;
use media_lpt::Lprop;
use media_sys::Branch;
use std::alloc::Global;
use ubifs_base::Memory;

/// The sums of main LEBs, the first of which has this number: free and dirty bytes, and those that leaves and nodes take, each rounded
/// up to 8. None, as where there is no memory, if a sum passes 64 bits.
pub(crate) fn sums_of(
    alloc: Global,
    first: u32,
    props: &[Lprop],
    leaves: &[Leaf],
    nodes: &[Branch],
) -> Result<Vec<u64>, Memory>
    ensures { IfOk result (λ sums. AreSums first props.now leaves.now nodes.now sums.items) }
{
    let mut sums = free_and_dirty(alloc, props)?;
    add_leaves(first, leaves, &mut sums)?;
    add_nodes(first, nodes, &mut sums)?;
    Ok(sums)
}

// The free and dirty bytes of each LEB.
fn free_and_dirty(alloc: Global, props: &[Lprop]) -> Result<Vec<u64>, Memory>
    ensures { IfOk result (λ sums. sums.items ≡ map (λ prop. prop.free + prop.dirty) props.now) }
{
    let mut sums = Vec::new(alloc);
    for prop in props {
        sums.push(prop.free as u64 + prop.dirty as u64)?;
    }
    Ok(sums)
}

// Adds what leaves take.
fn add_leaves(first: u32, leaves: &[Leaf], sums: &mut [u64]) -> Result<(), Memory>
    ensures { OnOk result (AreAdded first sums.old sums.new (map branch_of leaves.now)) }
{
    let mut left = leaves;
    'adding: while let Some((leaf, rest)) = left.split_first() {
        add(first, branch_to(leaf), sums)?;
        left = rest;
    }
    Ok(())
}

// Adds what nodes of the index take.
fn add_nodes(first: u32, nodes: &[Branch], sums: &mut [u64]) -> Result<(), Memory>
    ensures { OnOk result (AreAdded first sums.old sums.new nodes.now) }
{
    let mut left = nodes;
    'adding: while let Some((node, rest)) = left.split_first() {
        add(first, *node, sums)?;
        left = rest;
    }
    Ok(())
}

// Adds what a node takes to the sum of its LEB, if that is a main LEB.
fn add(first: u32, node: Branch, sums: &mut [u64]) -> Result<(), Memory>
    ensures { OnOk result (AreAdded first sums.old sums.new (node ∷ [])) }
{
    if node.lnum < first {
        return Ok(());
    }
    let at = (node.lnum - first) as usize;
    if at >= sums.len() {
        return Ok(());
    }
    let Some(sum) = sums[at].checked_add(node_end(node.len)) else {
        return Err(Memory);
    };
    sums[at] = sum;
    Ok(())
}

// A length, rounded up to 8.
fn node_end(len: u32) -> u64
    ensures { result ≡ rounded len }
{
    (len as u64 + 7) / 8 * 8
}

// The branch that leads to a leaf.
fn branch_to(leaf: &Leaf) -> Branch
    ensures { result ≡ branch_of leaf.now }
{
    Branch {
        lnum: leaf.lnum,
        offs: leaf.offs,
        len: leaf.len,
        key: leaf.key,
    }
}
