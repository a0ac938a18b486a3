// One step of the walk.

ghost use Rattle.std.specs.Prelude.{◌≡◌, ◌+◌, ◌<◌, ◌++◌, OnOk, IfSome, IfNone, map};
ghost use Rattle.ubifs_base.specs.RawOf.{raw_of};
ghost use Rattle.media_sys.specs.Index.{index_of};
ghost use Rattle.index_media.specs.PlacedRow.{leaf_of as leaf_to, node_end};
ghost use Rattle.index_check.specs.IndexWalk.{HasKeys, HasTaken, IsIndexStep, OnlyReads, wanted_of};

use crate::judging::judge_node;
use crate::wanted::{Wanted, push_children, told_branch};
use image_check::{WrongValue, sooner};
use index_tree::Leaf;
use media_lpt::Lprop;
use media_sys::{Branch, IdxNode};
use std::alloc::{AllocError, Global};
use ubi_volume::{AreaFault, Volume};
use ubifs_base::{Geometry, Memory};

/// The nodes that wait, the next one last; the branches of those that were taken, and the leaves below them; what is wrong first; and
/// the bytes of main LEBs that no node has which was taken.
#[derive(Debug, Drop)]
pub(crate) struct IndexWalk {
    pub waiting: Vec<Wanted>,
    pub nodes: Vec<Branch>,
    pub leaves: Vec<Leaf>,
    pub first: Option<WrongValue>,
    pub room: u64,
}

// The leaf to which a branch leads.
fn leaf_of(branch: &Branch) -> Leaf
    ensures { result ≡ leaf_to branch.now }
{
    Leaf {
        key: branch.key,
        lnum: branch.lnum,
        offs: branch.offs,
        len: branch.len,
    }
}

// Adds the leaves to which branches lead.
fn push_leaves(leaves: &mut Vec<Leaf>, branches: &[Branch]) -> Result<(), AllocError>
    ensures { OnOk result (leaves.new.items ≡ leaves.old.items ++ map leaf_to branches.now) }
{
    let mut left = branches;
    'adding: while let Some((branch, rest)) = left.split_first() {
        leaves.push(leaf_of(branch))?;
        left = rest;
    }
    Ok(())
}

// What is left of so many bytes behind a node of a length, which takes them up to the next multiple of 8; none where they are too few.
fn room_behind(room: u64, len: u32) -> Option<u64>
    ensures left { IfSome result (λ left. left + node_end len ≡ room) }
    ensures none { IfNone result (room < node_end len) }
{
    let taken = (len as u64).div_ceil(8) * 8;
    if room < taken {
        return None;
    }
    Some(room - taken)
}

// Takes a node with which nothing is wrong: tells its branch, and its leaves or the nodes that wait below it. Want of memory is told where
// the nodes that were taken have more bytes than the main LEBs, as those of no sound image do.
fn take_node(wanted: &Wanted, node: &IdxNode, walk: &mut IndexWalk) -> Result<(), Memory>
    ensures { OnOk result (HasTaken (wanted_of wanted.now) (index_of node.now) walk.old walk.new) }
{
    let Some(room) = room_behind(walk.room, wanted.branch.len) else {
        return Err(Memory);
    };
    walk.room = room;
    walk.nodes.push(told_branch(wanted, &node.branches))?;
    if node.level == 0 {
        push_leaves(&mut walk.leaves, &node.branches)?;
        return Ok(());
    }
    push_children(
        &mut walk.waiting,
        node.level - 1,
        wanted.most,
        &node.branches,
    )?;
    Ok(())
}

/// Goes to the place where a node is wanted: takes the node, or keeps what is wrong there if it comes first.
pub(crate) fn walk_step<V: Volume>(
    alloc: Global,
    volume: &mut V,
    geometry: &Geometry,
    props: &[Lprop],
    wanted: &Wanted,
    walk: &mut IndexWalk,
) -> Result<(), AreaFault>
    requires { HasKeys wanted.now }
    ensures step { OnOk result (IsIndexStep (V.state volume.old).holds (raw_of geometry.now) props.now (wanted_of wanted.now) walk.old walk.new) }
    ensures reads { OnlyReads (V.state volume.old) (V.state volume.new) result }
{
    match judge_node(alloc, volume, geometry, props, wanted)? {
        Ok(node) => take_node(wanted, &node, walk)?,
        Err(node) => walk.first = sooner(walk.first, Some(node)),
    }
    Ok(())
}
