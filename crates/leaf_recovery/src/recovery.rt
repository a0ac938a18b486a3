// What a mount makes of what it has read.

ghost use Rattle.std.specs.Prelude.{◌≡◌, IfOk};
ghost use Rattle.leaf_map.specs.Parts.{Parts};
ghost use Rattle.leaf_recovery.specs.Applied.{leaves_left_told};
ghost use Rattle.leaf_recovery.specs.Recovery.{empty_names_told, missing_told, recovered_told, repeated_told};
ghost use Rattle.leaf_recovery.specs.Told.{AreTold, IsRecoveredFrom};

use crate::after_nodes::leaves_after;
use crate::copies::spare_copies;
use crate::found::find_leaves;
use crate::lost::{empty_leaves, missing_leaves};
use crate::moved::move_leaves;
use crate::orphans::{drop_listed, listed_left};
use crate::recovered_leaf::{RecoveredLeaf, RecoveredLeaves};
use crate::repeated::repeated_leaves;
use journal_scan::JournalNode;
use log_replay::CommittedLeaf;
use media_sys::RefNode;
use std::alloc::Global;
use ubifs_base::Memory;

/// What recovery makes of the committed leaves in order with what stands at the place of each, the references of the log, the nodes
/// of the journal in order of number, the collector's copies in order of the log, and the list of orphans (Hunter 2008, "The journal";
/// `ubifs_replay_journal` of Linux fs/ubifs). Nothing is asked of them but that they are told of nodes of the grammar. It takes
/// memory for a fixed multiple of what is given; the error is want of it. Of n leaves in the order of their keys m nodes take work that
/// grows as (n + m) log n; if the leaves aren't, or many of one key are, it may grow as n times m. For each copy and each listed inode
/// all leaves are looked at, and for each leaf all references; where there is none of them, a leaf takes look-ups in maps.
pub fn recover(
    alloc: Global,
    committed: &[CommittedLeaf],
    references: &[RefNode],
    nodes: &[JournalNode],
    copies: &[JournalNode],
    listed: &[u32],
) -> Result<RecoveredLeaves, Memory>
    ensures { IfOk result (λ made. (parts : Parts) → AreTold parts committed.now references.now nodes.now copies.now listed.now → IsRecoveredFrom parts made) }
{
    let made = recover_told(alloc, committed, references, nodes, copies, listed)?;
    Ok(made)
}

// The same by what is told.
fn recover_told(
    alloc: Global,
    committed: &[CommittedLeaf],
    references: &[RefNode],
    nodes: &[JournalNode],
    copies: &[JournalNode],
    listed: &[u32],
) -> Result<RecoveredLeaves, Memory>
    ensures kept { IfOk result (λ made. made.kept.items ≡ recovered_told references.now committed.now nodes.now copies.now listed.now) }
    ensures missing { IfOk result (λ made. made.missing.items ≡ missing_told references.now committed.now nodes.now copies.now) }
    ensures empty { IfOk result (λ made. made.empty.items ≡ empty_names_told references.now committed.now nodes.now copies.now) }
    ensures repeated { IfOk result (λ made. made.repeated.items ≡ repeated_told references.now committed.now copies.now) }
{
    let spare = spare_copies(alloc, references, committed, copies)?;
    let found = find_leaves(alloc, references, committed, nodes, spare)?;
    let repeated = repeated_leaves(alloc, found.leaves.as_slice())?;
    let empty = empty_leaves(alloc, found.lost.as_slice())?;
    let missing = missing_leaves(
        alloc,
        references,
        committed,
        found.leaves.as_slice(),
        found.lost.as_slice(),
        nodes,
    )?;
    let orphans = listed_left(alloc, references, committed, listed)?;
    let left = leaves_left(alloc, found.leaves, nodes, &orphans)?;
    let kept = move_leaves(alloc, references, copies, left)?;
    Ok(RecoveredLeaves {
        kept,
        missing,
        empty,
        repeated,
    })
}

// The leaves after the nodes, without the listed orphans.
fn leaves_left(
    alloc: Global,
    found: Vec<RecoveredLeaf>,
    nodes: &[JournalNode],
    listed: &[u32],
) -> Result<Vec<RecoveredLeaf>, Memory>
    ensures { IfOk result (λ left. left.items ≡ leaves_left_told found.items nodes.now listed.now) }
{
    let mut kept = leaves_after(alloc, found, nodes)?;
    drop_listed(&mut kept, listed);
    Ok(kept)
}
