// What a mount recovers.

ghost use Rattle.std.specs.Prelude.{◌≡◌, ◌+◌, ◌≤◌, length, List, IfOk};
ghost use Rattle.std.specs.List.{AllByRecursion};
ghost use Rattle.index_tree.specs.Shape.{contents, shape_weight};
ghost use Rattle.index_tree.specs.Tree.{shape};
ghost use Rattle.leaf_map.specs.Parts.{Named, Parts};
ghost use Rattle.leaf_map.specs.Recovered.{leaves_left, recovered_of};
ghost use Rattle.journal_scan.specs.Journal.{IsReadable};
ghost use Rattle.log_replay.specs.Changes.{HasBlockKey};
ghost use Rattle.log_replay.specs.Named.{IsNamed};
ghost use Rattle.log_replay.specs.Replay.{AreFound, CanFind, CanRecover, IsReplayed, highest_of};
ghost use Rattle.log_replay.specs.Standing.{leaves};
ghost use Rattle.log_replay.specs.Told.{IsToldBy};

use crate::candidate::Candidate;
use crate::committed_leaf::CommittedLeaf;
use crate::copies::by_rank;
use crate::laws::journals_can_be_applied;
use crate::listed::drop_listed;
use crate::moving::{candidates_of, move_leaves};
use crate::named::named_lebs;
use crate::nodes::apply_nodes;
use crate::noting::{stand, stand_empty};
use crate::placing::place_leaves;
use crate::read_leaf::ReadLeaf;
use crate::reading::read_leaves;
use crate::replayed::Replayed;
use crate::settling::{drop_owned, settle};
use crate::spared::unspared;
use crate::thing::number_of;
use index_tree::Index;
use journal_scan::{BudText, JournalNode, read_journal};
use std::alloc::Global;
use std::collections::BTreeMap;
use ubifs_base::Memory;

/// The index after the nodes of the journal and without the orphans that are listed and have no links, given the index of
/// the leaves that were found, what is said of each of these in order, the nodes in order of number, and the list without the inodes
/// whose own node has links although nobody knows their kind. `Memory` consumes the index, `found` and `nodes`.
pub fn replay_nodes(
    alloc: Global,
    index: Index,
    found: Vec<JournalNode>,
    nodes: Vec<JournalNode>,
    listed: &[u32],
) -> Result<Index, Memory>
    requires { AllByRecursion HasBlockKey nodes.items }
    ensures leaves { IfOk result (λ made. (parts : Parts) → IsToldBy parts index found.items nodes.items listed.now → contents (shape made.root) ≡ leaves (leaves_left parts)) }
    ensures weight { IfOk result (λ made. shape_weight index.fanout (shape made.root) ≤ shape_weight index.fanout (shape index.root) + length nodes.items) }
    ensures fanout { IfOk result (λ made. made.fanout ≡ index.fanout) }
{
    let mut standing = stand(alloc, index, found)?;
    apply_nodes(alloc, &mut standing, nodes)?;
    drop_listed(&mut standing, listed);
    Ok(standing.index)
}

/// What a mount recovers of the committed index, its leaves in order with what stands at the place of each, the texts of the LEBs
/// in the order in which the log first names them, and the list of orphans. `Memory` consumes the index and the leaves, and nothing
/// else.
pub fn replay(
    alloc: Global,
    committed: Index,
    leaves: Vec<CommittedLeaf>,
    buds: &[BudText],
    listed: &[u32],
) -> Result<Replayed, Memory>
    requires { AllByRecursion IsReadable buds.now }
    ensures recovered { IfOk result (IsReplayed committed leaves.items buds.now listed.now) }
    ensures weight { IfOk result (λ made. shape_weight committed.fanout (shape made.index.root) ≤ shape_weight committed.fanout (shape committed.root) + made.nodes) }
    ensures fanout { IfOk result (λ made. made.index.fanout ≡ committed.fanout) }
{
    journals_can_be_applied();
    let highest = highest_of(&leaves);
    let named = named_lebs(alloc, buds)?;
    let left = unspared(alloc, &leaves, &named, listed)?;
    let read = read_journal(alloc, buds)?;
    let nodes = read.nodes.len() as u64;
    let found = find_leaves(alloc, leaves, &named, read.copies)?;
    let index = recover(alloc, committed, found, read.nodes, &left)?;
    Ok(Replayed {
        index,
        nodes,
        highest: highest.max(read.highest),
        sqnum: read.sqnum,
        tails: read.tails,
    })
}

// The greatest inode number in the keys of leaves, or 0.
fn highest_of(leaves: &[CommittedLeaf]) -> u32
    ensures { result ≡ highest_of leaves.now }
{
    let mut most = 0;
    for leaf in leaves {
        most = most.max(number_of(&leaf.leaf.key));
    }
    most
}

// The leaves where they are found, and those of them that may stand at their copies after all.
#[derive(Drop)]
struct FoundLeaves {
    settled: Vec<ReadLeaf>,
    candidates: Vec<Candidate>,
}

// Finds the committed leaves: each at its own node, or at its copy.
fn find_leaves(
    alloc: Global,
    leaves: Vec<CommittedLeaf>,
    named: &BTreeMap<u32, u32>,
    copies: Vec<JournalNode>,
) -> Result<FoundLeaves, Memory>
    ensures { IfOk result (λ found. (parts : Parts) (references : List Named) → IsNamed references named.now → CanFind parts leaves.items references copies.items → AreFound parts found.settled.items found.candidates.items) }
{
    let mut ranked = by_rank(alloc, copies)?;
    let reads = read_leaves(alloc, leaves, named, &ranked)?;
    drop_owned(alloc, &reads, &mut ranked)?;
    let settled = settle(alloc, reads, ranked)?;
    let candidates = candidates_of(alloc, &settled, named)?;
    Ok(FoundLeaves {
        settled,
        candidates,
    })
}

// The index after the nodes, without listed orphans, and with the leaves of each LEB at originals or at copies.
fn recover(
    alloc: Global,
    index: Index,
    found: FoundLeaves,
    nodes: Vec<JournalNode>,
    listed: &[u32],
) -> Result<Index, Memory>
    requires { AllByRecursion HasBlockKey nodes.items }
    ensures leaves { IfOk result (λ made. (parts : Parts) → CanRecover parts index nodes.items listed.now → AreFound parts found.settled.items found.candidates.items → contents (shape made.root) ≡ leaves (recovered_of parts).kept) }
    ensures weight { IfOk result (λ made. shape_weight index.fanout (shape made.root) ≤ shape_weight index.fanout (shape index.root) + length nodes.items) }
    ensures fanout { IfOk result (λ made. made.fanout ≡ index.fanout) }
{
    let mut standing = stand_empty(alloc, index);
    place_leaves(&mut standing, found.settled)?;
    apply_nodes(alloc, &mut standing, nodes)?;
    drop_listed(&mut standing, listed);
    move_leaves(alloc, &mut standing.index, &found.candidates)?;
    Ok(standing.index)
}
