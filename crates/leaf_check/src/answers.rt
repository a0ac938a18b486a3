// What is told of leaves whose places have these bytes.

ghost use Rattle.std.specs.Prelude.{◌≡◌, ◌<◌, ◌^◌, ℕ, List, IfOk, length};
ghost use Rattle.std.specs.List.{AllZip};
ghost use Rattle.media_leaf.specs.LeafNode.{LeafNode};
ghost use Rattle.leaf_check.specs.Committed.{HasBytes, IsAnswerTo, IsLeafAnswer, nothing_told};
ghost use Rattle.leaf_check.specs.LeafReads.{IsWholeOf};

use crate::leaf_answer::LeafAnswer;
use crate::leaf_bytes::LeafBytes;
use crate::nodes::whole_leaf;
use crate::sound::is_its_node;
use index_tree::Leaf;
use journal_scan::{JournalNode, read_content};
use leb_scan::Found;
use log_replay::CommittedLeaf;
use rayon::prelude::*;
use std::alloc::Global;
use std::thread::Threads;
use ubifs_base::Memory;

// So many leaves at least are worth a thread.
const LEAST_LEAVES: usize = 64;

/// What is told of each of these leaves, in their order. They are looked at side by side.
pub(crate) fn answers_of<R: Threads + Sync>(
    rt: &R,
    alloc: Global,
    reads: &[LeafBytes],
) -> Result<Vec<LeafAnswer>, Memory>
    ensures { IfOk result (λ answers. AllZip IsAnswerTo reads.now answers.items) }
{
    let answers = reads
        .par_iter()
        .with_min_len(LEAST_LEAVES)
        .map(
            |read: &LeafBytes| -> Result<LeafAnswer, Memory>
                ensures { IfOk result (IsAnswerTo read.now) }
            { answer_to(alloc, read) },
        )
        .collect::<Result<Vec<LeafAnswer>, Memory>>(rt, alloc)?;
    answers
}

// What is told of one of them. Here its checksum is computed.
fn answer_to(alloc: Global, read: &LeafBytes) -> Result<LeafAnswer, Memory>
    ensures { IfOk result (IsAnswerTo read.now) }
{
    let Some(bytes) = &read.bytes else {
        return Ok(nothing_at(&read.leaf));
    };
    let Some(found) = whole_leaf(bytes) else {
        return Ok(nothing_at(&read.leaf));
    };
    answer_of(alloc, &read.leaf, found, bytes)
}

// What is told of a leaf at whose place no leaf node stands.
fn nothing_at(leaf: &Leaf) -> LeafAnswer
    ensures { result ≡ nothing_told leaf.now }
{
    LeafAnswer {
        told: CommittedLeaf {
            leaf: *leaf,
            found: None,
        },
        intact: false,
    }
}

// What is told of a leaf at whose place the bytes are this leaf node, all of them. Its checksum isn't computed again for an inode, a
// block or a name.
fn answer_of(alloc: Global, leaf: &Leaf, found: Found, bytes: &[u8]) -> Result<LeafAnswer, Memory>
    requires node { (node : LeafNode) × IsWholeOf bytes.now found node }
    requires len { length bytes.now < 2 ^ 32 }
    ensures { IfOk result (λ answer. (contents : ℕ → List ℕ) → HasBytes contents leaf.now bytes.now → IsLeafAnswer contents leaf.now answer) }
{
    let content = read_content(alloc, found.kind, bytes)?;
    let intact = is_its_node(leaf, found, bytes);
    Ok(LeafAnswer {
        told: CommittedLeaf {
            leaf: *leaf,
            found: Some(JournalNode {
                content,
                sqnum: found.sqnum,
                lnum: leaf.lnum,
                offs: leaf.offs,
                len: leaf.len,
            }),
        },
        intact,
    })
}
