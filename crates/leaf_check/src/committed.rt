// The leaves of the committed index, with what stands at their places.

ghost use Rattle.std.specs.Prelude.{◌≡◌, ◌<◌, ◌≤◌, length, ◌∷◌, ◌++◌, [], All, IfOk, List, OnOk, map};
ghost use Rattle.std.specs.List.{AllByRecursion, AllZip};
ghost use Rattle.std.specs.List.Sorted.{IsPermutation};
ghost use Rattle.ubi_volume.specs.Volume.{Keeps, SameShape};
ghost use Rattle.ubi_volume.specs.Faults.{HasAreaCause, StaysSureArea};
ghost use Rattle.leaf_map.specs.Parts.{Committed};
ghost use Rattle.log_replay.specs.Replay.{told_committed};
ghost use Rattle.log_replay.specs.Settling.{HasGrammar};
ghost use Rattle.sound_image.specs.Leaves.{AreCommitted, HasItsNode};
ghost use Rattle.leaf_check.specs.Committed.{IsLeafAnswer, IsReadFor, intact_leaves};
ghost use Rattle.leaf_check.specs.declared.leaf_answer.LeafAnswer.{LeafAnswer as ALeafAnswer};

use crate::answers::answers_of;
use crate::committed_read::CommittedRead;
use crate::leaf_answer::LeafAnswer;
use crate::leaf_bytes::LeafBytes;
use crate::order::put_in_order;
use crate::reading::{MOST_BYTES, read_bytes};
use index_tree::Leaf;
use log_replay::CommittedLeaf;
use std::alloc::Global;
use std::thread::Threads;
use ubi_volume::{AreaFault, Volume};
use ubifs_base::Memory;

// Nodes of so many bytes are looked at side by side.
const BATCH_BYTES: usize = 4 << 20;

// And so many at most: each has room of its own, which the next batch uses again.
const BATCH_LEAVES: usize = 1 << 13;

/// What is told of the intact leaf node that stands at the place of each of these leaves with its length, if one does, whatever node that
/// is (`ubifs_tnc_read_node` of Linux fs/ubifs); and leaves of them whose place has their own node. Nothing is asked of the leaves: outside
/// the volume stands none, and none is longer than 4,256 bytes, of which no more are read for a leaf. The leaves are read one after
/// another, and what was read is looked at side by side. Takes memory for what is told, for the leaves once more, and for 4 MiB of nodes.
pub fn read_committed<R: Threads + Sync, V: Volume>(
    rt: &R,
    alloc: Global,
    volume: &mut V,
    leaves: &[Leaf],
) -> Result<CommittedRead, AreaFault>
    ensures read { IfOk result (λ found. (committed : List Committed) × AreCommitted (V.state volume.old).holds leaves.now committed × AllByRecursion HasGrammar committed × (found.leaves.items ≡ map told_committed committed)) }
    ensures intact { IfOk result (λ found. All (HasItsNode (V.state volume.old).holds) found.intact.items) }
    ensures keeps { Keeps (V.state volume.old) (V.state volume.new) × SameShape (V.state volume.old) (V.state volume.new) }
    ensures cause { HasAreaCause (V.state volume.old).faults (V.state volume.new).faults result }
    ensures sure { StaysSureArea (V.state volume.old) (V.state volume.new) result }
{
    let mut committed = Vec::new(alloc);
    let mut intact = Vec::new(alloc);
    let mut spare = Vec::new(alloc);
    let mut left = leaves;
    'reading: while !left.is_empty() {
        let (batch, rest) = left.split_at(batch_of(left));
        let answers = read_batch(rt, alloc, volume, batch, &mut spare)?;
        keep_answers(&mut committed, &mut intact, answers)?;
        left = rest;
    }
    Ok(ordered(CommittedRead {
        leaves: committed,
        intact,
    }))
}

// How many of some leaves are read before what was read is looked at: one at least, and no more once they are enough, or their nodes have
// enough bytes.
fn batch_of(leaves: &[Leaf]) -> usize
    ensures most { result ≤ length leaves.now }
    ensures least { 0 < length leaves.now → 0 < result }
{
    let mut count = 0;
    let mut bytes = 0;
    for leaf in leaves {
        count += 1;
        bytes += leaf.len.min(MOST_BYTES) as usize;
        if bytes >= BATCH_BYTES || count >= BATCH_LEAVES {
            return count;
        }
    }
    count
}

// What was read, with the leaves that are intact in order of place.
fn ordered(read: CommittedRead) -> CommittedRead
    ensures leaves { result.leaves.items ≡ read.leaves.items }
    ensures intact { IsPermutation read.intact.items result.intact.items }
{
    let mut intact = read.intact;
    put_in_order(&mut intact);
    CommittedRead {
        leaves: read.leaves,
        intact,
    }
}

// Keeps what is told of leaves, and those of them that are intact.
fn keep_answers(
    committed: &mut Vec<CommittedLeaf>,
    intact: &mut Vec<Leaf>,
    answers: Vec<LeafAnswer>,
) -> Result<(), Memory>
    ensures committed { OnOk result (committed.new.items ≡ committed.old.items ++ map (λ (answer : ALeafAnswer). answer.told) answers.items) }
    ensures intact { OnOk result (intact.new.items ≡ intact.old.items ++ intact_leaves answers.items) }
{
    'keeping: for answer in answers {
        keep_intact(intact, &answer)?;
        committed.push(answer.told)?;
    }
    Ok(())
}

// Keeps a leaf that is intact.
fn keep_intact(intact: &mut Vec<Leaf>, answer: &LeafAnswer) -> Result<(), Memory>
    ensures { OnOk result (intact.new.items ≡ intact.old.items ++ intact_leaves (answer.now ∷ [])) }
{
    if answer.intact {
        intact.push(answer.told.leaf)?;
    }
    Ok(())
}

// What is told of each of these leaves, in their order. The rooms of those before are used again.
fn read_batch<R: Threads + Sync, V: Volume>(
    rt: &R,
    alloc: Global,
    volume: &mut V,
    leaves: &[Leaf],
    spare: &mut Vec<Vec<u8>>,
) -> Result<Vec<LeafAnswer>, AreaFault>
    ensures read { IfOk result (λ answers. AllZip (IsLeafAnswer (V.state volume.old).holds) leaves.now answers.items) }
    ensures keeps { Keeps (V.state volume.old) (V.state volume.new) }
    ensures shape { SameShape (V.state volume.old) (V.state volume.new) }
    ensures cause { HasAreaCause (V.state volume.old).faults (V.state volume.new).faults result }
    ensures sure { StaysSureArea (V.state volume.old) (V.state volume.new) result }
{
    let reads = read_places(alloc, volume, leaves, spare)?;
    let answers = answers_of(rt, alloc, &reads)?;
    keep_rooms(spare, reads)?;
    Ok(answers)
}

// Keeps the rooms of what was read for what is read next.
fn keep_rooms(spare: &mut Vec<Vec<u8>>, reads: Vec<LeafBytes>) -> Result<(), Memory> {
    for read in reads {
        let bytes = read.bytes;
        if let Some(room) = bytes {
            spare.push(room)?;
        }
    }
    Ok(())
}

// The bytes at the place of each of them.
fn read_places<V: Volume>(
    alloc: Global,
    volume: &mut V,
    leaves: &[Leaf],
    spare: &mut Vec<Vec<u8>>,
) -> Result<Vec<LeafBytes>, AreaFault>
    ensures read { IfOk result (λ reads. AllZip (IsReadFor (V.state volume.old).holds) leaves.now reads.items) }
    ensures keeps { Keeps (V.state volume.old) (V.state volume.new) }
    ensures shape { SameShape (V.state volume.old) (V.state volume.new) }
    ensures cause { HasAreaCause (V.state volume.old).faults (V.state volume.new).faults result }
    ensures sure { StaysSureArea (V.state volume.old) (V.state volume.new) result }
{
    let mut reads = Vec::new(alloc);
    let mut left = leaves;
    'reading: while let Some((leaf, rest)) = left.split_first() {
        let read = read_bytes(alloc, volume, leaf, spare)?;
        reads.push(read)?;
        left = rest;
    }
    Ok(reads)
}
