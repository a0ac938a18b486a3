// What the leaves show that were found.

ghost use Rattle.std.specs.Prelude.{◌≡◌, List, [], map, IfOk, OnOk};
ghost use Rattle.std.specs.List.{AllByRecursion};
ghost use Rattle.leaf_map.specs.Kept.{Kept};
ghost use Rattle.leaf_map.specs.LeafMap.{IsKeyed};
ghost use Rattle.log_replay.specs.Noting.{Notes, Says};
ghost use Rattle.log_replay.specs.Standing.{StandsForLeaves};
ghost use Rattle.log_replay.specs.Told.{AreLeavesOf, told_leaf};

use crate::application::{Place, at_place, set_place};
use crate::standing::Standing;
use index_tree::Index;
use journal_scan::{JournalNode, NodeContent};
use std::alloc::Global;
use std::collections::BTreeMap;
use ubifs_base::{Key, Memory, r5};

// An index with what its leaves show, of each of which this is told.
pub(crate) fn stand(
    alloc: Global,
    index: Index,
    found: Vec<JournalNode>,
) -> Result<Standing, Memory>
    ensures stands { IfOk result (λ s. (kept : List Kept) → AreLeavesOf kept index found.items → StandsForLeaves kept s) }
    ensures index { IfOk result (λ s. s.index ≡ index) }
{
    let mut standing = stand_empty(alloc, index);
    note_leaves(&mut standing, found)?;
    Ok(standing)
}

// An index of whose leaves nothing is kept.
pub(crate) fn stand_empty(alloc: Global, index: Index) -> Standing
    ensures says { Says [] result }
    ensures index { result.index ≡ index }
{
    Standing {
        index,
        inodes: BTreeMap::new(alloc),
        names: BTreeMap::new(alloc),
    }
}

// Keeps what leaves show, of which nothing was kept before.
fn note_leaves(standing: &mut Standing, found: Vec<JournalNode>) -> Result<(), Memory>
    requires { Says [] standing.old }
    ensures says { OnOk result ((kept : List Kept) → found.items ≡ map told_leaf kept → AllByRecursion IsKeyed kept → Says kept standing.new) }
    ensures index { OnOk result (standing.new.index ≡ standing.old.index) }
{
    let mut left = found;
    'noting: while let Some(node) = left.pop() {
        note_leaf(standing, node)?;
    }
    Ok(())
}

// Keeps what one leaf shows.
pub(crate) fn note_leaf(standing: &mut Standing, node: JournalNode) -> Result<(), Memory>
    ensures notes { OnOk result (Notes node standing.old standing.new) }
    ensures index { standing.new.index ≡ standing.old.index }
{
    let place = Place {
        lnum: node.lnum,
        offs: node.offs,
        len: node.len,
    };
    match node.content {
        NodeContent::Inode { ino, linked } => {
            standing.inodes.insert(ino, linked)?;
            Ok(())
        }
        NodeContent::Entry {
            dir,
            name,
            linked: true,
        } => {
            let hash = r5(name.as_slice());
            let leaf = at_place(Key::Dent { dir, hash }, place);
            set_place(&mut standing.names, dir, name, leaf)?;
            Ok(())
        }
        NodeContent::Entry { linked: false, .. }
        | NodeContent::Block { .. }
        | NodeContent::Truncation { .. }
        | NodeContent::Unknown { .. } => Ok(()),
    }
}
