// The index with the leaves where they were found, and what these show.

ghost use Rattle.std.specs.Prelude.{◌≡◌, List, OnOk};
ghost use Rattle.log_replay.specs.Changes.{IsHeavier};
ghost use Rattle.log_replay.specs.Placing.{ArePlaced, AreSettled, LeafFound, Places, moved_to};
ghost use Rattle.log_replay.specs.Standing.{leaves_in};

use crate::application::{Place, at_place};
use crate::index_calls::{is_key, swap_leaf};
use crate::noting::note_leaf;
use crate::read_leaf::ReadLeaf;
use crate::standing::Standing;
use crate::thing::place_of;
use index_tree::Leaf;
use ubifs_base::Memory;

// Puts each leaf where its node was found, takes out the names that nobody can read, and keeps what the others show.
pub(crate) fn place_leaves(standing: &mut Standing, settled: Vec<ReadLeaf>) -> Result<(), Memory>
    ensures placed { OnOk result ((found : List LeafFound) → AreSettled found standing.old settled.items → ArePlaced found standing.new) }
    ensures weight { IsHeavier 0 standing.old standing.new }
{
    let mut left = settled;
    'placing: while let Some(read) = left.pop() {
        place_leaf(standing, read)?;
    }
    Ok(())
}

// Puts a leaf where its node was found.
fn place_leaf(standing: &mut Standing, read: ReadLeaf) -> Result<(), Memory>
    ensures places { OnOk result (Places read standing.old standing.new) }
    ensures weight { IsHeavier 0 standing.old standing.new }
{
    let leaf = read.leaf;
    let Some(node) = read.node else {
        standing.index.remove(&leaf);
        return Ok(());
    };
    move_leaf(standing, &leaf, place_of(&node));
    note_leaf(standing, node)?;
    Ok(())
}

// Puts a leaf at a place, where it may stand already.
fn move_leaf(standing: &mut Standing, leaf: &Leaf, place: Place)
    ensures leaves { leaves_in standing.new ≡ moved_to place leaf.now (leaves_in standing.old) }
    ensures inodes { standing.new.inodes ≡ standing.old.inodes }
    ensures names { standing.new.names ≡ standing.old.names }
    ensures weight { IsHeavier 0 standing.old standing.new }
{
    if !is_key(leaf.key) {
        return;
    }
    if at_place(leaf.key, place) != *leaf {
        swap_leaf(&mut standing.index, leaf, place);
    }
}
