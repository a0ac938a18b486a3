// Commits in steps, with changes and look-ups between, of an index of nodes with at most three children.

ghost use Rattle.std.specs.Prelude.{IfSome, IsTrue};
ghost use Rattle.node_table.specs.Changing.{IsChange};
ghost use Rattle.index_tests.specs.Standing.{RunsInLebsBefore};

use crate::mounted_index_tests::{FIRST, MOST, SHAPE, are_found, branches_at, geometry, leaf_of};
use media_sys::Branch;
use mounted_index::MountedIndex;
use node_table::Change;
use std::alloc::Global;
use ubi_volume::{MemVolume, Volume};
use ubifs_base::{Geometry, Key};

// A turn of a test while a commit runs, and what it should answer. Leaves are told by their inodes.
#[derive(Clone, Copy)]
enum Turn {
    // Puts a leaf.
    Put(u32),
    // Puts so many leaves, from this one on, in order.
    PutAll(u32, u32),
    // Takes a leaf out.
    Take(u32),
    // All leaves.
    All(&'static [u32]),
    // Takes a step to the next LEB: where the next node could go, and how many bytes the nodes take.
    Step(u32, u32),
    // Ends the commit, which has no root, and begins the next one, of so many nodes.
    NextOfNone(u64),
    // The same of one whose root is at a LEB and an offset, with a length; and whether the index was on the volume alone.
    Next(u32, u32, u32, bool, u64),
}

// What a commit ended with: its root, and whether the index was on the volume alone. How many nodes the next one has.
#[derive(Clone, Copy)]
struct Renewal {
    root: Option<Branch>,
    alone: bool,
    nodes: u64,
}

// The change of a turn, if it makes one.
fn change_of(turn: Turn) -> Option<Change>
    ensures { IfSome result IsChange }
{
    match turn {
        Turn::Put(ino) => Some(Change::Insert(leaf_of(ino))),
        Turn::Take(ino) => Some(Change::Remove(leaf_of(ino))),
        _ => None,
    }
}

// Makes a change beside the commit.
fn is_made_beside<V: Volume>(
    alloc: Global,
    volume: &mut V,
    geometry: &Geometry,
    index: &mut MountedIndex,
    next: u32,
    change: Change,
) -> bool
    requires change { IsChange change }
    requires running { RunsInLebsBefore geometry.now (V.state volume.old) index.old next }
    ensures { IsTrue result → RunsInLebsBefore geometry.now (V.state volume.new) index.new next }
{
    let changes: &[Change] = &[change];
    match index.change(alloc, volume, changes) {
        Ok(()) => true,
        Err(_) => false,
    }
}

// Puts so many leaves beside the commit.
fn are_put_beside<V: Volume>(
    alloc: Global,
    volume: &mut V,
    geometry: &Geometry,
    index: &mut MountedIndex,
    next: u32,
    ino: u32,
    count: u32,
) -> bool
    requires running { RunsInLebsBefore geometry.now (V.state volume.old) index.old next }
    ensures { IsTrue result → RunsInLebsBefore geometry.now (V.state volume.new) index.new next }
{
    if count == 0 {
        return true;
    }
    let change = Change::Insert(leaf_of(ino));
    if !is_made_beside(alloc, volume, geometry, index, next, change) {
        return false;
    }
    are_put_beside(
        alloc,
        volume,
        geometry,
        index,
        next,
        ino.wrapping_add(1),
        count - 1,
    )
}

// Whether these are all leaves.
fn are_all_beside<V: Volume>(
    alloc: Global,
    volume: &mut V,
    geometry: &Geometry,
    index: &mut MountedIndex,
    next: u32,
    inos: &[u32],
) -> bool
    requires running { RunsInLebsBefore geometry.now (V.state volume.old) index.old next }
    ensures { RunsInLebsBefore geometry.now (V.state volume.new) index.new next }
{
    let from = Key::Ino { ino: 0 };
    let to = Key::Ino { ino: u32::MAX };
    let found = index.leaves_between(alloc, volume, &from, &to);
    are_found(found, inos)
}

// Takes a step to the next LEB: where the next node could go, and how many bytes the nodes take.
fn stepped<V: Volume>(
    alloc: Global,
    volume: &mut V,
    geometry: &Geometry,
    index: &mut MountedIndex,
    next: &mut u32,
    sqnum: &mut u64,
) -> Option<(u32, u32)>
    requires running { RunsInLebsBefore geometry.now (V.state volume.old) index.old next.old }
    ensures { IfSome result (λ _. RunsInLebsBefore geometry.now (V.state volume.new) index.new next.new) }
{
    let lnum = *next;
    if lnum >= volume.leb_cnt() || *sqnum >= MOST {
        return None;
    }
    if !index.has_nodes_left() {
        return None;
    }
    let Ok(written) = index.write_step(alloc, volume, lnum, sqnum) else {
        return None;
    };
    *next = lnum + 1;
    Some((written.head.offs, written.used))
}

// Ends the commit, if all is written, and begins the next one.
fn renewed<V: Volume>(
    alloc: Global,
    volume: &V,
    geometry: &Geometry,
    index: &mut MountedIndex,
    next: u32,
) -> Option<Renewal>
    requires running { RunsInLebsBefore geometry.now (V.state volume.now) index.old next }
    ensures { IfSome result (λ _. RunsInLebsBefore geometry.now (V.state volume.now) index.new next) }
{
    let _ = geometry;
    let _ = next;
    if index.has_nodes_left() {
        return None;
    }
    let root = index.end_commit(alloc, volume);
    let alone = index.is_on_volume_alone();
    let nodes = index.begin_commit(volume);
    Some(Renewal { root, alone, nodes })
}

// Whether a commit ended with this root, and what else is told of it.
fn is_renewed(found: &Renewal, place: (u32, u32, u32), alone: bool, nodes: u64) -> bool {
    match &found.root {
        None => false,
        Some(root) => {
            (root.lnum, root.offs, root.len) == place
                && found.alone == alone
                && found.nodes == nodes
        }
    }
}

// Whether a turn is answered as it should be.
fn is_right<V: Volume>(
    alloc: Global,
    volume: &mut V,
    geometry: &Geometry,
    index: &mut MountedIndex,
    next: &mut u32,
    sqnum: &mut u64,
    turn: Turn,
) -> bool
    requires running { RunsInLebsBefore geometry.now (V.state volume.old) index.old next.old }
    ensures { IsTrue result → RunsInLebsBefore geometry.now (V.state volume.new) index.new next.new }
{
    if let Some(change) = change_of(turn) {
        return is_made_beside(alloc, volume, geometry, index, *next, change);
    }
    match turn {
        Turn::PutAll(ino, count) => are_put_beside(
            alloc, volume, geometry, index, *next, ino, count,
        ),
        Turn::All(inos) => are_all_beside(alloc, volume, geometry, index, *next, inos),
        Turn::Step(offs, used) => {
            match stepped(alloc, volume, geometry, index, next, sqnum) {
                Some(found) => found == (offs, used),
                None => false,
            }
        }
        Turn::NextOfNone(nodes) => match renewed(alloc, volume, geometry, index, *next) {
            Some(found) => found.root.is_none() && found.nodes == nodes,
            None => false,
        },
        Turn::Next(lnum, offs, len, alone, nodes) => {
            match renewed(alloc, volume, geometry, index, *next) {
                Some(found) => is_renewed(&found, (lnum, offs, len), alone, nodes),
                None => false,
            }
        }
        _ => false,
    }
}

// How many turns are answered as they should be before the first one that isn't.
fn right_turns<V: Volume>(
    alloc: Global,
    volume: &mut V,
    geometry: &Geometry,
    index: &mut MountedIndex,
    next: &mut u32,
    sqnum: &mut u64,
    turns: &[Turn],
) -> usize
    requires { RunsInLebsBefore geometry.now (V.state volume.old) index.old next.old }
{
    match turns.split_first() {
        None => 0,
        Some((turn, turns)) => {
            if !is_right(alloc, volume, geometry, index, next, sqnum, *turn) {
                return 0;
            }
            right_turns(alloc, volume, geometry, index, next, sqnum, turns).saturating_add(1)
        }
    }
}

// The same of an empty index over a volume of which nothing is written, which it answers too. A commit of no node runs at first.
fn right_from_empty(alloc: Global, turns: &[Turn]) -> Option<(MemVolume, usize)> {
    let geometry = geometry()?;
    let Ok(mut volume) = MemVolume::new(alloc, SHAPE) else {
        return None;
    };
    let Ok(mut index) = MountedIndex::new(alloc, &volume, &geometry) else {
        return None;
    };
    index.begin_commit(&volume);
    let mut next = FIRST;
    let mut sqnum = 0;
    let right = right_turns(
        alloc,
        &mut volume,
        &geometry,
        &mut index,
        &mut next,
        &mut sqnum,
        turns,
    );
    Some((volume, right))
}

// Changes come before a step and behind it. The commit writes the index as it was when it began, and the next one writes them. Nodes with two
// and three children take 68 and 88 bytes, each rounded up to 8, in rooms of 88.
const BESIDE: &[Turn] = &[
    Turn::Put(2),
    Turn::Put(3),
    Turn::Put(4),
    Turn::Put(5),
    Turn::NextOfNone(3),
    Turn::Put(6),
    Turn::All(&[2, 3, 4, 5, 6]),
    Turn::Step(512, 216),
    Turn::Put(1),
    Turn::All(&[1, 2, 3, 4, 5, 6]),
    Turn::Next(20, 176, 68, false, 3),
    Turn::Step(512, 248),
    Turn::All(&[1, 2, 3, 4, 5, 6]),
    Turn::Next(21, 176, 68, true, 0),
    Turn::All(&[1, 2, 3, 4, 5, 6]),
    Turn::Take(6),
    Turn::Next(21, 176, 68, false, 2),
    Turn::Put(7),
    Turn::Step(512, 144),
    Turn::Take(7),
    Turn::Next(22, 88, 68, false, 2),
    Turn::Step(512, 144),
    Turn::Next(23, 88, 68, true, 0),
    Turn::Next(23, 88, 68, true, 0),
    Turn::All(&[1, 2, 3, 4, 5]),
];

// Of the roots that these commits wrote: a LEB and an offset, and where the two branches lead, each a LEB, an offset and a length, in
// numbers of four bytes, lowest byte first, with the key's eight bytes behind.
const ROOTS: &[(u32, u32, [u8; 40])] = &[
    (
        20,
        176,
        [
            20, 0, 0, 0, 0, 0, 0, 0, 68, 0, 0, 0, 2, 0, 0, 0, 0, 0, 0, 0, //
            20, 0, 0, 0, 88, 0, 0, 0, 68, 0, 0, 0, 4, 0, 0, 0, 0, 0, 0, 0,
        ],
    ),
    (
        21,
        176,
        [
            21, 0, 0, 0, 0, 0, 0, 0, 88, 0, 0, 0, 1, 0, 0, 0, 0, 0, 0, 0, //
            21, 0, 0, 0, 88, 0, 0, 0, 88, 0, 0, 0, 4, 0, 0, 0, 0, 0, 0, 0,
        ],
    ),
    (
        22,
        88,
        [
            21, 0, 0, 0, 0, 0, 0, 0, 88, 0, 0, 0, 1, 0, 0, 0, 0, 0, 0, 0, //
            22, 0, 0, 0, 0, 0, 0, 0, 68, 0, 0, 0, 4, 0, 0, 0, 0, 0, 0, 0,
        ],
    ),
    (
        23,
        88,
        [
            21, 0, 0, 0, 0, 0, 0, 0, 88, 0, 0, 0, 1, 0, 0, 0, 0, 0, 0, 0, //
            23, 0, 0, 0, 0, 0, 0, 0, 68, 0, 0, 0, 4, 0, 0, 0, 0, 0, 0, 0,
        ],
    ),
];

#[test]
fn changes_go_on_beside_a_commit(rt: HostRuntime) {
    let made = right_from_empty(rt.alloc(), BESIDE);
    let Some((mut volume, right)) = made else {
        return assert!(rt; false);
    };
    assert_eq!(rt; right, BESIDE.len());
    for (lnum, offs, branches) in ROOTS {
        assert_eq!(rt; branches_at(&mut volume, *lnum, *offs), Some(*branches));
    }
}

// Of 256 leaves in order, 255 nodes with two children each. A LEB has 186 rooms, so the commit takes two steps, and a leaf comes between.
const TWO_STEPS: &[Turn] = &[
    Turn::PutAll(1, 256),
    Turn::NextOfNone(255),
    Turn::Step(16384, 13392),
    Turn::Put(1000),
    Turn::Step(6144, 4968),
    Turn::Next(21, 5984, 68, false, 8),
    Turn::Step(1024, 592),
    Turn::Next(22, 616, 68, true, 0),
];

#[test]
fn a_commit_takes_two_steps(rt: HostRuntime) {
    let right = right_from_empty(rt.alloc(), TWO_STEPS).map(|(_, right)| right);
    assert_eq!(rt; right, Some(TWO_STEPS.len()));
}
