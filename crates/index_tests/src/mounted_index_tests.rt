// An index of nodes with at most three children, over a volume in memory.

ghost use Rattle.std.specs.Prelude.{◌≡◌, IfSome, IsTrue};
ghost use Rattle.ubifs_base.specs.Geometry.{plain_geometry};
ghost use Rattle.ubifs_base.specs.RawOf.{raw_of};
ghost use Rattle.ubifs_base.specs.declared.key.Key.TheVariants.{Ino};
ghost use Rattle.node_table.specs.Changing.{IsChange};
ghost use Rattle.index_tests.specs.Standing.{StandsInLebsBefore};

use index_commit::IndexFault;
use index_tree::Leaf;
use media_sys::Branch;
use mounted_index::{IndexSize, MountedIndex};
use node_table::Change;
use std::alloc::Global;
use ubi_volume::{AreaFault, MemVolume, VolShape, Volume};
use ubifs_base::{Geometry, Key, RawGeometry};

pub(crate) const SHAPE: VolShape = VolShape {
    leb_size: 16384,
    min_io: 512,
    leb_cnt: 74,
};

// The first LEB to which an index is committed.
pub(crate) const FIRST: u32 = 20;

// Sequence numbers stay below.
pub(crate) const MOST: u64 = 1 << 32;

pub(crate) fn geometry() -> Option<Geometry>
    ensures { IfSome result (λ geo. raw_of geo ≡ plain_geometry 16384 512 64 3) }
{
    Geometry::new(&RawGeometry::plain(16384, 512, 64, 3)).ok()
}

// A step of a test, and what it should answer. Leaves are told by their inodes.
#[derive(Clone, Copy)]
enum Step {
    // Puts a leaf.
    Put(u32),
    // Takes a leaf out.
    Take(u32),
    // Takes out the leaves from the one to the other.
    TakeRange(u32, u32),
    // The leaf stands somewhere else now.
    Move(u32),
    // How many nodes there are, and what they weigh.
    Size(u64, u64),
    // The leaf is there, or it isn't.
    Has(u32, bool),
    // The first leaf behind this inode's.
    Next(u32, Option<u32>),
    // All leaves.
    All(&'static [u32]),
    // Commits to the next LEB, and takes up the index again from its root: a LEB, an offset there and a length.
    Commit(u32, u32, u32),
    // Commits an index without a leaf.
    CommitNone,
    // Commits to no LEB, which wants so many; none if nothing changed.
    Refused(u64),
}

// The leaf of an inode, whose node stands somewhere.
pub(crate) fn leaf_of(ino: u32) -> Leaf
    ensures { result.key ≡ Ino ino }
{
    Leaf {
        key: Key::Ino { ino },
        lnum: 60,
        offs: 0,
        len: 160,
    }
}

// The change of a step, if it makes one.
fn change_of(step: Step) -> Option<Change>
    ensures { IfSome result IsChange }
{
    match step {
        Step::Put(ino) => Some(Change::Insert(leaf_of(ino))),
        Step::Take(ino) => Some(Change::Remove(leaf_of(ino))),
        Step::TakeRange(from, to) => Some(Change::RemoveRange {
            from: Key::Ino { ino: from },
            to: Key::Ino { ino: to },
        }),
        Step::Move(ino) => Some(Change::Replace {
            gone: leaf_of(ino),
            come: Leaf {
                lnum: 61,
                ..leaf_of(ino)
            },
        }),
        _ => None,
    }
}

// Makes a change.
fn is_made<V: Volume>(
    alloc: Global,
    volume: &mut V,
    geometry: &Geometry,
    index: &mut MountedIndex,
    next: u32,
    change: Change,
) -> bool
    requires change { IsChange change }
    requires standing { StandsInLebsBefore geometry.now (V.state volume.old) index.old next }
    ensures { IsTrue result → StandsInLebsBefore geometry.now (V.state volume.new) index.new next }
{
    let changes: &[Change] = &[change];
    match index.change(alloc, volume, changes) {
        Ok(()) => true,
        Err(_) => false,
    }
}

// Whether there are so many nodes, and they weigh so much.
fn is_size<V: Volume>(
    alloc: Global,
    volume: &mut V,
    geometry: &Geometry,
    index: &mut MountedIndex,
    next: u32,
    size: IndexSize,
) -> bool
    requires standing { StandsInLebsBefore geometry.now (V.state volume.old) index.old next }
    ensures { StandsInLebsBefore geometry.now (V.state volume.new) index.new next }
{
    let found = index.size(alloc, volume);
    found == Ok(size)
}

// Whether a leaf is there, or isn't.
fn is_there<V: Volume>(
    alloc: Global,
    volume: &mut V,
    geometry: &Geometry,
    index: &mut MountedIndex,
    next: u32,
    ino: u32,
    there: bool,
) -> bool
    requires standing { StandsInLebsBefore geometry.now (V.state volume.old) index.old next }
    ensures { StandsInLebsBefore geometry.now (V.state volume.new) index.new next }
{
    let found = index.find(alloc, volume, &Key::Ino { ino }, 0);
    is_found(found, there)
}

fn is_found(found: Result<Option<Leaf>, AreaFault>, there: bool) -> bool {
    match found {
        Ok(leaf) => leaf.is_some() == there,
        Err(_) => false,
    }
}

// Whether this is the first leaf behind an inode's.
fn is_next<V: Volume>(
    alloc: Global,
    volume: &mut V,
    geometry: &Geometry,
    index: &mut MountedIndex,
    next: u32,
    ino: u32,
    after: Option<u32>,
) -> bool
    requires standing { StandsInLebsBefore geometry.now (V.state volume.old) index.old next }
    ensures { StandsInLebsBefore geometry.now (V.state volume.new) index.new next }
{
    let found = index.after(alloc, volume, &Key::Ino { ino });
    is_of(found, after)
}

fn is_of(found: Result<Option<Leaf>, AreaFault>, after: Option<u32>) -> bool {
    match (found, after) {
        (Ok(None), None) => true,
        (Ok(Some(leaf)), Some(ino)) => leaf.key == Key::Ino { ino },
        _ => false,
    }
}

// Whether these are all leaves.
fn are_all<V: Volume>(
    alloc: Global,
    volume: &mut V,
    geometry: &Geometry,
    index: &mut MountedIndex,
    next: u32,
    inos: &[u32],
) -> bool
    requires standing { StandsInLebsBefore geometry.now (V.state volume.old) index.old next }
    ensures { StandsInLebsBefore geometry.now (V.state volume.new) index.new next }
{
    let from = Key::Ino { ino: 0 };
    let to = Key::Ino { ino: u32::MAX };
    let found = index.leaves_between(alloc, volume, &from, &to);
    are_found(found, inos)
}

pub(crate) fn are_found(found: Result<Vec<Leaf>, AreaFault>, inos: &[u32]) -> bool {
    match found {
        Ok(leaves) => are_of(leaves.as_slice(), inos),
        Err(_) => false,
    }
}

// Whether a look-up is answered so.
fn is_answered<V: Volume>(
    alloc: Global,
    volume: &mut V,
    geometry: &Geometry,
    index: &mut MountedIndex,
    next: u32,
    step: Step,
) -> bool
    requires standing { StandsInLebsBefore geometry.now (V.state volume.old) index.old next }
    ensures { StandsInLebsBefore geometry.now (V.state volume.new) index.new next }
{
    match step {
        Step::Size(nodes, weight) => {
            let size = IndexSize { nodes, weight };
            is_size(alloc, volume, geometry, index, next, size)
        }
        Step::Has(ino, there) => is_there(alloc, volume, geometry, index, next, ino, there),
        Step::Next(ino, after) => is_next(alloc, volume, geometry, index, next, ino, after),
        Step::All(inos) => are_all(alloc, volume, geometry, index, next, inos),
        _ => false,
    }
}

// Whether these are the leaves of these inodes, in order.
fn are_of(leaves: &[Leaf], inos: &[u32]) -> bool {
    match (leaves.split_first(), inos.split_first()) {
        (None, None) => true,
        (Some((leaf, leaves)), Some((ino, inos))) => {
            leaf.key == Key::Ino { ino: *ino } && are_of(leaves, inos)
        }
        _ => false,
    }
}

// Commits to the next LEB, and takes up the index from the root that is answered, if there is one.
fn committed<V: Volume>(
    alloc: Global,
    volume: &mut V,
    geometry: &Geometry,
    index: &mut MountedIndex,
    next: &mut u32,
    sqnum: &mut u64,
) -> Option<Option<Branch>>
    requires standing { StandsInLebsBefore geometry.now (V.state volume.old) index.old next.old }
    ensures { IfSome result (λ _. StandsInLebsBefore geometry.now (V.state volume.new) index.new next.new) }
{
    let lnum = *next;
    if lnum >= volume.leb_cnt() || *sqnum >= MOST {
        return None;
    }
    let Ok(at) = index.commit(alloc, volume, &[lnum], sqnum) else {
        return None;
    };
    *next = lnum + 1;
    match at.root {
        None => Some(None),
        Some(root) => {
            let Ok(taken) = MountedIndex::at_root(alloc, volume, geometry, &root) else {
                return None;
            };
            *index = taken;
            Some(Some(root))
        }
    }
}

// Commits to no LEB.
fn refused<V: Volume>(
    alloc: Global,
    volume: &mut V,
    geometry: &Geometry,
    index: &mut MountedIndex,
    next: u32,
    sqnum: &mut u64,
) -> Option<u64>
    requires standing { StandsInLebsBefore geometry.now (V.state volume.old) index.old next }
    ensures { IfSome result (λ _. StandsInLebsBefore geometry.now (V.state volume.new) index.new next) }
{
    if *sqnum >= MOST {
        return None;
    }
    let lebs: &[u32] = &[];
    match index.commit(alloc, volume, lebs, sqnum) {
        Err(IndexFault::Full { need, .. }) => Some(need),
        Ok(_) => Some(0),
        Err(_) => None,
    }
}

// Whether a step is answered as it should be.
fn is_right<V: Volume>(
    alloc: Global,
    volume: &mut V,
    geometry: &Geometry,
    index: &mut MountedIndex,
    next: &mut u32,
    sqnum: &mut u64,
    step: Step,
) -> bool
    requires standing { StandsInLebsBefore geometry.now (V.state volume.old) index.old next.old }
    ensures { IsTrue result → StandsInLebsBefore geometry.now (V.state volume.new) index.new next.new }
{
    if let Some(change) = change_of(step) {
        return is_made(alloc, volume, geometry, index, *next, change);
    }
    match step {
        Step::Commit(lnum, offs, len) => {
            match committed(alloc, volume, geometry, index, next, sqnum) {
                Some(Some(root)) => (root.lnum, root.offs, root.len) == (lnum, offs, len),
                _ => false,
            }
        }
        Step::CommitNone => match committed(alloc, volume, geometry, index, next, sqnum) {
            Some(None) => true,
            _ => false,
        },
        Step::Refused(need) => match refused(alloc, volume, geometry, index, *next, sqnum) {
            Some(found) => found == need,
            None => false,
        },
        _ => is_answered(alloc, volume, geometry, index, *next, step),
    }
}

// How many steps are answered as they should be before the first one that isn't.
fn right_steps<V: Volume>(
    alloc: Global,
    volume: &mut V,
    geometry: &Geometry,
    index: &mut MountedIndex,
    next: &mut u32,
    sqnum: &mut u64,
    steps: &[Step],
) -> usize
    requires { StandsInLebsBefore geometry.now (V.state volume.old) index.old next.old }
{
    match steps.split_first() {
        None => 0,
        Some((step, steps)) => {
            if !is_right(alloc, volume, geometry, index, next, sqnum, *step) {
                return 0;
            }
            right_steps(alloc, volume, geometry, index, next, sqnum, steps).saturating_add(1)
        }
    }
}

// The same of an empty index over a volume of which nothing is written, which it answers too.
fn right_from_none(alloc: Global, steps: &[Step]) -> Option<(MemVolume, usize)> {
    let geometry = geometry()?;
    let Ok(mut volume) = MemVolume::new(alloc, SHAPE) else {
        return None;
    };
    let Ok(mut index) = MountedIndex::new(alloc, &volume, &geometry) else {
        return None;
    };
    let mut next = FIRST;
    let mut sqnum = 0;
    let right = right_steps(
        alloc,
        &mut volume,
        &geometry,
        &mut index,
        &mut next,
        &mut sqnum,
        steps,
    );
    Some((volume, right))
}

// Of eight leaves that come in order: a node splits at its fourth child, and the root with it.
const ASCENDING: &[Step] = &[
    Step::Size(0, 0),
    Step::Put(1),
    Step::Size(1, 1),
    Step::Put(2),
    Step::Size(1, 1),
    Step::Put(3),
    Step::Size(1, 2),
    Step::Put(4),
    Step::Size(3, 3),
    Step::Put(5),
    Step::Size(3, 4),
    Step::Put(6),
    Step::Size(4, 5),
    Step::Put(7),
    Step::Size(4, 6),
    Step::Put(8),
    Step::Size(7, 7),
    Step::All(&[1, 2, 3, 4, 5, 6, 7, 8]),
];

// The same with a commit behind each. Nodes with one, two and three children take 48, 68 and 88 bytes, in rooms of 88.
const COMMITTED: &[Step] = &[
    Step::Put(1),
    Step::Commit(20, 0, 48),
    Step::Size(1, 1),
    Step::Put(2),
    Step::Commit(21, 0, 68),
    Step::Size(1, 1),
    Step::Put(3),
    Step::Commit(22, 0, 88),
    Step::Size(1, 2),
    Step::Put(4),
    Step::Commit(23, 176, 68),
    Step::Size(3, 3),
    Step::Put(5),
    Step::Commit(24, 88, 68),
    Step::Size(3, 4),
    Step::Put(6),
    Step::Commit(25, 176, 88),
    Step::Size(4, 5),
    Step::Put(7),
    Step::Commit(26, 88, 88),
    Step::Size(4, 6),
    Step::Put(8),
    Step::Commit(27, 352, 68),
    Step::Size(7, 7),
    Step::All(&[1, 2, 3, 4, 5, 6, 7, 8]),
];

// Of four leaves the last one goes, and the one before it: a node that is empty goes, and a root with one child gives way to it.
const TAKEN: &[Step] = &[
    Step::Put(1),
    Step::Put(2),
    Step::Put(3),
    Step::Put(4),
    Step::Size(3, 3),
    Step::Take(4),
    Step::Size(3, 3),
    Step::Take(3),
    Step::Size(1, 1),
    Step::All(&[1, 2]),
];

const TAKEN_COMMITTED: &[Step] = &[
    Step::Put(1),
    Step::Put(2),
    Step::Put(3),
    Step::Put(4),
    Step::Commit(20, 176, 68),
    Step::Take(4),
    Step::Commit(21, 88, 68),
    Step::Size(3, 3),
    Step::Take(3),
    Step::Commit(20, 0, 68),
    Step::Size(1, 1),
    Step::All(&[1, 2]),
];

// Look-ups of an index that is on the volume alone, then of one that changed, and after its commit.
const LOOKED_UP: &[Step] = &[
    Step::Put(10),
    Step::Put(20),
    Step::Put(30),
    Step::Put(40),
    Step::Commit(20, 176, 68),
    Step::Has(30, true),
    Step::Has(31, false),
    Step::Next(30, Some(40)),
    Step::Next(40, None),
    Step::TakeRange(15, 35),
    Step::Has(30, false),
    Step::Next(10, Some(40)),
    Step::Move(40),
    Step::Commit(21, 176, 68),
    Step::Has(20, false),
    Step::Has(40, true),
    Step::All(&[10, 40]),
];

// Want of a LEB leaves all as it was. What is on the volume alone is written nowhere, and an index without a leaf has no root.
const REFUSED: &[Step] = &[
    Step::Put(1),
    Step::Refused(1),
    Step::Has(1, true),
    Step::Commit(20, 0, 48),
    Step::Refused(0),
    Step::Has(1, true),
    Step::Take(1),
    Step::CommitNone,
    Step::Size(0, 0),
    Step::Has(1, false),
    Step::Put(2),
    Step::Commit(22, 0, 48),
    Step::All(&[2]),
];

// Changes of an index of three levels that was taken up by its root: each loads its way alone, and look-ups go on on the volume beside it.
const PARTLY_LOADED: &[Step] = &[
    Step::Put(1),
    Step::Put(2),
    Step::Put(3),
    Step::Put(4),
    Step::Put(5),
    Step::Put(6),
    Step::Put(7),
    Step::Put(8),
    Step::Commit(20, 528, 68),
    Step::Put(9),
    Step::Has(1, true),
    Step::Next(4, Some(5)),
    Step::Size(7, 8),
    Step::All(&[1, 2, 3, 4, 5, 6, 7, 8, 9]),
    Step::TakeRange(2, 3),
    Step::Has(2, false),
    Step::Next(1, Some(4)),
    Step::Has(6, true),
    Step::Commit(21, 440, 68),
    Step::All(&[1, 4, 5, 6, 7, 8, 9]),
    Step::Move(5),
    Step::Take(4),
    Step::Next(1, Some(5)),
    Step::Size(6, 7),
    Step::Commit(22, 264, 68),
    Step::All(&[1, 5, 6, 7, 8, 9]),
];

const TABLES: &[&[Step]] = &[
    ASCENDING,
    COMMITTED,
    TAKEN,
    TAKEN_COMMITTED,
    LOOKED_UP,
    REFUSED,
    PARTLY_LOADED,
];

#[test]
fn steps_are_answered(rt: HostRuntime) {
    for steps in TABLES {
        let right = right_from_none(rt.alloc(), *steps).map(|(_, right)| right);
        assert_eq!(rt; right, Some(steps.len()));
    }
}

// Commits of which each changes one node of the lowest level and the root.
const INCREMENTAL: &[Step] = &[
    Step::Put(2),
    Step::Put(3),
    Step::Put(4),
    Step::Put(5),
    Step::Commit(20, 176, 68),
    Step::Put(6),
    Step::Commit(21, 88, 68),
    Step::Put(1),
    Step::Commit(22, 88, 68),
    Step::Take(6),
    Step::Commit(23, 88, 68),
];

// Of the root that each of these commits wrote: its LEB and its offset, and where its two branches lead, each a LEB, an offset
// and a length, in numbers of four bytes, lowest byte first, with the key's eight bytes behind.
const ROOTS: &[(u32, u32, [u8; 40])] = &[
    (
        20,
        176,
        [
            20, 0, 0, 0, 0, 0, 0, 0, 68, 0, 0, 0, 2, 0, 0, 0, 0, 0, 0, 0, //
            20, 0, 0, 0, 88, 0, 0, 0, 68, 0, 0, 0, 4, 0, 0, 0, 0, 0, 0, 0,
        ],
    ),
    (
        21,
        88,
        [
            20, 0, 0, 0, 0, 0, 0, 0, 68, 0, 0, 0, 2, 0, 0, 0, 0, 0, 0, 0, //
            21, 0, 0, 0, 0, 0, 0, 0, 88, 0, 0, 0, 4, 0, 0, 0, 0, 0, 0, 0,
        ],
    ),
    (
        22,
        88,
        [
            22, 0, 0, 0, 0, 0, 0, 0, 88, 0, 0, 0, 1, 0, 0, 0, 0, 0, 0, 0, //
            21, 0, 0, 0, 0, 0, 0, 0, 88, 0, 0, 0, 4, 0, 0, 0, 0, 0, 0, 0,
        ],
    ),
    (
        23,
        88,
        [
            22, 0, 0, 0, 0, 0, 0, 0, 88, 0, 0, 0, 1, 0, 0, 0, 0, 0, 0, 0, //
            23, 0, 0, 0, 0, 0, 0, 0, 68, 0, 0, 0, 4, 0, 0, 0, 0, 0, 0, 0,
        ],
    ),
];

// The 40 bytes behind the first 28 of a node.
pub(crate) fn branches_at(volume: &mut MemVolume, lnum: u32, offs: u32) -> Option<[u8; 40]> {
    if lnum >= volume.leb_cnt() || offs > 1024 || volume.leb_size() < 2048 {
        return None;
    }
    let mut bytes = [0u8; 40];
    volume.read(lnum, offs + 28, &mut bytes).ok()?;
    Some(bytes)
}

#[test]
fn clean_nodes_keep_their_places(rt: HostRuntime) {
    let made = right_from_none(rt.alloc(), INCREMENTAL);
    let Some((mut volume, right)) = made else {
        return assert!(rt; false);
    };
    assert_eq!(rt; right, INCREMENTAL.len());
    for (lnum, offs, branches) in ROOTS {
        assert_eq!(rt; branches_at(&mut volume, *lnum, *offs), Some(*branches));
    }
}
