// The whole of a replay: journals as bytes over committed leaves, of which some have no node of their own. `recovery_cases` has the
// table.

ghost use Rattle.std.specs.List.{AllByRecursion};
ghost use Rattle.journal_scan.specs.Journal.{IsReadable};

use crate::recovery_cases::{CASES, Case, Committed, Place};
use crate::samples::{Says, are_at, leaf_of, node_of};
use crate::texts::{LEB, Node, bud_of};
use index_tree::{Index, Leaf};
use journal_scan::{BudText, JournalNode, read_journal};
use leaf_recovery::{RecoveredLeaf, RecoveredLeaves, recover};
use log_replay::{CommittedLeaf, replay};
use media_sys::RefNode;
use std::alloc::Global;
use ubifs_base::{JournalHead, Memory};

fn found_of(alloc: Global, row: &Committed) -> Result<Option<JournalNode>, Memory> {
    match row.3 {
        Place::Own(sqnum) => Ok(Some(node_of(alloc, (row.0, row.1, row.2), sqnum)?)),
        Place::Other(says) => Ok(Some(node_of(alloc, (row.0, row.1, says), 9)?)),
        Place::Lost => Ok(None),
    }
}

// The committed index, and its leaves with what stands at their places.
fn committed_of(alloc: Global, rows: &[Committed]) -> Result<(Index, Vec<CommittedLeaf>), Memory> {
    let mut index = Index::new(8)?;
    let mut leaves = Vec::new(alloc);
    for row in rows {
        let leaf = leaf_of((row.0, row.1, row.2));
        index.insert(alloc, leaf)?;
        let found = found_of(alloc, row)?;
        leaves.push(CommittedLeaf { leaf, found })?;
    }
    Ok((index, leaves))
}

// What is shown: an inode with its links, a block, or a name of the root with the inode that it names.
fn shown(says: Says) -> (u8, u32, u32) {
    match says {
        Says::Inode(ino, linked) => (b'i', ino, linked as u32),
        Says::Block(ino, block) => (b'b', ino, block as u32),
        Says::Named("am", linked) => (b'a', 1, 65 * linked as u32),
        Says::Named(_, linked) => (b'n', 1, 65 * linked as u32),
        Says::Cut(ino, _) => (b'c', ino, 0),
    }
}

fn len_of(says: Says) -> u32 {
    match says {
        Says::Inode(..) => 160,
        Says::Block(..) => 72,
        Says::Named(..) => 64,
        Says::Cut(..) => 56,
    }
}

// What stands at an offset of a text, or nothing.
fn node_at(nodes: &[Node], offs: u32) -> (u8, u32, u32) {
    let mut from = 0u32;
    for node in nodes {
        if from == offs {
            return shown(node.2);
        }
        from = from.wrapping_add(len_of(node.2));
    }
    (b'-', 0, 0)
}

// What stands at a committed leaf's place, or nothing.
fn leaf_at(rows: &[Committed], lnum: u32, offs: u32) -> (u8, u32, u32) {
    for row in rows {
        if row.0 == lnum && row.1 == offs {
            return shown(row.2);
        }
    }
    (b'-', 0, 0)
}

fn shown_at(case: &Case<'_>, lnum: u32, offs: u32) -> (u8, u32, u32) {
    match lnum {
        29 => node_at(case.next, offs),
        30 => node_at(case.base, offs),
        31 => node_at(case.data, offs),
        32 => node_at(case.collector, offs),
        _ => leaf_at(case.committed, lnum, offs),
    }
}

// Whether the places at which leaves are left show the tree.
fn is_tree_shown(case: &Case<'_>) -> bool {
    for (place, says) in case.left.iter().zip(case.tree) {
        if shown_at(case, place.0, place.1) != shown(*says) {
            return false;
        }
    }
    case.left.len() == case.tree.len()
}

fn is_replayed(
    alloc: Global,
    case: &Case<'_>,
    index: Index,
    leaves: Vec<CommittedLeaf>,
    buds: &[BudText],
) -> Result<bool, Memory>
    requires { AllByRecursion IsReadable buds.now }
{
    let made = replay(alloc, index, leaves, buds, case.listed)?;
    Ok(
        (made.nodes, made.highest, made.sqnum) == case.numbers
            && made.tails.len() == 4
            && are_at(alloc, &made.index, case.left)?,
    )
}

fn reference(lnum: u32, head: JournalHead) -> RefNode {
    RefNode {
        lnum,
        offs: 0,
        head,
    }
}

fn are_kept(kept: &[RecoveredLeaf], places: &[(u32, u32)]) -> bool {
    for (leaf, place) in kept.iter().zip(places) {
        if (leaf.leaf.lnum, leaf.leaf.offs) != *place {
            return false;
        }
    }
    kept.len() == places.len()
}

fn are_recovered(
    alloc: Global,
    case: &Case<'_>,
    leaves: &[CommittedLeaf],
    buds: &[BudText],
) -> Result<bool, Memory>
    requires { AllByRecursion IsReadable buds.now }
{
    let references = [
        reference(32, JournalHead::Collector),
        reference(31, JournalHead::Data),
        reference(30, JournalHead::Base),
        reference(29, JournalHead::Base),
    ];
    let read = read_journal(alloc, buds)?;
    let made = recover(
        alloc,
        leaves,
        references.as_slice(),
        &read.nodes,
        &read.copies,
        case.listed,
    )?;
    Ok(are_kept(&made.kept, case.left))
}

// Whether a replay makes what it should, whether leaf_recovery finds its leaves, and whether they show the tree.
fn answers(alloc: Global, case: &Case<'_>) -> Result<(bool, bool, bool), Memory> {
    let (index, leaves) = committed_of(alloc, case.committed)?;
    let collector = bud_of(alloc, JournalHead::Collector, 32, case.collector, LEB)?;
    let data = bud_of(alloc, JournalHead::Data, 31, case.data, LEB)?;
    let base = bud_of(alloc, JournalHead::Base, 30, case.base, case.written)?;
    let next = bud_of(alloc, JournalHead::Base, 29, case.next, LEB)?;
    let buds = [collector, data, base, next];
    let recovered = are_recovered(alloc, case, &leaves, &buds)?;
    let replayed = is_replayed(alloc, case, index, leaves, &buds)?;
    Ok((replayed, recovered, is_tree_shown(case)))
}

#[test]
fn journals_are_replayed(rt: HostRuntime) {
    for (number, case) in CASES.iter().enumerate() {
        assert_eq!(rt;
            answers(rt.alloc(), case),
            Ok((true, true, true)),
            "case {number}"
        );
    }
}

// Two leaves of one inode, a name whose node is gone, and one at whose place it has inode number 0.
const DAMAGED: &[Committed] = &[
    (20, 0, Says::Inode(65, true), Place::Own(1)),
    (20, 160, Says::Inode(65, true), Place::Own(2)),
    (20, 320, Says::Named("am", true), Place::Lost),
    (
        20,
        480,
        Says::Named("bb", true),
        Place::Other(Says::Named("bb", false)),
    ),
];

// Whether it is one leaf, at this place.
fn is_one_at(leaves: &[Leaf], lnum: u32, offs: u32) -> bool {
    match leaves {
        [leaf] => leaf.lnum == lnum && leaf.offs == offs,
        _ => false,
    }
}

fn is_damage_told(alloc: Global) -> Result<bool, Memory> {
    let (_, leaves) = committed_of(alloc, DAMAGED)?;
    let made = recover(alloc, &leaves, &[], &[], &[], &[])?;
    Ok(
        are_kept(&made.kept, &[(20, 0), (20, 160)])
            && are_kept(&made.repeated, &[(20, 160)])
            && is_one_at(&made.missing, 20, 320)
            && is_one_at(&made.empty, 20, 480),
    )
}

#[test]
fn damage_is_told(rt: HostRuntime) {
    assert_eq!(rt; is_damage_told(rt.alloc()), Ok(true));
}
