// Journals as bytes, read and replayed over leaves that were found. What is found stands in LEB 20, the nodes of the base head
// in LEB 30, and the others in LEB 31, whose reference stands first in the log.

ghost use Rattle.std.specs.Prelude.{IfOk};
ghost use Rattle.std.specs.List.{AllByRecursion};
ghost use Rattle.journal_scan.specs.Journal.{IsReadable};
ghost use Rattle.log_replay.specs.Changes.{HasBlockKey};

use crate::samples::{Row, Says, are_at, index_of, nodes_of};
use crate::texts::{LEB, Node, bud_of};
use journal_scan::{BudText, JournalNode, read_journal};
use log_replay::{journals_can_be_applied, replay_nodes};
use std::alloc::Global;
use ubifs_base::{JournalHead, Memory};

// What is found, the other head and its nodes, the nodes of the base head, the list, and where the leaves that are left stand.
#[derive(Clone, Copy)]
struct Case<'a> {
    found: &'a [Row],
    head: JournalHead,
    other: &'a [Node],
    base: &'a [Node],
    listed: &'a [u32],
    left: &'a [(u32, u32)],
}

// A file of three blocks.
const BLOCKS: &[Row] = &[
    (20, 0, Says::Inode(65, true)),
    (20, 160, Says::Block(65, 0)),
    (20, 320, Says::Block(65, 1)),
    (20, 480, Says::Block(65, 2)),
];

// The root with one name, and a file without a link.
const NAME: &[Row] = &[
    (20, 0, Says::Inode(1, true)),
    (20, 160, Says::Named("am", true)),
    (20, 320, Says::Inode(65, false)),
];

const CASES: &[Case<'static>] = &[
    // Two heads interleave: the block is set between two nodes of its inode.
    Case {
        found: &[],
        head: JournalHead::Data,
        other: &[(2, 0, Says::Block(65, 0))],
        base: &[(1, 0, Says::Inode(65, true)), (3, 0, Says::Inode(65, true))],
        listed: &[],
        left: &[(30, 160), (31, 0)],
    },
    // The block's LEB stands first in the log, and its number is the greater one: the truncation spares it.
    Case {
        found: BLOCKS,
        head: JournalHead::Data,
        other: &[(5, 0, Says::Block(65, 2))],
        base: &[(4, 0, Says::Cut(65, 4096))],
        listed: &[],
        left: &[(20, 0), (20, 160), (31, 0)],
    },
    // With the lesser number it is cut.
    Case {
        found: BLOCKS,
        head: JournalHead::Data,
        other: &[(3, 0, Says::Block(65, 2))],
        base: &[(4, 0, Says::Cut(65, 4096))],
        listed: &[],
        left: &[(20, 0), (20, 160)],
    },
    // A group lacks its last node, behind one that is whole.
    Case {
        found: NAME,
        head: JournalHead::Data,
        other: &[],
        base: &[
            (1, 1, Says::Inode(66, true)),
            (2, 2, Says::Inode(1, true)),
            (3, 1, Says::Named("am", false)),
            (4, 1, Says::Inode(1, false)),
        ],
        listed: &[],
        left: &[(30, 160), (20, 160), (20, 320), (30, 0)],
    },
    // A name goes and comes back.
    Case {
        found: NAME,
        head: JournalHead::Data,
        other: &[],
        base: &[
            (1, 0, Says::Named("am", false)),
            (2, 0, Says::Named("am", true)),
        ],
        listed: &[],
        left: &[(20, 0), (30, 64), (20, 320)],
    },
    // A listed inode got its link again.
    Case {
        found: NAME,
        head: JournalHead::Data,
        other: &[],
        base: &[(1, 0, Says::Inode(65, true))],
        listed: &[65],
        left: &[(20, 0), (20, 160), (30, 0)],
    },
    // The collector's copies bring nothing back that was deleted.
    Case {
        found: BLOCKS,
        head: JournalHead::Collector,
        other: &[(1, 0, Says::Inode(65, true)), (2, 0, Says::Block(65, 1))],
        base: &[(9, 0, Says::Inode(65, false))],
        listed: &[],
        left: &[],
    },
];

// The nodes that a mount applies.
fn applied(alloc: Global, buds: &[BudText]) -> Result<Vec<JournalNode>, Memory>
    requires { AllByRecursion IsReadable buds.now }
    ensures { IfOk result (λ nodes. AllByRecursion HasBlockKey nodes.items) }
{
    journals_can_be_applied();
    let read = read_journal(alloc, buds)?;
    Ok(read.nodes)
}

fn are_left(alloc: Global, case: &Case<'_>) -> Result<bool, Memory> {
    let index = index_of(alloc, case.found)?;
    let found = nodes_of(alloc, case.found)?;
    let other = bud_of(alloc, case.head, 31, case.other, LEB)?;
    let base = bud_of(alloc, JournalHead::Base, 30, case.base, LEB)?;
    let nodes = applied(alloc, &[other, base])?;
    let index = replay_nodes(alloc, index, found, nodes, case.listed)?;
    are_at(alloc, &index, case.left)
}

#[test]
fn journals_lead_to_the_leaves_that_they_should(rt: HostRuntime) {
    for (number, case) in CASES.iter().enumerate() {
        assert_eq!(rt; are_left(rt.alloc(), case), Ok(true), "case {number}");
    }
}
