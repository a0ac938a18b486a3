// Replays by hand. What is found stands in LEB 20, if nothing else is said, and what the journal says in LEB 30.

use crate::samples::{Row, Says, are_at, index_of, nodes_of};
use log_replay::replay_nodes;
use std::alloc::Global;
use ubifs_base::Memory;

// What is found, the nodes in order, the list, and where the leaves that are left stand.
#[derive(Clone, Copy)]
struct Case<'a> {
    found: &'a [Row],
    nodes: &'a [Row],
    listed: &'a [u32],
    left: &'a [(u32, u32)],
}

// The root with two names of one hash, and a file of three blocks.
const NAMES: [Row; 3] = [
    (20, 0, Says::Inode(1, true)),
    (20, 160, Says::Named("am", true)),
    (20, 320, Says::Named("bb", true)),
];

const BLOCKS: [Row; 4] = [
    (20, 0, Says::Inode(65, true)),
    (20, 160, Says::Block(65, 0)),
    (20, 320, Says::Block(65, 1)),
    (20, 480, Says::Block(65, 2)),
];

// Two files without links, of which one has a block.
const ORPHANS: [Row; 3] = [
    (20, 0, Says::Inode(65, false)),
    (20, 160, Says::Inode(66, false)),
    (20, 320, Says::Block(66, 0)),
];

const CASES: &[Case<'static>] = &[
    // One of two names of a hash goes, and one of them is set.
    Case {
        found: &NAMES,
        nodes: &[(30, 0, Says::Named("bb", false))],
        listed: &[],
        left: &[(20, 0), (20, 160)],
    },
    Case {
        found: &NAMES,
        nodes: &[(30, 0, Says::Named("am", true))],
        listed: &[],
        left: &[(20, 0), (30, 0), (20, 320)],
    },
    // A name comes back, behind the other one of its hash.
    Case {
        found: &NAMES,
        nodes: &[
            (30, 0, Says::Named("am", false)),
            (30, 160, Says::Named("am", true)),
        ],
        listed: &[],
        left: &[(20, 0), (20, 320), (30, 160)],
    },
    // A truncation takes the blocks that have no byte below the size.
    Case {
        found: &BLOCKS,
        nodes: &[(30, 0, Says::Cut(65, 4096))],
        listed: &[],
        left: &[(20, 0), (20, 160)],
    },
    Case {
        found: &BLOCKS,
        nodes: &[(30, 0, Says::Cut(65, 4097))],
        listed: &[],
        left: &[(20, 0), (20, 160), (20, 320)],
    },
    // Past the greatest number of a block it takes none.
    Case {
        found: &BLOCKS,
        nodes: &[(30, 0, Says::Cut(65, u64::MAX))],
        listed: &[],
        left: &[(20, 0), (20, 160), (20, 320), (20, 480)],
    },
    // An inode goes with its blocks, and a block of no inode sets nothing.
    Case {
        found: &BLOCKS,
        nodes: &[
            (30, 0, Says::Inode(65, false)),
            (30, 160, Says::Block(65, 3)),
        ],
        listed: &[],
        left: &[],
    },
    // Of two listed inodes one has links again.
    Case {
        found: &ORPHANS,
        nodes: &[(30, 0, Says::Inode(65, true))],
        listed: &[65, 66],
        left: &[(30, 0)],
    },
    // What is not listed stays, and what is listed and isn't there is nothing.
    Case {
        found: &ORPHANS,
        nodes: &[],
        listed: &[65, 67],
        left: &[(20, 160), (20, 320)],
    },
    // A stale leaf has the key, the place and the length of a later node.
    Case {
        found: &[(30, 160, Says::Inode(65, true))],
        nodes: &[
            (30, 0, Says::Inode(65, true)),
            (30, 160, Says::Inode(65, true)),
        ],
        listed: &[],
        left: &[(30, 160)],
    },
];

fn are_left(alloc: Global, case: &Case<'_>) -> Result<bool, Memory> {
    let index = index_of(alloc, case.found)?;
    let found = nodes_of(alloc, case.found)?;
    let nodes = nodes_of(alloc, case.nodes)?;
    let index = replay_nodes(alloc, index, found, nodes, case.listed)?;
    are_at(alloc, &index, case.left)
}

#[test]
fn nodes_make_the_leaves_that_they_should(rt: HostRuntime) {
    for (number, case) in CASES.iter().enumerate() {
        assert_eq!(rt; are_left(rt.alloc(), case), Ok(true), "case {number}");
    }
}
