// The table of whole replays. The collector's LEB is 32, the data head's 31, and the base head's 30 and then 29, in this order of the
// log; committed leaves stand in LEBs 20 and 21, if nothing else is said. Numbers, places, leaves that are left and trees are written
// down by hand.

use crate::samples::Says;
use crate::texts::{LEB, Node};

// What stands at the place of a committed leaf: its own node with this number, nothing, or another node.
#[derive(Clone, Copy)]
pub(crate) enum Place {
    Own(u64),
    Lost,
    Other(Says),
}

// A committed leaf: the LEB and offset, what it is the leaf of, and what stands there.
pub(crate) type Committed = (u32, u32, Says, Place);

// The committed leaves, the nodes of each head, how many bytes of the base head's first LEB were written, the nodes of its next LEB,
// the list; then where the leaves that are left stand and the tree that they show, both in order of keys; how many nodes were
// applied, and the greatest inode number and the greatest sequence number.
#[derive(Clone, Copy)]
pub(crate) struct Case<'a> {
    pub committed: &'a [Committed],
    pub collector: &'a [Node],
    pub data: &'a [Node],
    pub base: &'a [Node],
    pub written: usize,
    pub next: &'a [Node],
    pub listed: &'a [u32],
    pub left: &'a [(u32, u32)],
    pub tree: &'a [Says],
    pub numbers: (u64, u32, u64),
}

// A file of two blocks, with a node of its own each.
const FILE: &[Committed] = &[
    (20, 0, Says::Inode(65, true), Place::Own(1)),
    (20, 160, Says::Block(65, 0), Place::Own(2)),
    (20, 320, Says::Block(65, 1), Place::Own(3)),
];

// Two names of one hash.
const NAMES: &[Committed] = &[
    (20, 0, Says::Inode(1, true), Place::Own(1)),
    (20, 160, Says::Named("am", true), Place::Own(2)),
    (21, 0, Says::Named("bb", true), Place::Lost),
];

pub(crate) const CASES: &[Case<'static>] = &[
    // A change whose nodes stand in the LEBs of two heads: the file's third block, and its inode before and behind it.
    Case {
        committed: FILE,
        collector: &[],
        data: &[(5, 0, Says::Block(65, 2))],
        base: &[(4, 0, Says::Inode(65, true)), (6, 0, Says::Inode(65, true))],
        written: LEB,
        next: &[],
        listed: &[],
        left: &[(30, 160), (20, 160), (20, 320), (31, 0)],
        tree: &[
            Says::Inode(65, true),
            Says::Block(65, 0),
            Says::Block(65, 1),
            Says::Block(65, 2),
        ],
        numbers: (3, 65, 6),
    },
    // A group lacks its last node.
    Case {
        committed: FILE,
        collector: &[],
        data: &[],
        base: &[
            (4, 1, Says::Inode(66, true)),
            (5, 2, Says::Inode(65, true)),
            (6, 1, Says::Inode(65, false)),
        ],
        written: LEB,
        next: &[],
        listed: &[],
        left: &[(30, 160), (20, 160), (20, 320), (30, 0)],
        tree: &[
            Says::Inode(65, true),
            Says::Block(65, 0),
            Says::Block(65, 1),
            Says::Inode(66, true),
        ],
        numbers: (2, 66, 6),
    },
    // No group crosses LEBs: what stands at the end of a LEB without its last node goes, and what stands in the head's next LEB is a
    // group by itself.
    Case {
        committed: FILE,
        collector: &[],
        data: &[],
        base: &[(4, 1, Says::Inode(66, true)), (5, 1, Says::Cut(65, 0))],
        written: LEB,
        next: &[(6, 2, Says::Inode(65, true))],
        listed: &[],
        left: &[(29, 0), (20, 160), (20, 320)],
        tree: &[
            Says::Inode(65, true),
            Says::Block(65, 0),
            Says::Block(65, 1),
        ],
        numbers: (1, 65, 6),
    },
    // Two heads interleave: the truncation is older than one block and newer than the other.
    Case {
        committed: FILE,
        collector: &[],
        data: &[(4, 0, Says::Block(65, 1)), (6, 0, Says::Block(65, 1))],
        base: &[(5, 0, Says::Cut(65, 4096))],
        written: LEB,
        next: &[],
        listed: &[],
        left: &[(20, 0), (20, 160), (31, 72)],
        tree: &[
            Says::Inode(65, true),
            Says::Block(65, 0),
            Says::Block(65, 1),
        ],
        numbers: (3, 65, 6),
    },
    // Copies stand in the log in front of what deleted them, and bring nothing back.
    Case {
        committed: &[
            (20, 0, Says::Inode(65, true), Place::Lost),
            (20, 160, Says::Named("am", true), Place::Lost),
        ],
        collector: &[
            (1, 1, Says::Inode(65, true)),
            (2, 1, Says::Named("am", true)),
        ],
        data: &[],
        base: &[
            (8, 1, Says::Named("am", false)),
            (9, 2, Says::Inode(65, false)),
        ],
        written: LEB,
        next: &[],
        listed: &[],
        left: &[],
        tree: &[],
        numbers: (2, 65, 9),
    },
    // A name goes and comes back. Its copy is that of the old one.
    Case {
        committed: &[(20, 0, Says::Named("am", true), Place::Lost)],
        collector: &[(2, 0, Says::Named("am", true))],
        data: &[],
        base: &[
            (7, 0, Says::Named("am", false)),
            (8, 0, Says::Named("am", true)),
        ],
        written: LEB,
        next: &[],
        listed: &[],
        left: &[(30, 64)],
        tree: &[Says::Named("am", true)],
        numbers: (2, 1, 8),
    },
    // Of two listed inodes one got its link again.
    Case {
        committed: &[
            (20, 0, Says::Inode(65, false), Place::Own(1)),
            (20, 160, Says::Inode(66, false), Place::Own(2)),
            (20, 320, Says::Block(66, 0), Place::Own(3)),
        ],
        collector: &[],
        data: &[],
        base: &[(7, 0, Says::Inode(65, true))],
        written: LEB,
        next: &[],
        listed: &[65, 66],
        left: &[(30, 0)],
        tree: &[Says::Inode(65, true)],
        numbers: (1, 66, 7),
    },
    // At a listed inode's old place another inode's node stands. Its copy has a link, so it stays.
    Case {
        committed: &[(
            20,
            0,
            Says::Inode(65, true),
            Place::Other(Says::Inode(66, false)),
        )],
        collector: &[(1, 0, Says::Inode(65, true))],
        data: &[],
        base: &[],
        written: LEB,
        next: &[],
        listed: &[65],
        left: &[(32, 0)],
        tree: &[Says::Inode(65, true)],
        numbers: (0, 65, 1),
    },
    // Nobody can read a listed inode, and it has no copy: it goes with its block.
    Case {
        committed: &[
            (20, 0, Says::Inode(65, true), Place::Lost),
            (20, 160, Says::Block(65, 0), Place::Own(2)),
        ],
        collector: &[],
        data: &[],
        base: &[],
        written: LEB,
        next: &[],
        listed: &[65],
        left: &[],
        tree: &[],
        numbers: (0, 65, 0),
    },
    // Of two names of one hash one's original is gone. Each has a copy, and the other name's isn't taken for it.
    Case {
        committed: NAMES,
        collector: &[
            (2, 0, Says::Named("am", true)),
            (3, 0, Says::Named("bb", true)),
        ],
        data: &[],
        base: &[],
        written: LEB,
        next: &[],
        listed: &[],
        left: &[(20, 0), (20, 160), (32, 64)],
        tree: &[
            Says::Inode(1, true),
            Says::Named("am", true),
            Says::Named("bb", true),
        ],
        numbers: (0, 1, 3),
    },
    // The same, and that name goes by its name.
    Case {
        committed: NAMES,
        collector: &[
            (2, 0, Says::Named("am", true)),
            (3, 0, Says::Named("bb", true)),
        ],
        data: &[],
        base: &[(8, 0, Says::Named("bb", false))],
        written: LEB,
        next: &[],
        listed: &[],
        left: &[(20, 0), (20, 160)],
        tree: &[Says::Inode(1, true), Says::Named("am", true)],
        numbers: (1, 1, 8),
    },
    // Nobody can read a name, and it has no copy: its leaf goes.
    Case {
        committed: NAMES,
        collector: &[],
        data: &[],
        base: &[],
        written: LEB,
        next: &[],
        listed: &[],
        left: &[(20, 0), (20, 160)],
        tree: &[Says::Inode(1, true), Says::Named("am", true)],
        numbers: (0, 1, 0),
    },
    // At the place of a stale leaf stands a node of its key and length, of a group that lacks its last node. The leaf is at its copy.
    Case {
        committed: &[(30, 0, Says::Inode(65, true), Place::Own(9))],
        collector: &[(1, 0, Says::Inode(65, true))],
        data: &[],
        base: &[(9, 1, Says::Inode(65, false))],
        written: LEB,
        next: &[],
        listed: &[],
        left: &[(32, 0)],
        tree: &[Says::Inode(65, true)],
        numbers: (0, 65, 9),
    },
    // At the place of a stale leaf stands a later node of its key and length, which makes it obsolete.
    Case {
        committed: &[(30, 160, Says::Inode(65, true), Place::Own(9))],
        collector: &[(1, 0, Says::Inode(65, true))],
        data: &[],
        base: &[(8, 0, Says::Inode(65, true)), (9, 0, Says::Inode(65, true))],
        written: LEB,
        next: &[],
        listed: &[],
        left: &[(30, 160)],
        tree: &[Says::Inode(65, true)],
        numbers: (2, 65, 9),
    },
    // A group of 632 bytes, of which the first 512 were written.
    Case {
        committed: FILE,
        collector: &[],
        data: &[],
        base: &[
            (4, 1, Says::Inode(65, true)),
            (5, 1, Says::Inode(66, true)),
            (6, 1, Says::Named("am", true)),
            (7, 1, Says::Named("bb", true)),
            (8, 1, Says::Named("am", false)),
            (9, 1, Says::Named("bb", false)),
            (10, 2, Says::Cut(65, 0)),
        ],
        written: 512,
        next: &[],
        listed: &[],
        left: &[(20, 0), (20, 160), (20, 320)],
        tree: &[
            Says::Inode(65, true),
            Says::Block(65, 0),
            Says::Block(65, 1),
        ],
        numbers: (0, 65, 8),
    },
    // All of it was written.
    Case {
        committed: FILE,
        collector: &[],
        data: &[],
        base: &[
            (4, 1, Says::Inode(65, true)),
            (5, 1, Says::Inode(66, true)),
            (6, 1, Says::Named("am", true)),
            (7, 1, Says::Named("bb", true)),
            (8, 1, Says::Named("am", false)),
            (9, 1, Says::Named("bb", false)),
            (10, 2, Says::Cut(65, 0)),
        ],
        written: 632,
        next: &[],
        listed: &[],
        left: &[(30, 0), (30, 160)],
        tree: &[Says::Inode(65, true), Says::Inode(66, true)],
        numbers: (7, 66, 10),
    },
    // A collection copied each leaf of its LEB: all stand at their copies.
    Case {
        committed: FILE,
        collector: &[
            (1, 0, Says::Inode(65, true)),
            (2, 0, Says::Block(65, 0)),
            (3, 0, Says::Block(65, 1)),
        ],
        data: &[],
        base: &[],
        written: LEB,
        next: &[],
        listed: &[],
        left: &[(32, 0), (32, 160), (32, 232)],
        tree: &[
            Says::Inode(65, true),
            Says::Block(65, 0),
            Says::Block(65, 1),
        ],
        numbers: (0, 65, 3),
    },
    // One is missing: all stand at their originals.
    Case {
        committed: FILE,
        collector: &[(1, 0, Says::Inode(65, true)), (2, 0, Says::Block(65, 0))],
        data: &[],
        base: &[],
        written: LEB,
        next: &[],
        listed: &[],
        left: &[(20, 0), (20, 160), (20, 320)],
        tree: &[
            Says::Inode(65, true),
            Says::Block(65, 0),
            Says::Block(65, 1),
        ],
        numbers: (0, 65, 2),
    },
    // One is missing that the journal replaced: the others stand at their copies.
    Case {
        committed: FILE,
        collector: &[(1, 0, Says::Inode(65, true)), (2, 0, Says::Block(65, 0))],
        data: &[(8, 0, Says::Block(65, 1))],
        base: &[],
        written: LEB,
        next: &[],
        listed: &[],
        left: &[(32, 0), (32, 160), (31, 0)],
        tree: &[
            Says::Inode(65, true),
            Says::Block(65, 0),
            Says::Block(65, 1),
        ],
        numbers: (1, 65, 8),
    },
];
