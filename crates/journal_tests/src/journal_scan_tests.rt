// Journals by hand. Each node is a truncation of 56 bytes or a block of 72, and only its sequence number and its group type count.

use crate::samples::Says;
use crate::texts::{LEB, Node, bud_of};
use journal_scan::{JournalNode, read_journal};
use std::alloc::Global;
use ubifs_base::{JournalHead, Memory};

// A LEB: the head, its nodes, and how many of its bytes were written.
#[derive(Clone, Copy)]
struct Leb<'a> {
    head: JournalHead,
    nodes: &'a [Node],
    written: usize,
}

// A journal of two LEBs, the numbers of the nodes and of the copies that it says, and the greatest of all its nodes.
#[derive(Clone, Copy)]
struct Case<'a> {
    lebs: &'a [Leb<'a>],
    nodes: &'a [u64],
    copies: &'a [u64],
    sqnum: u64,
}

const CUT: Says = Says::Cut(65, 0);

const CASES: &[Case<'static>] = &[
    // Two heads, of which the one that is named later has the lower numbers.
    Case {
        lebs: &[
            Leb {
                head: JournalHead::Data,
                nodes: &[(5, 0, CUT), (8, 1, CUT), (9, 2, CUT)],
                written: LEB,
            },
            Leb {
                head: JournalHead::Base,
                nodes: &[(3, 1, CUT), (4, 2, CUT), (6, 0, CUT), (7, 0, CUT)],
                written: LEB,
            },
        ],
        nodes: &[3, 4, 5, 6, 7, 8, 9],
        copies: &[],
        sqnum: 9,
    },
    // A group without its last node at the end, and one in front of a node by itself.
    Case {
        lebs: &[
            Leb {
                head: JournalHead::Base,
                nodes: &[(1, 1, CUT), (2, 0, CUT), (3, 1, CUT), (4, 1, CUT)],
                written: LEB,
            },
            Leb {
                head: JournalHead::Data,
                nodes: &[(5, 1, CUT)],
                written: LEB,
            },
        ],
        nodes: &[1, 2],
        copies: &[],
        sqnum: 5,
    },
    // A group of 632 bytes, of which the first 512 alone were written: it is dropped, and its numbers count.
    Case {
        lebs: &[
            Leb {
                head: JournalHead::Base,
                nodes: &[
                    (2, 1, CUT),
                    (3, 1, CUT),
                    (4, 1, CUT),
                    (5, 1, CUT),
                    (6, 1, CUT),
                    (7, 1, CUT),
                    (8, 1, CUT),
                    (9, 1, CUT),
                    (10, 1, CUT),
                    (11, 1, CUT),
                    (12, 2, Says::Block(65, 0)),
                ],
                written: 512,
            },
            Leb {
                head: JournalHead::Data,
                nodes: &[(1, 0, CUT)],
                written: LEB,
            },
        ],
        nodes: &[1],
        copies: &[],
        sqnum: 10,
    },
    // The same, and all of it was written.
    Case {
        lebs: &[
            Leb {
                head: JournalHead::Base,
                nodes: &[
                    (2, 1, CUT),
                    (3, 1, CUT),
                    (4, 1, CUT),
                    (5, 1, CUT),
                    (6, 1, CUT),
                    (7, 1, CUT),
                    (8, 1, CUT),
                    (9, 1, CUT),
                    (10, 1, CUT),
                    (11, 1, CUT),
                    (12, 2, Says::Block(65, 0)),
                ],
                written: 632,
            },
            Leb {
                head: JournalHead::Data,
                nodes: &[(1, 0, CUT)],
                written: LEB,
            },
        ],
        nodes: &[1, 2, 3, 4, 5, 6, 7, 8, 9, 10, 11, 12],
        copies: &[],
        sqnum: 12,
    },
    // The collector takes nodes out of their groups, and keeps their numbers.
    Case {
        lebs: &[
            Leb {
                head: JournalHead::Collector,
                nodes: &[(9, 1, CUT), (2, 2, CUT), (7, 1, CUT)],
                written: LEB,
            },
            Leb {
                head: JournalHead::Base,
                nodes: &[(3, 0, CUT)],
                written: LEB,
            },
        ],
        nodes: &[3],
        copies: &[9, 2, 7],
        sqnum: 9,
    },
    // Nothing is said.
    Case {
        lebs: &[
            Leb {
                head: JournalHead::Collector,
                nodes: &[],
                written: LEB,
            },
            Leb {
                head: JournalHead::Base,
                nodes: &[(3, 1, CUT)],
                written: LEB,
            },
        ],
        nodes: &[],
        copies: &[],
        sqnum: 3,
    },
    // The last node of a group begins in the LEB, and doesn't end there.
    Case {
        lebs: &[
            Leb {
                head: JournalHead::Data,
                nodes: &[(1, 1, CUT), (2, 2, CUT), (3, 1, CUT), (4, 2, CUT)],
                written: 220,
            },
            Leb {
                head: JournalHead::Data,
                nodes: &[(5, 2, CUT)],
                written: LEB,
            },
        ],
        nodes: &[1, 2, 5],
        copies: &[],
        sqnum: 5,
    },
];

fn have_numbers(nodes: &[JournalNode], numbers: &[u64]) -> bool {
    for (node, number) in nodes.iter().zip(numbers) {
        if node.sqnum != *number {
            return false;
        }
    }
    nodes.len() == numbers.len()
}

fn is_read_so(alloc: Global, case: &Case<'_>) -> Result<bool, Memory> {
    let [first, second] = case.lebs else {
        return Ok(false);
    };
    let first = bud_of(alloc, first.head, 20, first.nodes, first.written)?;
    let second = bud_of(alloc, second.head, 21, second.nodes, second.written)?;
    let read = read_journal(alloc, &[first, second])?;
    Ok(
        have_numbers(&read.nodes, case.nodes)
            && have_numbers(&read.copies, case.copies)
            && read.sqnum == case.sqnum,
    )
}

#[test]
fn journals_say_their_whole_groups(rt: HostRuntime) {
    for (number, case) in CASES.iter().enumerate() {
        assert_eq!(rt; is_read_so(rt.alloc(), case), Ok(true), "case {number}");
    }
}
