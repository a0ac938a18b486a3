// Texts worked out by hand from the layout of ubifs-media.h; checksums by zlib's crc32.

use leb_scan::*;
use std::alloc::{AllocError, Global};
use ubifs_base::{Memory, NodeType};

// LEB 12 from 4096 on belongs to head 1: sequence number 11.
const REFERENCE: &[u8; 64] =
    b"\x31\x18\x10\x06\xae\xb5\x40\x14\x0b\x00\x00\x00\x00\x00\x00\x00\x40\x00\x00\x00\
    \x08\x00\x00\x00\x0c\x00\x00\x00\x00\x10\x00\x00\x01\x00\x00\x00\x00\x00\x00\x00\
    \x00\x00\x00\x00\x00\x00\x00\x00\x00\x00\x00\x00\x00\x00\x00\x00\x00\x00\x00\x00\
    \x00\x00\x00\x00";

// Inode 65 is cut from 10000 bytes to 4097: sequence number 10.
const TRUNCATION: &[u8; 56] =
    b"\x31\x18\x10\x06\x1c\x03\xb9\x1e\x0a\x00\x00\x00\x00\x00\x00\x00\x38\x00\x00\x00\
    \x04\x00\x00\x00\x41\x00\x00\x00\x00\x00\x00\x00\x00\x00\x00\x00\x00\x00\x00\x00\
    \x10\x27\x00\x00\x00\x00\x00\x00\x01\x10\x00\x00\x00\x00\x00\x00";

// Block 3 of inode 65, `abc`: sequence number 8.
const BLOCK: &[u8; 51] =
    b"\x31\x18\x10\x06\x73\xd4\xf1\xf4\x08\x00\x00\x00\x00\x00\x00\x00\x33\x00\x00\x00\
    \x01\x00\x00\x00\x41\x00\x00\x00\x03\x00\x00\x20\x00\x00\x00\x00\x00\x00\x00\x00\
    \x03\x00\x00\x00\x00\x00\x00\x00\x61\x62\x63";

// A padding node that announces 4 bytes.
const PADDING: &[u8; 28] =
    b"\x31\x18\x10\x06\x3c\x5d\xba\x3e\x00\x00\x00\x00\x00\x00\x00\x00\x1c\x00\x00\x00\
    \x05\x00\x00\x00\x04\x00\x00\x00";

// A padding node that announces 5 bytes.
const ODD_PADDING: &[u8; 28] =
    b"\x31\x18\x10\x06\x59\x3a\x06\x86\x00\x00\x00\x00\x00\x00\x00\x00\x1c\x00\x00\x00\
    \x05\x00\x00\x00\x05\x00\x00\x00";

const REFERENCE_FOUND: Found = Found {
    offs: 0,
    len: 64,
    kind: NodeType::Reference,
    group: 0,
    sqnum: 11,
};

const TRUNCATION_FOUND: Found = Found {
    offs: 0,
    len: 56,
    kind: NodeType::Truncation,
    group: 0,
    sqnum: 10,
};

const BLOCK_FOUND: Found = Found {
    offs: 0,
    len: 51,
    kind: NodeType::Data,
    group: 0,
    sqnum: 8,
};

const PADDING_FOUND: Found = Found {
    offs: 0,
    len: 28,
    kind: NodeType::Padding,
    group: 0,
    sqnum: 0,
};

// The parts of a LEB, one behind another, its nodes, and where and how its text ends.
#[derive(Clone, Copy)]
struct Text<'a> {
    parts: &'a [&'a [u8]],
    nodes: &'a [Found],
    end: u32,
    tail: Tail,
}

const TEXTS: &[Text<'static>] = &[
    // Nothing, and nothing written.
    Text {
        parts: &[],
        nodes: &[],
        end: 0,
        tail: Tail::Clean,
    },
    Text {
        parts: &[&[0xff; 19]],
        nodes: &[],
        end: 0,
        tail: Tail::Clean,
    },
    // No node and no gap.
    Text {
        parts: &[&[0; 8]],
        nodes: &[],
        end: 0,
        tail: Tail::Torn,
    },
    // One byte is written.
    Text {
        parts: &[&[0xff; 18], &[0xfe]],
        nodes: &[],
        end: 0,
        tail: Tail::Torn,
    },
    // Too few bytes for a word.
    Text {
        parts: &[&[0xce; 8], &[0xce; 7]],
        nodes: &[],
        end: 8,
        tail: Tail::Torn,
    },
    Text {
        parts: &[&[0xce; 8], &[0xff; 3]],
        nodes: &[],
        end: 8,
        tail: Tail::Clean,
    },
    // A reference, and nothing behind it.
    Text {
        parts: &[REFERENCE, &[0xff; 16]],
        nodes: &[REFERENCE_FOUND],
        end: 64,
        tail: Tail::Clean,
    },
    // Words of padding before a node and behind it.
    Text {
        parts: &[&[0xce; 16], TRUNCATION, &[0xce; 8], &[0xff; 8]],
        nodes: &[Found {
            offs: 16,
            ..TRUNCATION_FOUND
        }],
        end: 80,
        tail: Tail::Clean,
    },
    // A node in the last bytes, and one with anything up to the next multiple of 8.
    Text {
        parts: &[BLOCK],
        nodes: &[BLOCK_FOUND],
        end: 51,
        tail: Tail::Clean,
    },
    Text {
        parts: &[BLOCK, &[7; 5], BLOCK, &[0xce; 3]],
        nodes: &[
            BLOCK_FOUND,
            Found {
                offs: 56,
                ..BLOCK_FOUND
            },
        ],
        end: 110,
        tail: Tail::Clean,
    },
    // A padding node with its gap, and a node behind it.
    Text {
        parts: &[PADDING, &[7; 4], TRUNCATION],
        nodes: &[
            PADDING_FOUND,
            Found {
                offs: 32,
                ..TRUNCATION_FOUND
            },
        ],
        end: 88,
        tail: Tail::Clean,
    },
    // A gap that passes the end.
    Text {
        parts: &[TRUNCATION, PADDING, &[0xff; 3]],
        nodes: &[TRUNCATION_FOUND],
        end: 56,
        tail: Tail::Torn,
    },
    // A gap that doesn't end at a multiple of 8.
    Text {
        parts: &[TRUNCATION, ODD_PADDING, &[0xff; 12]],
        nodes: &[TRUNCATION_FOUND],
        end: 56,
        tail: Tail::Torn,
    },
];

// The bytes of a LEB, one part behind another.
fn joined(alloc: Global, parts: &[&[u8]]) -> Result<Vec<u8>, AllocError> {
    let mut leb = Vec::new(alloc);
    for part in parts {
        leb.extend_from_slice(part)?;
    }
    Ok(leb)
}

fn is_read_so(alloc: Global, text: &Text<'_>) -> Result<bool, Memory> {
    let leb = joined(alloc, text.parts)?;
    let leb = leb.as_slice();
    if leb.len() >= 4096 {
        return Ok(false);
    }
    let read = scan(alloc, leb, 0)?;
    Ok(
        read.nodes.as_slice() == text.nodes
            && read.end == text.end
            && read.tail == text.tail
            && text_end(leb, 0) == (text.end, text.tail),
    )
}

#[test]
fn texts_are_read(rt: HostRuntime) {
    for (number, text) in TEXTS.iter().enumerate() {
        assert_eq!(rt; is_read_so(rt.alloc(), text), Ok(true), "text {number}");
    }
}

// A node of which a byte is another.
fn is_torn_in_a_node(alloc: Global) -> Result<bool, Memory> {
    let torn = Text {
        parts: &[TRUNCATION, REFERENCE.split_at(63).0, &[1]],
        nodes: &[TRUNCATION_FOUND],
        end: 56,
        tail: Tail::Torn,
    };
    is_read_so(alloc, &torn)
}

// Node after node from the second on, and the place behind the last.
fn is_read_by_node(alloc: Global) -> Result<bool, Memory> {
    let leb = joined(alloc, &[BLOCK, &[0xce; 5], &[0xce; 8], TRUNCATION, &[0; 1]])?;
    let leb = leb.as_slice();
    if leb.len() != 121 {
        return Ok(false);
    }
    let mut scanner = Scanner::new(56);
    let first = scanner.next(leb);
    let second = scanner.next(leb);
    Ok(
        first
            == Some(Found {
                offs: 64,
                ..TRUNCATION_FOUND
            })
            && second.is_none()
            && scanner.place() == 120
            && scanner.tail(leb) == Tail::Torn,
    )
}

#[test]
fn nodes_are_read_one_by_one(rt: HostRuntime) {
    assert_eq!(rt;
        (is_torn_in_a_node(rt.alloc()), is_read_by_node(rt.alloc())),
        (Ok(true), Ok(true))
    );
}
