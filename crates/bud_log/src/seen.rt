// What is seen of a log LEB at one pass.

ghost use Rattle.std.specs.Prelude.{◌≡◌, ◌==◌, ◌^◌, ◌<◌, length, max};
ghost use Rattle.ubifs_base.specs.NodeType.{type_number};
ghost use Rattle.bud_log.specs.LogText.{at_start as at_the_start, start_of as start_number, is_later as is_later_than};
ghost use Rattle.bud_log.specs.Seen.{IsSeen, earlier_of};

use leb_scan::{Found, Scanner, Tail};
use ubifs_base::NodeType;

/// The node with which the LEB begins, whether its text is a commit start alone, the greatest sequence number of its nodes or
/// 0, and where and how the text ends.
#[derive(Clone, Copy, Debug, PartialEq, Eq)]
pub struct Seen {
    pub begins: Option<Found>,
    pub alone: bool,
    pub sqnum: u64,
    pub offs: u32,
    pub tail: Tail,
}

/// Goes over the text of a LEB.
pub fn see(leb: &[u8]) -> Seen
    requires { length leb.now < 2 ^ 32 }
    ensures { IsSeen leb.now result }
{
    let mut first = None;
    let mut empty = true;
    let mut alone = false;
    let mut sqnum = 0;
    let mut scanner = Scanner::new(0);
    while let Some(found) = scanner.next(leb) {
        first = earlier(first, found);
        sqnum = greater(sqnum, found);
        if !is_of(found, NodeType::Padding) {
            alone = empty && is_of(found, NodeType::CommitStart);
            empty = false;
        }
    }
    Seen {
        begins: at_start(first),
        alone,
        sqnum,
        offs: scanner.place(),
        tail: scanner.tail(leb),
    }
}

// Whether a node is of this type.
fn is_of(found: Found, kind: NodeType) -> bool
    ensures { result ≡ (type_number found.kind == type_number kind) }
{
    found.kind == kind
}

// The first node, once another is found.
fn earlier(first: Option<Found>, found: Found) -> Option<Found>
    ensures { result ≡ earlier_of first found }
{
    match first {
        Some(first) => Some(first),
        None => Some(found),
    }
}

// The greatest number, once another node is found.
fn greater(sqnum: u64, found: Found) -> u64
    ensures { result ≡ max sqnum found.sqnum }
{
    sqnum.max(found.sqnum)
}

// A node that stands at the start of the LEB.
fn at_start(first: Option<Found>) -> Option<Found>
    ensures { result ≡ at_the_start first }
{
    let found = first?;
    if found.offs != 0 {
        return None;
    }
    Some(found)
}

/// The sequence number of the commit start with which a LEB begins.
pub fn start_of(begins: Option<Found>) -> Option<u64>
    ensures { result ≡ start_number begins }
{
    let found = begins?;
    if !is_of(found, NodeType::CommitStart) {
        return None;
    }
    Some(found.sqnum)
}

/// Whether a LEB begins with a node of a greater sequence number.
pub fn is_later(number: u64, begins: Option<Found>) -> bool
    ensures { result ≡ is_later_than number begins }
{
    let Some(found) = begins else {
        return false;
    };
    number < found.sqnum
}
