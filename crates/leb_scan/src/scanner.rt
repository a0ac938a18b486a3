// The nodes of a text, one by one.

ghost use Rattle.std.specs.Prelude.{◌≡◌, ◌%◌, ◌^◌, ◌<◌, ◌≤◌, length, IfSome, IfNone, OnSome};
ghost use Rattle.leb_scan.specs.Text.{IsNext, IsLast, tail_at};

use crate::blank::is_unwritten;
use crate::found::Found;
use crate::item::Item;
use crate::item_at::{behind, item_at};
use crate::tail::Tail;

/// Goes over the text of a LEB from a place on, and takes no memory. Where `next` has answered `None`,
/// the text ends at `place` and with `tail`.
#[derive(Clone, Copy, Debug, PartialEq, Eq)]
pub struct Scanner {
    place: u32,
}

impl Scanner {
    /// Begins at a place, a multiple of 8.
    pub fn new(from: u32) -> Scanner
        requires { from % 8 ≡ 0 }
        ensures { result.place ≡ from }
    {
        Scanner { place: from }
    }

    /// The place from which the text goes on: that behind the last node that was given.
    pub fn place(&self) -> u32
        ensures { result ≡ self.now.place }
    {
        self.place
    }

    /// The next node of the LEB's text, padding nodes among them; none exactly where no node is left,
    /// and then the place is the text's end.
    pub fn next(&mut self, leb: &[u8]) -> Option<Found>
        requires place { self.old.place ≤ length leb.now }
        requires len { length leb.now < 2 ^ 32 }
        ensures some { IfSome result (λ found. IsNext leb.now self.old.place self.new.place found) }
        ensures none { IfNone result (IsLast leb.now self.old.place self.new.place (tail_at leb.now self.new.place)) }
        ensures later { OnSome result (self.old.place < self.new.place) }
        ensures within { self.new.place ≤ length leb.now }
    {
        let (place, found) = next_node(leb, self.place);
        self.place = place;
        found
    }

    /// How a text ends whose end is the place: clean where nothing is written from there on.
    pub fn tail(&self, leb: &[u8]) -> Tail
        requires { self.now.place ≤ length leb.now }
        ensures { result ≡ tail_at leb.now self.now.place }
    {
        if is_unwritten(leb.split_at(self.place as usize).1) {
            Tail::Clean
        } else {
            Tail::Torn
        }
    }
}

// The next node, and the place behind it; or the text's end.
fn next_node(leb: &[u8], from: u32) -> (u32, Option<Found>)
    requires place { from ≤ length leb.now }
    requires len { length leb.now < 2 ^ 32 }
    ensures some { IfSome result.1 (λ found. IsNext leb.now from result.0 found) }
    ensures none { IfNone result.1 (IsLast leb.now from result.0 (tail_at leb.now result.0)) }
    ensures later { OnSome result.1 (from < result.0) }
    ensures within { result.0 ≤ length leb.now }
{
    let mut place = from;
    loop {
        let Some(item) = item_at(leb, place) else {
            return (place, None);
        };
        place = behind(leb, place, item);
        match item {
            Item::Node { found } => return (place, Some(found)),
            Item::Padding { found, .. } => return (place, Some(found)),
            Item::Word => {}
        }
    }
}
