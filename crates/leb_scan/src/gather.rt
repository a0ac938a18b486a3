// A whole text at once.

ghost use Rattle.std.specs.Prelude.{◌≡◌, ◌%◌, ◌^◌, ◌<◌, ◌≤◌, List, length, IfOk};
ghost use Rattle.leb_scan.specs.Text.{IsText, nodes_of};
ghost use Rattle.leb_scan.specs.declared.item.Item.{Item as AnItem};

use crate::found::Found;
use crate::scanned::Scan;
use crate::scanner::Scanner;
use crate::tail::Tail;
use std::alloc::Global;
use ubifs_base::Memory;

/// The nodes, the end and the tail of a LEB's text from a place on, a multiple of 8. The error is want
/// of memory.
pub fn scan(alloc: Global, leb: &[u8], from: u32) -> Result<Scan, Memory>
    requires multiple { from % 8 ≡ 0 }
    requires place { from ≤ length leb.now }
    requires len { length leb.now < 2 ^ 32 }
    ensures { IfOk result (λ scan. (items : List AnItem) × IsText leb.now from items scan.end scan.tail × (scan.nodes.items ≡ nodes_of items)) }
{
    let mut scanner = Scanner::new(from);
    let mut nodes: Vec<Found> = Vec::new(alloc);
    while let Some(found) = scanner.next(leb) {
        nodes.push(found)?;
    }
    Ok(Scan {
        nodes,
        end: scanner.place(),
        tail: scanner.tail(leb),
    })
}

/// The end and the tail of a LEB's text from a place on, a multiple of 8. Takes no memory, so that all
/// bytes are seen to have a text.
pub fn text_end(leb: &[u8], from: u32) -> (u32, Tail)
    requires multiple { from % 8 ≡ 0 }
    requires place { from ≤ length leb.now }
    requires len { length leb.now < 2 ^ 32 }
    ensures { (items : List AnItem) × IsText leb.now from items result.0 result.1 }
{
    let mut scanner = Scanner::new(from);
    while let Some(_found) = scanner.next(leb) {}
    (scanner.place(), scanner.tail(leb))
}
