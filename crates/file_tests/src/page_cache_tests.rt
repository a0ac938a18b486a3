// A cache, call by call.

ghost use Rattle.std.specs.Prelude.{◌≡◌, IsSome, IsNone, None};
ghost use Rattle.std.specs.List.{IsDistinct};
ghost use Rattle.std.specs.Map.{keys_of};
ghost use Rattle.page_cache.specs.Pages.{is_page, dirty_at, clean_at, next_of};

use page_cache::{Cache, Ticket};
use std::alloc::{AllocError, Global};
use std::test::Fail;
use ubifs_base::Bytes;

fn page_of(alloc: Global, byte: u8) -> Result<Bytes, AllocError> {
    Bytes::from_slice(alloc, &[byte])
}

// The first byte of a page that is read, or 0.
fn byte_at(cache: &mut Cache, ino: u32, block: u32) -> u8 {
    match cache.get(ino, block) {
        Some(page) => match page.as_slice().first() {
            Some(byte) => *byte,
            None => 0,
        },
        None => 0,
    }
}

fn ticket_of(ino: u32, block: u32, version: u64) -> Ticket {
    Ticket {
        ino,
        block,
        version,
    }
}

// The version and the first byte of a page that is dirty, or zeros.
fn dirty_byte(cache: &Cache, ino: u32, block: u32) -> (u64, u8) {
    match cache.dirty_page(ino, block) {
        Some(page) => match page.bytes.as_slice().first() {
            Some(byte) => (page.version, *byte),
            None => (page.version, 0),
        },
        None => (0, 0),
    }
}

// The first byte that a page had which was given another one, or 0.
fn exchanged_byte(cache: &mut Cache, ticket: &Ticket, page: Bytes) -> u64 {
    match cache.exchange(ticket, page) {
        Some(old) => match old.as_slice().first() {
            Some(byte) => *byte as u64,
            None => 0,
        },
        None => 0,
    }
}

// The ticket of an inode's dirty page at a place of their order.
fn nth_ticket(
    alloc: Global,
    cache: &Cache,
    ino: u32,
    place: u32,
) -> Result<Option<Ticket>, AllocError> {
    let tickets = cache.tickets_of(alloc, ino)?;
    Ok(match tickets.as_slice().get(place as usize) {
        Some(ticket) => Some(ticket_of(ticket.ino, ticket.block, ticket.version)),
        None => None,
    })
}

// What a caller knows of every cache: no name stands twice among the dirty pages, and a dirty page isn't clean.
fn dirty_once(cache: &Cache, ino: u32, block: u32) -> u64
    ensures once { IsDistinct is_page (keys_of cache.now.dirty) }
    ensures apart { IsSome (dirty_at cache.now ino block) → IsNone (clean_at cache.now ino block) }
{
    cache.dirty()
}

// Marks the dirty pages of an inode clean, as fsync(2) does once the medium has them. That it ends stands on the laws of
// `specs/PageLaws.antt`.
fn clean_all(cache: &mut Cache, ino: u32)
    ensures { next_of cache.new ino ≡ None }
{
    while let Some(ticket) = cache.next_of(ino) {
        let _dirty = cache.dirty();
        cache.mark_clean(&ticket);
    }
}

// What a call answers, in three numbers.
fn told(ticket: Option<Ticket>) -> (u32, u32, u64) {
    match ticket {
        Some(ticket) => (ticket.ino, ticket.block, ticket.version),
        None => (0, 0, 0),
    }
}

// One call: `d` and `c` put a dirty and a clean page, of one byte; `g` gets a page's byte, `v` the version and the byte of
// a dirty one; `e` gives the page of a ticket the byte 9, `m` marks it clean, `x` cuts an inode from a block on, `w` marks
// all of it clean; `n` is the number of dirty pages; `o` the oldest ticket, `f` the first of an inode, and `t` the one at
// the place `block`.
fn answer(
    alloc: Global,
    cache: &mut Cache,
    call: u8,
    (ino, block, number): (u32, u32, u8),
) -> Result<(u32, u32, u64), Fail> {
    Ok(match call {
        b'd' => (
            0,
            0,
            cache.put_dirty(ino, block, page_of(alloc, number)?)? as u64,
        ),
        b'c' => {
            cache.put_clean(ino, block, page_of(alloc, number)?)?;
            (0, 0, 0)
        }
        b'g' => (0, 0, byte_at(cache, ino, block) as u64),
        b'v' => {
            let (version, byte) = dirty_byte(cache, ino, block);
            (byte as u32, 0, version)
        }
        b'm' => (
            0,
            0,
            cache.mark_clean(&ticket_of(ino, block, number as u64)) as u64,
        ),
        b'x' => (0, 0, cache.cut(ino, block)),
        b'e' => (
            0,
            0,
            exchanged_byte(
                cache,
                &ticket_of(ino, block, number as u64),
                page_of(alloc, 9)?,
            ),
        ),
        b'w' => {
            clean_all(cache, ino);
            (0, 0, 0)
        }
        b'n' => (0, 0, dirty_once(cache, ino, block)),
        b'o' => told(cache.oldest()),
        b'f' => told(cache.next_of(ino)),
        _ => told(nth_ticket(alloc, cache, ino, block)?),
    })
}

// Pages are written, written again, marked clean and cut; of three clean pages the one that wasn't used goes, and a dirty
// one hides none; tickets come in the order in which the pages became dirty, and a page that is taken out from between others
// goes last when it is dirty again. A row is a call, the page that it is of, its byte or version, and the answer.
const ROWS: &[(u8, (u32, u32, u8), (u32, u32, u64))] = &[
    (b'o', (0, 0, 0), (0, 0, 0)),
    (b'd', (64, 1, 1), (0, 0, 1)),
    (b'd', (64, 0, 2), (0, 0, 1)),
    (b'd', (65, 1, 3), (0, 0, 1)),
    (b'd', (64, 1, 4), (0, 0, 0)),
    (b'n', (64, 1, 0), (0, 0, 3)),
    (b'o', (0, 0, 0), (64, 1, 4)),
    (b'f', (64, 0, 0), (64, 1, 4)),
    (b'f', (65, 0, 0), (65, 1, 3)),
    (b'f', (66, 0, 0), (0, 0, 0)),
    (b't', (64, 0, 0), (64, 1, 4)),
    (b't', (64, 1, 0), (64, 0, 2)),
    (b't', (64, 2, 0), (0, 0, 0)),
    (b't', (65, 0, 0), (65, 1, 3)),
    (b't', (66, 0, 0), (0, 0, 0)),
    (b'v', (64, 1, 0), (4, 0, 4)),
    (b'v', (64, 2, 0), (0, 0, 0)),
    (b'g', (64, 1, 0), (0, 0, 4)),
    (b'm', (64, 1, 1), (0, 0, 0)),
    (b'm', (64, 2, 1), (0, 0, 0)),
    (b'm', (64, 1, 4), (0, 0, 1)),
    (b'g', (64, 1, 0), (0, 0, 0)),
    (b'o', (0, 0, 0), (64, 0, 2)),
    (b'x', (64, 1, 0), (0, 0, 0)),
    (b'x', (64, 0, 0), (0, 0, 1)),
    (b'o', (0, 0, 0), (65, 1, 3)),
    (b'x', (65, 2, 0), (0, 0, 0)),
    (b'n', (65, 1, 0), (0, 0, 1)),
    (b'w', (65, 0, 0), (0, 0, 0)),
    (b'n', (65, 1, 0), (0, 0, 0)),
    (b'c', (64, 0, 1), (0, 0, 0)),
    (b'c', (64, 1, 2), (0, 0, 0)),
    (b'g', (64, 0, 0), (0, 0, 1)),
    (b'c', (64, 2, 3), (0, 0, 0)),
    (b'g', (64, 1, 0), (0, 0, 0)),
    (b'g', (64, 0, 0), (0, 0, 1)),
    (b'd', (64, 2, 4), (0, 0, 1)),
    (b'c', (64, 2, 5), (0, 0, 0)),
    (b'g', (64, 2, 0), (0, 0, 4)),
    (b'x', (64, 0, 0), (0, 0, 1)),
    (b'g', (64, 0, 0), (0, 0, 0)),
    (b'd', (70, 0, 1), (0, 0, 1)),
    (b'd', (70, 1, 2), (0, 0, 1)),
    (b'd', (71, 0, 3), (0, 0, 1)),
    (b'm', (70, 1, 7), (0, 0, 1)),
    (b'd', (70, 1, 4), (0, 0, 1)),
    (b't', (70, 0, 0), (70, 0, 6)),
    (b't', (70, 1, 0), (70, 1, 9)),
    (b'm', (70, 0, 6), (0, 0, 1)),
    (b'o', (0, 0, 0), (71, 0, 8)),
    (b'm', (71, 0, 8), (0, 0, 1)),
    (b'o', (0, 0, 0), (70, 1, 9)),
    (b'd', (70, 1, 5), (0, 0, 0)),
    (b'm', (70, 1, 9), (0, 0, 0)),
    (b'e', (70, 1, 9), (0, 0, 0)),
    (b'e', (70, 1, 10), (0, 0, 5)),
    (b'v', (70, 1, 0), (9, 0, 10)),
    (b'd', (70, 1, 5), (0, 0, 0)),
    (b'x', (70, 2, 0), (0, 0, 0)),
    (b'v', (70, 1, 0), (5, 0, 11)),
    (b'x', (70, 1, 0), (0, 0, 1)),
    (b'n', (70, 1, 0), (0, 0, 0)),
];

#[test]
fn each_call_answers(rt: HostRuntime) -> Result<(), Fail> {
    let mut cache = Cache::new(rt.alloc(), 2)?;
    for (call, page, wanted) in ROWS {
        assert_eq!(rt; answer(rt.alloc(), &mut cache, *call, *page)?, *wanted);
    }
    Ok(())
}
