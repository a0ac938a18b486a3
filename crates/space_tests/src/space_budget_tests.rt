// What a book admits, and what each call makes of its numbers: tables worked out by hand. Of 64 main LEBs of 16,384 bytes in units of
// 512, 10,080 bytes each count; 85 index nodes a LEB.

ghost use Rattle.std.specs.Prelude.{◌≡◌, IfSome, None};
ghost use Rattle.fs_model.specs.Backing.{IsModest, IsSmall};
ghost use Rattle.fs_model.specs.declared.space.Class.TheVariants.{Ordinary, Removal};

use fs_model::{Class, Need, Space};
use space_budget::Book;
use ubifs_base::{Geometry, RawGeometry};

// A book of these numbers, if there is a geometry.
fn book_of(space: Space) -> Option<Book>
    ensures space { IfSome result (λ book. book.space ≡ space) }
    ensures grant { IfSome result (λ book. book.grant ≡ None) }
{
    match Geometry::new(&RawGeometry::plain(16384, 512, 64, 8)) {
        Ok(geo) => Some(Book::new(geo, space)),
        Err(_) => None,
    }
}

fn numbers(used: u32, credits: u32, weight: u32) -> Space
    ensures small { IsSmall result }
    ensures exactly { result ≡ record { used = used; held = 0; credits = credits; empty = 25; index = 1; weight = weight; main = 64 } }
{
    Space {
        used: used as u64,
        held: 0,
        credits: credits as u64,
        empty: 25,
        index: 1,
        weight: weight as u64,
        main: 64,
    }
}

// Pages that are made dirty.
fn pages(credits: u32) -> Need
    ensures modest { IsModest result }
    ensures exactly { result ≡ record { credits = credits; bytes = 0; nodes = 0; class = Ordinary } }
{
    Need {
        credits: credits as u64,
        bytes: 0,
        nodes: 0,
        class: Class::Ordinary,
    }
}

// A name that is taken away.
fn removal(bytes: u32, nodes: u32) -> Need
    ensures modest { IsModest result }
    ensures exactly { result ≡ record { credits = 0; bytes = bytes; nodes = nodes; class = Removal } }
{
    Need {
        credits: 0,
        bytes: bytes as u64,
        nodes: nodes as u64,
        class: Class::Removal,
    }
}

// What is asked for: pages, or the bytes and nodes of a removal.
#[derive(Clone, Copy)]
enum Asked {
    Pages(u32),
    Removal(u32, u32),
}

use Asked::{Pages, Removal};

// The numbers, what is asked for, and both sides of the test where it isn't granted.
type Row = ((u32, u32, u32), Asked, Option<(u64, u64)>);

const ROWS: &[Row] = &[
    ((505952, 0, 31), Pages(1), None),
    ((510096, 0, 31), Pages(1), Some((514400, 514080))),
    ((505952, 1, 31), Pages(1), Some((514560, 514080))),
    ((510096, 0, 31), Removal(288, 3), None),
    ((384, 103, 4), Pages(1), None),
    ((384, 105, 4), Pages(1), Some((456608, 453600))),
    ((435504, 0, 214), Pages(4), None),
    ((435504, 0, 214), Pages(5), Some((457024, 453600))),
    ((160, 0, 83), Pages(1), None),
    ((554112, 0, 82), Removal(288, 3), None),
    ((554112, 0, 82), Removal(288, 4), Some((554400, 524160))),
];

fn need_of(asked: Asked) -> Need
    ensures { IsModest result }
{
    match asked {
        Pages(credits) => pages(credits),
        Removal(bytes, nodes) => removal(bytes, nodes),
    }
}

fn is_admitted_so(row: &Row) -> bool {
    let space = numbers(row.0.0, row.0.1, row.0.2);
    let need = need_of(row.1);
    let Some(mut book) = book_of(space) else {
        return false;
    };
    let (granted, sides) = match book.admit(&need) {
        Ok(()) => (need.credits, None),
        Err(sides) => (0, Some((sides.need, sides.room))),
    };
    let after = Space {
        credits: space.credits.wrapping_add(granted),
        ..space
    };
    sides == row.2 && book.space() == after
}

#[test]
fn admissions_are_as_worked(rt: HostRuntime) {
    for (number, row) in ROWS.iter().enumerate() {
        assert!(rt; is_admitted_so(row), "row {number}");
    }
}

// Two pages are granted and one is put; the other credit is given back. A group is put and synced, and a commit ends.
fn are_calls_followed() -> bool {
    let Some(mut book) = book_of(numbers(4528, 0, 7)) else {
        return false;
    };
    let Ok(()) = book.admit(&pages(2)) else {
        return false;
    };
    let granted = book.space();
    book.spend_page(8672, 0, 2);
    let put = book.space();
    book.give_back(1);
    let Ok(()) = book.admit(&removal(288, 3)) else {
        return false;
    };
    book.spend_group(8608, 288, 2);
    let held = book.space();
    book.moved(8448, 448, 24);
    book.synced();
    book.committed(0, 0, 26);
    granted == numbers(4528, 2, 7)
        && put == numbers(8672, 1, 9)
        && held
            == Space {
                held: 288,
                ..numbers(8608, 0, 11)
            }
        && book.space()
            == Space {
                empty: 26,
                index: 0,
                ..numbers(8448, 0, 0)
            }
}

#[test]
fn numbers_follow_the_calls(rt: HostRuntime) {
    assert!(rt; are_calls_followed());
}
