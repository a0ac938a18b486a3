// What is wrong first in the texts of buds.

ghost use Rattle.std.specs.Prelude.{◌≡◌, ◌<◌, ◌^◌, length};
ghost use Rattle.std.specs.List.{AllByRecursion};
ghost use Rattle.journal_scan.specs.Journal.{IsReadable};
ghost use Rattle.bud_check.specs.Findings.{IsFirstFound, IsWrongEnd, IsWrongFound, IsWrongText, IsWrongTexts, may_stand as is_allowed};

use crate::bud_wrong::{BudMisfit, BudWrong};
use crate::first_wrong::first_wrong;
use image_check::{needed_feature, type_number};
use journal_scan::BudText;
use leb_scan::{Found, Scanner, one_text};
use ubifs_base::NodeType;

/// What is wrong first in these texts.
pub(crate) fn first_in_texts(texts: &[BudText]) -> Option<BudWrong>
    requires { AllByRecursion IsReadable texts.now }
    ensures { IsFirstFound (IsWrongTexts texts.now) result }
{
    one_text();
    let mut first = None;
    let mut left = texts;
    'reading: while let Some((text, rest)) = left.split_first() {
        first = first_wrong(first, first_in_text(text));
        left = rest;
    }
    first
}

// What is wrong first in one.
fn first_in_text(bud: &BudText) -> Option<BudWrong>
    requires { IsReadable bud.now }
    ensures { IsFirstFound (IsWrongText bud.now) result }
{
    one_text();
    let bytes = bud.bytes.as_slice();
    let mut first = None;
    let mut scanner = Scanner::new(bud.from);
    while let Some(found) = scanner.next(bytes) {
        first = first_wrong(first, wrong_node(bytes, bud.lnum, found));
    }
    first_wrong(first, wrong_end(bytes, bud.lnum, scanner.place()))
}

// What is wrong with a node of a text.
fn wrong_node(leb: &[u8], lnum: u32, found: Found) -> Option<BudWrong>
    requires { length leb.now < 2 ^ 32 }
    ensures { IsFirstFound (IsWrongFound leb.now lnum found) result }
{
    if let Some(what) = needed_feature(leb, found.offs) {
        return Some(BudWrong {
            lnum,
            offs: found.offs,
            misfit: BudMisfit::Needs { what },
        });
    }
    if may_stand(found.kind) {
        return None;
    }
    Some(BudWrong {
        lnum,
        offs: found.offs,
        misfit: BudMisfit::Unwanted {
            kind: type_number(found.kind),
        },
    })
}

// What is wrong with a text's tail, which begins at this place.
fn wrong_end(leb: &[u8], lnum: u32, end: u32) -> Option<BudWrong>
    requires { length leb.now < 2 ^ 32 }
    ensures { IsFirstFound (IsWrongEnd leb.now lnum end) result }
{
    let what = needed_feature(leb, end)?;
    Some(BudWrong {
        lnum,
        offs: end,
        misfit: BudMisfit::Needs { what },
    })
}

// Whether a node of this type may stand in a bud: leaf nodes, and padding.
fn may_stand(kind: NodeType) -> bool
    ensures { result ≡ is_allowed kind }
{
    match kind {
        NodeType::Inode
        | NodeType::Data
        | NodeType::Entry
        | NodeType::Attribute
        | NodeType::Truncation
        | NodeType::Padding => true,
        NodeType::Superblock
        | NodeType::Master
        | NodeType::Reference
        | NodeType::Index
        | NodeType::CommitStart
        | NodeType::Orphans => false,
    }
}
