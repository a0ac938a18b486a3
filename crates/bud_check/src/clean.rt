// Whether buds hold a node.

ghost use Rattle.std.specs.Prelude.{◌≡◌, List, map};
ghost use Rattle.std.specs.List.{AllByRecursion};
ghost use Rattle.fs_model.specs.Path.{is_empty};
ghost use Rattle.journal_scan.specs.Journal.{BudRead, IsReadable};
ghost use Rattle.sound_image.specs.Buds.{IsSoundBud};
ghost use Rattle.bud_check.specs.Found.{hold_none, is_padding as is_padding_type};

use journal_scan::BudText;
use leb_scan::{Found, Scanner, one_text};
use ubifs_base::NodeType;

/// Whether none of these texts holds a node, padding aside, if each is that of a sound bud. No text behind the first that holds one
/// is looked at.
pub(crate) fn are_clean(texts: &[BudText]) -> bool
    requires { AllByRecursion IsReadable texts.now }
    ensures { (reads : List BudRead) → map (λ x. x.bud) reads ≡ texts.now → AllByRecursion IsSoundBud reads → result ≡ hold_none reads }
{
    let mut left = texts;
    'reading: while let Some((text, rest)) = left.split_first() {
        if !is_clean(text) {
            return false;
        }
        left = rest;
    }
    true
}

// Whether one holds none.
fn is_clean(bud: &BudText) -> bool
    requires { IsReadable bud.now }
    ensures { (read : BudRead) → read.bud ≡ bud.now → IsSoundBud read → result ≡ is_empty read.nodes }
{
    one_text();
    let bytes = bud.bytes.as_slice();
    let mut clean = true;
    let mut scanner = Scanner::new(bud.from);
    while let Some(found) = scanner.next(bytes) {
        clean = clean && is_padding(found);
    }
    clean
}

// Whether a node that was found is padding.
fn is_padding(found: Found) -> bool
    ensures { result ≡ is_padding_type found.kind }
{
    match found.kind {
        NodeType::Padding => true,
        NodeType::Inode
        | NodeType::Data
        | NodeType::Entry
        | NodeType::Attribute
        | NodeType::Truncation
        | NodeType::Superblock
        | NodeType::Master
        | NodeType::Reference
        | NodeType::Index
        | NodeType::CommitStart
        | NodeType::Orphans => false,
    }
}
