// The lines of one LEB.

ghost use Rattle.std.specs.Prelude.{◌≡◌, ◌++◌, ◌^◌, ◌<◌, List, ℕ, OnOk, length};
ghost use Rattle.image_dump.specs.Listing.{node_line, node_lines, kind_word, tail_line, tail_word, leb_line, whole_leb_line, IsTextListing};
ghost use Rattle.leb_scan.specs.Text.{is_blank};

use leb_scan::{Found, Scanner, Tail};
use std::alloc::AllocError;
use text_lines::{push_number, push_number_word, push_word};
use ubifs_base::NodeType;

// Whether nothing is written.
pub(crate) fn is_unwritten(leb: &[u8]) -> bool
    ensures { result ≡ is_blank leb.now }
{
    Scanner::new(0).tail(leb) == Tail::Clean
}

// The word for a node type.
fn word_of_kind(kind: NodeType) -> &'static [u8]
    ensures { result.now ≡ kind_word kind }
{
    match kind {
        NodeType::Inode => b"ino".as_slice(),
        NodeType::Data => b"data".as_slice(),
        NodeType::Entry => b"dent".as_slice(),
        NodeType::Attribute => b"xent".as_slice(),
        NodeType::Truncation => b"trun".as_slice(),
        NodeType::Padding => b"pad".as_slice(),
        NodeType::Superblock => b"sb".as_slice(),
        NodeType::Master => b"mst".as_slice(),
        NodeType::Reference => b"ref".as_slice(),
        NodeType::Index => b"idx".as_slice(),
        NodeType::CommitStart => b"cs".as_slice(),
        NodeType::Orphans => b"orph".as_slice(),
    }
}

// Appends the line of a node.
fn push_node(out: &mut Vec<u8>, found: &Found) -> Result<(), AllocError>
    ensures { OnOk result (out.new.items ≡ out.old.items ++ node_line found.now) }
{
    push_number(out, found.offs as u64)?;
    push_word(out, word_of_kind(found.kind))?;
    push_number_word(out, found.len as u64)?;
    push_number_word(out, found.sqnum)?;
    out.push(b'\n')?;
    Ok(())
}

// Appends the line of a text's end.
fn push_tail(out: &mut Vec<u8>, tail: Tail, end: u32) -> Result<(), AllocError>
    ensures { OnOk result (out.new.items ≡ out.old.items ++ tail_line tail end) }
{
    out.extend_from_slice(b"tail".as_slice())?;
    push_word(
        out,
        match tail {
            Tail::Clean => b"clean".as_slice(),
            Tail::Torn => b"torn".as_slice(),
        },
    )?;
    push_number_word(out, end as u64)?;
    out.push(b'\n')?;
    Ok(())
}

// Appends the line with which a LEB begins.
fn push_leb(out: &mut Vec<u8>, lnum: u32) -> Result<(), AllocError>
    ensures { OnOk result (out.new.items ≡ out.old.items ++ leb_line lnum) }
{
    out.extend_from_slice(b"leb".as_slice())?;
    push_number_word(out, lnum as u64)?;
    out.push(b'\n')?;
    Ok(())
}

// Appends a line that says all of a LEB.
pub(crate) fn push_whole_leb(out: &mut Vec<u8>, lnum: u32, word: &[u8]) -> Result<(), AllocError>
    ensures { OnOk result (out.new.items ≡ out.old.items ++ whole_leb_line lnum word.now) }
{
    out.extend_from_slice(b"leb".as_slice())?;
    push_number_word(out, lnum as u64)?;
    push_word(out, word)?;
    out.push(b'\n')?;
    Ok(())
}

// Appends what stands in a LEB.
pub(crate) fn push_text(out: &mut Vec<u8>, lnum: u32, leb: &[u8]) -> Result<(), AllocError>
    requires { length leb.now < 2 ^ 32 }
    ensures { OnOk result ((text : List ℕ) × IsTextListing lnum leb.now text × (out.new.items ≡ out.old.items ++ text)) }
{
    push_leb(out, lnum)?;
    let mut scanner = Scanner::new(0);
    while let Some(found) = scanner.next(leb) {
        push_node(out, &found)?;
    }
    push_tail(out, scanner.tail(leb), scanner.place())?;
    Ok(())
}
