// The references of a log LEB.

ghost use Rattle.std.specs.Prelude.{◌≡◌, ◌<◌, ◌^◌, length, IfOk};
ghost use Rattle.ubifs_base.specs.RawOf.{raw_of};
ghost use Rattle.sound_image.specs.LogBreaches.{misnamed};
ghost use Rattle.journal_check.specs.LogChecks.{AreTaken, differing_at};

use bud_log::reference_at;
use image_check::{WrongValue, sooner};
use leb_scan::Scanner;
use media_sys::{RefNode, one_node};
use std::alloc::{AllocError, Global};
use ubifs_base::{Geometry, NodeType};

/// Adds the references of a LEB to others. Tells the first of them that names no place of a main LEB.
pub(crate) fn take_references(
    alloc: Global,
    geometry: &Geometry,
    lnum: u32,
    leb: &[u8],
    references: &mut Vec<RefNode>,
) -> Result<Option<WrongValue>, AllocError>
    requires { length leb.now < 2 ^ 32 }
    ensures { IfOk result (AreTaken (raw_of geometry.now) leb.now lnum references.old.items references.new.items) }
{
    one_node();
    let mut first = None;
    let mut scanner = Scanner::new(0);
    while let Some(found) = scanner.next(leb) {
        if found.kind == NodeType::Reference {
            if let Some(node) = reference_at(alloc, leb, found) {
                first = sooner(first, misnamed_at(geometry, lnum, found.offs, node));
                references.push(node)?;
            }
        }
    }
    Ok(first)
}

// What is wrong with the place that a reference names, first, at the place at which the reference stands.
fn misnamed_at(geometry: &Geometry, lnum: u32, offs: u32, node: RefNode) -> Option<WrongValue>
    ensures { result ≡ differing_at lnum offs (misnamed (raw_of geometry.now) node) }
{
    let low = geometry.main_first();
    if node.lnum < low {
        return differing(lnum, offs, low, node.lnum);
    }
    if node.lnum >= geometry.leb_cnt {
        return differing(lnum, offs, geometry.leb_cnt, node.lnum);
    }
    if node.offs > geometry.leb_size {
        return differing(lnum, offs, geometry.leb_size, node.offs);
    }
    if node.offs % 8 != 0 {
        return differing(lnum, offs, node.offs / 8 * 8, node.offs);
    }
    None
}

fn differing(lnum: u32, offs: u32, wanted: u32, found: u32) -> Option<WrongValue>
    ensures { result ≡ Some (record { lnum = lnum; offs = offs; wanted = wanted; found = found }) }
{
    Some(WrongValue {
        lnum,
        offs,
        wanted: wanted as u64,
        found: found as u64,
    })
}
