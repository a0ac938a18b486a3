// The buds that a log LEB names.

ghost use Rattle.std.specs.Prelude.{◌≡◌, ◌+◌, ◌<◌, ◌≤◌, ◌^◌, ℕ, length, IfSome, IfNone, IsSome, OnOk};
ghost use Rattle.media_sys.specs.SystemNode.{IsRef};
ghost use Rattle.media_sys.specs.declared.ref_node.RefNode.{RefNode as AReference};
ghost use Rattle.bud_log.specs.Buds.{named_also};
ghost use Rattle.bud_log.specs.LogText.{IsReferenceAt};
ghost use Rattle.bud_log.specs.Seen.{AreNamed};

use crate::head_at::HeadAt;
use leb_scan::{Found, Scanner};
use media_sys::{RefNode, one_node};
use std::alloc::{AllocError, Global};
use ubifs_base::NodeType;

/// Names the references of a LEB behind those that were named before. The error is want of memory.
pub(crate) fn name_buds(alloc: Global, leb: &[u8], buds: &mut Vec<HeadAt>) -> Result<(), AllocError>
    requires { length leb.now < 2 ^ 32 }
    ensures { OnOk result (AreNamed leb.now buds.old.items buds.new.items) }
{
    let mut scanner = Scanner::new(0);
    while let Some(found) = scanner.next(leb) {
        if found.kind == NodeType::Reference {
            if let Some(node) = reference_at(alloc, leb, found) {
                name_bud(buds, node)?;
            }
        }
    }
    Ok(())
}

/// The reference that was found in a LEB.
pub fn reference_at(alloc: Global, leb: &[u8], found: Found) -> Option<RefNode>
    requires room { found.offs + found.len ≤ length leb.now }
    requires there { (node : AReference) × IsReferenceAt leb.now found node }
    ensures some { IfSome result (IsReferenceAt leb.now found) }
    ensures is_some { IsSome result }
{
    let rest = leb.split_at(found.offs as usize).1;
    reference_of(alloc, rest.split_at(found.len as usize).0)
}

// The reference that the bytes are.
fn reference_of(alloc: Global, bytes: &[u8]) -> Option<RefNode>
    ensures some { IfSome result (λ node. (sqnum group : ℕ) (other : AReference) → IsRef bytes.now sqnum group other → node ≡ other) }
    ensures none { IfNone result ((sqnum group : ℕ) (other : AReference) → IsRef bytes.now sqnum group other → ⊥) }
{
    one_node();
    let Ok(node) = RefNode::decode(alloc, bytes) else {
        return None;
    };
    node
}

// Names a bud.
fn name_bud(buds: &mut Vec<HeadAt>, node: RefNode) -> Result<(), AllocError>
    ensures { OnOk result (buds.new.items ≡ named_also buds.old.items node) }
{
    for index in 0..buds.len() {
        if buds[index].lnum == node.lnum {
            buds[index].offs = buds[index].offs.min(node.offs);
            return Ok(());
        }
    }
    buds.push(HeadAt {
        head: node.head,
        lnum: node.lnum,
        offs: node.offs,
    })?;
    Ok(())
}
