// Which node stands at a place.

ghost use Rattle.std.specs.Prelude.{◌↔◌, ◌^◌, ◌<◌, ◌≤◌, length, IsTrue, IfSome, IfNone};
ghost use Rattle.leb_scan.specs.Text.{AnyNode, StandsAt};
ghost use Rattle.leb_scan.specs.Known.{IsBodyOf};

use crate::found::Found;
use media_leaf::is_leaf;
use media_sys::is_system;
use ubifs_base::{NodeType, unframe};

// The node of any kind that stands at a place of the LEB. Its checksum is computed once.
pub(crate) fn node_at(leb: &[u8], place: u32) -> Option<Found>
    requires place { place ≤ length leb.now }
    requires len { length leb.now < 2 ^ 32 }
    ensures found { IfSome result (λ found. (node : AnyNode) × StandsAt leb.now place found node) }
    ensures none { IfNone result ((found : _) (node : AnyNode) → StandsAt leb.now place found node → ⊥) }
{
    let rest = leb.split_at(place as usize).1;
    let Ok(head) = unframe(rest) else {
        return None;
    };
    if head.group > 2 {
        return None;
    }
    let body = rest.split_at(head.len as usize).0.split_at(24).1;
    if !is_known(head.kind, body) {
        return None;
    }
    let Some(kind) = NodeType::of(head.kind) else {
        return None;
    };
    Some(Found {
        offs: place,
        len: head.len,
        kind,
        group: head.group,
        sqnum: head.sqnum,
    })
}

// Whether a type and a body are a node of the grammar.
fn is_known(kind: u8, body: &[u8]) -> bool
    ensures { IsTrue result ↔ ((node : AnyNode) × IsBodyOf kind body.now node) }
{
    is_leaf(kind, body) || is_system(kind, body)
}
