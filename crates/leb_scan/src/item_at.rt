// Which item begins at a place, and where it ends.

ghost use Rattle.std.specs.Prelude.{◌≡◌, ◌^◌, ◌<◌, ◌≤◌, length, min, IfSome, IfNone};
ghost use Rattle.ubifs_base.specs.declared.node_type.NodeType.TheVariants as types;
ghost use Rattle.leb_scan.specs.Text.{AnyNode, StandsAt, Begins, behind as place_behind, up_to_8};
ghost use Rattle.leb_scan.specs.declared.item.Item.{Item as AnItem};

use crate::blank::begins_with_padding;
use crate::found::Found;
use crate::item::Item;
use crate::node_at::node_at;
use node_fields::u32_at;
use ubifs_base::NodeType;

const PADDING_NODE_LEN: usize = 28;

// The item that begins at a place of the LEB.
pub(crate) fn item_at(leb: &[u8], place: u32) -> Option<Item>
    requires place { place ≤ length leb.now }
    requires len { length leb.now < 2 ^ 32 }
    ensures found { IfSome result (λ item. Begins leb.now place item) }
    ensures none { IfNone result ((item : AnItem) → Begins leb.now place item → ⊥) }
{
    if begins_with_padding(leb.split_at(place as usize).1) {
        return Some(Item::Word);
    }
    let Some(found) = node_at(leb, place) else {
        return None;
    };
    if found.kind != NodeType::Padding {
        return Some(Item::Node { found });
    }
    padding_at(leb, place, found)
}

// A padding node with its gap, where the gap is one.
fn padding_at(leb: &[u8], place: u32, found: Found) -> Option<Item>
    requires stands { (node : AnyNode) × StandsAt leb.now place found node }
    requires kind { found.kind ≡ types.Padding }
    requires len { length leb.now < 2 ^ 32 }
    ensures found { IfSome result (λ item. Begins leb.now place item) }
    ensures none { IfNone result ((pad_len : _) → Begins leb.now place (Item.Padding found pad_len) → ⊥) }
{
    let rest = leb.split_at(place as usize).1;
    let pad_len = u32_at(rest, 24);
    let size = PADDING_NODE_LEN + pad_len as usize;
    if size % 8 != 0 {
        return None;
    }
    if size > rest.len() {
        return None;
    }
    Some(Item::Padding { found, pad_len })
}

// The place behind an item.
pub(crate) fn behind(leb: &[u8], place: u32, item: Item) -> u32
    requires item { Begins leb.now place item }
    requires len { length leb.now < 2 ^ 32 }
    ensures place { result ≡ place_behind leb.now place item }
    ensures later { place < result }
    ensures within { result ≤ length leb.now }
{
    match item {
        Item::Node { found } => behind_node(leb, place + found.len),
        Item::Padding { pad_len, .. } => place + (28 + pad_len),
        Item::Word => place + 8,
    }
}

// The next multiple of 8, or the LEB's end.
fn behind_node(leb: &[u8], end: u32) -> u32
    requires { length leb.now < 2 ^ 32 }
    ensures { result ≡ min (up_to_8 end) (length leb.now) }
{
    let next = (end as usize + 7) / 8 * 8;
    next.min(leb.len()) as u32
}
