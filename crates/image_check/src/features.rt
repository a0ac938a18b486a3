// Features that aren't known here.

ghost use Rattle.std.specs.Prelude.{◌≡◌, ◌<◌, ◌≤◌, ◌^◌, ◌↔◌, IfSome, IsTrue, Some, length};
ghost use Rattle.media_sys.specs.declared.feature.Feature.{Feature as AFeature};
ghost use Rattle.sound_image.specs.Frames.{HasAttributes, IsCompressed, NeedsFeature};
ghost use Rattle.image_check.specs.Needs.{IsNeededBy};

use byteorder::{ByteOrder, LittleEndian};
use media_sys::Feature;
use ubifs_base::unframe;

/// The feature that isn't known here and that what stands at an offset of a LEB needs; none where it needs none: compressed data, or
/// attributes (`struct ubifs_data_node` and `struct ubifs_ino_node` of ubifs-media.h). Takes no memory.
pub fn needed_feature(leb: &[u8], place: u32) -> Option<Feature>
    requires { length leb.now < 2 ^ 32 }
    ensures some { IfSome result (NeedsFeature leb.now place) }
    ensures only { (what : AFeature) → NeedsFeature leb.now place what → result ≡ Some what }
{
    if place as usize > leb.len() {
        return None;
    }
    let rest = leb.split_at(place as usize).1;
    let Ok(head) = unframe(rest) else {
        return None;
    };
    if head.group > 2 {
        return None;
    }
    let body = rest.split_at(head.len as usize).0.split_at(24).1;
    body_feature(head.kind, body)
}

// The feature that a node of this type with this body needs.
fn body_feature(kind: u8, body: &[u8]) -> Option<Feature>
    ensures some { IfSome result (IsNeededBy kind body.now) }
    ensures only { (what : AFeature) → IsNeededBy kind body.now what → result ≡ Some what }
{
    if kind == 3 {
        return Some(Feature::Attributes);
    }
    if kind == 0 {
        return if has_attributes(body) {
            Some(Feature::Attributes)
        } else {
            None
        };
    }
    if kind != 1 {
        return None;
    }
    if is_compressed(body) {
        return Some(Feature::Compressed);
    }
    None
}

// Whether a data node's body says that its bytes are compressed.
fn is_compressed(body: &[u8]) -> bool
    ensures { IsTrue result ↔ IsCompressed body.now }
{
    if body.len() < 24 {
        return false;
    }
    LittleEndian::read_u16(body.split_at(20).1) > 0
}

// Whether an inode's body says that it has attributes, or is one.
fn has_attributes(body: &[u8]) -> bool
    ensures { IsTrue result ↔ HasAttributes body.now }
{
    if body.len() < 136 {
        return false;
    }
    if LittleEndian::read_u32(body.split_at(84).1) & 0x20 != 0 {
        return true;
    }
    LittleEndian::read_u32(body.split_at(92).1) > 0
}
