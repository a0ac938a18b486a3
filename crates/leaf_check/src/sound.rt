// Whether a leaf is sound.

ghost use Rattle.std.specs.Prelude.{◌≡◌, ◌<◌, ◌^◌, ◌↔◌, ℕ, IfOk, IsFalse, IsTrue, Some, length};
ghost use Rattle.ubifs_base.specs.RawOf.{raw_of};
ghost use Rattle.ubifs_base.specs.declared.node_type.NodeType.TheVariants as types;
ghost use Rattle.ubi_volume.specs.Volume.{Keeps, SameShape};
ghost use Rattle.ubi_volume.specs.Faults.{HasCause, StaysSure};
ghost use Rattle.media_leaf.specs.LeafNode.{IsLeafNode, LeafNode};
ghost use Rattle.leb_scan.specs.Text.{leaf_type};
ghost use Rattle.sound_image.specs.Frames.{IsKnownAt};
ghost use Rattle.sound_image.specs.Leaves.{HasItsNode, IsSoundLeaf};
ghost use Rattle.sound_image.specs.Properties.{is_unmarked as is_no_index};
ghost use Rattle.leaf_check.specs.LeafReads.{IsItsNode, IsWholeOf};

use crate::keys::key_in;
use crate::reading::read_node;
use image_check::needed_feature;
use index_tree::Leaf;
use leb_scan::Found;
use media_leaf::one_node;
use media_lpt::Lprop;
use node_fields::u32_at;
use ubi_volume::{VolFault, Volume};
use ubifs_base::{Geometry, Key, NodeType};

/// Whether a leaf is sound: an intact node of its key and length stands at its place, needs no feature that isn't known here, and stands
/// in a main LEB that isn't marked as the index's. Of a leaf that is known to be intact nothing is read. The buffer has room for any leaf
/// node.
pub(crate) fn is_sound<V: Volume>(
    volume: &mut V,
    geometry: &Geometry,
    props: &[Lprop],
    leaf: &Leaf,
    intact: bool,
    buffer: &mut [u8],
) -> Result<bool, VolFault>
    requires room { length buffer.old ≡ 4256 }
    requires intact { IsTrue intact → HasItsNode (V.state volume.old).holds leaf.now }
    ensures len { length buffer.new ≡ length buffer.old }
    ensures yes { IfOk result (λ sound. IsTrue sound → IsSoundLeaf (V.state volume.old).holds (raw_of geometry.now) props.now leaf.now) }
    ensures no { IfOk result (λ sound. IsFalse sound → IsSoundLeaf (V.state volume.old).holds (raw_of geometry.now) props.now leaf.now → ⊥) }
    ensures keeps { Keeps (V.state volume.old) (V.state volume.new) }
    ensures shape { SameShape (V.state volume.old) (V.state volume.new) }
    ensures cause { HasCause (V.state volume.old).faults (V.state volume.new).faults result }
    ensures sure { StaysSure (V.state volume.old) (V.state volume.new) result }
{
    let unmarked = is_unmarked(geometry, props, leaf.lnum);
    if intact {
        return Ok(unmarked);
    }
    let read = read_node(volume, leaf, buffer)?;
    let Some(found) = read else {
        return Ok(false);
    };
    if !unmarked {
        return Ok(false);
    }
    Ok(is_its_node(leaf, found, buffer.split_at(found.len as usize).0))
}

/// Whether the leaf node that the bytes are is that of the leaf, and needs no feature that isn't known here.
pub(crate) fn is_its_node(leaf: &Leaf, found: Found, bytes: &[u8]) -> bool
    requires node { (node : LeafNode) × IsWholeOf bytes.now found node }
    requires len { length bytes.now < 2 ^ 32 }
    ensures { IsTrue result ↔ IsItsNode bytes.now leaf.now }
{
    one_node();
    if needs_feature(found, bytes) {
        return false;
    }
    is_key(key_in(found.kind, bytes), leaf.key)
}

// Whether the leaf node that the bytes are needs a feature that isn't known here. A node of a block or of a name needs none, and an
// inode's body tells it.
fn needs_feature(found: Found, bytes: &[u8]) -> bool
    requires node { (node : LeafNode) × IsWholeOf bytes.now found node }
    requires len { length bytes.now < 2 ^ 32 }
    ensures yes { IsTrue result → IsKnownAt bytes.now 0 → ⊥ }
    ensures no { IsFalse result → IsKnownAt bytes.now 0 }
{
    match found.kind {
        NodeType::Data => false,
        NodeType::Entry => false,
        NodeType::Inode => inode_needs(bytes),
        _ => has_unknown(bytes),
    }
}

// Where an inode's node has its flags and the number of its attributes, and where what follows its numbers begins.
const FLAGS_PLACE: usize = 24 + 84;

const ATTRIBUTES_PLACE: usize = 24 + 92;

const INODE_END: usize = 160;

// Whether the inode's node that the bytes are does: it has attributes, or is one.
fn inode_needs(bytes: &[u8]) -> bool
    requires { (sqnum : ℕ) × (group : ℕ) × (node : LeafNode) × IsLeafNode bytes.now sqnum group node × (types.Inode ≡ leaf_type node) }
    ensures yes { IsTrue result → IsKnownAt bytes.now 0 → ⊥ }
    ensures no { IsFalse result → IsKnownAt bytes.now 0 }
{
    if bytes.len() < INODE_END {
        return false;
    }
    let flags = u32_at(bytes, FLAGS_PLACE);
    let count = u32_at(bytes, ATTRIBUTES_PLACE);
    if flags & 0x20 != 0 {
        return true;
    }
    count > 0
}

// Whether what the bytes begin with does, whatever it is.
fn has_unknown(bytes: &[u8]) -> bool
    requires { length bytes.now < 2 ^ 32 }
    ensures yes { IsTrue result → IsKnownAt bytes.now 0 → ⊥ }
    ensures no { IsFalse result → IsKnownAt bytes.now 0 }
{
    match needed_feature(bytes, 0) {
        Some(_what) => true,
        None => false,
    }
}

// Whether a key was found, and is this.
fn is_key(found: Option<Key>, key: Key) -> bool
    ensures { IsTrue result ↔ found ≡ Some key }
{
    found == Some(key)
}

// Whether a LEB is a main LEB that isn't marked as the index's.
fn is_unmarked(geometry: &Geometry, props: &[Lprop], lnum: u32) -> bool
    ensures { result ≡ is_no_index (raw_of geometry.now) props.now lnum }
{
    let first = geometry.main_first();
    if lnum < first {
        return false;
    }
    let at = (lnum - first) as usize;
    if at >= props.len() {
        return false;
    }
    !props[at].index
}
