// What stands at a place, and what is wrong there with leaves.

ghost use Rattle.std.specs.Prelude.{◌≡◌, ◌<◌, ◌^◌, None, IfOk, drop, length};
ghost use Rattle.ubifs_base.specs.NodeType.{type_number as number_of};
ghost use Rattle.ubi_volume.specs.Volume.{Keeps, SameShape};
ghost use Rattle.ubi_volume.specs.Faults.{HasAreaCause, StaysSureArea};
ghost use Rattle.sound_image.specs.LeafBreaches.{key_type};
ghost use Rattle.sound_image.specs.Wrong.{differs};
ghost use Rattle.leaf_check.specs.Standings.{TellsStanding, known_misfit};

use crate::nodes::first_leaf;
use image_check::{WrongValue, needed_feature, type_byte, type_number};
use index_tree::Leaf;
use leb_scan::Found;
use media_sys::Feature;
use std::alloc::Global;
use ubi_volume::{AreaFault, Volume};
use ubifs_base::Key;

/// What stands at a place: the feature that is needed there, the intact leaf node, and the byte that stands for a type.
#[derive(Clone, Copy, Debug, PartialEq, Eq)]
pub(crate) struct Standing {
    pub feature: Option<Feature>,
    pub node: Option<Found>,
    pub byte: u8,
}

/// What stands at a leaf's place. All bytes up to the end of its LEB are read, since a frame that needs a feature may be as long.
pub(crate) fn standing_at<V: Volume>(
    alloc: Global,
    volume: &mut V,
    leaf: &Leaf,
) -> Result<Standing, AreaFault>
    ensures standing { IfOk result (TellsStanding (drop leaf.now.offs ((V.state volume.old).holds leaf.now.lnum))) }
    ensures keeps { Keeps (V.state volume.old) (V.state volume.new) }
    ensures shape { SameShape (V.state volume.old) (V.state volume.new) }
    ensures cause { HasAreaCause (V.state volume.old).faults (V.state volume.new).faults result }
    ensures sure { StaysSureArea (V.state volume.old) (V.state volume.new) result }
{
    let size = volume.leb_size();
    if leaf.lnum >= volume.leb_cnt() {
        return Ok(standing_in(&[]));
    }
    if leaf.offs > size {
        return Ok(standing_in(&[]));
    }
    let mut rest = vec![in alloc; 0; (size - leaf.offs) as usize]?;
    volume.read(leaf.lnum, leaf.offs, &mut rest)?;
    Ok(standing_in(&rest))
}

// What bytes begin with.
fn standing_in(rest: &[u8]) -> Standing
    requires { length rest.now < 2 ^ 32 }
    ensures { TellsStanding rest.now result }
{
    Standing {
        feature: needed_feature(rest, 0),
        node: first_leaf(rest),
        byte: type_byte(rest, 0),
    }
}

/// What is wrong with a leaf at a place that needs no feature: both lengths, where a node of its key's type stands, and else the type that
/// is wanted and the byte that stands for one.
pub(crate) fn value_at(standing: &Standing, leaf: &Leaf) -> WrongValue
    ensures lnum { result.lnum ≡ leaf.now.lnum }
    ensures offs { result.offs ≡ leaf.now.offs }
    ensures values { differs result.wanted result.found ≡ known_misfit standing.now leaf.now }
{
    let wanted = key_number(leaf.key);
    let Some(found) = standing.node else {
        return value_of(leaf, wanted as u64, standing.byte as u64);
    };
    if type_number(found.kind) != wanted {
        return value_of(leaf, wanted as u64, standing.byte as u64);
    }
    value_of(leaf, leaf.len as u64, found.len as u64)
}

// These values at a leaf's place.
fn value_of(leaf: &Leaf, wanted: u64, found: u64) -> WrongValue
    ensures lnum { result.lnum ≡ leaf.now.lnum }
    ensures offs { result.offs ≡ leaf.now.offs }
    ensures values { differs result.wanted result.found ≡ differs wanted found }
{
    WrongValue {
        lnum: leaf.lnum,
        offs: leaf.offs,
        wanted,
        found,
    }
}

// The number of the type of a key's nodes.
fn key_number(key: Key) -> u8
    ensures { result ≡ number_of (key_type key) }
{
    match key {
        Key::Ino { .. } => 0,
        Key::Block { .. } => 1,
        Key::Dent { .. } => 2,
        Key::Xent { .. } => 3,
    }
}
