// The rows of the properties tree, in one LEB.

ghost use Rattle.std.specs.Prelude.{◌≡◌, IfOk, IfSome, IfNone, length, get_or, take, drop};
ghost use Rattle.ubifs_base.specs.Properties.{nnode_len, pnode_len};
ghost use Rattle.media_lpt.specs.Nodes.{IsNnodeBytes, IsPnodeBytes};
ghost use Rattle.ubifs_base.specs.RawOf.{raw_of};
ghost use Rattle.lpt_area.specs.Tree.{empty_leb as empty_leb_of};
ghost use Rattle.sound_image.specs.PropertyBreaches.{lpt_misfit};
ghost use Rattle.sound_image.specs.Wrong.{differs};
ghost use Rattle.image_check.specs.PropertyWalk.{IsNodeRead, IsRowRead, lpt_leb_in, nnodes, pnodes};

use crate::wrong_value::{WrongValue, sooner};
use media_lpt::{Lprop, LptPlace, Nnode, Pnode};
use std::alloc::{AllocError, Global};
use ubifs_base::{Geometry, crc16};

const NO_PLACE: LptPlace = LptPlace { lnum: 0, offs: 0 };

// What was read of a row: the places that its nodes name, and what was wrong first so far.
#[derive(Drop)]
pub(crate) struct PlacesRead {
    pub all: Vec<LptPlace>,
    pub first: Option<WrongValue>,
}

// The same of a row of pnodes, which say properties.
#[derive(Drop)]
pub(crate) struct PropsRead {
    pub all: Vec<Lprop>,
    pub first: Option<WrongValue>,
}

// Reads the nnodes at the places of a row.
pub(crate) fn nnode_row(
    alloc: Global,
    geo: &Geometry,
    root: u32,
    area: &[u8],
    row: &[LptPlace],
    first: Option<WrongValue>,
) -> Result<PlacesRead, AllocError>
    ensures { IfOk result (λ read. IsRowRead (nnodes (raw_of geo.now)) root (lpt_leb_in (raw_of geo.now) area.now) row.now first read.all.items read.first) }
{
    let mut all = Vec::new(alloc);
    let mut now = first;
    let mut left = row;
    'reading: while let Some((place, rest)) = left.split_first() {
        let (four, next) = nnode_at(geo, root, area, *place, now);
        all.extend_from_slice(&four)?;
        now = next;
        left = rest;
    }
    Ok(PlacesRead { all, first: now })
}

// Reads the pnodes at the places of a row.
pub(crate) fn pnode_row(
    alloc: Global,
    geo: &Geometry,
    root: u32,
    area: &[u8],
    row: &[LptPlace],
    first: Option<WrongValue>,
) -> Result<PropsRead, AllocError>
    ensures { IfOk result (λ read. IsRowRead (pnodes (raw_of geo.now)) root (lpt_leb_in (raw_of geo.now) area.now) row.now first read.all.items read.first) }
{
    let mut all = Vec::new(alloc);
    let mut now = first;
    let mut left = row;
    'reading: while let Some((place, rest)) = left.split_first() {
        let (four, next) = pnode_at(geo, root, area, *place, now);
        all.extend_from_slice(&four)?;
        now = next;
        left = rest;
    }
    Ok(PropsRead { all, first: now })
}

// What the nnode at a place names, or what is wrong there.
fn nnode_at(
    geo: &Geometry,
    root: u32,
    area: &[u8],
    place: LptPlace,
    first: Option<WrongValue>,
) -> ([LptPlace; 4], Option<WrongValue>)
    ensures { IsNodeRead (nnodes (raw_of geo.now)) root (lpt_leb_in (raw_of geo.now) area.now) place first result.0 result.1 }
{
    if place.lnum == 0 {
        return ([NO_PLACE; 4], first);
    }
    let bytes = part(leb_at(geo, area, place.lnum), place.offs, geo.nnode_len());
    let Some(node) = whole_nnode(geo, bytes) else {
        return ([NO_PLACE; 4], sooner(first, Some(misfit(place, 1, bytes))));
    };
    if place.lnum != root {
        return ([NO_PLACE; 4], sooner(first, Some(elsewhere(place, root))));
    }
    let places = node.places;
    (places, first)
}

// What the pnode at a place says, or what is wrong there.
fn pnode_at(
    geo: &Geometry,
    root: u32,
    area: &[u8],
    place: LptPlace,
    first: Option<WrongValue>,
) -> ([Lprop; 4], Option<WrongValue>)
    ensures { IsNodeRead (pnodes (raw_of geo.now)) root (lpt_leb_in (raw_of geo.now) area.now) place first result.0 result.1 }
{
    if place.lnum == 0 {
        return ([empty_leb(geo); 4], first);
    }
    let bytes = part(leb_at(geo, area, place.lnum), place.offs, geo.pnode_len());
    let Some(node) = whole_pnode(geo, bytes) else {
        return (
            [empty_leb(geo); 4],
            sooner(first, Some(misfit(place, 0, bytes))),
        );
    };
    if place.lnum != root {
        return (
            [empty_leb(geo); 4],
            sooner(first, Some(elsewhere(place, root))),
        );
    }
    let props = node.props;
    (props, first)
}

// The nnode that the bytes are; none where they are too few.
fn whole_nnode(geo: &Geometry, bytes: &[u8]) -> Option<Nnode>
    ensures found { IfSome result (λ node. (length bytes.now ≡ nnode_len (raw_of geo.now)) × IsNnodeBytes (raw_of geo.now) bytes.now node) }
    ensures none { IfNone result ((node : _) → length bytes.now ≡ nnode_len (raw_of geo.now) → IsNnodeBytes (raw_of geo.now) bytes.now node → ⊥) }
{
    if bytes.len() != geo.nnode_len() as usize {
        return None;
    }
    Nnode::decode(geo, bytes)
}

// The pnode that the bytes are; none where they are too few.
fn whole_pnode(geo: &Geometry, bytes: &[u8]) -> Option<Pnode>
    ensures found { IfSome result (λ node. (length bytes.now ≡ pnode_len (raw_of geo.now)) × IsPnodeBytes (raw_of geo.now) bytes.now node) }
    ensures none { IfNone result ((node : _) → length bytes.now ≡ pnode_len (raw_of geo.now) → IsPnodeBytes (raw_of geo.now) bytes.now node → ⊥) }
{
    if bytes.len() != geo.pnode_len() as usize {
        return None;
    }
    Pnode::decode(geo, bytes)
}

// The properties of an empty LEB.
fn empty_leb(geo: &Geometry) -> Lprop
    ensures { result ≡ empty_leb_of (raw_of geo.now) }
{
    Lprop {
        free: geo.leb_size,
        dirty: 0,
        index: false,
    }
}

// A node that stands in another LEB than the root's.
fn elsewhere(place: LptPlace, root: u32) -> WrongValue
    ensures lnum { result.lnum ≡ place.lnum }
    ensures offs { result.offs ≡ place.offs }
    ensures wanted { result.wanted ≡ root }
    ensures found { result.found ≡ place.lnum }
{
    WrongValue {
        lnum: place.lnum,
        offs: place.offs,
        wanted: root as u64,
        found: place.lnum as u64,
    }
}

// A node that isn't in its grammar: its checksum and the one that is right, or else its type and the one that is wanted.
fn misfit(place: LptPlace, kind: u32, bytes: &[u8]) -> WrongValue
    ensures lnum { result.lnum ≡ place.lnum }
    ensures offs { result.offs ≡ place.offs }
    ensures values { differs result.wanted result.found ≡ lpt_misfit kind bytes.now }
{
    let stored = byte_or_0(bytes, 0) as u32 + 256 * byte_or_0(bytes, 1) as u32;
    let right = crc16(behind_two(bytes)) as u32;
    if stored == right {
        return WrongValue {
            lnum: place.lnum,
            offs: place.offs,
            wanted: kind as u64,
            found: byte_or_0(bytes, 2) as u64 % 16,
        };
    }
    WrongValue {
        lnum: place.lnum,
        offs: place.offs,
        wanted: right as u64,
        found: stored as u64,
    }
}

// The bytes of a LEB of the area, of whose LEBs these are the bytes, one behind another.
fn leb_at<'a>(geo: &Geometry, area: &'a [u8], lnum: u32) -> &'a [u8]
    ensures { result.now ≡ lpt_leb_in (raw_of geo.now) area.now lnum }
{
    let mut rest = area;
    for _before in geo.lpt_first()..lnum {
        rest = part_from(rest, geo.leb_size as usize);
    }
    part(rest, 0, geo.leb_size)
}

// The byte at this offset; 0 behind the end.
fn byte_or_0(bytes: &[u8], at: usize) -> u8
    ensures { result ≡ get_or bytes.now at 0 }
{
    if at < bytes.len() {
        return bytes[at];
    }
    0
}

// What is behind the first two bytes.
fn behind_two(bytes: &[u8]) -> &[u8]
    ensures { result.now ≡ drop 2 bytes.now }
{
    part_from(bytes, 2)
}

// So many bytes from an offset on, or as many as there are.
fn part(leb: &[u8], offs: u32, len: u32) -> &[u8]
    ensures { result.now ≡ take len (drop offs leb.now) }
{
    let rest = part_from(leb, offs as usize);
    if len as usize > rest.len() {
        return rest;
    }
    rest.split_at(len as usize).0
}

// The bytes from an offset on.
fn part_from(bytes: &[u8], offs: usize) -> &[u8]
    ensures { result.now ≡ drop offs bytes.now }
{
    if offs > bytes.len() {
        return bytes.split_at(bytes.len()).1;
    }
    bytes.split_at(offs).1
}
