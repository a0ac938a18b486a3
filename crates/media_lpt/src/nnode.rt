// Inner nodes of the properties tree.

ghost use Rattle.std.specs.Prelude.{◌≡◌, ◌+◌, ◌*◌, ◌<◌, ◌≤◌, ◌^◌, length, IfSome, IfNone};
ghost use Rattle.std.specs.List.{flat_map, AllByRecursion};
ghost use Rattle.ubifs_base.specs.Properties.{nnode_len, place_lnum_bits, place_offs_bits};
ghost use Rattle.ubifs_base.specs.RawOf.{raw_of};
ghost use Rattle.media_lpt.specs.Nodes.{place_fields, IsPlace};
ghost use Rattle.media_lpt.specs.Packed.{AllFit, IsPut, IsFree, IsAt};

use crate::frame::{HEAD_BITS, is_framed, seal, start};
use crate::packing::{get, put};
use crate::widths;
use ubifs_base::Geometry;

const KIND: u32 = 1;

/// The place of a node of the properties tree: a LEB of the properties area, and the offset in it. LEB 0 says that there
/// is none (`struct ubifs_nbranch` of the Linux sources).
#[derive(Clone, Copy, Debug, PartialEq, Eq)]
pub struct LptPlace {
    pub lnum: u32,
    pub offs: u32,
}

/// An inner node of the properties tree: its number, which is 0 in the small model, and the places of four nodes of the
/// level below (`struct ubifs_nnode` of the Linux sources).
#[derive(Clone, Copy, Debug, PartialEq, Eq)]
pub struct Nnode {
    pub num: u32,
    pub places: [LptPlace; 4],
}

impl LptPlace {
    ghost use Rattle.media_lpt.specs.Nodes.{place_value};

    fn value(&self, geo: &Geometry) -> u32
        requires { IsPlace (raw_of geo.now) self.now }
        ensures { result ≡ place_value (raw_of geo.now) self.now }
    {
        if self.lnum == 0 {
            return geo.lpt_lebs;
        }
        self.lnum - geo.lpt_first()
    }

    #[tactic(auto, unfolding(crate::specs::Nodes::place_fields, crate::specs::Packed::AllFit, crate::specs::Packed::bits_len))]
    fn put(&self, geo: &Geometry, out: &mut [u8], bit: usize)
        requires near { bit < 2 ^ 40 }
        requires place { IsPlace (raw_of geo.now) self.now }
        requires fits { AllFit (place_fields (raw_of geo.now) self.now) }
        requires room { bit + (place_lnum_bits (raw_of geo.now) + place_offs_bits (raw_of geo.now)) ≤ 8 * length out.old }
        requires free { IsFree out.old bit }
        ensures put { IsPut out.old bit (place_fields (raw_of geo.now) self.now) out.new }
        ensures free { IsFree out.new (bit + (place_lnum_bits (raw_of geo.now) + place_offs_bits (raw_of geo.now))) }
    {
        let lnum_bits = widths::place_lnum(geo);
        let second = bit + lnum_bits as usize;
        put(out, bit, lnum_bits, self.value(geo));
        put(out, second, widths::place_offs(geo), self.offs);
    }

    #[tactic(auto, unfolding(crate::specs::Nodes::place_fields, crate::specs::Packed::IsAt))]
    fn get(geo: &Geometry, bytes: &[u8], bit: usize) -> Option<LptPlace>
        requires near { bit < 2 ^ 40 }
        requires room { bit + (place_lnum_bits (raw_of geo.now) + place_offs_bits (raw_of geo.now)) ≤ 8 * length bytes.now }
        ensures at { IfSome result (λ place. IsAt bytes.now bit (place_fields (raw_of geo.now) place)) }
        ensures place { IfSome result (λ place. IsPlace (raw_of geo.now) place) }
        ensures none { IfNone result ((place : _) → IsPlace (raw_of geo.now) place → IsAt bytes.now bit (place_fields (raw_of geo.now) place) → ⊥) }
    {
        let lnum_bits = widths::place_lnum(geo);
        let second = bit + lnum_bits as usize;
        let value = get(bytes, bit, lnum_bits);
        let offs = get(bytes, second, widths::place_offs(geo));
        if value > geo.lpt_lebs {
            return None;
        }
        if value == geo.lpt_lebs {
            return Some(LptPlace { lnum: 0, offs });
        }
        Some(LptPlace {
            lnum: geo.lpt_first() + value,
            offs,
        })
    }
}

impl Nnode {
    ghost use Rattle.media_lpt.specs.Nodes.{IsNnode, IsNnodeBytes};

    /// Writes the node's one spelling, `geo.nnode_len()` bytes. Takes no memory.
    pub fn encode(&self, geo: &Geometry, out: &mut [u8])
        requires node { IsNnode (raw_of geo.now) self.now }
        requires room { length out.old ≡ nnode_len (raw_of geo.now) }
        ensures { IsNnodeBytes (raw_of geo.now) out.new self.now }
    {
        let number_bits = widths::node_number(geo);
        start(out, KIND);
        put(out, HEAD_BITS, number_bits, self.num);
        put_places(geo, out, HEAD_BITS + number_bits as usize, &self.places);
        seal(out);
    }

    /// The node that the bytes are, all of them, if they are one. Takes no memory.
    pub fn decode(geo: &Geometry, bytes: &[u8]) -> Option<Nnode>
        ensures found { IfSome result (λ node. IsNnodeBytes (raw_of geo.now) bytes.now node) }
        ensures none { IfNone result ((node : _) → IsNnodeBytes (raw_of geo.now) bytes.now node → ⊥) }
    {
        let number_bits = widths::node_number(geo);
        let step = widths::place_lnum(geo) as usize + widths::place_offs(geo) as usize;
        if !is_framed(bytes, KIND, number_bits as usize + 4 * step) {
            return None;
        }
        let first = HEAD_BITS + number_bits as usize;
        let num = get(bytes, HEAD_BITS, number_bits);
        let a = LptPlace::get(geo, bytes, first)?;
        let b = LptPlace::get(geo, bytes, first + step)?;
        let c = LptPlace::get(geo, bytes, first + 2 * step)?;
        let d = LptPlace::get(geo, bytes, first + 3 * step)?;
        Some(Nnode {
            num,
            places: [a, b, c, d],
        })
    }
}

fn put_places(geo: &Geometry, out: &mut [u8], bit: usize, places: &[LptPlace])
    requires places { AllByRecursion (IsPlace (raw_of geo.now)) places.now }
    requires fits { AllFit (flat_map (place_fields (raw_of geo.now)) places.now) }
    requires near { bit + length places.now * 64 < 2 ^ 40 }
    requires room { bit + length places.now * (place_lnum_bits (raw_of geo.now) + place_offs_bits (raw_of geo.now)) ≤ 8 * length out.old }
    requires free { IsFree out.old bit }
    ensures { IsPut out.old bit (flat_map (place_fields (raw_of geo.now)) places.now) out.new }
{
    let step = widths::place_lnum(geo) as usize + widths::place_offs(geo) as usize;
    let mut at = bit;
    for place in places {
        place.put(geo, out, at);
        at += step;
    }
}
