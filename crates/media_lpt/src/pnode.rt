// Leaves of the properties tree.

ghost use Rattle.std.specs.Prelude.{◌≡◌, ◌+◌, ◌*◌, ◌<◌, ◌≤◌, ◌^◌, length, IfSome, IfNone};
ghost use Rattle.std.specs.List.{flat_map};
ghost use Rattle.ubifs_base.specs.Properties.{pnode_len, space_bits};
ghost use Rattle.ubifs_base.specs.RawOf.{raw_of};
ghost use Rattle.media_lpt.specs.Nodes.{lprop_fields};
ghost use Rattle.media_lpt.specs.Packed.{AllFit, IsPut, IsFree};

use crate::frame::{HEAD_BITS, is_framed, seal, start};
use crate::lprop::Lprop;
use crate::packing::{get, put};
use crate::widths;
use ubifs_base::Geometry;

const KIND: u32 = 0;

/// A leaf of the properties tree: its number, which is 0 in the small model, and the properties of four main LEBs in a
/// row. Places past the main area may say anything (`struct ubifs_pnode` of the Linux sources).
#[derive(Clone, Copy, Debug, PartialEq, Eq)]
pub struct Pnode {
    pub num: u32,
    pub props: [Lprop; 4],
}

impl Pnode {
    ghost use Rattle.media_lpt.specs.Nodes.{IsPnode, IsPnodeBytes};

    /// Writes the node's one spelling, `geo.pnode_len()` bytes. Takes no memory.
    pub fn encode(&self, geo: &Geometry, out: &mut [u8])
        requires node { IsPnode (raw_of geo.now) self.now }
        requires room { length out.old ≡ pnode_len (raw_of geo.now) }
        ensures { IsPnodeBytes (raw_of geo.now) out.new self.now }
    {
        let number_bits = widths::node_number(geo);
        start(out, KIND);
        put(out, HEAD_BITS, number_bits, self.num);
        put_props(geo, out, HEAD_BITS + number_bits as usize, &self.props);
        seal(out);
    }

    /// The node that the bytes are, all of them, if they are one. Takes no memory.
    pub fn decode(geo: &Geometry, bytes: &[u8]) -> Option<Pnode>
        ensures found { IfSome result (λ node. IsPnodeBytes (raw_of geo.now) bytes.now node) }
        ensures none { IfNone result ((node : _) → IsPnodeBytes (raw_of geo.now) bytes.now node → ⊥) }
    {
        let number_bits = widths::node_number(geo);
        let step = 2 * widths::space(geo) as usize + 1;
        if !is_framed(bytes, KIND, number_bits as usize + 4 * step) {
            return None;
        }
        let first = HEAD_BITS + number_bits as usize;
        Some(Pnode {
            num: get(bytes, HEAD_BITS, number_bits),
            props: [
                Lprop::get(geo, bytes, first),
                Lprop::get(geo, bytes, first + step),
                Lprop::get(geo, bytes, first + 2 * step),
                Lprop::get(geo, bytes, first + 3 * step),
            ],
        })
    }
}

fn put_props(geo: &Geometry, out: &mut [u8], bit: usize, props: &[Lprop])
    requires fits { AllFit (flat_map (lprop_fields (raw_of geo.now)) props.now) }
    requires near { bit + length props.now * 59 < 2 ^ 40 }
    requires room { bit + length props.now * (2 * space_bits (raw_of geo.now) + 1) ≤ 8 * length out.old }
    requires free { IsFree out.old bit }
    ensures { IsPut out.old bit (flat_map (lprop_fields (raw_of geo.now)) props.now) out.new }
{
    let step = 2 * widths::space(geo) as usize + 1;
    let mut at = bit;
    for prop in props {
        prop.put(geo, out, at);
        at += step;
    }
}
