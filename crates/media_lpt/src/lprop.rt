// The properties of a main LEB.

ghost use Rattle.std.specs.Prelude.{◌≡◌, ◌+◌, ◌*◌, ◌<◌, ◌≤◌, ◌^◌, length, if◌then◌else◌};
ghost use Rattle.ubifs_base.specs.Properties.{space_bits};
ghost use Rattle.ubifs_base.specs.RawOf.{raw_of};
ghost use Rattle.media_lpt.specs.Packed.{AllFit, IsPut, IsFree, IsAt};

use crate::packing::{get, put};
use crate::widths;
use ubifs_base::Geometry;

/// The properties of a main LEB: its free and dirty bytes, multiples of 8, and whether it holds index nodes
/// (`struct ubifs_lprops` of the Linux sources).
#[derive(Clone, Copy, Debug, PartialEq, Eq)]
pub struct Lprop {
    pub free: u32,
    pub dirty: u32,
    pub index: bool,
}

impl Lprop {
    ghost use Rattle.media_lpt.specs.Nodes.{lprop_fields, IsInEights};

    #[tactic(auto, unfolding(crate::specs::Nodes::lprop_fields, crate::specs::Packed::AllFit, crate::specs::Packed::bits_len))]
    pub(crate) fn put(&self, geo: &Geometry, out: &mut [u8], bit: usize)
        requires near { bit < 2 ^ 40 }
        requires fits { AllFit (lprop_fields (raw_of geo.now) self.now) }
        requires room { bit + (2 * space_bits (raw_of geo.now) + 1) ≤ 8 * length out.old }
        requires free { IsFree out.old bit }
        ensures put { IsPut out.old bit (lprop_fields (raw_of geo.now) self.now) out.new }
        ensures free { IsFree out.new (bit + (2 * space_bits (raw_of geo.now) + 1)) }
    {
        let width = widths::space(geo);
        let second = bit + width as usize;
        let third = second + width as usize;
        put(out, bit, width, self.free / 8);
        put(out, second, width, self.dirty / 8);
        put(out, third, 1, bit_of(self.index));
    }

    #[tactic(auto, unfolding(crate::specs::Nodes::lprop_fields, crate::specs::Packed::IsAt))]
    pub(crate) fn get(geo: &Geometry, bytes: &[u8], bit: usize) -> Lprop
        requires near { bit < 2 ^ 40 }
        requires room { bit + (2 * space_bits (raw_of geo.now) + 1) ≤ 8 * length bytes.now }
        ensures at { IsAt bytes.now bit (lprop_fields (raw_of geo.now) result) }
        ensures eights { IsInEights result }
    {
        let width = widths::space(geo);
        let second = bit + width as usize;
        let third = second + width as usize;
        let free = get(bytes, bit, width);
        let dirty = get(bytes, second, width);
        Lprop {
            free: 8 * free,
            dirty: 8 * dirty,
            index: get(bytes, third, 1) == 1,
        }
    }
}

fn bit_of(flag: bool) -> u32
    ensures number { result ≡ (if flag then 1 else 0) }
    ensures small { result < 2 ^ 1 }
{
    if flag { 1 } else { 0 }
}
