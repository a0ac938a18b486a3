// The save table of the big model.

ghost use Rattle.std.specs.Prelude.{◌≡◌, ◌+◌, ◌*◌, ◌<◌, ◌≤◌, ◌^◌, length, IfOk, IfSome, IfNone};
ghost use Rattle.std.specs.List.{flat_map};
ghost use Rattle.ubifs_base.specs.RawOf.{raw_of};
ghost use Rattle.media_lpt.specs.Nodes.{lnum_bits, lnum_fields, lsave_len, IsLsave, IsLsaveBytes};
ghost use Rattle.media_lpt.specs.Packed.{AllFit, IsPut, IsFree, IsAt};

use crate::frame::{HEAD_BITS, is_framed, seal, start};
use crate::packing::{get, put};
use crate::widths;
use std::alloc::Global;
use std::marker::Model;
use ubifs_base::{Geometry, Memory};

const KIND: u32 = 3;

/// The save table of the big model: main LEBs whose pnodes a mount reads first (`lsave` of the Linux sources). Contracts
/// see it as the list of its LEB numbers.
#[derive(Debug, Drop)]
pub struct Lsave {
    lnums: Vec<u32>,
}

impl Model for Lsave {
    ghost use Rattle.std.specs.Prelude.{List, ℕ};

    ghost Value = { List ℕ };

    ghost view = { λ table. table.lnums.items };
}

impl Lsave {
    /// The bytes that the table takes.
    pub fn len(geo: &Geometry) -> u64
        ensures { result ≡ lsave_len (raw_of geo.now) }
    {
        (HEAD_BITS as u64 + geo.lsave_cnt as u64 * widths::lnum(geo) as u64).div_ceil(8)
    }

    /// Takes over the LEB numbers. Takes no memory.
    pub fn from_vec(lnums: Vec<u32>) -> Lsave
        ensures { result ≡ lnums.items }
    {
        Lsave { lnums }
    }

    /// The LEB numbers.
    pub fn lnums(&self) -> &[u32]
        ensures { result.now ≡ self.now }
    {
        self.lnums.as_slice()
    }

    /// Gives the LEB numbers back. Takes no memory.
    pub fn into_vec(self) -> Vec<u32>
        ensures { result.items ≡ self }
    {
        self.lnums
    }

    /// Writes the table's one spelling, `Lsave::len(geo)` bytes. Takes no memory.
    pub fn encode(&self, geo: &Geometry, out: &mut [u8])
        requires table { IsLsave (raw_of geo.now) self.now }
        requires room { length out.old ≡ lsave_len (raw_of geo.now) }
        ensures { IsLsaveBytes (raw_of geo.now) out.new self.now }
    {
        encode_lnums(geo, out, self.lnums())
    }

    /// The table that the bytes are, all of them, if they are one. The error is want of memory.
    pub fn decode(alloc: Global, geo: &Geometry, bytes: &[u8]) -> Result<Option<Lsave>, Memory>
        ensures found { IfOk result (λ found. IfSome found (λ table. IsLsaveBytes (raw_of geo.now) bytes.now table)) }
        ensures none { IfOk result (λ found. IfNone found ((lnums : _) → IsLsaveBytes (raw_of geo.now) bytes.now lnums → ⊥)) }
    {
        let step = widths::lnum(geo) as usize;
        if !is_framed(bytes, KIND, geo.lsave_cnt as usize * step) {
            return Ok(None);
        }
        let lnums = get_lnums(alloc, geo, bytes)?;
        Ok(Some(Lsave::from_vec(lnums)))
    }
}

fn encode_lnums(geo: &Geometry, out: &mut [u8], lnums: &[u32])
    requires table { IsLsave (raw_of geo.now) lnums.now }
    requires room { length out.old ≡ lsave_len (raw_of geo.now) }
    ensures { IsLsaveBytes (raw_of geo.now) out.new lnums.now }
{
    let _count = geo.lsave_cnt;
    start(out, KIND);
    put_lnums(geo, out, lnums);
    seal(out);
}

fn put_lnums(geo: &Geometry, out: &mut [u8], lnums: &[u32])
    requires fits { AllFit (flat_map (lnum_fields (raw_of geo.now)) lnums.now) }
    requires near { length lnums.now < 2 ^ 32 }
    requires room { 20 + length lnums.now * (lnum_bits (raw_of geo.now)) ≤ 8 * length out.old }
    requires free { IsFree out.old 20 }
    ensures { IsPut out.old 20 (flat_map (lnum_fields (raw_of geo.now)) lnums.now) out.new }
{
    let step = widths::lnum(geo) as usize;
    let mut at = HEAD_BITS;
    for lnum in lnums {
        put_lnum(geo, out, at, *lnum);
        at += step;
    }
}

fn get_lnums(alloc: Global, geo: &Geometry, bytes: &[u8]) -> Result<Vec<u32>, Memory>
    requires room { 20 + geo.now.lsave_cnt * (lnum_bits (raw_of geo.now)) ≤ 8 * length bytes.now }
    ensures count { IfOk result (λ lnums. length lnums.items ≡ geo.now.lsave_cnt) }
    ensures at { IfOk result (λ lnums. IsAt bytes.now 20 (flat_map (lnum_fields (raw_of geo.now)) lnums.items)) }
{
    let step = widths::lnum(geo) as usize;
    let mut lnums = Vec::new(alloc);
    let mut at = HEAD_BITS;
    for _lnum in 0..geo.lsave_cnt {
        lnums.push(get_lnum(geo, bytes, at))?;
        at += step;
    }
    Ok(lnums)
}

#[tactic(auto, unfolding(crate::specs::Nodes::lnum_fields, crate::specs::Packed::AllFit))]
fn put_lnum(geo: &Geometry, out: &mut [u8], bit: usize, lnum: u32)
    requires near { bit < 2 ^ 40 }
    requires fits { AllFit (lnum_fields (raw_of geo.now) lnum) }
    requires room { bit + lnum_bits (raw_of geo.now) ≤ 8 * length out.old }
    requires free { IsFree out.old bit }
    ensures put { IsPut out.old bit (lnum_fields (raw_of geo.now) lnum) out.new }
    ensures free { IsFree out.new (bit + lnum_bits (raw_of geo.now)) }
{
    put(out, bit, widths::lnum(geo), lnum);
}

#[tactic(auto, unfolding(crate::specs::Nodes::lnum_fields, crate::specs::Packed::IsAt))]
fn get_lnum(geo: &Geometry, bytes: &[u8], bit: usize) -> u32
    requires near { bit < 2 ^ 40 }
    requires room { bit + lnum_bits (raw_of geo.now) ≤ 8 * length bytes.now }
    ensures { IsAt bytes.now bit (lnum_fields (raw_of geo.now) result) }
{
    get(bytes, bit, widths::lnum(geo))
}
