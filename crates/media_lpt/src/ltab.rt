// The table of the properties area.

ghost use Rattle.std.specs.Prelude.{◌≡◌, ◌+◌, ◌*◌, ◌<◌, ◌≤◌, ◌^◌, length, IfOk, IfSome, IfNone};
ghost use Rattle.std.specs.List.{flat_map};
ghost use Rattle.ubifs_base.specs.Properties.{fls, ltab_len};
ghost use Rattle.ubifs_base.specs.RawOf.{raw_of};
ghost use Rattle.media_lpt.specs.Nodes.{row_fields, IsLtab, IsLtabBytes};
ghost use Rattle.media_lpt.specs.Packed.{AllFit, IsPut, IsFree, IsAt};

use crate::frame::{HEAD_BITS, is_framed, seal, start};
use crate::packing::{get, put};
use crate::widths;
use std::alloc::Global;
use std::marker::Model;
use ubifs_base::{Geometry, Memory};

const KIND: u32 = 2;

/// The free and dirty bytes of a LEB of the properties area (`struct ubifs_lpt_lprops` of the Linux sources).
#[derive(Clone, Copy, Debug, PartialEq, Eq)]
pub struct LptRow {
    pub free: u32,
    pub dirty: u32,
}

/// The table of the properties area, a row for each of its LEBs in order. Contracts see it as the list of its rows.
#[derive(Debug, Drop)]
pub struct Ltab {
    rows: Vec<LptRow>,
}

impl Model for Ltab {
    ghost use Rattle.std.specs.Prelude.{List};
    ghost use Rattle.media_lpt.specs.declared.ltab.LptRow.{LptRow};

    ghost Value = { List LptRow };

    ghost view = { λ table. table.rows.items };
}

impl LptRow {
    #[tactic(auto, unfolding(crate::specs::Nodes::row_fields, crate::specs::Packed::AllFit, crate::specs::Packed::bits_len))]
    fn put(&self, geo: &Geometry, out: &mut [u8], bit: usize)
        requires near { bit < 2 ^ 40 }
        requires fits { AllFit (row_fields (raw_of geo.now) self.now) }
        requires room { bit + 2 * fls geo.now.leb_size ≤ 8 * length out.old }
        requires free { IsFree out.old bit }
        ensures put { IsPut out.old bit (row_fields (raw_of geo.now) self.now) out.new }
        ensures free { IsFree out.new (bit + 2 * fls geo.now.leb_size) }
    {
        let width = widths::row_space(geo);
        let second = bit + width as usize;
        put(out, bit, width, self.free);
        put(out, second, width, self.dirty);
    }

    #[tactic(auto, unfolding(crate::specs::Nodes::row_fields, crate::specs::Packed::IsAt))]
    fn get(geo: &Geometry, bytes: &[u8], bit: usize) -> LptRow
        requires near { bit < 2 ^ 40 }
        requires room { bit + 2 * fls geo.now.leb_size ≤ 8 * length bytes.now }
        ensures { IsAt bytes.now bit (row_fields (raw_of geo.now) result) }
    {
        let width = widths::row_space(geo);
        let second = bit + width as usize;
        let free = get(bytes, bit, width);
        let dirty = get(bytes, second, width);
        LptRow { free, dirty }
    }
}

impl Ltab {
    /// Takes over the rows. Takes no memory.
    pub fn from_vec(rows: Vec<LptRow>) -> Ltab
        ensures { result ≡ rows.items }
    {
        Ltab { rows }
    }

    /// The rows.
    pub fn rows(&self) -> &[LptRow]
        ensures { result.now ≡ self.now }
    {
        self.rows.as_slice()
    }

    /// Gives the rows back. Takes no memory.
    pub fn into_vec(self) -> Vec<LptRow>
        ensures { result.items ≡ self }
    {
        self.rows
    }

    /// Writes the table's one spelling, `geo.ltab_len()` bytes. Takes no memory.
    pub fn encode(&self, geo: &Geometry, out: &mut [u8])
        requires table { IsLtab (raw_of geo.now) self.now }
        requires room { length out.old ≡ ltab_len (raw_of geo.now) }
        ensures { IsLtabBytes (raw_of geo.now) out.new self.now }
    {
        encode_rows(geo, out, self.rows())
    }

    /// The table that the bytes are, all of them, if they are one. The error is want of memory.
    pub fn decode(alloc: Global, geo: &Geometry, bytes: &[u8]) -> Result<Option<Ltab>, Memory>
        ensures found { IfOk result (λ found. IfSome found (λ table. IsLtabBytes (raw_of geo.now) bytes.now table)) }
        ensures none { IfOk result (λ found. IfNone found ((rows : _) → IsLtabBytes (raw_of geo.now) bytes.now rows → ⊥)) }
    {
        let step = 2 * widths::row_space(geo) as usize;
        if !is_framed(bytes, KIND, geo.lpt_lebs as usize * step) {
            return Ok(None);
        }
        let rows = get_rows(alloc, geo, bytes)?;
        Ok(Some(Ltab::from_vec(rows)))
    }
}

fn encode_rows(geo: &Geometry, out: &mut [u8], rows: &[LptRow])
    requires table { IsLtab (raw_of geo.now) rows.now }
    requires room { length out.old ≡ ltab_len (raw_of geo.now) }
    ensures { IsLtabBytes (raw_of geo.now) out.new rows.now }
{
    start(out, KIND);
    put_rows(geo, out, rows);
    seal(out);
}

fn put_rows(geo: &Geometry, out: &mut [u8], rows: &[LptRow])
    requires fits { AllFit (flat_map (row_fields (raw_of geo.now)) rows.now) }
    requires near { length rows.now < 2 ^ 32 }
    requires room { 20 + length rows.now * (2 * fls geo.now.leb_size) ≤ 8 * length out.old }
    requires free { IsFree out.old 20 }
    ensures { IsPut out.old 20 (flat_map (row_fields (raw_of geo.now)) rows.now) out.new }
{
    let step = 2 * widths::row_space(geo) as usize;
    let mut at = HEAD_BITS;
    for row in rows {
        row.put(geo, out, at);
        at += step;
    }
}

fn get_rows(alloc: Global, geo: &Geometry, bytes: &[u8]) -> Result<Vec<LptRow>, Memory>
    requires room { 20 + geo.now.lpt_lebs * (2 * fls geo.now.leb_size) ≤ 8 * length bytes.now }
    ensures count { IfOk result (λ rows. length rows.items ≡ geo.now.lpt_lebs) }
    ensures at { IfOk result (λ rows. IsAt bytes.now 20 (flat_map (row_fields (raw_of geo.now)) rows.items)) }
{
    let step = 2 * widths::row_space(geo) as usize;
    let mut rows = Vec::new(alloc);
    let mut at = HEAD_BITS;
    for _row in 0..geo.lpt_lebs {
        rows.push(LptRow::get(geo, bytes, at))?;
        at += step;
    }
    Ok(rows)
}
