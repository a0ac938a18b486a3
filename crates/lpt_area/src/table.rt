// The ltab of a written tree.

ghost use Rattle.std.specs.Prelude.{◌≡◌, ◌+◌, ◌<◌, ◌≤◌, IfOk, OnOk, length, if◌then◌else◌, ◌-◌};
ghost use Rattle.ubifs_base.specs.Areas.{lpt_first};
ghost use Rattle.ubifs_base.specs.Properties.{ltab_len, tree_len};
ghost use Rattle.ubifs_base.specs.RawOf.{raw_of};
ghost use Rattle.media_lpt.specs.Nodes.{IsLtab, IsLtabBytes};
ghost use Rattle.lpt_area.specs.Laid.{IsLaid};
ghost use Rattle.lpt_area.specs.Written.{ltab_rows, in_units, tree_row, empty_row};

use media_lpt::{LptRow, Ltab};
use std::alloc::{AllocError, Global};
use ubifs_base::Geometry;

// Lays the ltab at this offset. The tree is in this LEB, and all is written up to `end`.
pub(crate) fn lay_ltab(
    alloc: Global,
    geo: &Geometry,
    lnum: u32,
    end: u32,
    out: &mut [u8],
    offs: usize,
) -> Result<(), AllocError>
    requires end { end ≡ in_units geo.now.min_io (tree_len (raw_of geo.now)) }
    requires fits { end ≤ geo.now.leb_size }
    requires place { offs + ltab_len (raw_of geo.now) ≡ tree_len (raw_of geo.now) }
    requires room { offs + ltab_len (raw_of geo.now) ≤ length out.old }
    ensures laid { OnOk result (IsLaid (λ bytes. IsLtabBytes (raw_of geo.now) bytes (ltab_rows (raw_of geo.now) lnum)) out.old out.new offs (ltab_len (raw_of geo.now))) }
    ensures size { length out.new ≡ length out.old }
{
    let len = geo.ltab_len();
    let used = offs as u32 + len;
    let table = table_of(alloc, geo, lnum, end, end - used)?;
    let (_before, rest) = out.split_at_mut(offs);
    let (place, _behind) = rest.split_at_mut(len as usize);
    table.encode(geo, place);
    Ok(())
}

// The table of a tree in this LEB, of which all is written up to `end`, and so many bytes of that are dirty.
fn table_of(
    alloc: Global,
    geo: &Geometry,
    lnum: u32,
    end: u32,
    dirty: u32,
) -> Result<Ltab, AllocError>
    requires end { end ≡ in_units geo.now.min_io (tree_len (raw_of geo.now)) }
    requires fits { end ≤ geo.now.leb_size }
    requires dirty { dirty + tree_len (raw_of geo.now) ≡ end }
    ensures rows { IfOk result (λ table. table ≡ ltab_rows (raw_of geo.now) lnum) }
    ensures table { IfOk result (IsLtab (raw_of geo.now)) }
{
    let size = geo.leb_size;
    let first = geo.lpt_first();
    let mut rows = Vec::new(alloc);
    for leb in 0..geo.lpt_lebs {
        rows.push(row_of(size, first + leb == lnum, end, dirty))?;
    }
    Ok(Ltab::from_vec(rows))
}

// The row of the written LEB, or of another.
fn row_of(size: u32, is_written: bool, end: u32, dirty: u32) -> LptRow
    requires { end ≤ size }
    ensures { result ≡ (if is_written then record { free = size - end; dirty = dirty } else record { free = size; dirty = 0 }) }
{
    if is_written {
        return LptRow {
            free: size - end,
            dirty,
        };
    }
    LptRow {
        free: size,
        dirty: 0,
    }
}
