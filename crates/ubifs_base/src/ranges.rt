// The ranges of a geometry's fields.

ghost use Rattle.std.specs.Prelude.{◌≡◌, ◌↔◌, ◌<◌, ◌≤◌, IsTrue, OnOk, IfErr};
ghost use Rattle.ubifs_base.specs.Geometry.{IsGeometry, IsMinIo, IsLebSize, IsLogLebs, IsLptLebs, IsOrphLebs, IsLebCnt, IsMaxLebCnt, FitsOneLeb, IsFanout, leb_reserve};
ghost use Rattle.ubifs_base.specs.GeometryFaults.{IsFirstOut, tested_fields};

use crate::properties::tree_len;
use crate::raw_geometry::{GeomFault, GeomField, RawGeometry};

const MOST_AREA_LEBS: u32 = 1024;

fn is_min_io(geo: &RawGeometry) -> bool
    ensures { IsTrue result ↔ IsMinIo geo.now }
{
    if geo.min_io < 8 || geo.min_io > 16_384 {
        return false;
    }
    geo.min_io.is_power_of_two()
}

fn is_leb_size(geo: &RawGeometry) -> bool
    requires low { 8 ≤ geo.now.min_io }
    requires high { geo.now.min_io ≤ 16384 }
    ensures { IsTrue result ↔ IsLebSize geo.now }
{
    if geo.leb_size < 15_360 || geo.leb_size > 2_097_152 {
        return false;
    }
    if geo.leb_size % geo.min_io != 0 {
        return false;
    }
    4256 + 2 * geo.min_io + 1024 < geo.leb_size
}

fn is_log_lebs(geo: &RawGeometry) -> bool
    ensures { IsTrue result ↔ IsLogLebs geo.now }
{
    3 <= geo.log_lebs && geo.log_lebs <= MOST_AREA_LEBS
}

fn is_lpt_lebs(geo: &RawGeometry) -> bool
    ensures { IsTrue result ↔ IsLptLebs geo.now }
{
    2 <= geo.lpt_lebs && geo.lpt_lebs <= MOST_AREA_LEBS
}

fn is_orph_lebs(geo: &RawGeometry) -> bool
    ensures { IsTrue result ↔ IsOrphLebs geo.now }
{
    1 <= geo.orph_lebs && geo.orph_lebs <= MOST_AREA_LEBS
}

fn is_leb_cnt(geo: &RawGeometry) -> bool
    requires log_lebs { geo.now.log_lebs ≤ 1024 }
    requires lpt_lebs { geo.now.lpt_lebs ≤ 1024 }
    requires orph_lebs { geo.now.orph_lebs ≤ 1024 }
    ensures { IsTrue result ↔ IsLebCnt geo.now }
{
    let main_first = 3 + geo.log_lebs + geo.lpt_lebs + geo.orph_lebs;
    main_first < geo.leb_cnt && geo.leb_cnt <= geo.max_leb_cnt
}

fn is_max_leb_cnt(geo: &RawGeometry) -> bool
    requires log_lebs { geo.now.log_lebs ≤ 1024 }
    requires lpt_lebs { geo.now.lpt_lebs ≤ 1024 }
    requires orph_lebs { geo.now.orph_lebs ≤ 1024 }
    ensures { IsTrue result ↔ IsMaxLebCnt geo.now × FitsOneLeb geo.now }
{
    let most_bytes = geo.max_leb_cnt as u64 * geo.leb_size as u64;
    most_bytes <= 1 << 30 && tree_len(geo) <= geo.leb_size as u64
}

fn is_fanout(geo: &RawGeometry) -> bool
    ensures { IsTrue result ↔ IsFanout geo.now }
{
    3 <= geo.fanout && geo.fanout <= 256
}

fn fault(field: GeomField, value: u32) -> Result<(), GeomFault>
    ensures { result ≡ Err (record { field = field; value = value }) }
{
    Err(GeomFault { field, value })
}

pub(crate) fn test_geometry(geo: &RawGeometry) -> Result<(), GeomFault>
    ensures ok { OnOk result (IsGeometry geo.now) }
    ensures first { IfErr result (λ fault. IsFirstOut geo.now tested_fields fault) }
{
    if !is_min_io(geo) {
        return fault(GeomField::MinIo, geo.min_io);
    }
    if !is_leb_size(geo) {
        return fault(GeomField::LebSize, geo.leb_size);
    }
    if !is_log_lebs(geo) {
        return fault(GeomField::LogLebs, geo.log_lebs);
    }
    if !is_lpt_lebs(geo) {
        return fault(GeomField::LptLebs, geo.lpt_lebs);
    }
    if !is_orph_lebs(geo) {
        return fault(GeomField::OrphLebs, geo.orph_lebs);
    }
    if !is_leb_cnt(geo) {
        return fault(GeomField::LebCnt, geo.leb_cnt);
    }
    if !is_max_leb_cnt(geo) {
        return fault(GeomField::MaxLebCnt, geo.max_leb_cnt);
    }
    if !is_fanout(geo) {
        return fault(GeomField::Fanout, geo.fanout);
    }
    Ok(())
}
