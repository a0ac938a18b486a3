// The numbers of a volume's layout, before they are tested.

use thiserror::Error;

/// The numbers that a superblock or a manifest gives: `leb_size` and `min_io` are bytes, `log_lebs`,
/// `lpt_lebs` and `orph_lebs` the LEBs of those areas, `leb_cnt` the LEBs of the volume and
/// `max_leb_cnt` those that it may grow to, `fanout` the children of an index node, `lsave_cnt` the
/// LEB numbers of the save table, and `big` whether the properties tree is of the big model
/// (`struct ubifs_sb_node` of ubifs-media.h).
#[derive(Clone, Copy, Debug, PartialEq, Eq)]
pub struct RawGeometry {
    pub leb_size: u32,
    pub min_io: u32,
    pub log_lebs: u32,
    pub lpt_lebs: u32,
    pub orph_lebs: u32,
    pub leb_cnt: u32,
    pub max_leb_cnt: u32,
    pub fanout: u32,
    pub lsave_cnt: u32,
    pub big: bool,
}

/// A field of a `RawGeometry`.
#[derive(Clone, Copy, Debug, PartialEq, Eq)]
pub enum GeomField {
    LebSize,
    MinIo,
    LogLebs,
    LptLebs,
    OrphLebs,
    LebCnt,
    MaxLebCnt,
    Fanout,
    LsaveCnt,
}

/// The first field that is out of its range, and what it says.
#[derive(Clone, Copy, Debug, PartialEq, Eq, Error)]
#[error("{field:?} {value} is out of range")]
pub struct GeomFault {
    pub field: GeomField,
    pub value: u32,
}

impl RawGeometry {
    ghost use Rattle.std.specs.Prelude.{◌≡◌, ◌<◌, ◌^◌};
    ghost use Rattle.ubifs_base.specs.Geometry.{plain_geometry};

    /// The geometry of a plain volume with so many main LEBs: four LEBs of log, two of properties and
    /// one of orphans. It is not tested. Takes no memory.
    pub fn plain(leb_size: u32, min_io: u32, main: u32, fanout: u32) -> RawGeometry
        requires { main < 2 ^ 31 }
        ensures { result ≡ plain_geometry leb_size min_io main fanout }
    {
        RawGeometry {
            leb_size,
            min_io,
            log_lebs: 4,
            lpt_lebs: 2,
            orph_lebs: 1,
            leb_cnt: main + 10,
            max_leb_cnt: main + 10,
            fanout,
            lsave_cnt: 256,
            big: false,
        }
    }
}
