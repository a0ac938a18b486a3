// The layout of a volume.

ghost use Rattle.ubifs_base.specs.Geometry.{IsGeometry};

use crate::properties;
use crate::ranges::test_geometry;
use crate::raw_geometry::{GeomFault, RawGeometry};

/// A `RawGeometry` whose fields are in range (the limits of the Linux sources, and narrower ones of
/// this project).
#[derive(Clone, Copy, Debug, PartialEq, Eq)]
pub struct Geometry {
    pub leb_size: u32,
    pub min_io: u32,
    pub log_lebs: u32,
    pub lpt_lebs: u32,
    pub orph_lebs: u32,
    pub leb_cnt: u32,
    pub max_leb_cnt: u32,
    pub fanout: u32,
    pub lsave_cnt: u32,
    pub big: bool,
    pub ghost in_range: { IsGeometry (record {
      leb_size = leb_size;
      min_io = min_io;
      log_lebs = log_lebs;
      lpt_lebs = lpt_lebs;
      orph_lebs = orph_lebs;
      leb_cnt = leb_cnt;
      max_leb_cnt = max_leb_cnt;
      fanout = fanout;
      lsave_cnt = lsave_cnt;
      big = big;
    }) },
}

impl Geometry {
    ghost use Rattle.std.specs.Prelude.{◌≡◌, ◌↔◌, IsOk, IfOk, IfErr};
    ghost use Rattle.ubifs_base.specs.Areas.{lpt_first, orph_first, main_first, main_lebs};
    ghost use Rattle.ubifs_base.specs.Geometry.{IsGeometry, leb_reserve, index_node_len, index_nodes_per_leb};
    ghost use Rattle.ubifs_base.specs.GeometryFaults.{IsFirstOut, tested_fields};
    ghost use Rattle.ubifs_base.specs.Properties as lpt;
    ghost use Rattle.ubifs_base.specs.PropertiesLaws.{IsHeight};
    ghost use Rattle.ubifs_base.specs.RawOf.{raw_of};

    /// Tests the fields, and names the first that is out of its range, in the order min_io, leb_size,
    /// log_lebs, lpt_lebs, orph_lebs, leb_cnt, max_leb_cnt, fanout. Takes no memory.
    pub fn new(raw: &RawGeometry) -> Result<Geometry, GeomFault>
        ensures fields { IfOk result (λ geo. raw_of geo ≡ raw.now) }
        ensures ok { IsOk result ↔ IsGeometry raw.now }
        ensures first { IfErr result (λ fault. IsFirstOut raw.now tested_fields fault) }
    {
        test_geometry(raw)?;
        Ok(Geometry {
            leb_size: raw.leb_size,
            min_io: raw.min_io,
            log_lebs: raw.log_lebs,
            lpt_lebs: raw.lpt_lebs,
            orph_lebs: raw.orph_lebs,
            leb_cnt: raw.leb_cnt,
            max_leb_cnt: raw.max_leb_cnt,
            fanout: raw.fanout,
            lsave_cnt: raw.lsave_cnt,
            big: raw.big,
        })
    }

    /// The same numbers, without the promise that they are in range.
    pub fn raw(&self) -> RawGeometry
        ensures { result ≡ raw_of self.now }
    {
        RawGeometry {
            leb_size: self.leb_size,
            min_io: self.min_io,
            log_lebs: self.log_lebs,
            lpt_lebs: self.lpt_lebs,
            orph_lebs: self.orph_lebs,
            leb_cnt: self.leb_cnt,
            max_leb_cnt: self.max_leb_cnt,
            fanout: self.fanout,
            lsave_cnt: self.lsave_cnt,
            big: self.big,
        }
    }

    /// The first LEB of the properties area, behind the log.
    pub fn lpt_first(&self) -> u32
        ensures { result ≡ lpt_first (raw_of self.now) }
    {
        3 + self.log_lebs
    }

    /// The first LEB of the orphan area.
    pub fn orph_first(&self) -> u32
        ensures { result ≡ orph_first (raw_of self.now) }
    {
        3 + self.log_lebs + self.lpt_lebs
    }

    /// The first main LEB.
    pub fn main_first(&self) -> u32
        ensures { result ≡ main_first (raw_of self.now) }
    {
        3 + self.log_lebs + self.lpt_lebs + self.orph_lebs
    }

    /// The number of main LEBs, at least one.
    pub fn main_lebs(&self) -> u32
        ensures { result ≡ main_lebs (raw_of self.now) }
    {
        self.leb_cnt - self.main_first()
    }

    /// The bytes of each LEB that the space budget doesn't promise to leaves.
    pub fn leb_reserve(&self) -> u32
        ensures { result ≡ leb_reserve (raw_of self.now) }
    {
        4256 + 2 * self.min_io + 1024
    }

    /// The bytes that the largest index node takes, a multiple of 8.
    pub fn index_node_len(&self) -> u32
        ensures { result ≡ index_node_len (raw_of self.now) }
    {
        (28 + 20 * self.fanout).div_ceil(8) * 8
    }

    /// How many index nodes a LEB takes, at least two.
    pub fn index_nodes_per_leb(&self) -> u32
        ensures { result ≡ index_nodes_per_leb (raw_of self.now) }
    {
        self.leb_size / self.index_node_len()
    }

    /// The bytes of a pnode, at most 64.
    pub fn pnode_len(&self) -> u32
        ensures { result ≡ lpt.pnode_len (raw_of self.now) }
    {
        properties::pnode_len(&self.raw())
    }

    /// The bytes of an nnode, at most 64.
    pub fn nnode_len(&self) -> u32
        ensures { result ≡ lpt.nnode_len (raw_of self.now) }
    {
        properties::nnode_len(&self.raw())
    }

    /// The bytes of the ltab.
    pub fn ltab_len(&self) -> u32
        ensures { result ≡ lpt.ltab_len (raw_of self.now) }
    {
        properties::ltab_len(&self.raw())
    }

    /// The number of pnodes of the properties tree.
    pub fn pnode_count(&self) -> u32
        ensures { result ≡ lpt.pnode_count (raw_of self.now) }
    {
        properties::pnode_count(&self.raw())
    }

    /// The height of the properties tree: the root stands over so many levels, the pnodes' among them.
    pub fn tree_height(&self) -> u32
        ensures number { result ≡ lpt.tree_height (lpt.pnode_count (raw_of self.now)) }
        ensures least { IsHeight (lpt.pnode_count (raw_of self.now)) result }
    {
        properties::tree_height(properties::pnode_count(&self.raw()))
    }
}
