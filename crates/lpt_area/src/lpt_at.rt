// Where a tree of properties stands.

use media_lpt::LptPlace;

/// Where a tree of properties stands: the root nnode's LEB and offset, the ltab's, and the place behind the last byte that
/// was written of the area, at a multiple of the unit (`lpt_lnum`, `ltab_lnum` and `nhead_lnum` of `struct ubifs_mst_node`
/// in ubifs-media.h).
#[derive(Clone, Copy, Debug, PartialEq, Eq)]
pub struct LptAt {
    pub lnum: u32,
    pub offs: u32,
    pub ltab_lnum: u32,
    pub ltab_offs: u32,
    pub nhead_lnum: u32,
    pub nhead_offs: u32,
}

impl LptAt {
    ghost use Rattle.std.specs.Prelude.{◌≡◌};
    ghost use Rattle.lpt_area.specs.Tree.{root_of};

    /// The root's place.
    pub fn root(&self) -> LptPlace
        ensures { result ≡ root_of self.now }
    {
        LptPlace {
            lnum: self.lnum,
            offs: self.offs,
        }
    }
}
