// What was read of a sound image.

use bud_check::BudsFound;
use image_tree::TreeRead;
use index_check::IndexFound;
use journal_check::LogFound;
use media_lpt::Lprop;
use small_areas::PlacedMaster;
use tree_check::ShownLeaf;
use ubifs_base::Geometry;

/// What was read of a sound image: the geometry, the latest master and its place, the properties of the main LEBs in order, the leaves
/// and the nodes of the committed index, the references of the log, what the buds say, what is recovered of all that, and what
/// the leaves after recovery show, in their order.
#[derive(Drop)]
pub struct ImageRead {
    pub geometry: Geometry,
    pub latest: PlacedMaster,
    pub props: Vec<Lprop>,
    pub index: IndexFound,
    pub log: LogFound,
    pub buds: BudsFound,
    pub tree: TreeRead,
    pub shown: Vec<ShownLeaf>,
}
