// Leaves that are counted.

ghost use Rattle.std.specs.Prelude.{◌≡◌, ◌<◌, ◌∷◌, [], List};
ghost use Rattle.ubifs_base.specs.RawOf.{raw_of};
ghost use Rattle.media_leaf.specs.LeafNode.{LeafNode};
ghost use Rattle.group_nodes.specs.Texts.{padded_leaf_bytes};
ghost use Rattle.tree_space.specs.Counted.{CanTake, Counts};

use ubifs_base::Geometry;

// How many leaves were counted, how many LEBs they filled, and how many bytes they take of the next one.
#[derive(Drop)]
pub(crate) struct Tally {
    pub(crate) leaves: u64,
    pub(crate) full: u64,
    pub(crate) taken: u64,
}

impl Tally {
    // Counts a leaf of so many bytes.
    pub(crate) fn take(&mut self, geometry: &Geometry, len: u64)
        requires some { 0 < len }
        requires can { (leaf : LeafNode) × CanTake (leaf ∷ []) self.old }
        ensures { (leaf : LeafNode) → padded_leaf_bytes leaf ≡ len → Counts (raw_of geometry.now) (leaf ∷ []) self.old self.new }
    {
        self.leaves += 1;
        let left = (geometry.leb_size as u64).saturating_sub(self.taken);
        if len <= left {
            self.taken += len;
        } else {
            self.full += 1;
            self.taken = len;
        }
    }
}
