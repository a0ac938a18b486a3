// A law on the weight of an index.

ghost use Rattle.std.specs.Prelude.{◌≡◌, ℕ, List};
ghost use Rattle.index_tree.specs.Shape.{shape_weight};
ghost use Rattle.index_media.specs.PlacedRow.{PlacedRow, all_nodes, plain};
ghost use Rattle.index_media.specs.Stored.{IsStoredIndex};
ghost use Rattle.media_sys.specs.declared.branch.Branch.{Branch as ABranch};
ghost use Rattle.image_space.specs.Weight.{weight_by_lengths};

use index_media::an_index_takes_the_bytes_of_its_nodes;

/// The weight of an index that stands on a medium, the number of its nodes plus that of the full ones, is told by the lengths of its nodes.
pub fn lengths_tell_the_weight()
    ensures { (contents : ℕ → List ℕ) (fanout : ℕ) (root : ABranch) (placed : PlacedRow) → IsStoredIndex contents fanout root placed
        → shape_weight fanout (plain placed) ≡ weight_by_lengths fanout (all_nodes placed) }
{
    an_index_takes_the_bytes_of_its_nodes();
}
