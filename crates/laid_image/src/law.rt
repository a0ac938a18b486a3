// A law: what is laid without a journal is a sound image.

ghost use Rattle.std.specs.Prelude.{◌≡◌, ℕ, IsTrue, List, [], map};
ghost use Rattle.ubifs_base.specs.declared.raw_geometry.RawGeometry.{RawGeometry};
ghost use Rattle.bud_log.specs.Log.{references_of};
ghost use Rattle.bud_log.specs.LogText.{LogText};
ghost use Rattle.index_media.specs.PlacedRow.{PlacedRow};
ghost use Rattle.leaf_map.specs.Kept.{Placed, kept_at};
ghost use Rattle.leaf_map.specs.Recovered.{recovered_of, tree_found};
ghost use Rattle.media_lpt.specs.declared.lprop.Lprop.{Lprop as AnLprop};
ghost use Rattle.small_areas.specs.declared.placed_master.PlacedMaster.{PlacedMaster as APlacedMaster};
ghost use Rattle.sound_image.specs.Image.{parts_of};
ghost use Rattle.sound_image.specs.Sound.{SoundImage};
ghost use Rattle.sound_image.specs.Summary.{is_clean};
ghost use Rattle.laid_image.specs.Laid.{IsLaidImage, laid_image, tree_of_nodes};

use leaf_map::originals_are_found;
use sound_image::{
    a_fresh_log_meets_the_rule, plain_nodes_need_no_feature, what_is_written_meets_the_rules,
};

/// An image that was laid without a journal is sound. Its recovered leaves are those that were laid, its tree is the one that they
/// show, and it is clean.
pub fn a_laid_image_is_sound()
    ensures sound { (contents : ℕ → List ℕ) (geo : RawGeometry) (latest : APlacedMaster) (props : List AnLprop) (placed : PlacedRow) (nodes : List Placed)
        → IsLaidImage contents geo latest props placed nodes
        → (log : List LogText) × (references_of log ≡ []) × SoundImage contents (laid_image geo latest props placed log nodes) }
    ensures leaves { (geo : RawGeometry) (latest : APlacedMaster) (props : List AnLprop) (placed : PlacedRow) (log : List LogText) (nodes : List Placed) (contents : ℕ → List ℕ)
        → references_of log ≡ [] → IsLaidImage contents geo latest props placed nodes
        → (recovered_of (parts_of (laid_image geo latest props placed log nodes))).kept ≡ map kept_at nodes }
    ensures tree { (geo : RawGeometry) (latest : APlacedMaster) (props : List AnLprop) (placed : PlacedRow) (log : List LogText) (nodes : List Placed) (contents : ℕ → List ℕ)
        → references_of log ≡ [] → IsLaidImage contents geo latest props placed nodes
        → tree_found (parts_of (laid_image geo latest props placed log nodes)) ≡ tree_of_nodes latest.master nodes }
    ensures clean { (geo : RawGeometry) (latest : APlacedMaster) (props : List AnLprop) (placed : PlacedRow) (log : List LogText) (nodes : List Placed)
        → IsTrue (is_clean (laid_image geo latest props placed log nodes)) }
{
    originals_are_found();
    a_fresh_log_meets_the_rule();
    plain_nodes_need_no_feature();
}
