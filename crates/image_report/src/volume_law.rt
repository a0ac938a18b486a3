// What the bytes of a volume hold.

ghost use Rattle.std.specs.Prelude.{◌≡◌, ◌∷◌, [], ℕ, IsTrue, List, is_some, take};
ghost use Rattle.std.specs.List.{list_all};
ghost use Rattle.ubifs_base.specs.NodeLaws.{IsBytes};
ghost use Rattle.ubifs_base.specs.declared.raw_geometry.RawGeometry.{RawGeometry};
ghost use Rattle.ubi_volume.specs.Volume.{image_of};
ghost use Rattle.fs_model.specs.Files.{Tree as ATree, inode_at};
ghost use Rattle.fs_model.specs.declared.space.Space.{Space as ASpace};
ghost use Rattle.sound_image.specs.Image.{Image};
ghost use Rattle.sound_image.specs.Sound.{SoundImage};
ghost use Rattle.image_report.specs.Lebs.{AreLebsOfGeometry, AreSoundLebs};
ghost use Rattle.image_report.specs.Told.{HoldsFiles, HoldsSoundImage, HoldsVolume};

use image_dump::never_both;
use recovered_tree::{one_tree_is_read, the_files_of_an_image_are_proper};
use sound_image::contents_say_one_thing;

/// The LEBs of a volume, one behind another, hold the sound image that the volume holds. Its files are those of the tree of which a mount
/// makes its files, if each block's inode is there.
pub fn the_bytes_of_a_volume_hold_what_it_holds()
    ensures image { (contents : ℕ → List ℕ) (image : Image) → AreLebsOfGeometry contents image.geo → SoundImage contents image
        → HoldsSoundImage (image_of contents image.geo.leb_cnt) image }
    ensures files { (contents : ℕ → List ℕ) (geo : RawGeometry) (tree : ATree) → AreSoundLebs contents geo tree
        → IsTrue (list_all (λ b. is_some (inode_at tree b.0.0)) tree.blocks) → HoldsFiles (image_of contents geo.leb_cnt) geo tree }
    ensures bytes { (contents : ℕ → List ℕ) (geo : RawGeometry) → AreLebsOfGeometry contents geo → IsBytes (image_of contents geo.leb_cnt) }
{
    the_files_of_an_image_are_proper();
}

/// Bytes hold one geometry, one tree of files, and one space. The magic number of a node stands in front.
pub fn bytes_hold_one_tree()
    ensures one { (bytes : List ℕ) (a b : RawGeometry) (s t : ATree) → IsBytes bytes → HoldsFiles bytes a s → HoldsFiles bytes b t → (a ≡ b) × (s ≡ t) }
    ensures space { (bytes : List ℕ) (a b : RawGeometry) (s t : ATree) (x y : ASpace) → IsBytes bytes → HoldsVolume bytes a s x → HoldsVolume bytes b t y → x ≡ y }
    ensures magic { (bytes : List ℕ) (geo : RawGeometry) (tree : ATree) → HoldsFiles bytes geo tree → take 4 bytes ≡ 0x31 ∷ 0x18 ∷ 0x10 ∷ 0x06 ∷ [] }
{
    never_both();
    one_tree_is_read();
    contents_say_one_thing();
}
