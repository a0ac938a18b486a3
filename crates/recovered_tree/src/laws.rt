// Laws: the files of an image.

ghost use Rattle.std.specs.Prelude.{◌≡◌, ℕ, IsTrue, List, is_some};
ghost use Rattle.std.specs.List.{list_all};
ghost use Rattle.fs_model.specs.Files.{inode_at};
ghost use Rattle.fs_model.specs.Proper.{IsProper};
ghost use Rattle.recovered_tree.specs.Files.{files_of_image};
ghost use Rattle.sound_image.specs.Image.{Image};
ghost use Rattle.sound_image.specs.Sound.{SoundImage};
ghost use Rattle.sound_image.specs.Summary.{tree_of_image};
ghost use Rattle.ubifs_base.specs.NodeLaws.{IsBytes};

use sound_image::{contents_say_one_thing, the_tree_of_a_mount_is_proper};

/// Contents have one tree of files, whichever image they say.
pub fn one_tree_is_read()
    ensures { (contents : ℕ → List ℕ) (a b : Image) → ((k : ℕ) → IsBytes (contents k)) → SoundImage contents a → SoundImage contents b → files_of_image a ≡ files_of_image b }
{
    contents_say_one_thing();
}

/// The files of a sound image are a proper tree. They are all of the tree of which a mount makes its files, if each block's inode is there.
pub fn the_files_of_an_image_are_proper()
    ensures proper { (contents : ℕ → List ℕ) (image : Image) → ((k : ℕ) → IsBytes (contents k)) → SoundImage contents image → IsProper (files_of_image image) }
    ensures whole { (image : Image) → IsTrue (list_all (λ b. is_some (inode_at (tree_of_image image) b.0.0)) (tree_of_image image).blocks) → files_of_image image ≡ tree_of_image image }
{
    the_tree_of_a_mount_is_proper();
}
