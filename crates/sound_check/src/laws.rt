// Laws: what is told.

ghost use Rattle.std.specs.Prelude.{◌≡◌, ℕ, List};
ghost use Rattle.ubifs_base.specs.NodeLaws.{IsBytes};
ghost use Rattle.sound_image.specs.Image.{Image};
ghost use Rattle.sound_image.specs.Sound.{SoundImage};
ghost use Rattle.sound_check.specs.Reads.{told_of};

use sound_image::contents_say_one_thing;

/// One thing is told of contents, whichever image they say: a sound image is one but for where its latest master stands.
pub fn one_thing_is_told()
    ensures { (contents : ℕ → List ℕ) (a b : Image) → ((k : ℕ) → IsBytes (contents k)) → SoundImage contents a → SoundImage contents b → told_of a ≡ told_of b }
{
    contents_say_one_thing();
}
