// What can be told of an image.

ghost use Rattle.std.specs.Prelude.{◌≡◌, List, ℕ};
ghost use Rattle.ubifs_base.specs.NodeLaws.{IsBytes};
ghost use Rattle.sound_image.specs.Image.{Image};
ghost use Rattle.image_report.specs.Told.{HoldsSoundImage, IsUnsound, TellsSound};

use image_dump::never_both;
use sound_image::{a_first_breach_is_one, contents_say_one_thing};

/// No bytes both hold a sound image and are unsound; a sound image is told by one line, and unsound bytes are.
pub fn one_text_is_told()
    ensures never { (bytes line : List ℕ) (image : Image) → IsBytes bytes → HoldsSoundImage bytes image → IsUnsound bytes line → ⊥ }
    ensures line { (bytes a b : List ℕ) → IsBytes bytes → TellsSound bytes a → TellsSound bytes b → a ≡ b }
    ensures unsound { (bytes a b : List ℕ) → IsBytes bytes → IsUnsound bytes a → IsUnsound bytes b → a ≡ b }
{
    never_both();
    a_first_breach_is_one();
    contents_say_one_thing();
}
