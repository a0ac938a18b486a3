// What an image can be.

ghost use Rattle.std.specs.Prelude.{◌≡◌, List, ℕ};
ghost use Rattle.ubifs_base.specs.NodeLaws.{IsBytes};
ghost use Rattle.ubifs_base.specs.declared.raw_geometry.RawGeometry.{RawGeometry as AGeometry};
ghost use Rattle.image_dump.specs.Opening.{HasGeometry, HasVolume, IsFaulty};
ghost use Rattle.image_dump.specs.declared.fault.ImageFault.{ImageFault as AFault};
ghost use Rattle.image_dump.specs.declared.fault.ImageFault.TheVariants as fault;

use media_sys::one_node;

/// No image is both that of a volume and faulty; that memory was wanting says nothing of an image. It has one geometry.
pub fn never_both()
    ensures both { (image : List ℕ) (geo : AGeometry) (why : AFault) → IsBytes image → HasVolume image geo → IsFaulty image why → why ≡ fault.Memory }
    ensures geometry { (image : List ℕ) (a b : AGeometry) → IsBytes image → HasGeometry image a → HasGeometry image b → a ≡ b }
{
    one_node();
}
