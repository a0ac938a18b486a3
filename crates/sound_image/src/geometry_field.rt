// The fields of a superblock that its geometry has.

ghost use Rattle.std.specs.Prelude.{◌≡◌};
ghost use Rattle.sound_image.specs.Breaches.{super_field_of};

use media_sys::SuperField;
use ubifs_base::GeomField;

/// The field of a superblock that is a field of its geometry.
pub fn super_field(field: GeomField) -> SuperField
    ensures { result ≡ super_field_of field }
{
    match field {
        GeomField::LebSize => SuperField::LebSize,
        GeomField::MinIo => SuperField::MinIo,
        GeomField::LogLebs => SuperField::LogLebs,
        GeomField::LptLebs => SuperField::LptLebs,
        GeomField::OrphLebs => SuperField::OrphLebs,
        GeomField::LebCnt => SuperField::LebCnt,
        GeomField::MaxLebCnt => SuperField::MaxLebCnt,
        GeomField::Fanout => SuperField::Fanout,
        GeomField::LsaveCnt => SuperField::LsaveCnt,
    }
}
