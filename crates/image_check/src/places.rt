// What stands at a place of a LEB.

ghost use Rattle.std.specs.Prelude.{◌≡◌, get_or};
ghost use Rattle.ubifs_base.specs.NodeType.{type_number};
ghost use Rattle.sound_image.specs.Wrong.{type_byte};
ghost use Rattle.image_check.specs.Firsts.{is_orphan_or_padding};

use ubifs_base::NodeType;

/// The number of a type, as a header has it (`UBIFS_INO_NODE` to `UBIFS_ORPH_NODE` of ubifs-media.h).
pub fn type_number(kind: NodeType) -> u8
    ensures { result ≡ type_number kind }
{
    match kind {
        NodeType::Inode => 0,
        NodeType::Data => 1,
        NodeType::Entry => 2,
        NodeType::Attribute => 3,
        NodeType::Truncation => 4,
        NodeType::Padding => 5,
        NodeType::Superblock => 6,
        NodeType::Master => 7,
        NodeType::Reference => 8,
        NodeType::Index => 9,
        NodeType::CommitStart => 10,
        NodeType::Orphans => 11,
    }
}

// Whether a node of this type may stand in the orphan area.
pub(crate) fn is_orphan_or_padding(kind: NodeType) -> bool
    ensures { result ≡ is_orphan_or_padding kind }
{
    match kind {
        NodeType::Orphans => true,
        NodeType::Padding => true,
        _ => false,
    }
}

// The byte at this offset; 255 behind the end.
pub(crate) fn byte_at(leb: &[u8], offs: usize) -> u8
    ensures { result ≡ get_or leb.now offs 255 }
{
    if offs < leb.len() {
        return leb[offs];
    }
    255
}

/// The byte that stands for the type of a node at an offset of a LEB; 255 if the LEB is too short (`struct ubifs_ch` of
/// ubifs-media.h).
pub fn type_byte(leb: &[u8], place: u32) -> u8
    ensures { result ≡ type_byte leb.now place }
{
    byte_at(leb, place as usize + 20)
}
