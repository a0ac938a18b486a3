// Which types of nodes there are.

/// The type of a node, as its header numbers it (`UBIFS_INO_NODE` to `UBIFS_ORPH_NODE` of ubifs-media.h): the five kinds
/// of leaves first, and then the system's nodes. An attribute is an extended entry.
#[derive(Clone, Copy, Debug, PartialEq, Eq)]
pub enum NodeType {
    Inode,
    Data,
    Entry,
    Attribute,
    Truncation,
    Padding,
    Superblock,
    Master,
    Reference,
    Index,
    CommitStart,
    Orphans,
}

impl NodeType {
    ghost use Rattle.std.specs.Prelude.{◌≡◌};
    ghost use Rattle.ubifs_base.specs.NodeType.{type_numbered};

    /// The type of this number; none from 12 on.
    pub fn of(number: u8) -> Option<NodeType>
        ensures { result ≡ type_numbered number }
    {
        match number {
            0 => Some(NodeType::Inode),
            1 => Some(NodeType::Data),
            2 => Some(NodeType::Entry),
            3 => Some(NodeType::Attribute),
            4 => Some(NodeType::Truncation),
            5 => Some(NodeType::Padding),
            6 => Some(NodeType::Superblock),
            7 => Some(NodeType::Master),
            8 => Some(NodeType::Reference),
            9 => Some(NodeType::Index),
            10 => Some(NodeType::CommitStart),
            11 => Some(NodeType::Orphans),
            _ => None,
        }
    }
}
