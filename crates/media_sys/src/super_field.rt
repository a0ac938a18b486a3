// The fields of a superblock that a check may name.

/// What of a superblock a check refuses: a field of its geometry, or the node itself, where LEB 0
/// does not begin with an intact superblock node.
#[derive(Clone, Copy, Debug, PartialEq, Eq)]
pub enum SuperField {
    LebSize,
    MinIo,
    LogLebs,
    LptLebs,
    OrphLebs,
    LebCnt,
    MaxLebCnt,
    Fanout,
    LsaveCnt,
    Node,
}
