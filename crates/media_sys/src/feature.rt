// The features that a volume may have and this project does not know.

/// A feature of the format: another hash of names, another key format, another version of the format,
/// more than one data head, double hashed names, encryption, authentication, an unknown flag, the big
/// model of the properties tree, compressed data, and extended attributes. The first nine stand in a
/// superblock, in the order in which they are tested; the last two in leaves (ubifs-media.h).
#[derive(Clone, Copy, Debug, PartialEq, Eq)]
pub enum Feature {
    KeyHash,
    KeyFmt,
    Version,
    Heads,
    DoubleHash,
    Encryption,
    Authentication,
    Flags,
    BigModel,
    Compressed,
    Attributes,
}
