// A byte of a LEB that is written.

/// The offset of a byte in its LEB, and the byte.
#[derive(Clone, Copy, Debug, PartialEq, Eq)]
pub(crate) struct WrittenByte {
    pub offs: u32,
    pub byte: u8,
}
