// A leaf of the index, and its place in the order.

use ubifs_base::Key;

/// An entry of the index: a key, and where its node stands.
/// `lnum` is the number of the LEB, `offs` and `len` are bytes (`struct ubifs_zbranch` of Linux).
#[derive(Clone, Copy, Debug, PartialEq, Eq)]
pub struct Leaf {
    pub key: Key,
    pub lnum: u32,
    pub offs: u32,
    pub len: u32,
}
