// What a text is made of.

use crate::found::Found;

/// One item of a text: a node with what stands behind it up to the next multiple of 8, a padding node
/// (`struct ubifs_pad_node` of ubifs-media.h) with the gap of so many bytes that it announces, or a
/// word of eight padding bytes 0xCE.
#[derive(Clone, Copy, Debug, PartialEq, Eq)]
pub enum Item {
    Node { found: Found },
    Padding { found: Found, pad_len: u32 },
    Word,
}
