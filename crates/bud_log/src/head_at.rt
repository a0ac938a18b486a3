// Where a journal head goes on.

use ubifs_base::JournalHead;

/// A journal head goes on in a main LEB from an offset on, in bytes (`struct ubifs_ref_node` of ubifs-media.h).
#[derive(Clone, Copy, Debug, PartialEq, Eq)]
pub struct HeadAt {
    pub head: JournalHead,
    pub lnum: u32,
    pub offs: u32,
}
