// A LEB that the log names.

use ubifs_base::{Bytes, JournalHead};

/// A LEB that the log names for a head: all its bytes, and the offset from which on they are the journal's.
#[derive(Debug, Drop)]
pub struct BudText {
    pub head: JournalHead,
    pub lnum: u32,
    pub from: u32,
    pub bytes: Bytes,
}
