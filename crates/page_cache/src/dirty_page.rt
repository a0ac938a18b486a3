// A page that was written and isn't on the medium yet.

use ubifs_base::Bytes;

/// The bytes of a dirty page, and the number of the call that wrote them.
#[derive(Debug, Drop)]
pub struct DirtyPage {
    pub bytes: Bytes,
    pub version: u64,
}
