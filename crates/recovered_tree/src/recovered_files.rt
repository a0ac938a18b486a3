// The files of a sound image.

use plain_backing::Tree;
use sound_check::ImageRead;

/// The files of a sound image, and all that was read of it before.
#[derive(Drop)]
pub struct RecoveredFiles {
    pub read: ImageRead,
    pub tree: Tree,
}
