// What is wrong with an image.

ghost use Rattle.image_dump.specs.declared.fault.ImageFault.TheVariants as fault;

use media_sys::{Feature, SuperField};
use thiserror::Error;
use ubifs_base::Memory;

/// Why an image isn't that of a volume: the first of these that applies, in the order in which it is read. Places are a LEB and an
/// offset in bytes.
#[derive(Clone, Copy, Debug, PartialEq, Eq, Error)]
pub enum ImageFault {
    #[error("out of memory")]
    Memory,
    /// Fewer than 4,096 bytes, or no whole LEBs.
    #[error("only {len} bytes")]
    Short { len: u64 },
    /// LEB 0 doesn't begin with a superblock node, or a field of its geometry is out of its range.
    #[error("a bad superblock")]
    Super { field: SuperField },
    /// The superblock needs a feature that isn't known here.
    #[error("an unknown feature at {lnum}, {offs}")]
    Feature { what: Feature, lnum: u32, offs: u32 },
    /// A byte behind the volume's `most` bytes isn't 0xFF.
    #[error("{len} bytes where the volume has {most}")]
    Long { len: u64, most: u64 },
}

impl From<Memory> for ImageFault {
    ghost use Rattle.std.specs.Prelude.{◌≡◌};
    ghost use Rattle.image_dump.specs.declared.fault.ImageFault.TheVariants as fault;

    ghost from_gives = { λ _ e. e ≡ fault.Memory };

    fn from(_fault: Memory) -> ImageFault {
        ImageFault::Memory
    }
}
