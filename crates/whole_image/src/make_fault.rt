// Why no image was made.

use thiserror::Error;
use ubi_volume::{AreaFault, VolFault};
use ubifs_base::Memory;

/// Why no image of a tree was made.
#[derive(Clone, Copy, Debug, PartialEq, Eq, Error)]
pub enum MakeFault {
    #[error("out of memory")]
    Memory,
    /// The highest inode number isn't above those that are reserved, up to 64.
    #[error("the highest inode number is {highest}")]
    Unreserved { highest: u32 },
    /// So many inodes have lost their last name.
    #[error("{count} inodes have no name")]
    Nameless { count: u64 },
    /// An inode's flags say that it is an attribute's.
    #[error("an inode is an attribute's")]
    Attribute,
    /// The leaf nodes take `need` bytes, where `room` bytes of the main LEBs are for leaves.
    #[error("{need} bytes of leaves where {room} have room")]
    Full { need: u64, room: u64 },
    /// The index takes `need` LEBs, where `room` main LEBs are left behind the leaves, and one that stays empty.
    #[error("{need} LEBs of an index where {room} are left")]
    Crowded { need: u64, room: u64 },
}

impl From<Memory> for MakeFault {
    ghost use Rattle.std.specs.Prelude.{◌≡◌};
    ghost use Rattle.whole_image.specs.declared.make_fault.MakeFault.TheVariants.{Memory};

    ghost from_gives = { λ _ e. e ≡ Memory };

    fn from(_fault: Memory) -> MakeFault {
        MakeFault::Memory
    }
}

// A volume in memory on which nothing is armed doesn't fail.
impl From<AreaFault> for MakeFault {
    ghost use Rattle.std.specs.Prelude.{◌≡◌};
    ghost use Rattle.whole_image.specs.declared.make_fault.MakeFault.TheVariants.{Memory};

    ghost from_gives = { λ _ e. e ≡ Memory };

    fn from(_fault: AreaFault) -> MakeFault {
        MakeFault::Memory
    }
}

// The same of a call that takes no memory.
impl From<VolFault> for MakeFault {
    ghost use Rattle.std.specs.Prelude.{◌≡◌};
    ghost use Rattle.whole_image.specs.declared.make_fault.MakeFault.TheVariants.{Memory};

    ghost from_gives = { λ _ e. e ≡ Memory };

    fn from(_fault: VolFault) -> MakeFault {
        MakeFault::Memory
    }
}
