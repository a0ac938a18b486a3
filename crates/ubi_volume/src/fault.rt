// The faults of a volume, and of calls over one.

ghost use Rattle.std.specs.Prelude.{◌≡◌};
ghost use Rattle.ubi_volume.specs.declared.fault.AreaFault.TheVariants.{Memory};

use std::alloc::{AllocError, AllocFailed};
use thiserror::Error;
use ubifs_base::Memory;

/// The volume failed. `count` is its count of faults at the end of the call.
#[derive(Clone, Copy, Debug, PartialEq, Eq, Error)]
pub enum VolFault {
    #[error("the volume failed, with {count} faults so far")]
    Failed { count: u64 },
}

/// Why a call over a volume gave no answer.
#[derive(Clone, Copy, Debug, PartialEq, Eq, Error)]
pub enum AreaFault {
    #[error("out of memory")]
    Memory,
    /// The volume failed. `count` is its count of faults at the end of the call.
    #[error("the volume failed, with {count} faults so far")]
    Volume { count: u64 },
}

/// Why bytes weren't loaded as a volume.
#[derive(Clone, Copy, Debug, PartialEq, Eq, Error)]
pub enum LoadFault {
    #[error("out of memory")]
    Memory,
    /// Fewer than 4,096 bytes, or no whole LEBs.
    #[error("only {len} bytes")]
    Short { len: u64 },
    /// A byte behind the volume's `most` bytes isn't 0xFF.
    #[error("{len} bytes where the volume has {most}")]
    Long { len: u64, most: u64 },
}

impl From<Memory> for LoadFault {
    ghost use Rattle.ubi_volume.specs.declared.fault.LoadFault.TheVariants.{Memory};

    ghost from_gives = { λ _ e. e ≡ Memory };

    fn from(_fault: Memory) -> LoadFault {
        LoadFault::Memory
    }
}

impl From<VolFault> for AreaFault {
    ghost use Rattle.std.specs.Prelude.{◌≡◌};
    ghost use Rattle.ubi_volume.specs.declared.fault.AreaFault.TheVariants.{Volume};
    ghost use Rattle.ubi_volume.specs.Faults.{count_of};

    ghost from_gives = { λ fault e. e ≡ Volume (count_of fault) };

    fn from(fault: VolFault) -> AreaFault {
        let VolFault::Failed { count } = fault;
        AreaFault::Volume { count }
    }
}

impl From<Memory> for AreaFault {
    ghost from_gives = { λ _ e. e ≡ Memory };

    fn from(_fault: Memory) -> AreaFault {
        AreaFault::Memory
    }
}

impl From<AllocError> for AreaFault {
    ghost from_gives = { λ _ e. e ≡ Memory };

    fn from(_fault: AllocError) -> AreaFault {
        AreaFault::Memory
    }
}

impl<T: Drop> From<AllocFailed<T>> for AreaFault {
    ghost from_gives = { λ _ e. e ≡ Memory };

    fn from(_fault: AllocFailed<T>) -> AreaFault {
        AreaFault::Memory
    }
}
