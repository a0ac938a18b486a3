// Why an index wasn't written.

ghost use Rattle.std.specs.Prelude.{◌≡◌};

use std::alloc::{AllocError, AllocFailed};
use thiserror::Error;
use ubi_volume::{AreaFault, VolFault};
use ubifs_base::Memory;

/// Why an index wasn't written.
#[derive(Clone, Copy, Debug, PartialEq, Eq, Error)]
pub enum IndexFault {
    #[error("out of memory")]
    Memory,
    /// The dirty nodes take `need` LEBs, of which `given` are there.
    #[error("{need} LEBs are needed for the index, and {given} are there")]
    Full { need: u64, given: u64 },
    /// Two branches of a node have one key that isn't an entry's, so no index node says them.
    #[error("two branches of an index node have one key")]
    EqualKeys,
    /// The volume failed. `count` is its count of faults at the end of the call.
    #[error("the volume failed, with {count} faults so far")]
    Volume { count: u64 },
}

impl From<VolFault> for IndexFault {
    ghost use Rattle.std.specs.Prelude.{◌≡◌};
    ghost use Rattle.index_commit.specs.declared.index_fault.IndexFault.TheVariants.{Volume};
    ghost use Rattle.ubi_volume.specs.Faults.{count_of};

    ghost from_gives = { λ fault e. e ≡ Volume (count_of fault) };

    fn from(fault: VolFault) -> IndexFault {
        let VolFault::Failed { count } = fault;
        IndexFault::Volume { count }
    }
}

impl From<Memory> for IndexFault {
    ghost use Rattle.index_commit.specs.declared.index_fault.IndexFault.TheVariants.{Memory};

    ghost from_gives = { λ _ e. e ≡ Memory };

    fn from(_fault: Memory) -> IndexFault {
        IndexFault::Memory
    }
}

impl<T: Drop> From<AllocFailed<T>> for IndexFault {
    ghost use Rattle.index_commit.specs.declared.index_fault.IndexFault.TheVariants.{Memory};

    ghost from_gives = { λ _ e. e ≡ Memory };

    fn from(_fault: AllocFailed<T>) -> IndexFault {
        IndexFault::Memory
    }
}

impl From<AllocError> for IndexFault {
    ghost use Rattle.index_commit.specs.declared.index_fault.IndexFault.TheVariants.{Memory};

    ghost from_gives = { λ _ e. e ≡ Memory };

    fn from(_fault: AllocError) -> IndexFault {
        IndexFault::Memory
    }
}

impl From<AreaFault> for IndexFault {
    ghost use Rattle.std.specs.Prelude.{◌≡◌};
    ghost use Rattle.index_commit.specs.Answers.{index_fault};

    ghost from_gives = { λ fault e. e ≡ index_fault fault };

    fn from(fault: AreaFault) -> IndexFault {
        match fault {
            AreaFault::Memory => IndexFault::Memory,
            AreaFault::Volume { count } => IndexFault::Volume { count },
        }
    }
}
