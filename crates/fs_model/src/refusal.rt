// Reasons to refuse an operation.

ghost use Rattle.std.specs.Prelude.{◌≡◌};

use crate::StoreFault;
use std::alloc::AllocError;
use ubifs_base::Memory as NoMemory;

/// Why an operation is refused, by the names of errno(3).
#[derive(Clone, Copy, Debug, PartialEq, Eq)]
pub enum Refusal {
    Enoent,
    Eexist,
    Enotdir,
    Eisdir,
    Enotempty,
    Enospc { space: NoSpace },
    Erofs { cause: Cause },
    Eio { count: u64 },
    Enomem,
    Efbig,
    Enametoolong,
    Einval,
    Emlink,
    Enfile { what: Table, limit: u64 },
    Ebadf,
}

/// The two sides of the admission test where it failed, in bytes: what is needed, and the room that there is.
#[derive(Clone, Copy, Debug, PartialEq, Eq)]
pub struct NoSpace {
    pub need: u64,
    pub room: u64,
}

/// The table that is full: the next list of orphans, or the inode numbers.
#[derive(Clone, Copy, Debug, PartialEq, Eq)]
pub enum Table {
    Orphans,
    Inodes,
}

/// Why a store is read-only: it has too little room to be written, the volume failed, or a number is used up.
#[derive(Clone, Copy, Debug, PartialEq, Eq)]
pub enum Cause {
    Tight { what: Scarce, need: u64, room: u64 },
    Faulted { count: u64 },
    Spent { sqnum: u64, cmt_no: u64 },
}

/// What there is too little of.
#[derive(Clone, Copy, Debug, PartialEq, Eq)]
pub enum Scarce {
    Space,
    Empty,
    Index,
    Area,
}

impl From<StoreFault> for Refusal {
    ghost use Rattle.fs_model.specs.CallFaults.{refusal_of};

    ghost from_gives = { λ fault e. e ≡ refusal_of fault };

    fn from(fault: StoreFault) -> Refusal {
        match fault {
            StoreFault::Memory => Refusal::Enomem,
            StoreFault::Volume { count } => Refusal::Eio { count },
            StoreFault::ReadOnly { cause } => Refusal::Erofs { cause },
        }
    }
}

impl From<NoMemory> for Refusal {
    ghost use Rattle.fs_model.specs.declared.refusal.Refusal.TheVariants.{Enomem};

    ghost from_gives = { λ _ e. e ≡ Enomem };

    fn from(_fault: NoMemory) -> Refusal {
        Refusal::Enomem
    }
}

impl From<AllocError> for Refusal {
    ghost use Rattle.fs_model.specs.declared.refusal.Refusal.TheVariants.{Enomem};

    ghost from_gives = { λ _ e. e ≡ Enomem };

    fn from(_fault: AllocError) -> Refusal {
        Refusal::Enomem
    }
}
