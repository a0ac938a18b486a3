// What the calls of a backing answer.

ghost use Rattle.std.specs.Prelude.{◌≡◌};

use crate::Cause;
use std::alloc::AllocError;
use thiserror::Error;
use ubifs_base::Memory as NoMemory;

/// Whether a backing can be written, or why not.
#[derive(Clone, Copy, Debug, PartialEq, Eq)]
pub enum Mode {
    ReadWrite,
    ReadOnly { cause: Cause },
}

/// Why a call of a backing wasn't done.
#[derive(Clone, Copy, Debug, PartialEq, Eq, Error)]
pub enum StoreFault {
    #[error("out of memory")]
    Memory,
    /// The volume failed. `count` is its count of faults at the end of the call.
    #[error("the volume failed, with {count} faults so far")]
    Volume { count: u64 },
    #[error("the store is read-only")]
    ReadOnly { cause: Cause },
}

/// What a pass of collection gained: an empty LEB, or nothing since no LEB has enough that is obsolete.
#[derive(Clone, Copy, Debug, PartialEq, Eq)]
pub enum Collected {
    Gained { lnum: u32 },
    Nothing,
}

/// Whether a commit started, or one runs already.
#[derive(Clone, Copy, Debug, PartialEq, Eq)]
pub enum Started {
    Began,
    Running { cmt_no: u64 },
}

/// How many LEBs of the index a commit still has to write, none, or that no commit runs.
#[derive(Clone, Copy, Debug, PartialEq, Eq)]
pub enum Stepped {
    More { left: u64 },
    Ready,
    Idle,
}

/// The commit that ended, how many LEBs of the index it still has to write first, or that no commit runs.
#[derive(Clone, Copy, Debug, PartialEq, Eq)]
pub enum Ended {
    Done { cmt_no: u64 },
    NotReady { left: u64 },
    Idle,
}

impl From<NoMemory> for StoreFault {
    ghost use Rattle.fs_model.specs.declared.backing_answers.StoreFault.TheVariants.{Memory};

    ghost from_gives = { λ _ e. e ≡ Memory };

    fn from(_fault: NoMemory) -> StoreFault {
        StoreFault::Memory
    }
}

impl From<AllocError> for StoreFault {
    ghost use Rattle.fs_model.specs.declared.backing_answers.StoreFault.TheVariants.{Memory};

    ghost from_gives = { λ _ e. e ≡ Memory };

    fn from(_fault: AllocError) -> StoreFault {
        StoreFault::Memory
    }
}
