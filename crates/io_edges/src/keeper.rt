// Files by name.

ghost use Rattle.std.specs.Prelude.{◌≡◌, Some, None, IsTrue, IfOk, OnOk, OnErr, IsErrOf};
ghost use Rattle.io_edges.specs.Keeper.{KeeperState, SameFiles, SetsFile, IsCounted};
ghost use Rattle.io_edges.specs.Pieces.{bytes_in};
ghost use Rattle.io_edges.specs.declared.keeper.KeepFault.TheVariants.{Memory};

use crate::Pieces;
use std::alloc::{AllocError, AllocFailed};
use thiserror::Error;

/// Why a call of a [`Keeper`] gave no answer.
#[derive(Clone, Copy, Debug, PartialEq, Eq, Error)]
pub enum KeepFault {
    /// The keeper failed. `count` is its count of faults at the end of the call.
    #[error("the files failed, with {count} faults so far")]
    Failed { count: u64 },
    /// The keeper tells which files it has, and has none of this name.
    #[error("there is no such file")]
    Missing,
    #[error("out of memory")]
    Memory,
}

impl From<AllocError> for KeepFault {
    ghost from_gives = { λ _ e. e ≡ Memory };

    fn from(_error: AllocError) -> KeepFault {
        KeepFault::Memory
    }
}

impl<T: Drop> From<AllocFailed<T>> for KeepFault {
    ghost from_gives = { λ _ e. e ≡ Memory };

    fn from(_error: AllocFailed<T>) -> KeepFault {
        KeepFault::Memory
    }
}

/// Named byte files.
pub trait Keeper {
    /// What there is to say of the keeper now.
    ghost state: { Self → KeeperState };

    /// Reads a whole file.
    fn read(&mut self, name: &str) -> Result<Vec<u8>, KeepFault>
        ensures file { IfOk result (λ bytes. IsTrue (state self.old).tells → (state self.old).content name.now ≡ Some bytes.items) }
        ensures missing { IsErrOf result KeepFault.Missing → IsTrue (state self.old).tells × ((state self.old).content name.now ≡ None) }
        ensures files { SameFiles (state self.old) (state self.new) }
        ensures telling { (state self.new).tells ≡ (state self.old).tells }
        ensures counted { IsCounted (state self.old).faults (state self.new).faults result };

    /// Makes a file, or replaces one as a whole.
    fn write(&mut self, name: &str, bytes: &[u8]) -> Result<(), KeepFault>
        ensures written { OnOk result (IsTrue (state self.old).tells → SetsFile (state self.old) name.now bytes.now (state self.new)) }
        ensures unwritten { OnErr result (SameFiles (state self.old) (state self.new)) }
        ensures never_missing { ¬ (IsErrOf result KeepFault.Missing) }
        ensures telling { (state self.new).tells ≡ (state self.old).tells }
        ensures counted { IsCounted (state self.old).faults (state self.new).faults result };

    /// Makes a file of all bytes that are given piece by piece, or replaces one as a whole.
    fn write_pieces<P: Pieces>(&mut self, name: &str, pieces: &mut P) -> Result<(), KeepFault>
        ensures written { OnOk result (IsTrue (state self.old).tells → SetsFile (state self.old) name.now (bytes_in (P.pieces pieces.old)) (state self.new)) }
        ensures unwritten { OnErr result (SameFiles (state self.old) (state self.new)) }
        ensures never_missing { ¬ (IsErrOf result KeepFault.Missing) }
        ensures telling { (state self.new).tells ≡ (state self.old).tells }
        ensures counted { IsCounted (state self.old).faults (state self.new).faults result };

    /// How many calls have failed.
    fn faults(&self) -> u64
        ensures { result ≡ (state self.now).faults };
}
