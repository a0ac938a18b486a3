// Files in memory.

ghost use Rattle.std.specs.Prelude.{◌≡◌, IfOk};
ghost use Rattle.io_edges.specs.Pieces.{bytes_in};

use crate::schedule::Schedule;
use crate::{KeepFault, Keeper, Pieces};
use std::alloc::Global;
use std::collections::BTreeMap;
use ubifs_base::{Bytes, Memory};

/// Files in memory, and the numbers of the calls that fail.
#[derive(Drop)]
pub struct MemKeeper {
    alloc: Global,
    files: BTreeMap<String, Bytes>,
    calls: Schedule,
}

impl MemKeeper {
    ghost use Rattle.std.specs.Prelude.{◌≡◌, List, ℕ};
    ghost use Rattle.std.specs.BTreeMap.{get_by_text};
    ghost use Rattle.io_edges.specs.MemKeeper.{content_of, calls_of};

    /// A keeper of these files. Of its calls of `read` and `write` those fail whose numbers are in `fails`, where the
    /// first call has the number 1.
    pub fn new(alloc: Global, files: BTreeMap<String, Bytes>, fails: Vec<u64>) -> MemKeeper
        ensures files { (name : List ℕ) → content_of result name ≡ get_by_text files name }
        ensures calls { calls_of result ≡ record { listed = fails.items; made = 0; failed = 0 } }
    {
        MemKeeper {
            alloc,
            files,
            calls: Schedule::new(fails),
        }
    }
}

impl Keeper for MemKeeper {
    ghost use Rattle.std.specs.Prelude.{◌≡◌, Some, None, IfOk, OnOk, OnErr, IsErrOf};
    ghost use Rattle.io_edges.specs.Counts.{TakesCall};
    ghost use Rattle.io_edges.specs.Keeper.{IsFailed, IsCounted, SameFiles, SetsFile};
    ghost use Rattle.io_edges.specs.MemKeeper.{content_of, calls_of, state_of};
    ghost use Rattle.io_edges.specs.Pieces.{bytes_in};

    ghost state = { state_of };

    fn read(&mut self, name: &str) -> Result<Vec<u8>, KeepFault>
        ensures file { IfOk result (λ bytes. content_of self.old name.now ≡ Some bytes.items) }
        ensures missing { IsErrOf result KeepFault.Missing → content_of self.old name.now ≡ None }
        ensures files { SameFiles (state_of self.old) (state_of self.new) }
        ensures counted { IsCounted (calls_of self.old).failed (calls_of self.new).failed result }
        ensures listed { TakesCall (calls_of self.old) (calls_of self.new) (IsFailed result) }
    {
        if let Some(count) = self.calls.next_call() {
            return Err(KeepFault::Failed { count });
        }
        match self.files.get(name) {
            Some(bytes) => Ok(Vec::from_slice(self.alloc, bytes.as_slice())?),
            None => Err(KeepFault::Missing),
        }
    }

    fn write(&mut self, name: &str, bytes: &[u8]) -> Result<(), KeepFault>
        ensures written { OnOk result (SetsFile (state_of self.old) name.now bytes.now (state_of self.new)) }
        ensures unwritten { OnErr result (SameFiles (state_of self.old) (state_of self.new)) }
        ensures never_missing { ¬ (IsErrOf result KeepFault.Missing) }
        ensures counted { IsCounted (calls_of self.old).failed (calls_of self.new).failed result }
        ensures listed { TakesCall (calls_of self.old) (calls_of self.new) (IsFailed result) }
    {
        if let Some(count) = self.calls.next_call() {
            return Err(KeepFault::Failed { count });
        }
        let name = String::from_str(self.alloc, name)?;
        let bytes = Bytes::from_slice(self.alloc, bytes)?;
        self.files.insert(name, bytes)?;
        Ok(())
    }

    fn write_pieces<P: Pieces>(&mut self, name: &str, pieces: &mut P) -> Result<(), KeepFault>
        ensures written { OnOk result (SetsFile (state_of self.old) name.now (bytes_in (P.pieces pieces.old)) (state_of self.new)) }
        ensures unwritten { OnErr result (SameFiles (state_of self.old) (state_of self.new)) }
        ensures never_missing { ¬ (IsErrOf result KeepFault.Missing) }
        ensures counted { IsCounted (calls_of self.old).failed (calls_of self.new).failed result }
        ensures listed { TakesCall (calls_of self.old) (calls_of self.new) (IsFailed result) }
    {
        if let Some(count) = self.calls.next_call() {
            return Err(KeepFault::Failed { count });
        }
        let file = String::from_str(self.alloc, name)?;
        let Ok(bytes) = gathered(self.alloc, pieces) else {
            return Err(KeepFault::Memory);
        };
        self.files.insert(file, Bytes::from_vec(bytes))?;
        Ok(())
    }

    fn faults(&self) -> u64 {
        self.calls.failed()
    }
}

// All bytes that are given piece by piece.
fn gathered<P: Pieces>(alloc: Global, pieces: &mut P) -> Result<Vec<u8>, Memory>
    ensures { IfOk result (λ bytes. bytes.items ≡ bytes_in (P.pieces pieces.old)) }
{
    let mut piece = vec![in alloc; 0; pieces.size() as usize]?;
    let mut bytes = Vec::new(alloc);
    let count = pieces.count();
    for number in 0..count {
        pieces.read(number, &mut piece)?;
        bytes.extend_from_slice(&piece)?;
    }
    Ok(bytes)
}
