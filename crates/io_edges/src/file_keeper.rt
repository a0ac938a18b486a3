// Files of the host.

use crate::{KeepFault, Keeper, Pieces};
use std::alloc::{AllocError, Global};
use std::fs::{self, OpenFile};
use std::io::{self, ErrorKind, Read, Write};
use std::rt::Files;
use ubifs_base::Memory;

/// Files of the host, by path. A file that is missing counts as a fault, since the keeper tells nothing of its files,
/// and so does one that isn't read to its end in 2^64 pieces.
#[derive(Drop)]
pub struct FileKeeper<R> {
    alloc: Global,
    host: R,
    faults: u64,
}

// Why a file was not read, or not written piece by piece.
#[derive(Drop)]
enum FileFault {
    Host,
    Memory,
}

impl From<AllocError> for FileFault {
    ghost use Rattle.std.specs.Prelude.{◌≡◌};
    ghost use Rattle.io_edges.specs.declared.file_keeper.FileFault.TheVariants.{Memory};

    ghost from_gives = { λ _ e. e ≡ Memory };

    fn from(_error: AllocError) -> FileFault {
        FileFault::Memory
    }
}

impl From<Memory> for FileFault {
    ghost use Rattle.std.specs.Prelude.{◌≡◌};
    ghost use Rattle.io_edges.specs.declared.file_keeper.FileFault.TheVariants.{Memory};

    ghost from_gives = { λ _ e. e ≡ Memory };

    fn from(_fault: Memory) -> FileFault {
        FileFault::Memory
    }
}

impl From<io::Error> for FileFault {
    fn from(error: io::Error) -> FileFault {
        match error.kind() {
            ErrorKind::OutOfMemory => FileFault::Memory,
            _ => FileFault::Host,
        }
    }
}

// Reads a whole file. A first read asks for as many bytes as the host says that it has and for one more, and mostly gets them all; what is
// behind them is read piece by piece.
fn read_file<R: Files>(alloc: Global, host: &R, name: &str) -> Result<Vec<u8>, FileFault> {
    let mut file = fs::open(host, name)?;
    let len = file.metadata()?.len() as usize;
    let mut bytes = vec![in alloc; 0; len.saturating_add(1)]?;
    let read = read_once(&mut file, &mut bytes)?;
    bytes.truncate(read);
    file.read_to_end(&mut bytes)?;
    Ok(bytes)
}

// Reads once, and nothing if that is interrupted.
fn read_once<F: Read>(file: &mut F, bytes: &mut [u8]) -> io::Result<usize> {
    match file.read(bytes) {
        Ok(read) => Ok(read),
        Err(error) => match error.kind() {
            ErrorKind::Interrupted => Ok(0),
            _ => Err(error),
        },
    }
}

// Writes a whole file piece by piece. The room for a piece is there before the file is made.
fn write_file<R: Files, P: Pieces>(
    alloc: Global,
    host: &R,
    name: &str,
    pieces: &mut P,
) -> Result<(), FileFault> {
    let mut piece = vec![in alloc; 0; pieces.size() as usize]?;
    let mut file = fs::create(host, name)?;
    let count = pieces.count();
    for number in 0..count {
        pieces.read(number, &mut piece)?;
        file.write_all(&piece)?;
    }
    Ok(())
}

impl<R> FileKeeper<R> {
    ghost use Rattle.std.specs.Prelude.{◌≡◌};
    ghost use Rattle.io_edges.specs.Host.{keeper_faults};

    /// A keeper of the host's files.
    pub fn new(alloc: Global, host: R) -> FileKeeper<R>
        ensures { keeper_faults result ≡ 0 }
    {
        FileKeeper {
            alloc,
            host,
            faults: 0,
        }
    }
}

impl<R: Files> Keeper for FileKeeper<R> {
    ghost use Rattle.std.specs.Prelude.{false, None};
    ghost use Rattle.io_edges.specs.Host.{keeper_faults};

    ghost state = { λ keeper. record { tells = false; content = λ _. None; faults = keeper_faults keeper } };

    fn read(&mut self, name: &str) -> Result<Vec<u8>, KeepFault> {
        match read_file(self.alloc, &self.host, name) {
            Ok(bytes) => Ok(bytes),
            Err(FileFault::Memory) => Err(KeepFault::Memory),
            Err(FileFault::Host) => {
                self.faults = self.faults.saturating_add(1);
                Err(KeepFault::Failed { count: self.faults })
            }
        }
    }

    fn write(&mut self, name: &str, bytes: &[u8]) -> Result<(), KeepFault> {
        if fs::write(&self.host, name, bytes).is_ok() {
            return Ok(());
        }
        self.faults = self.faults.saturating_add(1);
        Err(KeepFault::Failed { count: self.faults })
    }

    fn write_pieces<P: Pieces>(&mut self, name: &str, pieces: &mut P) -> Result<(), KeepFault> {
        match write_file(self.alloc, &self.host, name, pieces) {
            Ok(()) => Ok(()),
            Err(FileFault::Memory) => Err(KeepFault::Memory),
            Err(FileFault::Host) => {
                self.faults = self.faults.saturating_add(1);
                Err(KeepFault::Failed { count: self.faults })
            }
        }
    }

    fn faults(&self) -> u64 {
        self.faults
    }
}
