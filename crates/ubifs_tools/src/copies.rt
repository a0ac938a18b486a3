// The files that a manifest copies, as they are read.

ghost use Rattle.std.specs.Prelude.{IfOk};
ghost use Rattle.ubifs_tools.specs.Copies.{AreReadCopies, FilesStay, IsReadCopy};

use io_edges::{KeepFault, Keeper};
use manifest_tree::CopiedFile;
use std::alloc::Global;
use text_lines::line_of_two;
use ubifs_base::{Bytes, Memory};

/// The bytes of the files, or the line that names the first one that wasn't read.
#[derive(Drop)]
pub(crate) enum Copies {
    Read { files: Vec<Bytes> },
    Unread { line: Vec<u8> },
}

// The bytes of a file, or the line that names it.
#[derive(Drop)]
pub(crate) enum Copy {
    Read { bytes: Bytes },
    Unread { line: Vec<u8> },
}

/// Reads the files that a manifest copies, in order, up to one that isn't read. Want of memory is also told of a name that
/// isn't UTF-8, which no manifest has.
pub(crate) fn read_copies<K: Keeper>(
    alloc: Global,
    copied: &[CopiedFile],
    keeper: &mut K,
) -> Result<Copies, Memory>
    ensures stay { FilesStay (K.state keeper.old) (K.state keeper.new) }
    ensures read { IfOk result (AreReadCopies (K.state keeper.old) (K.state keeper.new) copied.now) }
{
    let mut files = Vec::new(alloc);
    let mut left = copied;
    'reading: while let Some((file, more)) = left.split_first() {
        match read_copy(alloc, file.name.as_slice(), keeper)? {
            Copy::Unread { line } => return Ok(Copies::Unread { line }),
            Copy::Read { bytes } => files.push(bytes)?,
        }
        left = more;
    }
    Ok(Copies::Read { files })
}

// Reads one of them.
fn read_copy<K: Keeper>(alloc: Global, name: &[u8], keeper: &mut K) -> Result<Copy, Memory>
    ensures stay { FilesStay (K.state keeper.old) (K.state keeper.new) }
    ensures read { IfOk result (IsReadCopy (K.state keeper.old) (K.state keeper.new) name.now) }
{
    let Ok(file) = str::from_utf8(name) else {
        return Err(Memory);
    };
    match keeper.read(file) {
        Ok(bytes) => Ok(Copy::Read {
            bytes: Bytes::from_vec(bytes),
        }),
        Err(KeepFault::Memory) => Err(Memory),
        Err(_) => {
            let line = line_of_two(alloc, b"file".as_slice(), name)?;
            Ok(Copy::Unread { line })
        }
    }
}
