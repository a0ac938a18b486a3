// The files that a manifest copies.

use crate::lines::{Told, unread};
use io_edges::{KeepFault, Keeper};
use manifest_tree::CopiedFile;
use std::alloc::Global;
use ubifs_base::{Bytes, Memory};

/// The bytes of the files, or the line that names the first one that wasn't read.
#[derive(Drop)]
pub(crate) enum Copies {
    Read { files: Vec<Bytes> },
    Unread { told: Told },
}

/// Reads the files that a manifest copies, in order, up to one that isn't read.
pub(crate) fn read_copies<K: Keeper>(
    alloc: Global,
    copied: &[CopiedFile],
    keeper: &mut K,
) -> Result<Copies, Memory> {
    let mut files = Vec::new(alloc);
    for file in copied {
        let Ok(name) = str::from_utf8(file.name.as_slice()) else {
            return Err(Memory);
        };
        match keeper.read(name) {
            Ok(bytes) => files.push(Bytes::from_vec(bytes))?,
            Err(KeepFault::Memory) => return Err(Memory),
            Err(_) => {
                let told = unread(alloc, name)?;
                return Ok(Copies::Unread { told });
            }
        }
    }
    Ok(Copies::Read { files })
}
