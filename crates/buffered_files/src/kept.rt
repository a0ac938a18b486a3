// What is kept in memory in front of a backing.

ghost use Rattle.std.specs.Prelude.{◌≡◌, ◌<◌, [], IfOk};

use crate::dirty_inodes::DirtyInodes;
use crate::handles::Handles;
use page_cache::Cache;
use std::alloc::Global;
use ubifs_base::Memory;

/// Pages of files, the inodes of the files that have dirty ones, and the open files.
#[derive(Drop)]
pub struct Kept {
    pub pages: Cache,
    pub inodes: DirtyInodes,
    pub handles: Handles,
}

impl Kept {
    /// Nothing, with room for so many clean pages.
    pub fn new(alloc: Global, clean: u32) -> Result<Kept, Memory>
        requires { 0 < clean }
        ensures pages { IfOk result (λ kept. kept.pages ≡ record { dirty = []; clean = []; most = clean; calls = 0 }) }
        ensures inodes { IfOk result (λ kept. kept.inodes ≡ []) }
        ensures handles { IfOk result (λ kept. kept.handles ≡ []) }
    {
        Ok(Kept {
            pages: Cache::new(alloc, clean)?,
            inodes: DirtyInodes::new(alloc),
            handles: Handles::new(alloc),
        })
    }
}
