// Files are written: into dirty pages, with the inode beside them.

ghost use Rattle.std.specs.Prelude.{◌≡◌, ◌+◌, ◌*◌, ◌^◌, ◌<◌, ◌≤◌, IsTrue, IfOk, OnOk, OnErr, Some, is_some, length, if◌then◌else◌};
ghost use Rattle.std.specs.BTreeMap.{insert_entry};
ghost use Rattle.std.specs.Map.{keys_of};
ghost use Rattle.std.specs.Ordering.{nat_cmp};
ghost use Rattle.fs_model.specs.declared.inode.Kind.TheVariants.{File};
ghost use Rattle.fs_model.specs.Backing.{Goes, HasCause, IsNotReadOnly, Reads};
ghost use Rattle.fs_model.specs.Files.{inode_at, size_of};
ghost use Rattle.fs_model.specs.Handles.{tree_written};
ghost use Rattle.fs_model.specs.Making.{touched};
ghost use Rattle.fs_model.specs.Proper.{ascends};
ghost use Rattle.page_cache.specs.Pages.{dirty_at, with_all_dirty, new_pages, old_pages, IsTakenBack};
ghost use Rattle.buffered_files.specs.Calls.{SureGoes};
ghost use Rattle.buffered_files.specs.Present.{IsKept, newly_dirty, present};

use crate::kept::Kept;
use crate::written_pages::written_pages;
use fs_model::{BLOCK_SIZE, Backing, Inode, StoreFault};
use std::alloc::Global;
use ubifs_base::{Bytes, Memory};

/// How many of the pages that n bytes from a place of a file on touch aren't dirty: as many credits does a write take.
/// Takes no memory.
pub fn newly(kept: &Kept, ino: u32, offs: u64, n: u32) -> u64
    requires some { 0 < n }
    requires range { offs + n ≤ 2 ^ 41 }
    ensures { result ≡ newly_dirty kept.now.pages.dirty ino offs n }
{
    let first = (offs / BLOCK_SIZE) as u32;
    let last = ((offs + n as u64 - 1) / BLOCK_SIZE) as u32;
    let mut count = 0;
    for page in first..last + 1 {
        count += newly_one(kept, ino, page);
    }
    count
}

// 1 where a page isn't dirty, and else 0.
fn newly_one(kept: &Kept, ino: u32, page: u32) -> u64
    ensures one { result ≡ (if is_some (dirty_at kept.now.pages ino page) then 0 else 1) }
    ensures few { result ≤ 1 }
{
    match kept.pages.dirty_page(ino, page) {
        Some(_) => 0,
        None => 1,
    }
}

/// Writes n copies of a byte from a place of a file on, of which this is the inode and the size, at this moment (pwrite(2)).
/// The pages that they touch are dirty then, and nothing is put. After a fault callers see the files as before, and the
/// same pages are dirty.
pub fn write<B: Backing>(
    alloc: Global,
    backing: &mut B,
    kept: &mut Kept,
    ino: u32,
    inode: Inode,
    size: u64,
    offs: u64,
    n: u32,
    byte: u8,
    now: u64,
) -> Result<(), StoreFault>
    requires kept { IsKept (B.state backing.old).tree kept.old }
    requires paid { length kept.old.pages.dirty + newly_dirty kept.old.pages.dirty ino offs n ≤ (B.state backing.old).space.credits }
    requires present { inode_at (present (B.state backing.old).tree kept.old).tree ino ≡ Some inode }
    requires file { inode.kind ≡ File }
    requires size { size ≡ size_of (present (B.state backing.old).tree kept.old).tree ino inode }
    requires some { 0 < n }
    requires range { offs + n ≤ 2 ^ 41 }
    ensures kept { IsKept (B.state backing.new).tree kept.new }
    ensures paid { length kept.new.pages.dirty ≤ (B.state backing.new).space.credits }
    ensures written { OnOk result (present (B.state backing.new).tree kept.new
        ≡ record (present (B.state backing.old).tree kept.old) { tree = tree_written (present (B.state backing.old).tree kept.old).tree ino inode now offs n byte }) }
    ensures count { OnOk result (length kept.new.pages.dirty ≡ length kept.old.pages.dirty + newly_dirty kept.old.pages.dirty ino offs n) }
    ensures err { OnErr result (present (B.state backing.new).tree kept.new ≡ present (B.state backing.old).tree kept.old) }
    ensures dirty { OnErr result (kept.new.pages.dirty ≡ kept.old.pages.dirty) }
    ensures reads { Reads (B.state backing.old) (B.state backing.new) }
    ensures goes { Goes 0 (B.state backing.old) (B.state backing.new) }
    ensures cause { HasCause (B.state backing.old) (B.state backing.new) result }
    ensures mode { IsNotReadOnly result }
    ensures sure { SureGoes (B.outlook backing.old) (B.outlook backing.new) (B.state backing.old) (B.state backing.new) }
{
    // Its proof knows from this that no page is dirty twice.
    let _dirty = kept.pages.dirty();
    let pages = written_pages(alloc, backing, kept, ino, offs, n, byte)?;
    let inode = written_inode(inode, size.max(offs + n as u64), now);
    keep(alloc, kept, ino, inode, pages)?;
    Ok(())
}

// An inode of this size that was changed at this moment.
fn written_inode(inode: Inode, size: u64, now: u64) -> Inode
    ensures { result ≡ touched now (record inode { size = size }) }
{
    let mut new = inode;
    new.size = size;
    new.mtime = now;
    new.ctime = now;
    new
}

// Keeps an inode and its pages, both or neither.
fn keep(
    alloc: Global,
    kept: &mut Kept,
    ino: u32,
    inode: Inode,
    pages: Vec<(u32, Bytes)>,
) -> Result<(), Memory>
    requires { IsTrue (ascends nat_cmp (keys_of kept.old.inodes)) }
    ensures inodes { OnOk result (kept.new.inodes ≡ insert_entry nat_cmp kept.old.inodes ino inode) }
    ensures pages { OnOk result (kept.new.pages ≡ with_all_dirty (with_all_dirty kept.old.pages ino (new_pages kept.old.pages ino pages.items)) ino (old_pages kept.old.pages ino pages.items)) }
    ensures handles { kept.new.handles ≡ kept.old.handles }
    ensures err { OnErr result (kept.new.inodes ≡ kept.old.inodes) }
    ensures taken { OnErr result (IsTakenBack kept.old.pages kept.new.pages ino pages.items) }
{
    let old = kept.inodes.insert(ino, inode)?;
    match kept.pages.put_all(alloc, ino, pages) {
        Ok(()) => Ok(()),
        Err(fault) => {
            kept.inodes.restore(ino, old);
            Err(fault)
        }
    }
}
