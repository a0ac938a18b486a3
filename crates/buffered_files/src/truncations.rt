// A file's size is set.

ghost use Rattle.std.specs.Prelude.{◌≡◌, ◌+◌, ◌≤◌, Some, IfOk, OnOk, OnErr, length};
ghost use Rattle.fs_model.specs.declared.inode.Kind.TheVariants.{File};
ghost use Rattle.fs_model.specs.declared.space.Grant.{Grant};
ghost use Rattle.fs_model.specs.Backing.{FitsGroup, Goes, HasCause, IsNotReadOnly, KeepsFiles, Reads};
ghost use Rattle.fs_model.specs.Change.{apply};
ghost use Rattle.fs_model.specs.Files.{block_at, inode_at, size_of};
ghost use Rattle.fs_model.specs.Handles.{size_limit};
ghost use Rattle.fs_model.specs.Truncation.{truncating};
ghost use Rattle.buffered_files.specs.Calls.{GrowsBy, SureGoes, TellsMode, added_or_failed};
ghost use Rattle.buffered_files.specs.Cuts.{PutsSeenWith, put_fate};
ghost use Rattle.buffered_files.specs.Present.{IsKept, present};
ghost use Rattle.buffered_files.specs.Resized.{EndsInside, IsResizing, first_gone, pages_left, size_need};

use crate::groups::{follow_all, inode_changes};
use crate::kept::Kept;
use crate::law::present_files_are_sound;
use crate::reads::read_page;
use fs_laws::{an_operation_fits_its_grant, groups_fit_trees_built_alike};
use fs_model::{BLOCK_SIZE, Backing, Change, Group, Inode, StoreFault};
use op_groups::truncating;
use std::alloc::Global;
use ubifs_base::Bytes;

/// Puts the group of a new size, which was admitted (`set_size`). After a fault all is as it was.
pub(crate) fn put_size<B: Backing>(
    alloc: Global,
    backing: &mut B,
    kept: &mut Kept,
    ino: u32,
    inode: Inode,
    size: u64,
    old_size: u64,
    now: u64,
) -> Result<(), StoreFault>
    requires kept { IsKept (B.state backing.old).tree kept.old }
    requires paid { length kept.old.pages.dirty ≤ (B.state backing.old).space.credits }
    requires found { inode_at (present (B.state backing.old).tree kept.old).tree ino ≡ Some inode }
    requires file { inode.kind ≡ File }
    requires inside { size ≤ size_limit }
    requires sized { old_size ≡ size_of (present (B.state backing.old).tree kept.old).tree ino inode }
    requires granted { let need = size_need (present (B.state backing.old).tree kept.old).tree ino inode size now in (B.state backing.old).grant ≡ Some (record { bytes = need.bytes; nodes = need.nodes }) }
    ensures kept { IsKept (B.state backing.new).tree kept.new }
    ensures paid { length kept.new.pages.dirty ≤ (B.state backing.new).space.credits }
    ensures ok { OnOk result (present (B.state backing.new).tree kept.new ≡ record (present (B.state backing.old).tree kept.old) { tree = apply (present (B.state backing.old).tree kept.old).tree (truncating (present (B.state backing.old).tree kept.old).tree ino inode size now) }) }
    ensures issued { OnOk result ((B.state backing.new).space.credits + length kept.old.pages.dirty ≡ (B.state backing.old).space.credits + length kept.new.pages.dirty) }
    ensures same { OnErr result (kept.new ≡ kept.old) }
    ensures files { OnErr result (KeepsFiles (B.state backing.old) (B.state backing.new)) }
    ensures cut { PutsSeenWith (B.state backing.old) (B.state backing.new) kept.old (truncating (present (B.state backing.old).tree kept.old).tree ino inode size now) (put_fate result) }
    ensures goes { Goes (length (truncating (present (B.state backing.old).tree kept.old).tree ino inode size now)) (B.state backing.old) (B.state backing.new) }
    ensures grows { GrowsBy (added_or_failed (length (truncating (present (B.state backing.old).tree kept.old).tree ino inode size now)) (length (truncating (present (B.state backing.old).tree kept.old).tree ino inode size now)) result) (B.state backing.old) (B.state backing.new) kept.old kept.new }
    ensures closed { (B.state backing.new).closed ≤ (B.state backing.old).closed }
    ensures cause { HasCause (B.state backing.old) (B.state backing.new) result }
    ensures mode { TellsMode (B.state backing.new) result }
    ensures sure { SureGoes (B.outlook backing.old) (B.outlook backing.new) (B.state backing.old) (B.state backing.new) }
{
    present_files_are_sound();
    an_operation_fits_its_grant();
    let last = block_of(alloc, backing, kept, ino, size / BLOCK_SIZE)?;
    let group = truncating(alloc, ino, inode, size, old_size, last.as_slice(), now)?;
    put_truncation(alloc, backing, kept, &group)
}

// The bytes of a block of a file, of which a missing one has none.
fn block_of<B: Backing>(
    alloc: Global,
    backing: &mut B,
    kept: &Kept,
    ino: u32,
    block: u64,
) -> Result<Bytes, StoreFault>
    requires kept { IsKept (B.state backing.old).tree kept.now }
    ensures bytes { IfOk result (λ bytes. bytes ≡ block_at (present (B.state backing.old).tree kept.now).tree.blocks ino block) }
    ensures reads { Reads (B.state backing.old) (B.state backing.new) }
    ensures goes { Goes 0 (B.state backing.old) (B.state backing.new) }
    ensures cause { HasCause (B.state backing.old) (B.state backing.new) result }
    ensures mode { IsNotReadOnly result }
    ensures sure { SureGoes (B.outlook backing.old) (B.outlook backing.new) (B.state backing.old) (B.state backing.new) }
{
    let mut page = [0; 4096];
    let stored = read_page(backing, kept, ino, block, &mut page)? as usize;
    Ok(Bytes::from_slice(alloc, &page[..stored])?)
}

// Puts the group of a new size of a file, which was reckoned on the present files and admitted. What is kept follows: the
// inode is set in memory too. Pages past the end go, clean and dirty ones, and so does the page of a block that is put
// shortened. The credits of dirty ones are given back. After a fault all is as it was.
fn put_truncation<B: Backing>(
    alloc: Global,
    backing: &mut B,
    kept: &mut Kept,
    group: &Group,
) -> Result<(), StoreFault>
    requires kept { IsKept (B.state backing.old).tree kept.old }
    requires paid { length kept.old.pages.dirty ≤ (B.state backing.old).space.credits }
    requires granted { (grant : Grant) × ((B.state backing.old).grant ≡ Some grant) × FitsGroup (present (B.state backing.old).tree kept.old).tree grant group.now }
    requires resizing { IsResizing (present (B.state backing.old).tree kept.old).tree group.now }
    ensures kept { IsKept (B.state backing.new).tree kept.new }
    ensures paid { length kept.new.pages.dirty ≤ (B.state backing.new).space.credits }
    ensures ok { OnOk result (present (B.state backing.new).tree kept.new ≡ record (present (B.state backing.old).tree kept.old) { tree = apply (present (B.state backing.old).tree kept.old).tree group.now }) }
    ensures issued { OnOk result ((B.state backing.new).space.credits + length kept.old.pages.dirty ≡ (B.state backing.old).space.credits + length kept.new.pages.dirty) }
    ensures same { OnErr result (kept.new ≡ kept.old) }
    ensures files { OnErr result (KeepsFiles (B.state backing.old) (B.state backing.new)) }
    ensures cut { PutsSeenWith (B.state backing.old) (B.state backing.new) kept.old group.now (put_fate result) }
    ensures goes { Goes (length group.now) (B.state backing.old) (B.state backing.new) }
    ensures grows { GrowsBy (added_or_failed (length group.now) (length group.now) result) (B.state backing.old) (B.state backing.new) kept.old kept.new }
    ensures closed { (B.state backing.new).closed ≤ (B.state backing.old).closed }
    ensures cause { HasCause (B.state backing.old) (B.state backing.new) result }
    ensures mode { TellsMode (B.state backing.new) result }
    ensures sure { SureGoes (B.outlook backing.old) (B.outlook backing.new) (B.state backing.old) (B.state backing.new) }
{
    groups_fit_trees_built_alike();
    let changes = inode_changes(alloc, group.as_slice())?;
    backing.put_group(group)?;
    // Its proof knows from this that no page is dirty twice.
    let _dirty = kept.pages.dirty();
    let gone = follow_all(kept, changes) + drop_pages(kept, group.as_slice());
    backing.give_back(gone);
    Ok(())
}

// Drops the pages that go with the group of a new size, and answers how many were dirty. Takes no memory.
fn drop_pages(kept: &mut Kept, group: &[Change]) -> u64
    requires { EndsInside group.now }
    ensures kept { kept.new ≡ record kept.old { pages = pages_left kept.old.pages group.now } }
    ensures gone { result + length kept.new.pages.dirty ≡ length kept.old.pages.dirty }
{
    let before = kept.pages.dirty();
    cut_pages(kept, group);
    before - kept.pages.dirty()
}

// Drops them. Takes no memory.
fn cut_pages(kept: &mut Kept, group: &[Change])
    requires { EndsInside group.now }
    ensures { kept.new ≡ record kept.old { pages = pages_left kept.old.pages group.now } }
{
    if let [_, Change::CutBlocks { ino, new_size, .. }, rest @ ..] = group {
        kept.pages.cut(*ino, first_gone(*new_size, rest));
    }
}

// The first page that goes with a smaller size, behind which these changes stand.
fn first_gone(size: u64, rest: &[Change]) -> u32
    requires { size ≤ size_limit }
    ensures { result ≡ first_gone size rest.now }
{
    match rest {
        [] => ((size + BLOCK_SIZE - 1) / BLOCK_SIZE) as u32,
        _ => (size / BLOCK_SIZE) as u32,
    }
}
