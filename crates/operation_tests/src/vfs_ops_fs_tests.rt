// The looks of a file system, a caller of the backing's own, and the table of all cases that are no run.

ghost use Rattle.std.specs.Prelude.{◌≡◌, ◌≤◌, ◌+◌, [], length, IfOk, OnOk};
ghost use Rattle.fs_model.specs.Backing.{FitsGroup, FitsOrphans, FitsPage, IsModest};
ghost use Rattle.fs_model.specs.Change.{apply};
ghost use Rattle.fs_model.specs.Making.{new_file};
ghost use Rattle.fs_model.specs.Proper.{IsProper};
ghost use Rattle.fs_model.specs.Worked.{fresh};
ghost use Rattle.plain_backing.specs.PlainBacking.{backing_state_of};
ghost use Rattle.operation_tests.specs.Sample.{sample_group, sample_page};

use crate::plain_backing_cut_tests::{is_made_in_a_commit, is_synced};
use crate::vfs_ops_page_tests::is_read_once;
use crate::vfs_ops_tests::{Step, add_root, done, fresh_backing, fresh_files, path};
use fs_model::{
    Backing, Change, Class, Entry, Group, Inode, Kind, Mode, Need, NoSpace, PageNode, Refusal,
    StoreFault,
};
use plain_backing::PlainBacking;
use std::alloc::Global;
use ubifs_base::{Bytes, Memory, Name};
use vfs_ops::Fs;

// The number of the inode to which a path leads.
fn walked_to(alloc: Global, fs: &mut Fs<PlainBacking>, bytes: &[u8]) -> Result<u32, Refusal> {
    let path = path(alloc, bytes)?;
    let entry = fs.walk(&path)?;
    Ok(entry.ino)
}

// A group without a change, which asks for nothing.
fn nothing_put(alloc: Global, fs: &mut Fs<PlainBacking>) -> Result<(), Refusal> {
    let need = Need {
        credits: 0,
        bytes: 0,
        nodes: 0,
        class: Class::Ordinary,
    };
    fs.apply_group(&Group::new(alloc), &need)
}

// The number behind the name `f`, 0 where there is none.
fn number_of_f(alloc: Global, fs: &mut Fs<PlainBacking>) -> Result<u32, StoreFault> {
    let name = Name::from_slice(alloc, b"f")?;
    match fs.lookup(1, &name)? {
        Some(entry) => Ok(entry.ino),
        None => Ok(0),
    }
}

// How many entries the root has, and the number behind the name `f`.
fn looked_up(alloc: Global, fs: &mut Fs<PlainBacking>) -> Result<(usize, u32), StoreFault> {
    let ino = number_of_f(alloc, fs)?;
    let entries = fs.entries(1)?;
    Ok((entries.len(), ino))
}

// The time of an inode's last change, 0 where there is none.
fn changed_at(fs: &mut Fs<PlainBacking>, ino: u32) -> Result<u64, StoreFault> {
    match fs.inode(ino)? {
        Some(inode) => Ok(inode.mtime),
        None => Ok(0),
    }
}

// On a fresh volume nothing is found.
fn is_nothing_found(alloc: Global, fs: &mut Fs<PlainBacking>) -> bool {
    looked_up(alloc, fs) == Ok((0, 0))
}

// A file that was made is found by its path, by its name and by its number, and no other; and a group of no change is put.
fn is_found(alloc: Global, fs: &mut Fs<PlainBacking>) -> bool {
    walked_to(alloc, fs, b"/f") == Ok(65)
        && walked_to(alloc, fs, b"/g") == Err(Refusal::Enoent)
        && looked_up(alloc, fs) == Ok((1, 65))
        && changed_at(fs, 65) == Ok(7)
        && nothing_put(alloc, fs) == Ok(())
        && fs.highest() == 65
        && fs.mode() == Mode::ReadWrite
        && fs.refused().is_empty()
}

fn is_found_once_made(alloc: Global, fs: &mut Fs<PlainBacking>) -> Result<bool, Memory> {
    let before = is_nothing_found(alloc, fs);
    let made = done(alloc, fs, &Step::Create(b'f'))?;
    Ok(before && made == 65 && is_found(alloc, fs))
}

fn what_is_made_is_looked_up(alloc: Global) -> Result<bool, Memory> {
    let mut fs = fresh_files(alloc, 1)?;
    is_found_once_made(alloc, &mut fs)
}

// Appends what makes the file `f` to a group without a change.
fn add_file(alloc: Global, group: &mut Group) -> Result<(), Memory>
    requires none { group.old ≡ [] }
    ensures { OnOk result (group.new ≡ sample_group) }
{
    let name = Name::from_slice(alloc, b"f")?;
    group.push(Change::SetEntry {
        entry: Entry {
            dir: 1,
            name,
            ino: 65,
            kind: Kind::File,
        },
    })?;
    group.push(Change::SetInode {
        ino: 65,
        inode: file(alloc, 0),
    })?;
    add_root(alloc, group)
}

// The group that makes the file `f` on a fresh volume.
pub(crate) fn file_group(alloc: Global) -> Result<Group, Memory>
    ensures { IfOk result (λ group. group ≡ sample_group) }
{
    let mut group = Group::new(alloc);
    add_file(alloc, &mut group)?;
    Ok(group)
}

// A file's inode of this size.
fn file(alloc: Global, size: u64) -> Inode
    ensures { result ≡ record (new_file 420 0) { size = size } }
{
    Inode {
        kind: Kind::File,
        mode: 420,
        uid: 0,
        gid: 0,
        flags: 0,
        nlink: 1,
        size,
        atime: 0,
        ctime: 0,
        mtime: 0,
        extra: Bytes::from_vec(Vec::new(alloc)),
    }
}

// The file's first page.
fn file_page(alloc: Global) -> Result<PageNode, Memory>
    ensures { IfOk result (λ page. page ≡ sample_page) }
{
    Ok(PageNode {
        ino: 65,
        block: 0,
        bytes: Bytes::from_slice(alloc, b"abc")?,
        inode: file(alloc, 3),
    })
}

// Why a file wasn't made with its page.
#[derive(Clone, Copy)]
enum CallFault {
    NoSpace { space: NoSpace },
    Store { fault: StoreFault },
}

impl From<NoSpace> for CallFault {
    fn from(space: NoSpace) -> CallFault {
        CallFault::NoSpace { space }
    }
}

impl From<StoreFault> for CallFault {
    fn from(fault: StoreFault) -> CallFault {
        CallFault::Store { fault }
    }
}

// Admits a group and a page, puts both, and reads the page back; answers how many bytes the page has.
fn put_and_read(
    backing: &mut PlainBacking,
    need: &Need,
    group: &Group,
    page: &PageNode,
    out: &mut [u8],
) -> Result<u32, CallFault>
    requires modest { IsModest need.now }
    requires credit { 1 ≤ need.now.credits }
    requires proper { IsProper (backing_state_of backing.old).tree }
    requires group { FitsGroup (backing_state_of backing.old).tree (record { bytes = need.now.bytes; nodes = need.now.nodes }) group.now }
    requires orphans { FitsOrphans (backing_state_of backing.old).tree (backing_state_of backing.old).closed (backing_state_of backing.old).orphan_limit group.now }
    requires page { FitsPage (apply (backing_state_of backing.old).tree group.now) page.now }
    requires out { length out.old ≡ 4096 }
{
    backing.admit(need)?;
    backing.put_group(group)?;
    backing.put_page(page)?;
    Ok(backing.read_block(page.ino, page.block, out)?)
}

// Makes the file with its page on a fresh volume, asking for so many bytes, and reads the page.
fn made_on(
    alloc: Global,
    backing: &mut PlainBacking,
    bytes: u64,
    out: &mut [u8],
) -> Result<Result<u32, CallFault>, Memory>
    requires fresh { (backing_state_of backing.old).tree ≡ fresh.tree }
    requires enough { 384 ≤ bytes }
    requires few { bytes ≤ 4294967295 }
    requires out { length out.old ≡ 4096 }
{
    let group = file_group(alloc)?;
    let page = file_page(alloc)?;
    let need = Need {
        credits: 1,
        bytes,
        nodes: 3,
        class: Class::Ordinary,
    };
    Ok(put_and_read(backing, &need, &group, &page, out))
}

fn made_and_read(
    alloc: Global,
    bytes: u64,
    out: &mut [u8],
) -> Result<Result<u32, CallFault>, Memory>
    requires enough { 384 ≤ bytes }
    requires few { bytes ≤ 4294967295 }
    requires out { length out.old ≡ 4096 }
{
    let mut backing = fresh_backing(alloc, 1)?;
    made_on(alloc, &mut backing, bytes, out)
}

// A caller of a backing reads the page that it put.
fn what_is_put_is_read(alloc: Global) -> Result<bool, Memory> {
    let mut out = [255; 4096];
    match made_and_read(alloc, 384, &mut out)? {
        Ok(3) => Ok(out.as_slice().starts_with(b"abc\0".as_slice())),
        _ => Ok(false),
    }
}

// A caller is told that there is no room for what it asks.
fn want_of_room_is_told(alloc: Global) -> Result<bool, Memory> {
    let mut out = [255; 4096];
    match made_and_read(alloc, 1_000_000, &mut out)? {
        Err(CallFault::NoSpace { space }) => {
            Ok(space.need == 160 + 4304 + 1_000_000 && space.room == 514_080)
        }
        _ => Ok(false),
    }
}

// A case that is no run.
enum Case {
    LookedUp,
    Read,
    NoRoom,
    ReadOnce,
    Synced,
    InACommit,
}

fn is_right(alloc: Global, case: &Case) -> Result<bool, Memory> {
    match case {
        Case::LookedUp => what_is_made_is_looked_up(alloc),
        Case::Read => what_is_put_is_read(alloc),
        Case::NoRoom => want_of_room_is_told(alloc),
        Case::ReadOnce => is_read_once(alloc),
        Case::Synced => is_synced(alloc),
        Case::InACommit => is_made_in_a_commit(alloc),
    }
}

const CASES: &[(&str, Case)] = &[
    ("a file is looked up", Case::LookedUp),
    ("a page is read", Case::Read),
    ("there is no room", Case::NoRoom),
    ("a page is read once", Case::ReadOnce),
    ("a file is synced", Case::Synced),
    ("a file is made in a commit", Case::InACommit),
];

#[test]
fn files_are_looked_up_and_read(rt: HostRuntime) {
    for (name, case) in CASES {
        assert_eq!(rt; is_right(rt.alloc(), case), Ok(true), "{name}");
    }
}
