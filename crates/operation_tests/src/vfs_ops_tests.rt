// Runs of operations and events over a fresh volume.

ghost use Rattle.std.specs.Prelude.{◌≡◌, ◌++◌, ◌∷◌, [], IfOk, IsTrue, OnOk};
ghost use Rattle.fs_model.specs.Change.{apply};
ghost use Rattle.fs_model.specs.Making.{new_dir};
ghost use Rattle.fs_model.specs.Proper.{are_bytes};
ghost use Rattle.fs_model.specs.Worked.{fresh};
ghost use Rattle.fs_model.specs.declared.change.Change.TheVariants.{SetInode};
ghost use Rattle.fs_laws.specs.Sound.{IsCall};
ghost use Rattle.plain_backing.specs.PlainBacking.{backing_state_of};
ghost use Rattle.vfs_ops.specs.Events.{IsCalled, grant_of};

use fs_laws::a_fresh_volume_is_sound;
use fs_model::{
    Backing, Change, Collected, Ended, Group, Inode, Kind, Mode, Op, Refusal, Reply, Space,
    Started, Stepped, Table,
};
use plain_backing::{PlainBacking, Tree};
use std::alloc::Global;
use ubifs_base::{Bytes, Geometry, Memory, Name, RawGeometry};
use vfs_ops::{Encoded, Event, Fs, Outcome};

// The root's inode on a fresh volume.
fn root(alloc: Global) -> Inode
    ensures { result ≡ new_dir 493 0 }
{
    Inode {
        kind: Kind::Dir,
        mode: 493,
        uid: 0,
        gid: 0,
        flags: 0,
        nlink: 2,
        size: 160,
        atime: 0,
        ctime: 0,
        mtime: 0,
        extra: Bytes::from_vec(Vec::new(alloc)),
    }
}

// Appends the root's inode to a group.
pub(crate) fn add_root(alloc: Global, group: &mut Group) -> Result<(), Memory>
    ensures { OnOk result (group.new ≡ group.old ++ SetInode 1 (new_dir 493 0) ∷ []) }
{
    group.push(Change::SetInode {
        ino: 1,
        inode: root(alloc),
    })
}

// Puts the root into a tree.
fn put_root(alloc: Global, tree: &mut Tree) -> Result<(), Memory>
    ensures { OnOk result (tree.new ≡ apply tree.old (SetInode 1 (new_dir 493 0) ∷ [])) }
{
    let mut group = Group::new(alloc);
    add_root(alloc, &mut group)?;
    tree.apply(alloc, &group)
}

// A tree of the root alone.
fn fresh_tree(alloc: Global) -> Result<Tree, Memory>
    ensures { IfOk result (λ tree. tree ≡ fresh.tree) }
{
    let mut tree = Tree::new(alloc, 64);
    put_root(alloc, &mut tree)?;
    Ok(tree)
}

// A fresh volume of 64 main LEBs, which takes so many orphans.
pub(crate) fn fresh_backing(alloc: Global, orphans: u64) -> Result<PlainBacking, Memory>
    ensures tree { IfOk result (λ backing. (backing_state_of backing).tree ≡ fresh.tree) }
    ensures credits { IfOk result (λ backing. (backing_state_of backing).space.credits ≡ 0) }
{
    let Ok(geo) = Geometry::new(&RawGeometry::plain(16384, 512, 64, 8)) else {
        return Err(Memory);
    };
    let space = Space {
        used: 160,
        held: 0,
        credits: 0,
        empty: 62,
        index: 1,
        weight: 1,
        main: geo.main_lebs(),
    };
    let tree = fresh_tree(alloc)?;
    PlainBacking::new(alloc, geo, tree, space, orphans, Mode::ReadWrite)
}

// A file system over a fresh volume, which takes so many orphans.
pub(crate) fn fresh_files(alloc: Global, orphans: u64) -> Result<Fs<PlainBacking>, Memory> {
    a_fresh_volume_is_sound();
    let backing = fresh_backing(alloc, orphans)?;
    match Fs::new(alloc, backing, 4) {
        Ok(fs) => Ok(fs),
        Err((fault, _)) => Err(fault),
    }
}

// A path of these bytes.
pub(crate) fn path(alloc: Global, bytes: &[u8]) -> Result<Name, Memory>
    ensures { IfOk result (λ path. IsTrue (are_bytes path)) }
{
    Ok(Name::from_slice(alloc, bytes)?)
}

// What is done in a row. A file of a letter is created, opened in a slot, unlinked, or asked what it is; a slot is closed, or
// the size in it is set; in the slot 0, 4,100 bytes of 7 are written from a place on, 9 bytes are read from there, or all is
// synced; and the rest are events of the background, of which `Put` picks a page and puts it twice.
pub(crate) enum Step {
    Create(u8),
    Open(u8, u8),
    Unlink(u8),
    Stat(u8),
    Close(u8),
    Truncate(u8, u64),
    Write(u64),
    Read(u64),
    Fsync,
    Flush,
    Put,
    Pick,
    Sync,
    Collect,
    CommitStart,
    CommitStep,
    CommitEnd,
    Refill,
    Drain,
}

// The file of a step.
fn file_of(step: &Step) -> u8 {
    match step {
        Step::Create(file) => *file,
        Step::Open(file, _) => *file,
        Step::Unlink(file) => *file,
        Step::Stat(file) => *file,
        _ => b'-',
    }
}

// The operation of a step on a path.
fn op_on(alloc: Global, step: &Step) -> Result<Op, Memory>
    ensures { IfOk result (λ op. IsCall op) }
{
    let path = path(alloc, &[b'/', file_of(step)])?;
    Ok(match step {
        Step::Create(_) => Op::Create { path, mode: 420 },
        Step::Open(_, slot) => Op::OpenFile { path, slot: *slot },
        Step::Unlink(_) => Op::Unlink { path },
        _ => Op::Stat { path },
    })
}

// The operation of a step.
fn op_of(alloc: Global, step: &Step) -> Result<Op, Memory>
    ensures { IfOk result (λ op. IsCall op) }
{
    match step {
        Step::Close(slot) => Ok(Op::Close { slot: *slot }),
        Step::Truncate(slot, size) => Ok(Op::Truncate {
            slot: *slot,
            size: *size,
        }),
        Step::Write(offs) => Ok(Op::Write {
            slot: 0,
            offs: *offs,
            len: 4100,
            byte: 7,
        }),
        Step::Read(offs) => Ok(Op::Read {
            slot: 0,
            offs: *offs,
            len: 9,
        }),
        Step::Fsync => Ok(Op::Fsync { slot: 0 }),
        Step::Flush => Ok(Op::Flush),
        _ => op_on(alloc, step),
    }
}

// The call of a step at the moment 7, with a caller that brings no credit.
fn call_of(alloc: Global, step: &Step) -> Result<Event, Memory>
    ensures call { IfOk result (λ event. IsCalled event) }
    ensures none { IfOk result (λ event. grant_of event ≡ 0) }
{
    let op = op_of(alloc, step)?;
    Ok(Event::Call {
        caller: 1,
        now: 7,
        grant: 0,
        op,
    })
}

// The event of a step, which takes no issued credit.
fn event_of(alloc: Global, step: &Step) -> Result<Event, Memory>
    ensures call { IfOk result (λ event. IsCalled event) }
    ensures none { IfOk result (λ event. grant_of event ≡ 0) }
{
    match step {
        Step::Pick => Ok(Event::Pick),
        Step::Sync => Ok(Event::Sync),
        Step::Collect => Ok(Event::Collect),
        Step::CommitStart => Ok(Event::CommitStart),
        Step::CommitStep => Ok(Event::CommitStep),
        Step::CommitEnd => Ok(Event::CommitEnd),
        Step::Refill => Ok(Event::Refill { n: 3 }),
        Step::Drain => Ok(Event::Drain { n: 0 }),
        _ => call_of(alloc, step),
    }
}

// What is refused as a number: an error's number of errno.h from 1,000 on, and of a list of orphans that is full its limit
// from 2,000 on.
fn refused_number(refusal: &Refusal) -> u64 {
    match refusal {
        Refusal::Ebadf => 1009,
        Refusal::Einval => 1022,
        Refusal::Efbig => 1027,
        Refusal::Enfile {
            what: Table::Orphans,
            limit,
        } => limit.wrapping_add(2000),
        _ => 1001,
    }
}

// How many hundred times a hundred bytes are there, with their sum.
fn bytes_number(bytes: &[u8]) -> u64 {
    let mut sum = 0u64;
    for byte in bytes {
        sum = sum.wrapping_add(*byte as u64);
    }
    (bytes.len() as u64).wrapping_mul(100).wrapping_add(sum)
}

// What a reply tells as a number: an inode's, a size, how many bytes were written, of bytes that were read `bytes_number`, of a
// refusal `refused_number`, 0 where it is done, and 1 where it is anything else.
fn reply_number(reply: &Reply) -> u64 {
    match reply {
        Reply::Ino { ino } => *ino as u64,
        Reply::Count { n } => *n as u64,
        Reply::Bytes { bytes } => bytes_number(bytes.as_slice()),
        Reply::Stat { size, .. } => *size,
        Reply::Done => 0,
        Reply::Refused { refusal } => refused_number(refusal),
        _ => 1,
    }
}

// An outcome as a number: `reply_number` of a reply that leaves no credit, else one from 3,000 on, and 3,000 for one that isn't
// asked for here.
fn number(outcome: &Outcome) -> u64 {
    match outcome {
        Outcome::Replied { reply, left: 0 } => reply_number(reply),
        Outcome::NoPage => NO_PAGE,
        Outcome::PutDone => PUT,
        Outcome::Stale { .. } => STALE,
        Outcome::Synced => SYNCED,
        Outcome::Did {
            collected: Collected::Nothing,
        } => NOTHING,
        Outcome::Began {
            started: Started::Began,
        } => BEGAN,
        Outcome::Went {
            stepped: Stepped::Ready,
        } => READY,
        Outcome::Closed {
            ended: Ended::Done { .. },
        } => ENDED,
        Outcome::Granted { n: 3 } => GRANTED,
        Outcome::Drained { n: 0 } => DRAINED,
        _ => 3000,
    }
}

const NO_PAGE: u64 = 3001;

const PUT: u64 = 3002;

const STALE: u64 = 3003;

const SYNCED: u64 = 3004;

const NOTHING: u64 = 3005;

const BEGAN: u64 = 3006;

const READY: u64 = 3007;

const ENDED: u64 = 3008;

const GRANTED: u64 = 3009;

const DRAINED: u64 = 3010;

// Makes an event that takes no issued credit, and answers the number of its outcome.
fn acted(fs: &mut Fs<PlainBacking>, event: Event) -> u64
    requires call { IsCalled event }
    requires none { grant_of event ≡ 0 }
{
    let done = fs.act(event);
    number(done.outcome())
}

// The same of an event that is lent.
fn stepped(fs: &mut Fs<PlainBacking>, event: &Event) -> u64
    requires call { IsCalled event.now }
    requires none { grant_of event.now ≡ 0 }
{
    let outcome = fs.step(event);
    number(&outcome)
}

// What a page of file 65 tells as a number: its place times ten thousand and how many bytes it has; 1 of another file's.
fn page_number(page: &Encoded) -> u64 {
    if page.ino != 65 {
        return 1;
    }
    let place = page.block as u64;
    place
        .wrapping_mul(10_000)
        .wrapping_add(page.bytes.len() as u64)
}

// This number if the first of two puts of a page found it as it was picked, and the second didn't; else 1.
fn once(told: u64, first: u64, second: u64) -> u64 {
    if first == PUT && second == STALE {
        told
    } else {
        1
    }
}

// Puts a page twice, and answers its number if the first put alone was done.
fn both_puts(fs: &mut Fs<PlainBacking>, page: Encoded) -> u64 {
    let told = page_number(&page);
    let put = Event::Put { page };
    let first = stepped(fs, &put);
    let second = stepped(fs, &put);
    once(told, first, second)
}

// The same of the page that is picked.
fn put_twice(fs: &mut Fs<PlainBacking>) -> u64 {
    match fs.act(Event::Pick).into_outcome() {
        Outcome::Page { page } => both_puts(fs, page),
        _ => 1,
    }
}

// Does a step, and answers the number of its outcome.
pub(crate) fn done(alloc: Global, fs: &mut Fs<PlainBacking>, step: &Step) -> Result<u64, Memory> {
    if let Step::Put = step {
        return Ok(put_twice(fs));
    }
    let event = event_of(alloc, step)?;
    Ok(acted(fs, event))
}

// The first of the rows whose step isn't answered by its number, or how many rows there are.
pub(crate) fn first_wrong(
    alloc: Global,
    fs: &mut Fs<PlainBacking>,
    rows: &[(Step, u64)],
) -> Result<usize, Memory> {
    for (place, (step, number)) in rows.iter().enumerate() {
        if done(alloc, fs, step)? != *number {
            return Ok(place);
        }
    }
    Ok(rows.len())
}

// Steps on a fresh volume that takes so many orphans, with what each answers; and the room for orphans in the end, and the
// credits: one for each dirty page.
struct Run {
    name: &'static str,
    orphans: u64,
    rows: &'static [(Step, u64)],
    room: u64,
    credits: u64,
}

const RUNS: [Run; 9] = [
    // A file is made, written, synced and read. It outlives its name until its last slot is closed, and takes the place of the
    // one orphan that the backing has room for. Pages that go dirty with their file give their credits back.
    Run {
        name: "a file outlives its name",
        orphans: 1,
        rows: &[
            (Step::Create(b'f'), 65),
            (Step::Create(b'f'), 1001),
            (Step::Open(b'f', 0), 65),
            (Step::Write(0), 4100),
            (Step::Fsync, 0),
            (Step::Write(0), 4100),
            (Step::Flush, 0),
            (Step::Read(4095), 535),
            (Step::Open(b'f', 1), 65),
            (Step::Unlink(b'f'), 0),
            (Step::Stat(b'f'), 1001),
            (Step::Close(1), 0),
            (Step::Write(0), 4100),
            (Step::Read(4095), 535),
            (Step::Create(b'f'), 66),
            (Step::Open(b'f', 1), 66),
            (Step::Unlink(b'f'), 2001),
            (Step::Close(0), 0),
            (Step::Unlink(b'f'), 0),
            (Step::Close(1), 0),
            (Step::Create(b'f'), 67),
            (Step::Open(b'f', 0), 67),
            (Step::Write(0), 4100),
            (Step::Close(0), 0),
            (Step::Unlink(b'f'), 0),
        ],
        room: 1,
        credits: 0,
    },
    // Pages in memory: the boundary one is shortened and put, one past the end goes, and what was cut off reads as zeros.
    Run {
        name: "sizes of dirty pages",
        orphans: 1,
        rows: &[
            (Step::Create(b'f'), 65),
            (Step::Open(b'f', 0), 65),
            (Step::Write(0), 4100),
            (Step::Truncate(0, 4097), 0),
            (Step::Stat(b'f'), 4097),
            (Step::Truncate(0, 4096), 0),
            (Step::Read(4095), 107),
            (Step::Truncate(0, 5000), 0),
            (Step::Read(4095), 907),
            (Step::Stat(b'f'), 5000),
        ],
        room: 1,
        credits: 1,
    },
    // Stored pages: the same, and nothing is dirty.
    Run {
        name: "sizes of stored pages",
        orphans: 1,
        rows: &[
            (Step::Create(b'f'), 65),
            (Step::Open(b'f', 0), 65),
            (Step::Write(0), 4100),
            (Step::Flush, 0),
            (Step::Truncate(0, 10), 0),
            (Step::Read(1), 963),
            (Step::Read(8), 214),
            (Step::Truncate(0, 4100), 0),
            (Step::Read(4), 942),
        ],
        room: 1,
        credits: 0,
    },
    // A page that was read is clean: it goes too. A missing one has nothing to shorten.
    Run {
        name: "sizes of clean pages",
        orphans: 1,
        rows: &[
            (Step::Create(b'f'), 65),
            (Step::Open(b'f', 0), 65),
            (Step::Write(8192), 4100),
            (Step::Flush, 0),
            (Step::Read(8192), 963),
            (Step::Truncate(0, 100), 0),
            (Step::Stat(b'f'), 100),
            (Step::Truncate(0, 8200), 0),
            (Step::Read(8192), 800),
        ],
        room: 1,
        credits: 0,
    },
    // The same size: no page goes.
    Run {
        name: "the same size",
        orphans: 1,
        rows: &[
            (Step::Create(b'f'), 65),
            (Step::Open(b'f', 0), 65),
            (Step::Write(0), 4100),
            (Step::Truncate(0, 4100), 0),
            (Step::Read(4095), 535),
        ],
        room: 1,
        credits: 2,
    },
    // What is refused, in order; at the greatest size of all it isn't.
    Run {
        name: "refused sizes",
        orphans: 1,
        rows: &[
            (Step::Create(b'f'), 65),
            (Step::Open(b'f', 0), 65),
            (Step::Truncate(16, 0xffff_ffff_ffff_ffff), 1022),
            (Step::Truncate(1, 0xffff_ffff_ffff_ffff), 1009),
            (Step::Truncate(0, 0x200_0000_0001), 1027),
            (Step::Stat(b'f'), 0),
            (Step::Truncate(0, 0x200_0000_0000), 0),
            (Step::Stat(b'f'), 0x200_0000_0000),
        ],
        room: 1,
        credits: 0,
    },
    // Three files are opened and lose their names: the list takes two of them. One that is closed makes room, since no list has
    // it. Once a commit has listed two, one that is closed makes none, up to the next commit.
    Run {
        name: "a list of two orphans is full",
        orphans: 2,
        rows: &[
            (Step::Create(b'a'), 65),
            (Step::Create(b'b'), 66),
            (Step::Create(b'c'), 67),
            (Step::Open(b'a', 0), 65),
            (Step::Open(b'b', 1), 66),
            (Step::Open(b'c', 2), 67),
            (Step::Unlink(b'a'), 0),
            (Step::Unlink(b'b'), 0),
            (Step::Unlink(b'c'), 2002),
            (Step::Close(0), 0),
            (Step::Unlink(b'c'), 0),
            (Step::CommitStart, BEGAN),
            (Step::CommitStep, READY),
            (Step::CommitEnd, ENDED),
            (Step::Close(1), 0),
            (Step::Create(b'd'), 68),
            (Step::Open(b'd', 3), 68),
            (Step::Unlink(b'd'), 2002),
            (Step::CommitStart, BEGAN),
            (Step::CommitStep, READY),
            (Step::CommitEnd, ENDED),
            (Step::Unlink(b'd'), 0),
            (Step::Stat(b'd'), 1001),
            (Step::Close(3), 0),
        ],
        room: 1,
        credits: 0,
    },
    // Both pages of a file of 4,100 bytes are picked and put, each once, and none is left then.
    Run {
        name: "pages are put once",
        orphans: 1,
        rows: &[
            (Step::Create(b'f'), 65),
            (Step::Open(b'f', 0), 65),
            (Step::Write(0), 4100),
            (Step::Put, 4096),
            (Step::Put, 10_004),
            (Step::Pick, NO_PAGE),
        ],
        room: 1,
        credits: 0,
    },
    // A backing that can be written syncs, has nothing to collect, commits, and covers three credits.
    Run {
        name: "events of the background",
        orphans: 1,
        rows: &[
            (Step::Sync, SYNCED),
            (Step::Collect, NOTHING),
            (Step::CommitStart, BEGAN),
            (Step::CommitStep, READY),
            (Step::CommitEnd, ENDED),
            (Step::Refill, GRANTED),
            (Step::Drain, DRAINED),
        ],
        room: 1,
        credits: 3,
    },
];

// The first wrong row of a run, the room for orphans and the credits in the end.
fn ran(alloc: Global, run: &Run) -> Result<(usize, u64, u64), Memory> {
    let mut fs = fresh_files(alloc, run.orphans)?;
    let wrong = first_wrong(alloc, &mut fs, run.rows)?;
    let backing = fs.into_parts();
    Ok((wrong, backing.orphan_room(), backing.space().credits))
}

#[test]
fn runs_are_answered(rt: HostRuntime) {
    for run in &RUNS {
        assert_eq!(rt;
            ran(rt.alloc(), run),
            Ok((run.rows.len(), run.room, run.credits)),
            "{}",
            run.name
        );
    }
}
