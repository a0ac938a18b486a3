// The steps of a commit, and the call that fails, on a backing in memory.

use fs_model::{
    Backing, Cause, Change, Collected, Ended, Group, Inode, Kind, Mode, Space, Started, Stepped,
    StoreFault,
};
use plain_backing::{PlainBacking, Tree};
use std::alloc::Global;
use ubifs_base::{Arm, Bytes, Geometry, Memory, RawGeometry};

// A backing of the root alone, on 64 main LEBs, which takes two orphans.
fn fresh(alloc: Global) -> Result<PlainBacking, Memory> {
    let Ok(geo) = Geometry::new(&RawGeometry::plain(16384, 512, 64, 8)) else {
        return Err(Memory);
    };
    let mut tree = Tree::new(alloc, 64);
    let mut group = Group::new(alloc);
    group.push(Change::SetInode {
        ino: 1,
        inode: Inode {
            kind: Kind::Dir,
            mode: 493,
            uid: 0,
            gid: 0,
            flags: 0,
            nlink: 2,
            size: 160,
            atime: 0,
            ctime: 0,
            mtime: 0,
            extra: Bytes::from_vec(Vec::new(alloc)),
        },
    })?;
    tree.apply(alloc, &group)?;
    let space = Space {
        used: 160,
        held: 0,
        credits: 0,
        empty: 62,
        index: 1,
        weight: 1,
        main: geo.main_lebs(),
    };
    PlainBacking::new(alloc, geo, tree, space, 2, Mode::ReadWrite)
}

// A commit goes from its start to its end.
fn commits_go_through_their_steps(alloc: Global) -> Result<bool, Memory> {
    let mut backing = fresh(alloc)?;
    Ok(
        backing.commit_end() == Ok(Ended::Idle)
            && backing.commit_step() == Ok(Stepped::Idle)
            && backing.commit_start() == Ok(Started::Began)
            && backing.commit_start() == Ok(Started::Running { cmt_no: 1 })
            && backing.commit_step() == Ok(Stepped::Ready)
            && backing.commit_end() == Ok(Ended::Done { cmt_no: 1 })
            && backing.collect_step() == Ok(Collected::Nothing)
            && backing.sync() == Ok(()),
    )
}

// The call that was set fails, and no other; then nothing can be written.
fn one_call_fails(alloc: Global) -> Result<bool, Memory> {
    let mut backing = fresh(alloc)?;
    backing.arm(&Arm::Fail { call: 1 });
    backing.fail_call(2);
    let cause = Cause::Faulted { count: 1 };
    Ok(
        backing.last_block(1) == Ok(None)
            && backing.last_block(1) == Err(StoreFault::Volume { count: 1 })
            && backing.last_block(1) == Ok(None)
            && backing.mode() == Mode::ReadOnly { cause }
            && backing.sync() == Err(StoreFault::ReadOnly { cause })
            && backing.faults() == 1,
    )
}

#[test]
fn commits_and_failures(rt: HostRuntime) {
    assert_eq!(rt;
        (
            commits_go_through_their_steps(rt.alloc()),
            one_call_fails(rt.alloc())
        ),
        (Ok(true), Ok(true))
    );
}
