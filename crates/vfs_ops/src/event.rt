// Events of the file system, and what comes of them.

use fs_model::{Collected, Ended, NoSpace, Op, Reply, Started, Stepped, StoreFault};
use ubifs_base::Bytes;

/// A page as it is written back: the version that it had when it was picked, and its bytes up to its file's end then.
#[derive(Drop)]
pub struct Encoded {
    pub ino: u32,
    pub block: u32,
    pub version: u64,
    pub bytes: Bytes,
}

/// What is to be done in one step: a caller's operation, or one event of the background.
#[derive(Drop)]
pub enum Event {
    /// A caller's operation at this moment, in seconds since 1970. `grant` is how many covered credits the caller brings for
    /// pages that become dirty.
    Call {
        caller: u16,
        now: u64,
        grant: u64,
        op: Op,
    },
    /// The page that became dirty first is encoded.
    Pick,
    /// A page that was picked is put, if it is still as it was then.
    Put {
        page: Encoded,
    },
    /// All that was put comes to the medium.
    Sync,
    /// One LEB is collected.
    Collect,
    /// A commit starts.
    CommitStart,
    /// The commit that runs writes one LEB of the index.
    CommitStep,
    /// The commit that runs ends.
    CommitEnd,
    /// So many more credits are covered.
    Refill {
        n: u64,
    },
    /// So many credits are covered no longer.
    Drain {
        n: u64,
    },
}

/// What came of an event.
#[derive(Drop)]
pub enum Outcome {
    /// The reply to a call, and how much of its grant is left.
    Replied { reply: Reply, left: u64 },
    /// The page that was picked.
    Page { page: Encoded },
    /// No page is dirty.
    NoPage,
    /// The page was put, and is clean.
    PutDone,
    /// The page isn't as it was picked, and nothing was done: its version then, and now, 0 for a page that isn't dirty. Both are
    /// the same if its bytes alone differ.
    Stale { kept: u64, now: u64 },
    Synced,
    Did { collected: Collected },
    Began { started: Started },
    Went { stepped: Stepped },
    Closed { ended: Ended },
    /// So many credits were covered.
    Granted { n: u64 },
    /// There is no room for the credits, and nothing was done.
    Refused { space: NoSpace },
    /// So many credits were given back.
    Drained { n: u64 },
    /// A call of the backing failed, or there was no memory.
    Fault { fault: StoreFault },
}
