// Gates that hold a worker.

use std::sync::Wait;
use std::sync::atomic::AtomicU64;
use std::sync::atomic::Ordering::SeqCst;
use std::thread;
use writeback::Gate;

// How often a thread looks for another at most.
pub(crate) const TURNS: u64 = 10_000_000;

// Waits until a count has come so far, and answers whether it has.
fn waited_for(count: &AtomicU64, far: u64) -> bool {
    for _ in 0..TURNS {
        if count.load(SeqCst) == far {
            return true;
        }
        thread::yield_now();
    }
    false
}

// A gate that holds each worker's first put until it is opened.
#[derive(Drop)]
pub(crate) struct HeldGate {
    came: AtomicU64,
    open: AtomicU64,
    passed: AtomicU64,
}

impl HeldGate {
    pub(crate) fn new() -> HeldGate {
        HeldGate {
            came: AtomicU64::new(0),
            open: AtomicU64::new(0),
            passed: AtomicU64::new(0),
        }
    }

    // Waits until two workers have come, each with its first put, and answers whether they have.
    pub(crate) fn is_met(&self) -> bool {
        waited_for(&self.came, 2)
    }

    pub(crate) fn open(&self) {
        self.open.store(1, SeqCst);
    }

    // Whether two workers were held, and went on once the gate was opened.
    pub(crate) fn is_passed(&self) -> bool {
        self.passed.load(SeqCst) == 2
    }
}

impl Gate for HeldGate {
    fn wait_before_put<R: Wait>(&self, _rt: &R, _worker: u16, ticket: u64) {
        if ticket == 1 {
            self.came.fetch_add(1, SeqCst);
            if waited_for(&self.open, 1) {
                self.passed.fetch_add(1, SeqCst);
            }
        }
    }
}
