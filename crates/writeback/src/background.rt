// A worker.

ghost use Rattle.std.specs.Prelude.{◌≡◌};
ghost use Rattle.vfs_ops.specs.declared.event.Event.TheVariants.{Pick};

use crate::gate::Gate;
use fs_model::Backing;
use live_fs::{Live, StopKind};
use std::sync::Wait;
use std::thread;
use traced_files::Site;
use vfs_ops::{Done, Outcome};

/// Picks the page that became dirty first, waits at the gate without the lock, and puts the page, until it gets a key. It picks
/// before it first asks for a key. It answers how many puts it made, its last pick, and the key. It makes no key itself.
pub fn worker<B: Backing, K: StopKind, J: Site, G: Gate, R: Wait>(
    rt: &R,
    live: &Live<B, K, J>,
    id: u16,
    gate: &G,
) -> (u64, Done<B>, K)
    ensures pick { result.1.event ≡ Pick }
    ensures key { K.may_stop result.2 }
{
    let mut puts: u64 = 0;
    for _ in rt.forever() {
        let done = live.pick(rt);
        if let Some(key) = live.wait_work(rt) {
            return (puts, done, key);
        }
        match done.into_outcome() {
            Outcome::Page { page } => {
                puts = puts.saturating_add(1);
                gate.wait_before_put(rt, id, puts);
                let _ = live.put(rt, page);
            }
            _ => thread::yield_now(),
        }
    }
    unreachable!()
}
