// A caller's step.

ghost use Rattle.std.specs.Prelude.{◌≡◌, ℕ, ◌+◌, ◌≤◌, length};
ghost use Rattle.fs_model.specs.declared.op.Op.{Op};
ghost use Rattle.buffered_files.specs.Calls.{SureGoes};
ghost use Rattle.fs_laws.specs.Sound.{IsCall};
ghost use Rattle.vfs_ops.specs.declared.event.Event.TheVariants.{Call};
ghost use Rattle.vfs_ops.specs.declared.event.Outcome.TheVariants.{Replied};
ghost use Rattle.vfs_ops.specs.Events.{IsReply};
ghost use Rattle.vfs_ops.specs.Fs.{files_state};
ghost use Rattle.vfs_ops.specs.Passing.{IsCallStep};

use fs_model::{Backing, Op, Reply};
use vfs_ops::{Event, Fs, Outcome};

// Makes a caller's step with this grant. It answers the operation, the reply, and what is left of the grant.
pub(crate) fn made<B: Backing>(
    fs: &mut Fs<B>,
    caller: u16,
    now: u64,
    grant: u64,
    op: Op,
) -> (Op, Reply, u64)
    requires call { IsCall op }
    requires paid { length (files_state fs.old).kept.pages.dirty + grant ≤ (files_state fs.old).backing.space.credits }
    ensures op { result.0 ≡ op }
    ensures step { IsCallStep (files_state fs.old) (files_state fs.new) (Call caller now grant op) (Replied result.1 result.2) }
    ensures sure { SureGoes (B.outlook fs.old.backing) (B.outlook fs.new.backing) (B.state fs.old.backing) (B.state fs.new.backing) }
{
    let event = Event::Call {
        caller,
        now,
        grant,
        op,
    };
    let (reply, left) = replied(fs.step(&event));
    (op_of(event), reply, left)
}

// The reply of a step, and what is left of its grant. No other outcome comes of a call.
fn replied(outcome: Outcome) -> (Reply, u64)
    requires { IsReply outcome }
    ensures { outcome ≡ Replied result.0 result.1 }
{
    match outcome {
        Outcome::Replied { reply, left } => (reply, left),
        _ => unreachable!(),
    }
}

// The operation of a call.
fn op_of(event: Event) -> Op
    requires { (caller : ℕ) × (now : ℕ) × (grant : ℕ) × (op : Op) × (event ≡ Call caller now grant op) }
    ensures { (caller : ℕ) (now : ℕ) (grant : ℕ) (op : Op) → event ≡ Call caller now grant op → result ≡ op }
{
    match event {
        Event::Call { op, .. } => op,
        _ => unreachable!(),
    }
}
