// What the backing is asked for beside callers: all is synced, LEBs are collected, commits go on, and credits come and go.

ghost use Rattle.std.specs.Prelude.{◌≡◌, ◌+◌, ◌^◌, ◌<◌, ◌≤◌, true, length};
ghost use Rattle.fs_model.specs.declared.backing_answers.Mode.TheVariants.{ReadWrite};
ghost use Rattle.fs_model.specs.Proper.{IsProper};
ghost use Rattle.buffered_files.specs.Calls.{SureGoes};
ghost use Rattle.vfs_ops.specs.declared.event.Event.TheVariants.{Sync, Collect, CommitStart, CommitStep, CommitEnd, Refill, Drain};
ghost use Rattle.vfs_ops.specs.Background.{IsChore, is_chore, is_work};
ghost use Rattle.vfs_ops.specs.Events.{IsCalled, grant_of};
ghost use Rattle.vfs_ops.specs.Steps.{IsReady};

use crate::event::{Event, Outcome};
use buffered_files::Kept;
use fs_model::{Backing, Class, Mode, Need, StoreFault};

/// Whether the backing alone is asked for something.
pub(crate) fn is_chore(event: &Event) -> bool
    ensures { result ≡ is_chore event.now }
{
    match event {
        Event::Sync
        | Event::Collect
        | Event::CommitStart
        | Event::CommitStep
        | Event::CommitEnd
        | Event::Refill { .. }
        | Event::Drain { .. } => true,
        Event::Call { .. } | Event::Pick | Event::Put { .. } => false,
    }
}

/// Makes an event for which the backing alone is asked. What is kept fits it as before.
pub(crate) fn chore<B: Backing>(backing: &mut B, kept: &Kept, event: &Event) -> Outcome
    requires ready { IsReady (B.state backing.old) kept.now }
    requires kind { is_chore event.now ≡ true }
    requires call { IsCalled event.now }
    requires few { length kept.now.pages.dirty + grant_of event.now ≤ (B.state backing.old).space.credits }
    ensures ready { IsReady (B.state backing.new) kept.now }
    ensures did { IsChore (B.state backing.old) (B.state backing.new) event.now result }
    ensures sure { SureGoes (B.outlook backing.old) (B.outlook backing.new) (B.state backing.old) (B.state backing.new) }
{
    asked(backing, event)
}

// Asks the backing. One that is read-only is asked for no work.
fn asked<B: Backing>(backing: &mut B, event: &Event) -> Outcome
    requires kind { is_chore event.now ≡ true }
    requires proper { IsProper (B.state backing.old).tree }
    requires call { IsCalled event.now }
    requires few { grant_of event.now ≤ (B.state backing.old).space.credits }
    ensures did { IsChore (B.state backing.old) (B.state backing.new) event.now result }
    ensures sure { SureGoes (B.outlook backing.old) (B.outlook backing.new) (B.state backing.old) (B.state backing.new) }
{
    match event {
        Event::Refill { n } => refill(backing, *n),
        Event::Drain { n } => drain(backing, *n),
        _ => match backing.mode() {
            Mode::ReadWrite => worked(backing, event),
            Mode::ReadOnly { cause } => Outcome::Fault {
                fault: StoreFault::ReadOnly { cause },
            },
        },
    }
}

// Asks a backing that can be written for work.
fn worked<B: Backing>(backing: &mut B, event: &Event) -> Outcome
    requires kind { is_work event.now ≡ true }
    requires open { (B.state backing.old).mode ≡ ReadWrite }
    ensures did { IsChore (B.state backing.old) (B.state backing.new) event.now result }
    ensures sure { SureGoes (B.outlook backing.old) (B.outlook backing.new) (B.state backing.old) (B.state backing.new) }
{
    match event {
        Event::Sync => sync(backing),
        Event::Collect => collect(backing),
        Event::CommitStart => commit_start(backing),
        Event::CommitStep => commit_step(backing),
        Event::CommitEnd => commit_end(backing),
        Event::Call { .. }
        | Event::Pick
        | Event::Put { .. }
        | Event::Refill { .. }
        | Event::Drain { .. } => unreachable!(),
    }
}

// Brings all that was put to the medium.
fn sync<B: Backing>(backing: &mut B) -> Outcome
    requires open { (B.state backing.old).mode ≡ ReadWrite }
    ensures did { IsChore (B.state backing.old) (B.state backing.new) Sync result }
    ensures sure { SureGoes (B.outlook backing.old) (B.outlook backing.new) (B.state backing.old) (B.state backing.new) }
{
    match backing.sync() {
        Ok(()) => Outcome::Synced,
        Err(fault) => Outcome::Fault { fault },
    }
}

// Collects one LEB.
fn collect<B: Backing>(backing: &mut B) -> Outcome
    requires open { (B.state backing.old).mode ≡ ReadWrite }
    ensures did { IsChore (B.state backing.old) (B.state backing.new) Collect result }
    ensures sure { SureGoes (B.outlook backing.old) (B.outlook backing.new) (B.state backing.old) (B.state backing.new) }
{
    match backing.collect_step() {
        Ok(collected) => Outcome::Did { collected },
        Err(fault) => Outcome::Fault { fault },
    }
}

// Starts a commit.
fn commit_start<B: Backing>(backing: &mut B) -> Outcome
    requires open { (B.state backing.old).mode ≡ ReadWrite }
    ensures did { IsChore (B.state backing.old) (B.state backing.new) CommitStart result }
    ensures sure { SureGoes (B.outlook backing.old) (B.outlook backing.new) (B.state backing.old) (B.state backing.new) }
{
    match backing.commit_start() {
        Ok(started) => Outcome::Began { started },
        Err(fault) => Outcome::Fault { fault },
    }
}

// Writes one LEB of the index of the commit that runs.
fn commit_step<B: Backing>(backing: &mut B) -> Outcome
    requires open { (B.state backing.old).mode ≡ ReadWrite }
    ensures did { IsChore (B.state backing.old) (B.state backing.new) CommitStep result }
    ensures sure { SureGoes (B.outlook backing.old) (B.outlook backing.new) (B.state backing.old) (B.state backing.new) }
{
    match backing.commit_step() {
        Ok(stepped) => Outcome::Went { stepped },
        Err(fault) => Outcome::Fault { fault },
    }
}

// Ends the commit that runs.
fn commit_end<B: Backing>(backing: &mut B) -> Outcome
    requires open { (B.state backing.old).mode ≡ ReadWrite }
    ensures did { IsChore (B.state backing.old) (B.state backing.new) CommitEnd result }
    ensures sure { SureGoes (B.outlook backing.old) (B.outlook backing.new) (B.state backing.old) (B.state backing.new) }
{
    match backing.commit_end() {
        Ok(ended) => Outcome::Closed { ended },
        Err(fault) => Outcome::Fault { fault },
    }
}

// Covers so many more credits, where there is room for them.
fn refill<B: Backing>(backing: &mut B, n: u64) -> Outcome
    requires proper { IsProper (B.state backing.old).tree }
    requires few { n < 2 ^ 32 }
    ensures did { IsChore (B.state backing.old) (B.state backing.new) (Refill n) result }
    ensures sure { SureGoes (B.outlook backing.old) (B.outlook backing.new) (B.state backing.old) (B.state backing.new) }
{
    let need = Need {
        credits: n,
        bytes: 0,
        nodes: 0,
        class: Class::Ordinary,
    };
    match backing.admit(&need) {
        Ok(()) => Outcome::Granted { n },
        Err(space) => Outcome::Refused { space },
    }
}

// Gives so many credits back.
fn drain<B: Backing>(backing: &mut B, n: u64) -> Outcome
    requires few { n ≤ (B.state backing.old).space.credits }
    ensures did { IsChore (B.state backing.old) (B.state backing.new) (Drain n) result }
    ensures sure { SureGoes (B.outlook backing.old) (B.outlook backing.new) (B.state backing.old) (B.state backing.new) }
{
    backing.give_back(n);
    Outcome::Drained { n }
}
