// A commit, from its start to its end.

ghost use Rattle.std.specs.Prelude.{◌≡◌, ◌-◌, [], true, None, is_some, IfOk, OnOk};
ghost use Rattle.fs_model.specs.Backing.{Goes, HasCause, KeepsFiles};
ghost use Rattle.fs_model.specs.Journal.{Leaves};
ghost use Rattle.buffered_files.specs.Calls.{HasCommitted, SureGoes, TellsMode};

use fs_model::{Backing, Started, Stepped, StoreFault};

/// Commits the tree as it is (Hunter 2008, "The commit"). A commit that runs already is ended first.
pub fn commit<B: Backing>(backing: &mut B) -> Result<(), StoreFault>
    ensures done { OnOk result (HasCommitted (B.state backing.new)) }
    ensures files { KeepsFiles (B.state backing.old) (B.state backing.new) }
    ensures cut { Leaves (B.state backing.old).journal (B.state backing.new).journal [] }
    ensures goes { Goes 0 (B.state backing.old) (B.state backing.new) }
    ensures cause { HasCause (B.state backing.old) (B.state backing.new) result }
    ensures mode { TellsMode (B.state backing.new) result }
    ensures sure { SureGoes (B.outlook backing.old) (B.outlook backing.new) (B.state backing.old) (B.state backing.new) }
{
    match backing.commit_start()? {
        Started::Began => finish(backing),
        Started::Running { cmt_no: _ } => {
            finish(backing)?;
            backing.commit_start()?;
            finish(backing)
        }
    }
}

// Ends the commit that runs.
fn finish<B: Backing>(backing: &mut B) -> Result<(), StoreFault>
    requires { is_some (B.state backing.old).journal.running ≡ true }
    ensures ended { OnOk result ((B.state backing.new).journal.running ≡ None) }
    ensures nodes { OnOk result ((B.state backing.new).journal.nodes ≡ (B.state backing.old).journal.later) }
    ensures files { KeepsFiles (B.state backing.old) (B.state backing.new) }
    ensures cut { Leaves (B.state backing.old).journal (B.state backing.new).journal [] }
    ensures goes { Goes 0 (B.state backing.old) (B.state backing.new) }
    ensures cause { HasCause (B.state backing.old) (B.state backing.new) result }
    ensures mode { TellsMode (B.state backing.new) result }
    ensures sure { SureGoes (B.outlook backing.old) (B.outlook backing.new) (B.state backing.old) (B.state backing.new) }
{
    let mut left = step(backing)?;
    while left > 0 {
        left = step(backing)?;
    }
    backing.commit_end()?;
    Ok(())
}

// Writes one LEB of the index of the commit that runs, and answers how many are left.
fn step<B: Backing>(backing: &mut B) -> Result<u64, StoreFault>
    requires { is_some (B.state backing.old).journal.running ≡ true }
    ensures told { IfOk result (λ left. left ≡ (B.state backing.new).journal.left) }
    ensures left { OnOk result ((B.state backing.new).journal.left ≡ (B.state backing.old).journal.left - 1) }
    ensures running { OnOk result ((B.state backing.new).journal.running ≡ (B.state backing.old).journal.running) }
    ensures later { OnOk result ((B.state backing.new).journal.later ≡ (B.state backing.old).journal.later) }
    ensures files { KeepsFiles (B.state backing.old) (B.state backing.new) }
    ensures cut { Leaves (B.state backing.old).journal (B.state backing.new).journal [] }
    ensures goes { Goes 0 (B.state backing.old) (B.state backing.new) }
    ensures cause { HasCause (B.state backing.old) (B.state backing.new) result }
    ensures mode { TellsMode (B.state backing.new) result }
    ensures sure { SureGoes (B.outlook backing.old) (B.outlook backing.new) (B.state backing.old) (B.state backing.new) }
{
    match backing.commit_step()? {
        Stepped::More { left } => Ok(left),
        _ => Ok(0),
    }
}
