// The commit with whose start a log LEB begins.

ghost use Rattle.std.specs.Prelude.{◌≡◌, ◌+◌, ◌≤◌, ℕ, length, Some, IfSome, IfNone, IsSome};
ghost use Rattle.media_sys.specs.SystemNode.{IsCommitStart};
ghost use Rattle.media_sys.specs.declared.commit_start.CommitStart.{CommitStart as AStart};
ghost use Rattle.bud_log.specs.LogText.{BeginsCommit, IsStartAt};
ghost use Rattle.bud_log.specs.Seen.{HasBeginning};

use leb_scan::Found;
use media_sys::{CommitStart, one_node};
use std::alloc::Global;
use ubifs_base::NodeType;

/// The number of the commit with whose start a LEB begins, which begins with this node; none if it begins with no commit
/// start.
pub fn commit_of(alloc: Global, leb: &[u8], begins: Option<Found>) -> Option<u64>
    requires { HasBeginning leb.now begins }
    ensures { BeginsCommit leb.now begins result }
{
    match begins {
        Some(found) => commit_at(alloc, leb, found),
        None => None,
    }
}

// The number of the commit that this node starts.
fn commit_at(alloc: Global, leb: &[u8], found: Found) -> Option<u64>
    requires { HasBeginning leb.now (Some found) }
    ensures { BeginsCommit leb.now (Some found) result }
{
    if found.kind != NodeType::CommitStart {
        return None;
    }
    let node = start_at(alloc, leb, found)?;
    Some(node.cmt_no)
}

// The commit start that was found in a LEB.
fn start_at(alloc: Global, leb: &[u8], found: Found) -> Option<CommitStart>
    requires room { found.offs + found.len ≤ length leb.now }
    requires there { (node : AStart) × IsStartAt leb.now found node }
    ensures some { IfSome result (IsStartAt leb.now found) }
    ensures is_some { IsSome result }
{
    let rest = leb.split_at(found.offs as usize).1;
    commit_start_of(alloc, rest.split_at(found.len as usize).0)
}

// The commit start that the bytes are.
fn commit_start_of(alloc: Global, bytes: &[u8]) -> Option<CommitStart>
    ensures some { IfSome result (λ node. (sqnum group : ℕ) (other : AStart) → IsCommitStart bytes.now sqnum group other → node ≡ other) }
    ensures none { IfNone result ((sqnum group : ℕ) (other : AStart) → IsCommitStart bytes.now sqnum group other → ⊥) }
{
    one_node();
    let Ok(node) = CommitStart::decode(alloc, bytes) else {
        return None;
    };
    node
}
