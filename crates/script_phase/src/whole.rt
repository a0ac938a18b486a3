// Whether a trace is whole.

ghost use Rattle.std.specs.Prelude.{◌≡◌, ℕ, ◌+◌, ◌<◌, ◌≤◌, All, false, true, get_or, length};
ghost use Rattle.trace_word.specs.Knowledge.{lines_of};
ghost use Rattle.script_phase.specs.Phases.{is_memory};

use fs_model::{Refusal, Reply, TraceLine};

// How many lines of a trace are of this caller.
fn lines_of(trace: &[TraceLine], caller: usize) -> usize
    ensures { result ≡ lines_of caller trace.now }
{
    trace
        .iter()
        .filter(|line| usize::from(line.caller) == caller)
        .count()
}

// Whether the callers from 1 on have so many lines.
fn have_all(trace: &[TraceLine], counts: &[usize]) -> bool
    ensures { result ≡ true → (k : ℕ) → k < length counts.now → lines_of (k + 1) trace.now ≡ get_or counts.now k 0 }
{
    for index in 0..counts.len() {
        if lines_of(trace, index + 1) != counts[index] {
            return false;
        }
    }
    true
}

/// Whether an operation was refused for want of memory.
pub fn is_memory(reply: &Reply) -> bool
    ensures { result ≡ is_memory reply.now }
{
    match reply {
        Reply::Refused { refusal } => *refusal == Refusal::Enomem,
        _ => false,
    }
}

// Whether all lines are of the callers from 1 to this one, and none was refused for want of memory.
fn are_told(trace: &[TraceLine], callers: usize) -> bool
    ensures { result ≡ true → All (λ line. (0 < line.caller) × (line.caller ≤ callers) × (is_memory line.reply ≡ false)) trace.now }
{
    for line in trace {
        if line.caller == 0 || usize::from(line.caller) > callers || is_memory(&line.reply) {
            return false;
        }
    }
    true
}

/// Whether the callers from 1 on have so many lines, nobody else has one, and none was refused for want of memory.
pub(crate) fn is_whole(trace: &[TraceLine], counts: &[usize]) -> bool
    ensures lines { result ≡ true → (k : ℕ) → k < length counts.now → lines_of (k + 1) trace.now ≡ get_or counts.now k 0 }
    ensures told { result ≡ true → All (λ line. (0 < line.caller) × (line.caller ≤ length counts.now) × (is_memory line.reply ≡ false)) trace.now }
{
    have_all(trace, counts) && are_told(trace, counts.len())
}
