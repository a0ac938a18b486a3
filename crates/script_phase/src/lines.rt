// The lines of callers.

ghost use Rattle.std.specs.Prelude.{◌≡◌, ◌≢◌, ◌==◌, ℕ, IfOk};
ghost use Rattle.std.specs.List.{list_any};
ghost use Rattle.script_phase.specs.Phases.{callers_in, last_caller, ops_by};

use fs_model::Op;
use std::alloc::Global;
use ubifs_base::Memory;

/// A caller's line: the caller's number, from 1, and its operation.
#[derive(Drop)]
pub struct CallerLine {
    pub caller: u16,
    pub op: Op,
}

/// The greatest number of a caller, 0 if there is no line.
pub fn last_caller(lines: &[CallerLine]) -> u16
    ensures { result ≡ last_caller lines.now }
{
    let mut last = 0;
    for line in lines {
        if last < line.caller {
            last = line.caller;
        }
    }
    last
}

// Whether a caller has a line.
fn has_line(lines: &[CallerLine], caller: u16) -> bool
    ensures { result ≡ list_any (λ line. line.caller == caller) lines.now }
{
    lines.iter().any(|line| line.caller == caller)
}

/// How many callers have a line.
pub(crate) fn callers_in(lines: &[CallerLine]) -> u16
    ensures { result ≡ callers_in lines.now }
{
    let mut count = 0;
    for index in 0..last_caller(lines) {
        if has_line(lines, index + 1) {
            count += 1;
        }
    }
    count
}

// The operations of one caller, and the lines of the others.
#[derive(Drop)]
pub(crate) struct Parted {
    pub(crate) ops: Vec<Op>,
    pub(crate) rest: Vec<CallerLine>,
}

// Takes the lines of one caller out.
pub(crate) fn part_off(alloc: Global, lines: Vec<CallerLine>, caller: u16) -> Result<Parted, Memory>
    ensures ops { IfOk result (λ parted. parted.ops.items ≡ ops_by caller lines.items) }
    ensures rest { IfOk result (λ parted. (other : ℕ) → other ≢ caller → ops_by other parted.rest.items ≡ ops_by other lines.items) }
{
    let mut ops = Vec::new(alloc);
    let mut rest = Vec::new(alloc);
    for line in lines {
        if line.caller == caller {
            let CallerLine { op, .. } = line;
            ops.push(op)?;
        } else {
            rest.push(line)?;
        }
    }
    Ok(Parted { ops, rest })
}
