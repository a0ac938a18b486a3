// The jobs of a phase.

ghost use Rattle.std.specs.Prelude.{◌≡◌, All, IfOk, length, map};
ghost use Rattle.script_phase.specs.Phases.{AreNumberedFrom, ops_by};

use crate::lines::{CallerLine, Parted, part_off};
use std::alloc::Global;
use traced_files::Pass;
use ubifs_base::Memory;
use writeback::Job;

/// A job for each pass, with its caller's operations. The passes are those of the callers from 1 on.
pub(crate) fn jobs_of(
    alloc: Global,
    passes: Vec<Pass>,
    now: u64,
    lines: Vec<CallerLine>,
) -> Result<Vec<Job>, Memory>
    requires { AreNumberedFrom 0 passes.items }
    ensures passes { IfOk result (λ jobs. map (λ job. job.pass) jobs.items ≡ passes.items) }
    ensures ops { IfOk result (λ jobs. All (λ job. (job.now ≡ now) × (job.ops.items ≡ ops_by job.pass.caller lines.items)) jobs.items) }
{
    let mut jobs = Vec::new(alloc);
    let mut left = lines;
    for pass in passes {
        let Parted { ops, rest } = part_off(alloc, left, pass.caller)?;
        left = rest;
        jobs.push(Job { pass, now, ops })?;
    }
    Ok(jobs)
}

/// How many operations each job has.
pub(crate) fn counts_of(alloc: Global, jobs: &Vec<Job>) -> Result<Vec<usize>, Memory>
    ensures { IfOk result (λ counts. counts.items ≡ map (λ job. length job.ops.items) jobs.now.items) }
{
    let mut counts = Vec::new(alloc);
    for job in jobs {
        counts.push(job.ops.len())?;
    }
    Ok(counts)
}
