//! A job with one more stop, at each place in turn.
ghost use Rattle.std.specs.Prelude.{◌≡◌, ◌≢◌, ◌<◌, ◌≤◌, ◌++◌, All, Err, IfErr, IfOk, OnOk, length, map};
ghost use Rattle.ulfm_job.specs.Job.{IsJob, script_at, step_count};
ghost use Rattle.ulfm_replay.specs.Sweep.{IsStarved, IsSwept, place_of, places_in, places_of};

use crate::fault::SweepFault;
use crate::line::SweepLine;
use crate::rounds::replay;
use std::alloc::Global;
use ulfm_job::{Job, JobFault, MOST_STEPS};
use ulfm_script::RunFault;

/// Replays the job with a stop put before each step of each rank in turn, and after its last one, and counts the answers of each
/// replay. The lines come in the order of the ranks, and of the places in their scripts.
///
/// # Errors
///
/// `TooLarge` where the job has 256 steps, else `OutOfMemory` where a growth outside the poll of a step is refused.
pub fn sweep(alloc: Global, job: &Job) -> Result<Vec<SweepLine>, SweepFault>
    ensures places { IfOk result (λ lines. map place_of lines.items ≡ places_of job.now) }
    ensures swept { IfOk result (λ lines. All (IsSwept job.now) lines.items) }
    ensures full { step_count job.now.scripts ≡ 256 → result ≡ Err (SweepFault.Job JobFault.TooLarge) }
    ensures memory { step_count job.now.scripts ≢ 256 → IfErr result IsStarved }
{
    if job.len() == MOST_STEPS {
        return Err(SweepFault::Job(JobFault::TooLarge));
    }
    let mut lines = Vec::new(alloc);
    for rank in 0..job.ranks() {
        sweep_rank(alloc, job, rank, &mut lines)?;
    }
    Ok(lines)
}

/// Adds the lines of the stops of one rank.
fn sweep_rank(
    alloc: Global,
    job: &Job,
    rank: u8,
    lines: &mut Vec<SweepLine>,
) -> Result<(), SweepFault>
    requires job { IsJob job.now }
    requires inside { rank < job.now.ranks }
    requires room { step_count job.now.scripts ≢ 256 }
    ensures places { OnOk result (map place_of lines.new.items ≡ map place_of lines.old.items ++ places_in job.now rank) }
    ensures swept { OnOk result (All (IsSwept job.now) lines.old.items → All (IsSwept job.now) lines.new.items) }
    ensures memory { IfErr result IsStarved }
{
    for at in 0..job.script_len(rank) + 1 {
        let line = line_at(alloc, job, rank, at as u16)?;
        if lines.push(line).is_err() {
            return Err(SweepFault::Run(RunFault::OutOfMemory));
        }
    }
    Ok(())
}

/// The line of a stop at one place.
fn line_at(alloc: Global, job: &Job, rank: u8, at: u16) -> Result<SweepLine, SweepFault>
    requires job { IsJob job.now }
    requires inside { rank < job.now.ranks }
    requires place { at ≤ length (script_at job.now rank) }
    requires room { step_count job.now.scripts ≢ 256 }
    ensures place { IfOk result (λ line. place_of line ≡ (rank, at)) }
    ensures swept { IfOk result (IsSwept job.now) }
    ensures memory { IfErr result IsStarved }
{
    let stopped = match job.with_stop(rank, at) {
        Ok(stopped) => stopped,
        Err(fault) => return Err(SweepFault::Job(fault)),
    };
    let reports = match replay(alloc, &stopped) {
        Ok(reports) => reports,
        Err(fault) => return Err(SweepFault::Run(fault)),
    };
    Ok(SweepLine::of(rank, at, reports.as_slice()))
}
