//! The stops that a job has of its own.
ghost use Rattle.std.specs.Prelude.{◌≡◌, ◌≤◌, ◌++◌, IfOk, OnOk};
ghost use Rattle.ulfm_job.specs.Job.{IsJob};
ghost use Rattle.ulfm_job.specs.Places.{is_stop_at, own_stops, own_stops_at, own_stops_in};

use crate::stop::Stop;
use crate::{Job, Step};
use std::alloc::Global;
use ulfm_base::OutOfMemory;

/// The stops that a job has of its own: each step that is one, as a stop before that step.
///
/// # Errors
///
/// `OutOfMemory` where a growth was refused.
pub fn own_stops(alloc: Global, job: &Job) -> Result<Vec<Stop>, OutOfMemory>
    ensures { IfOk result (λ stops. stops.items ≡ own_stops job.now) }
{
    let mut stops = Vec::new(alloc);
    for rank in 0..job.ranks() {
        push_own(&mut stops, job, rank)?;
    }
    Ok(stops)
}

/// Adds those of one rank.
fn push_own(stops: &mut Vec<Stop>, job: &Job, rank: u8) -> Result<(), OutOfMemory>
    requires { IsJob job.now }
    ensures { OnOk result (stops.new.items ≡ stops.old.items ++ own_stops_in job.now rank) }
{
    for at in 0..job.script_len(rank) {
        push_own_at(stops, job, rank, at)?;
    }
    Ok(())
}

/// Adds that of one step, where it is one.
fn push_own_at(stops: &mut Vec<Stop>, job: &Job, rank: u8, at: usize) -> Result<(), OutOfMemory>
    requires { at ≤ 256 }
    ensures { OnOk result (stops.new.items ≡ stops.old.items ++ own_stops_at job.now rank at) }
{
    if is_stop_at(job, rank, at) {
        stops.push(Stop {
            rank,
            at: at as u16,
            dies: false,
        })?;
    }
    Ok(())
}

/// Whether a step of a rank is a stop.
pub(crate) fn is_stop_at(job: &Job, rank: u8, at: usize) -> bool
    ensures { result ≡ is_stop_at job.now rank at }
{
    matches!(job.step(rank, at), Some(Step::Stop))
}
