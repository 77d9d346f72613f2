//! Runs of a job that recovers, with a stop put before each of its steps, that come to rest.
ghost use Rattle.std.specs.Prelude.{map};
ghost use Rattle.ulfm_carrier.specs.Family.{AllFresh};

use std::alloc::Global;
use std::sync::Wait;
use std::test::Fail;
use std::thread::Threads;
use ulfm_board::seats;
use ulfm_carrier::{Ends, lanes, shared};
use ulfm_job::Job;
use ulfm_reader::ReadJob;
use ulfm_run::{at_rest, run_job};

/// Rank 1 revokes and stops half way; the others shrink. There are more turns than a replay needs, as no thread waits for another's.
const REVOKED_AND_SHRUNK: &str = r#"ranks = 3
capacity = 1
turns = 4000
step = [
    {rank = 0, op = "send", to = 2, tag = 5, body = "a"},
    {rank = 0, op = "recv"},
    {rank = 0, op = "wait", req = 1},
    {rank = 0, op = "shrink"},
    {rank = 1, op = "revoke"},
    {rank = 1, op = "stop"},
    {rank = 2, op = "recv", from = 0, tag = 5},
    {rank = 2, op = "recv", from = 0, tag = 9},
    {rank = 2, op = "wait", req = 1},
    {rank = 2, op = "wait", req = 0},
    {rank = 2, op = "recv"},
    {rank = 2, op = "shrink"},
]
"#;

/// How many runs of a job over these ends come to rest, 0 or 1.
fn rests_over<E, R>(rt: &R, alloc: Global, job: &Job, ends: Vec<E>) -> Result<u32, Fail>
where
    E: Ends + Send,
    R: Threads + Wait + Sync,
    requires one_call { E.one_call (map E.name ends.items) }
    requires fresh { AllFresh E.count E.pushed E.taken E.ready ends.items }
{
    let deciders = seats(alloc, job.ranks())?;
    let report = run_job(rt, alloc, job, ends, deciders)?;
    Ok(at_rest(&report) as u32)
}

/// How many runs of `REVOKED_AND_SHRUNK` with a stop before a step of a rank come to rest: over lanes, and over shared inboxes.
fn rests_with_stop<R>(rt: &R, alloc: Global, rank: u8, at: u16) -> Result<(u32, u32), Fail>
where
    R: Threads + Wait + Sync,
{
    let job = Job::read(alloc, REVOKED_AND_SHRUNK.as_bytes())?;
    if rank >= job.ranks() || at as usize > job.script_len(rank) {
        return Ok((0, 0));
    }
    let stopped = job.with_stop(rank, at)?;
    let ends = lanes(alloc, stopped.ranks(), stopped.capacity())?;
    let over_lanes = rests_over(rt, alloc, &stopped, ends)?;
    let ends = shared(alloc, stopped.ranks(), stopped.capacity())?;
    let over_shared = rests_over(rt, alloc, &stopped, ends)?;
    Ok((over_lanes, over_shared))
}

#[test]
fn stops_in_revoked_and_shrunk(rt: HostRuntime) -> Result<(), Fail> {
    let mut of_lanes = 0u32;
    let mut of_shared = 0u32;
    for (rank, steps) in [(0, 4), (1, 2), (2, 6)] {
        for at in 0..=steps {
            let (over_lanes, over_shared) = rests_with_stop(&rt, rt.alloc(), rank, at)?;
            of_lanes = of_lanes.saturating_add(over_lanes);
            of_shared = of_shared.saturating_add(over_shared);
        }
    }
    assert!(rt; of_lanes > 0);
    assert!(rt; of_shared > 0);
    Ok(())
}
