//! Runs at rest and not at rest.

use std::alloc::Global;
use std::sync::Wait;
use std::test::Fail;
use std::thread::Threads;
use ulfm_board::seats;
use ulfm_carrier::lanes;
use ulfm_job::Job;
use ulfm_reader::ReadJob;
use ulfm_run::{at_rest, run_job};

/// All that is sent is taken.
const TAKEN: &str = r#"ranks = 2
capacity = 4
turns = 1000000
step = [{rank = 0, op = "send", to = 1, tag = 5, body = "abc"}]
"#;

/// Rank 1 has one turn, and takes one letter of three.
const LEFT: &str = r#"ranks = 2
capacity = 1
turns = 1
step = [
    {rank = 0, op = "send", to = 1, tag = 5, body = "a"},
    {rank = 0, op = "send", to = 1, tag = 5, body = "b"},
    {rank = 0, op = "send", to = 1, tag = 5, body = "c"},
]
"#;

/// Rank 1 takes one letter of three at most, and stops.
const LEFT_OF_THE_STOPPED: &str = r#"ranks = 2
capacity = 1
turns = 1000000
step = [
    {rank = 0, op = "send", to = 1, tag = 5, body = "a"},
    {rank = 0, op = "send", to = 1, tag = 5, body = "b"},
    {rank = 0, op = "send", to = 1, tag = 5, body = "c"},
    {rank = 1, op = "stop"},
]
"#;

/// Whether a job of two ranks that was read comes to rest over lanes.
fn rests_as_read<R>(rt: &R, alloc: Global, job: &Job) -> Result<bool, Fail>
where
    R: Threads + Wait + Sync,
{
    let ends = lanes(alloc, 2, job.capacity())?;
    let report = run_job(rt, alloc, job, ends, seats(alloc, 2)?)?;
    Ok(at_rest(&report))
}

/// Whether a job of two ranks comes to rest over lanes.
fn rests<R>(rt: &R, alloc: Global, text: &str) -> Result<bool, Fail>
where
    R: Threads + Wait + Sync,
{
    let job = Job::read(alloc, text.as_bytes())?;
    rests_as_read(rt, alloc, &job)
}

#[test]
fn what_waits_for_a_running_rank_disturbs_rest(rt: HostRuntime) -> Result<(), Fail> {
    let alloc = rt.alloc();
    assert!(rt; rests(&rt, alloc, TAKEN)?);
    assert!(rt; !rests(&rt, alloc, LEFT)?);
    assert!(rt; rests(&rt, alloc, LEFT_OF_THE_STOPPED)?);
    Ok(())
}
