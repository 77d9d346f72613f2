//! Which poll of a wait sees what a turn takes.

use super::laid::{Habit, run_over};
use std::alloc::Global;
use std::sync::Wait;
use std::test::Fail;
use std::thread::Threads;
use ulfm_carrier::lanes;
use ulfm_job::Job;
use ulfm_reader::ReadJob;
use ulfm_script::trace_text;

/// A rank sends a letter to itself and waits for it.
const TO_ITSELF: &str = r#"ranks = 1
capacity = 1
turns = 50
step = [
    {rank = 0, op = "send", to = 0, tag = 1, body = "a"},
    {rank = 0, op = "recv"},
    {rank = 0, op = "wait", req = 1},
]
"#;

/// So many pops of the end find nothing.
#[derive(Drop)]
struct Blind {
    pops: u32,
}

impl Habit for Blind {
    fn before_push(&mut self) {}

    fn looks(&mut self) -> bool {
        if self.pops == 0 {
            return true;
        }
        self.pops -= 1;
        false
    }
}

/// The habit of one end, of which so many pops find nothing.
fn one_habit(alloc: Global, pops: u32) -> Result<Vec<Blind>, Fail> {
    let mut habits = Vec::new(alloc);
    habits.push(Blind { pops })?;
    Ok(habits)
}

/// The trace of a job, where the first so many pops find nothing.
fn trace_of<R>(rt: &R, alloc: Global, job: &Job, pops: u32) -> Result<String, Fail>
where
    R: Threads + Wait + Sync,
{
    let ends = lanes(alloc, job.ranks(), job.capacity())?;
    let report = run_over(rt, alloc, job, ends, one_habit(alloc, pops)?)?;
    Ok(trace_text(alloc, job, &report.ranks)?)
}

/// The trace of `TO_ITSELF`, where the first so many pops find nothing.
fn trace_after<R>(rt: &R, alloc: Global, pops: u32) -> Result<String, Fail>
where
    R: Threads + Wait + Sync,
{
    let job = Job::read(alloc, TO_ITSELF.as_bytes())?;
    trace_of(rt, alloc, &job, pops)
}

/// The wait is polled in the turns 3 to 52, each time after that turn's pop.
#[test]
fn a_turn_between_two_polls(rt: HostRuntime) -> Result<(), Fail> {
    let alloc = rt.alloc();
    assert_eq!(rt;
        trace_after(&rt, alloc, 51)?.as_str(),
        "0 0 send 0 tag 1 comm 0: sent\n0 1 recv any tag any comm 0: posted\n0 2 wait 1: done from 0 tag 1 61\n0 end: done\n"
    );
    assert_eq!(rt;
        trace_after(&rt, alloc, 52)?.as_str(),
        "0 0 send 0 tag 1 comm 0: sent\n0 1 recv any tag any comm 0: posted\n0 2 wait 1: unfinished\n0 end: done\n"
    );
    Ok(())
}
