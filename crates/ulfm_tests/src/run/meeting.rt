//! Ranks that wait for one another in the middle of a push.
ghost use Rattle.std.specs.Prelude.{map};
ghost use Rattle.ulfm_carrier.specs.Family.{AllFresh};

use super::laid::{Habit, run_over};
use std::alloc::Global;
use std::sync::atomic::{AtomicBool, Ordering};
use std::sync::{Arc, Wait};
use std::test::Fail;
use std::thread;
use std::thread::Threads;
use ulfm_carrier::{Ends, lanes, shared};
use ulfm_job::Job;
use ulfm_reader::ReadJob;
use ulfm_script::trace_text;

/// The ranks 0 and 2 send rank 1 a letter each.
const TWO_LETTERS: &str = r#"ranks = 3
capacity = 4
turns = 1000000
step = [
    {rank = 0, op = "send", to = 1, tag = 1, body = "a"},
    {rank = 1, op = "recv", from = 0},
    {rank = 1, op = "recv", from = 2},
    {rank = 1, op = "wait", req = 0},
    {rank = 1, op = "wait", req = 1},
    {rank = 2, op = "send", to = 1, tag = 1, body = "b"},
]
"#;

/// How often a push looks for the other.
const LOOKS: u32 = 1_000_000;

/// The end's first push waits for another end's first push.
#[derive(Drop)]
struct Meeting {
    mine: Arc<AtomicBool>,
    theirs: Arc<AtomicBool>,
    pushed: bool,
    missed: bool,
}

impl Habit for Meeting {
    fn before_push(&mut self) {
        if self.pushed {
            return;
        }
        self.pushed = true;
        self.mine.store(true, Ordering::SeqCst);
        for _ in 0..LOOKS {
            if self.theirs.load(Ordering::SeqCst) {
                return;
            }
            thread::yield_now();
        }
        self.missed = true;
    }

    fn looks(&mut self) -> bool {
        true
    }
}

impl Meeting {
    /// Whether the first push was made, and saw the other.
    fn has_met(&self) -> bool {
        self.pushed && !self.missed
    }
}

/// The ranks 0 and 2 meet, and rank 1, which pushes nothing, would meet itself.
fn meetings(alloc: Global) -> Result<Vec<Meeting>, Fail> {
    let first = Arc::new(alloc, AtomicBool::new(false))?;
    let second = Arc::new(alloc, AtomicBool::new(false))?;
    let third = Arc::new(alloc, AtomicBool::new(false))?;
    let mut meetings = Vec::new(alloc);
    for (mine, theirs) in [(&first, &third), (&second, &second), (&third, &first)] {
        meetings.push(Meeting {
            mine: Arc::try_clone(mine)?,
            theirs: Arc::try_clone(theirs)?,
            pushed: false,
            missed: false,
        })?;
    }
    Ok(meetings)
}

/// The trace of a run of `TWO_LETTERS` over these ends, and how many ranks met.
fn met_over<E, R>(rt: &R, alloc: Global, job: &Job, ends: Vec<E>) -> Result<(String, usize), Fail>
where
    E: Ends + Send,
    R: Threads + Wait + Sync,
    requires one_call { E.one_call (map E.name ends.items) }
    requires fresh { AllFresh E.count E.pushed E.taken E.ready ends.items }
{
    let report = run_over(rt, alloc, job, ends, meetings(alloc)?)?;
    let met = report.ends.iter().filter(|end| end.habit.has_met()).count();
    Ok((trace_text(alloc, job, &report.ranks)?, met))
}

/// What the ranks of `TWO_LETTERS` answer.
const TRACE: &str =
    "0 0 send 1 tag 1 comm 0: sent\n0 end: done\n1 0 recv 0 tag any comm 0: posted\n1 1 recv 2 tag any comm 0: posted\n1 2 wait 0: done from 0 tag 1 61\n1 3 wait 1: done from 2 tag 1 62\n1 end: done\n2 0 send 1 tag 1 comm 0: sent\n2 end: done\n";

/// Whether a run over these ends gives this trace, where two ranks met.
fn meets_over<E, R>(rt: &R, alloc: Global, job: &Job, ends: Vec<E>) -> Result<bool, Fail>
where
    E: Ends + Send,
    R: Threads + Wait + Sync,
    requires one_call { E.one_call (map E.name ends.items) }
    requires fresh { AllFresh E.count E.pushed E.taken E.ready ends.items }
{
    let (trace, met) = met_over(rt, alloc, job, ends)?;
    Ok(trace.as_str() == TRACE && met == 2)
}

/// Whether it does over lanes, and over shared inboxes.
fn meets_over_both<R>(rt: &R, alloc: Global, job: &Job) -> Result<bool, Fail>
where
    R: Threads + Wait + Sync,
{
    let ends = lanes(alloc, job.ranks(), job.capacity())?;
    let over_lanes = meets_over(rt, alloc, job, ends)?;
    let ends = shared(alloc, job.ranks(), job.capacity())?;
    let over_shared = meets_over(rt, alloc, job, ends)?;
    Ok(over_lanes && over_shared)
}

/// One thread for all ranks, or one that holds up the others during its turn, would miss the other's push.
#[test]
fn two_pushes_meet(rt: HostRuntime) -> Result<(), Fail> {
    let job = Job::read(rt.alloc(), TWO_LETTERS.as_bytes())?;
    let met = meets_over_both(&rt, rt.alloc(), &job)?;
    assert!(rt; met);
    Ok(())
}
