//! What ranks do after their last steps, and when they end.
ghost use Rattle.std.specs.Prelude.{map};
ghost use Rattle.ulfm_carrier.specs.Family.{AllFresh};

use super::laid::{Habit, run_over};
use std::alloc::{AllocError, Global};
use std::sync::Wait;
use std::test::Fail;
use std::thread::Threads;
use ulfm_carrier::{Ends, lanes, shared};
use ulfm_job::Job;
use ulfm_reader::ReadJob;
use ulfm_script::trace_text;

/// A letter, in a job of the most turns, in which nothing hangs.
const LETTER: &str = r#"ranks = 2
capacity = 1
turns = 10000000
step = [
    {rank = 0, op = "send", to = 1, tag = 1, body = "a"},
    {rank = 1, op = "recv"},
    {rank = 1, op = "wait", req = 0},
]
"#;

/// Nobody sends what the wait is for.
const HANG: &str = r#"ranks = 1
capacity = 1
turns = 300
step = [
    {rank = 0, op = "recv"},
    {rank = 0, op = "wait", req = 0},
]
"#;

/// The ranks 1 and 2 have finished before anything comes to them: two letters for rank 1, and a revocation.
const SERVED: &str = r#"ranks = 3
capacity = 8
turns = 10000000
step = [
    {rank = 0, op = "send", to = 1, tag = 1, body = "a"},
    {rank = 0, op = "send", to = 1, tag = 1, body = "b"},
    {rank = 0, op = "revoke"},
]
"#;

/// How often an end was given an item to push, and was asked for one: once in each turn.
#[derive(Drop)]
struct Counting {
    pushes: u32,
    pops: u32,
}

impl Habit for Counting {
    fn before_push(&mut self) {
        self.pushes = self.pushes.saturating_add(1);
    }

    fn looks(&mut self) -> bool {
        self.pops = self.pops.saturating_add(1);
        true
    }
}

/// What a rank did in a run: the items that it pushed, its turns, and the entries of its log.
#[derive(Clone, Copy)]
struct Did {
    pushes: u32,
    turns: u32,
    entries: usize,
}

/// A run: its trace, and what each rank did.
#[derive(Drop)]
struct Seen {
    trace: String,
    ranks: Vec<Did>,
}

/// The habits of so many ends.
fn habits(alloc: Global, ranks: u8) -> Result<Vec<Counting>, AllocError> {
    let mut habits = Vec::new(alloc);
    for _ in 0..ranks {
        habits.push(Counting { pushes: 0, pops: 0 })?;
    }
    Ok(habits)
}

/// A run of a job over these ends.
fn seen_over<E, R>(rt: &R, alloc: Global, job: &Job, ends: Vec<E>) -> Result<Seen, Fail>
where
    E: Ends + Send,
    R: Threads + Wait + Sync,
    requires one_call { E.one_call (map E.name ends.items) }
    requires fresh { AllFresh E.count E.pushed E.taken E.ready ends.items }
{
    let report = run_over(rt, alloc, job, ends, habits(alloc, job.ranks())?)?;
    let mut ranks = Vec::new(alloc);
    for (end, told) in report.ends.iter().zip(report.ranks.iter()) {
        ranks.push(Did {
            pushes: end.habit.pushes,
            turns: end.habit.pops,
            entries: told.log().len(),
        })?;
    }
    Ok(Seen {
        trace: trace_text(alloc, job, &report.ranks)?,
        ranks,
    })
}

/// A run of a job by each carrier.
fn seen_by_both<R>(rt: &R, alloc: Global, job: &Job) -> Result<Vec<Seen>, Fail>
where
    R: Threads + Wait + Sync,
{
    let mut both = Vec::new(alloc);
    let ends = lanes(alloc, job.ranks(), job.capacity())?;
    let over_lanes = seen_over(rt, alloc, job, ends)?;
    both.push(over_lanes)?;
    let ends = shared(alloc, job.ranks(), job.capacity())?;
    let over_shared = seen_over(rt, alloc, job, ends)?;
    both.push(over_shared)?;
    Ok(both)
}

#[test]
fn where_nothing_hangs_the_most_turns_end_at_once(rt: HostRuntime) -> Result<(), Fail> {
    let job = Job::read(rt.alloc(), LETTER.as_bytes())?;
    for seen in &seen_by_both(&rt, rt.alloc(), &job)? {
        assert_eq!(rt;
            seen.trace.as_str(),
            "0 0 send 1 tag 1 comm 0: sent\n0 end: done\n1 0 recv any tag any comm 0: posted\n1 1 wait 0: done from 0 tag 1 61\n1 end: done\n"
        );
        assert!(rt; seen.ranks.iter().all(|did| did.turns < 10_000_000));
    }
    Ok(())
}

/// The receive has a turn, the wait 300, and one finds no step left. A hundred follow in which nothing moves.
#[test]
fn a_step_that_hangs_keeps_its_polls(rt: HostRuntime) -> Result<(), Fail> {
    let job = Job::read(rt.alloc(), HANG.as_bytes())?;
    for seen in &seen_by_both(&rt, rt.alloc(), &job)? {
        assert_eq!(rt;
            seen.trace.as_str(),
            "0 0 recv any tag any comm 0: posted\n0 1 wait 0: unfinished\n0 end: done\n"
        );
        assert!(rt; seen.ranks.iter().all(|did| did.turns == 402));
    }
    Ok(())
}

/// Rank 1 takes both letters and the revocation, and tells the others of that.
#[test]
fn who_has_finished_serves_the_others(rt: HostRuntime) -> Result<(), Fail> {
    let job = Job::read(rt.alloc(), SERVED.as_bytes())?;
    for seen in &seen_by_both(&rt, rt.alloc(), &job)? {
        let has_served = match seen.ranks.get(1) {
            Some(did) => did.entries >= 3 && did.pushes >= 2,
            None => false,
        };
        assert!(rt; has_served);
    }
    Ok(())
}
