//! Room on the way and in inboxes: runs over rings of three places that smaller rings don't allow, and runs that the rings of their size
//! allow.
ghost use Rattle.std.specs.Prelude.{map};
ghost use Rattle.ulfm_carrier.specs.Family.{AllFresh};

use super::laid::{Habit, run_over};
use std::alloc::Global;
use std::sync::atomic::{AtomicBool, Ordering};
use std::sync::{Arc, Wait};
use std::test::Fail;
use std::thread::Threads;
use ulfm_board::seats;
use ulfm_carrier::{Ends, lanes, shared};
use ulfm_job::Job;
use ulfm_reader::ReadJob;
use ulfm_run::{fits, run_job};

/// Rank 2 sends rank 1 three letters, and stops. Rank 0 is told of the stop, and writes to rank 1.
const UNDER_WAY: &str = r#"ranks = 3
capacity = 1
turns = 10000000
step = [
    {rank = 0, op = "recv", from = 2},
    {rank = 0, op = "wait", req = 0},
    {rank = 0, op = "send", to = 1, tag = 1, body = "d"},
    {rank = 1, op = "recv", from = 0},
    {rank = 1, op = "wait", req = 0},
    {rank = 2, op = "send", to = 1, tag = 1, body = "a"},
    {rank = 2, op = "send", to = 1, tag = 1, body = "b"},
    {rank = 2, op = "send", to = 1, tag = 1, body = "c"},
    {rank = 2, op = "stop"},
]
"#;

/// Ranks 0 and 2 send rank 1 two letters each.
const TWO_EACH: &str = r#"ranks = 3
capacity = 1
turns = 60
step = [
    {rank = 0, op = "send", to = 1, tag = 1, body = "a"},
    {rank = 0, op = "send", to = 1, tag = 1, body = "b"},
    {rank = 2, op = "send", to = 1, tag = 1, body = "c"},
    {rank = 2, op = "send", to = 1, tag = 1, body = "d"},
]
"#;

/// Each rank sends the others more than small rings hold, and some of it after it received.
const CROWDED: &str = r#"ranks = 3
capacity = 1
turns = 60
step = [
    {rank = 0, op = "send", to = 1, tag = 1, body = "a"},
    {rank = 0, op = "send", to = 1, tag = 1, body = "b"},
    {rank = 0, op = "send", to = 2, tag = 1, body = "c"},
    {rank = 0, op = "send", to = 1, tag = 1, body = "d"},
    {rank = 0, op = "recv"},
    {rank = 0, op = "wait", req = 4},
    {rank = 0, op = "send", to = 1, tag = 1, body = "e"},
    {rank = 0, op = "send", to = 2, tag = 1, body = "f"},
    {rank = 1, op = "recv", from = 2},
    {rank = 1, op = "send", to = 0, tag = 1, body = "g"},
    {rank = 1, op = "send", to = 2, tag = 1, body = "h"},
    {rank = 1, op = "wait", req = 0},
    {rank = 1, op = "send", to = 2, tag = 1, body = "i"},
    {rank = 1, op = "send", to = 0, tag = 1, body = "j"},
    {rank = 2, op = "send", to = 1, tag = 1, body = "k"},
    {rank = 2, op = "recv"},
    {rank = 2, op = "wait", req = 1},
    {rank = 2, op = "send", to = 1, tag = 1, body = "l"},
    {rank = 2, op = "send", to = 0, tag = 1, body = "m"},
    {rank = 2, op = "send", to = 1, tag = 1, body = "n"},
]
"#;

/// An end that tells, once its first item is on the way, or looks into its inbox only after that was told.
#[derive(Drop)]
struct Patient {
    is_out: Arc<AtomicBool>,
    tells: bool,
    waits: bool,
    pushed: bool,
}

impl Habit for Patient {
    fn before_push(&mut self) {
        self.pushed = true;
    }

    fn looks(&mut self) -> bool {
        if self.tells && self.pushed {
            self.is_out.store(true, Ordering::SeqCst);
        }
        !self.waits || self.is_out.load(Ordering::SeqCst)
    }
}

/// Rank 1 takes nothing until the first item of this rank is on the way, or ever.
fn patience(alloc: Global, awaited: Option<u8>) -> Result<Vec<Patient>, Fail> {
    let is_out = Arc::new(alloc, AtomicBool::new(false))?;
    let mut habits = Vec::new(alloc);
    for number in 0..3 {
        habits.push(Patient {
            is_out: Arc::try_clone(&is_out)?,
            tells: awaited == Some(number),
            waits: number == 1,
            pushed: false,
        })?;
    }
    Ok(habits)
}

/// Whether rings of one, of two and of three places allow a run of a job over rings of three, in which rank 1 waits for that item.
fn allowed<R>(
    rt: &R,
    alloc: Global,
    text: &str,
    awaited: Option<u8>,
) -> Result<(bool, bool, bool), Fail>
where
    R: Threads + Wait + Sync,
{
    let job = Job::read(alloc, text.as_bytes())?;
    let ends = lanes(alloc, job.ranks(), 3)?;
    let report = run_over(rt, alloc, &job, ends, patience(alloc, awaited)?)?;
    Ok((fits(&report, 1), fits(&report, 2), fits(&report, 3)))
}

/// How many runs of a job over these ends, which have so many places, rings of so many places allow, 0 or 1.
fn fits_over<E, R>(
    rt: &R,
    alloc: Global,
    job: &Job,
    ends: Vec<E>,
    capacity: u8,
) -> Result<u32, Fail>
where
    E: Ends + Send,
    R: Threads + Wait + Sync,
    requires one_call { E.one_call (map E.name ends.items) }
    requires fresh { AllFresh E.count E.pushed E.taken E.ready ends.items }
{
    let deciders = seats(alloc, job.ranks())?;
    let report = run_job(rt, alloc, job, ends, deciders)?;
    Ok(fits(&report, capacity) as u32)
}

/// How many of two runs of `CROWDED` with a stop before a step of a rank rings of so many places allow: over lanes, and over shared inboxes.
fn fits_with_stop<R>(rt: &R, alloc: Global, rank: u8, at: u16, capacity: u8) -> Result<u32, Fail>
where
    R: Threads + Wait + Sync,
{
    let job = Job::read(alloc, CROWDED.as_bytes())?;
    if rank >= job.ranks() || at as usize > job.script_len(rank) {
        return Ok(0);
    }
    let stopped = job.with_stop(rank, at)?;
    let ends = lanes(alloc, stopped.ranks(), capacity)?;
    let over_lanes = fits_over(rt, alloc, &stopped, ends, capacity)?;
    let ends = shared(alloc, stopped.ranks(), capacity)?;
    let over_shared = fits_over(rt, alloc, &stopped, ends, capacity)?;
    Ok(over_lanes.saturating_add(over_shared))
}

/// The letter of rank 0 comes after the stop of rank 2, and before the letters of rank 2: at its stop, these were all on the way.
#[test]
fn three_letters_want_three_places(rt: HostRuntime) -> Result<(), Fail> {
    let found = allowed(&rt, rt.alloc(), UNDER_WAY, Some(0))?;
    assert_eq!(rt; found, (false, false, true));
    Ok(())
}

/// Rank 1 takes nothing. Of four letters in its inbox two are of each sender, for which one place is too few.
#[test]
fn two_letters_left_of_a_sender_want_two_places(rt: HostRuntime) -> Result<(), Fail> {
    let found = allowed(&rt, rt.alloc(), TWO_EACH, None)?;
    assert_eq!(rt; found, (false, true, true));
    Ok(())
}

/// Rank 0 stops before each of its steps in turn, over ends of one to three places.
#[test]
fn runs_have_the_room_of_their_rings(rt: HostRuntime) -> Result<(), Fail> {
    let mut ran = 0u32;
    let mut fit = 0u32;
    for capacity in 1..4 {
        for at in 0..9 {
            let one = fits_with_stop(&rt, rt.alloc(), 0, at, capacity)?;
            fit = fit.saturating_add(one);
            ran = ran.saturating_add(2);
        }
    }
    assert_eq!(rt; fit, ran);
    Ok(())
}
