//! Ends and deciders that don't fit a job.
ghost use Rattle.std.specs.Prelude.{vec_len, IfOk};
ghost use Rattle.ulfm_carrier.specs.declared.lane_ends.LaneEnds.{LaneEnds as Lanes};
ghost use Rattle.ulfm_carrier.specs.Family.{AllFresh};
ghost use Rattle.ulfm_base.specs.Lists.{InPlace};
ghost use Rattle.ulfm_carrier.specs.Lanes.{lane_pushed, lane_taken, IsReady};

use std::alloc::Global;
use std::sync::Wait;
use std::test::Fail;
use std::thread::Threads;
use ulfm_board::{Seat, seats};
use ulfm_carrier::{LaneEnds, lanes};
use ulfm_job::Job;
use ulfm_reader::ReadJob;
use ulfm_run::{Report, run_job};
use ulfm_script::RunFault;

/// Three ranks, of which none has a step.
const THREE_RANKS: &str = "ranks = 3\ncapacity = 1\nturns = 5\nstep = []\n";

/// Two ranks, of which none has a step.
const TWO_RANKS: &str = "ranks = 2\ncapacity = 1\nturns = 5\nstep = []\n";

/// Whether a run was refused with `BadEnds`.
fn is_bad(run: Result<Report<LaneEnds, Seat>, RunFault>) -> bool {
    match run {
        Err(fault) => matches!(fault, RunFault::BadEnds),
        Ok(_) => false,
    }
}

/// Whether so many ends and deciders don't fit a job of three ranks.
fn is_bad_with<R>(rt: &R, alloc: Global, ends: u8, deciders: u8) -> Result<bool, Fail>
where
    R: Threads + Wait + Sync,
{
    let job = Job::read(alloc, THREE_RANKS.as_bytes())?;
    let ends = lanes(alloc, ends, job.capacity())?;
    let deciders = seats(alloc, deciders)?;
    Ok(is_bad(run_job(rt, alloc, &job, ends, deciders)))
}

/// The ends of two ranks, each at the other's place.
fn backwards(alloc: Global) -> Result<Vec<LaneEnds>, Fail>
    ensures out_of_place { IfOk result (λ ends. InPlace (λ (e : Lanes). e.me.number) ends.items → ⊥) }
    ensures fresh { IfOk result (λ ends. AllFresh (λ (e : Lanes). vec_len e.outs) lane_pushed lane_taken IsReady ends.items) }
{
    let mut ends = lanes(alloc, 2, 1)?;
    ends.swap(0, 1);
    Ok(ends)
}

#[test]
fn another_number_of_ends_or_deciders(rt: HostRuntime) -> Result<(), Fail> {
    let alloc = rt.alloc();
    for (ends, deciders) in [(2, 3), (4, 3), (3, 2), (3, 4)] {
        assert!(rt;
            is_bad_with(&rt, alloc, ends, deciders)?,
            "{ends} ends, {deciders} deciders"
        );
    }
    assert!(rt; !is_bad_with(&rt, alloc, 3, 3)?);
    Ok(())
}

#[test]
fn ends_backwards(rt: HostRuntime) -> Result<(), Fail> {
    let alloc = rt.alloc();
    let job = Job::read(alloc, TWO_RANKS.as_bytes())?;
    let ends = backwards(alloc)?;
    let deciders = seats(alloc, 2)?;
    assert!(rt; is_bad(run_job(&rt, alloc, &job, ends, deciders)));
    Ok(())
}
