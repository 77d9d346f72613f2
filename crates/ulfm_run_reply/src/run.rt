//! The reply of `run`.
ghost use Rattle.std.specs.Prelude.{All, List, length, map, ℕ, ◌≡◌, ◌<◌, IfErr, IfOk, vec_len};
ghost use Rattle.ulfm_carrier.specs.declared.lane_ends.LaneEnds.{LaneEnds as Lanes};
ghost use Rattle.ulfm_carrier.specs.declared.shared_ends.SharedEnds.{SharedEnds as Shared};
ghost use Rattle.ulfm_carrier.specs.Family.{AllFresh};
ghost use Rattle.ulfm_base.specs.Lists.{InPlace, at};
ghost use Rattle.ulfm_carrier.specs.Lanes.{known_room, lane_name, lane_pushed, lane_taken, IsReady as IsReadyLane, OneCall as OneLanesCall};
ghost use Rattle.ulfm_carrier.specs.Shared.{inbox_capacity, shared_name, shared_pushed, shared_taken, IsReady as IsReadyShared, OneCall as OneSharedCall};
ghost use Rattle.ulfm_board.specs.Known.{OneBoard, nothing_known};
ghost use Rattle.ulfm_run_reply.specs.AnyBody.{text_in};
ghost use Rattle.ulfm_run_reply.specs.Played.{AreOfRanks, IsRunReply, RanTo};
ghost use Rattle.ulfm_run_reply.specs.inside.Shown.{IsShown};
ghost use Rattle.ulfm_command_line.specs.CommandLine.{AreInRange};
ghost use Rattle.ulfm_report_laws.specs.Lawful.{LawfulReport};
ghost use Rattle.ulfm_run.specs.Flow.{contents};
ghost use Rattle.ulfm_script.specs.Deciding.{Known};

use crate::any_reply::AnyReply;
use crate::faults::failure_of;
use crate::ran::Ran;
use crate::tally::{tally_of, tally_reply};
use crate::trace::ran_reply;
use crate::turns::given_turns;
use std::alloc::{AllocError, Global};
use std::sync::Wait;
use std::thread::Threads;
use ulfm_base::CallError;
use ulfm_board::{Decider, Seat, seats};
use ulfm_carrier::{Ends, LaneEnds, SharedEnds, lanes, shared};
use ulfm_command_line::{Carrier, Failure, RunOptions, asked_at, failed};
use ulfm_forms::Form;
use ulfm_job::Job;
use ulfm_run::{Report, at_rest, fits, run_job};

/// The reply of `run` with these options. Traces that are counted have this form, in which the reply is to be written.
pub fn run_reply<R: Threads + Wait + Sync>(
    rt: &R,
    alloc: Global,
    form: Form,
    options: RunOptions,
    bytes: &[u8],
) -> Result<AnyReply, AllocError>
    requires { AreInRange options }
    ensures { IfOk result (λ r. IsRunReply form options bytes.now r.status (text_in form r.body)) }
{
    let read = asked_at(alloc, options.place, bytes)?;
    let asked = match read {
        Ok(asked) => given_turns(asked, options.turns),
        Err(reply) => return Ok(AnyReply::plain(reply)),
    };
    if let Some(times) = options.repeat {
        return match tally_of(rt, alloc, form, options, times, &asked) {
            Ok(tally) => Ok(tally_reply(options, asked, times, tally)),
            Err(failure) => Ok(AnyReply::plain(failed(failure))),
        };
    }
    let ran = run_by_carrier(rt, alloc, options.carrier, &asked.job);
    match ran {
        Ok(ran) => Ok(ran_reply(alloc, options.is_strict, asked, ran)),
        Err(failure) => Ok(AnyReply::plain(failed(failure))),
    }
}

/// What the ranks of a job did, by this carrier.
pub fn run_by_carrier<R: Threads + Wait + Sync>(
    rt: &R,
    alloc: Global,
    carrier: Carrier,
    job: &Job,
) -> Result<Ran, Failure>
    ensures ran { IfOk result (λ ran. RanTo job.now ran.reports.items ran.is_at_rest) }
    ensures shown { IfErr result (λ failure. IsShown job.now failure) }
{
    match carrier {
        Carrier::Lanes => run_by_lanes(rt, alloc, job),
        Carrier::Shared => run_by_shared(rt, alloc, job),
    }
}

/// What the ranks of a job did, with a ring for each ordered pair.
fn run_by_lanes<R: Threads + Wait + Sync>(rt: &R, alloc: Global, job: &Job) -> Result<Ran, Failure>
    ensures ran { IfOk result (λ ran. RanTo job.now ran.reports.items ran.is_at_rest) }
    ensures shown { IfErr result (λ failure. IsShown job.now failure) }
{
    match lanes_of(alloc, job) {
        Ok(ends) => run_by(rt, alloc, job, ends),
        Err(_) => Err(Failure::OutOfMemory),
    }
}

/// The ends of a job's ranks by rings, each of which has as many places as the job says.
fn lanes_of(alloc: Global, job: &Job) -> Result<Vec<LaneEnds>, CallError>
    ensures each { IfOk result (λ ends. vec_len ends ≡ job.now.ranks) }
    ensures family { IfOk result (λ ends. OneLanesCall (map lane_name ends.items)) }
    ensures places { IfOk result (λ ends. InPlace (λ (e : Lanes). e.me.number) ends.items) }
    ensures fresh { IfOk result (λ ends. AllFresh (λ (e : Lanes). vec_len e.outs) lane_pushed lane_taken IsReadyLane ends.items) }
    ensures room { IfOk result (λ ends. (k d : ℕ) (e : Lanes) → at ends.items k e → d < job.now.ranks → known_room e d ≡ job.now.capacity) }
{
    lanes(alloc, job.ranks(), job.capacity())
}

/// What the ranks of a job did, with one inbox for each rank.
fn run_by_shared<R: Threads + Wait + Sync>(rt: &R, alloc: Global, job: &Job) -> Result<Ran, Failure>
    ensures ran { IfOk result (λ ran. RanTo job.now ran.reports.items ran.is_at_rest) }
    ensures shown { IfErr result (λ failure. IsShown job.now failure) }
{
    match shared_of(alloc, job) {
        Ok(ends) => run_by(rt, alloc, job, ends),
        Err(_) => Err(Failure::OutOfMemory),
    }
}

/// The ends of a job's ranks by shared inboxes, each of which has as many places as the job says.
fn shared_of(alloc: Global, job: &Job) -> Result<Vec<SharedEnds>, CallError>
    ensures each { IfOk result (λ ends. vec_len ends ≡ job.now.ranks) }
    ensures family { IfOk result (λ ends. OneSharedCall (map shared_name ends.items)) }
    ensures places { IfOk result (λ ends. InPlace (λ (e : Shared). e.me.number) ends.items) }
    ensures fresh { IfOk result (λ ends. AllFresh (λ (e : Shared). vec_len e.outs) shared_pushed shared_taken IsReadyShared ends.items) }
    ensures capacities { IfOk result (λ ends. (k d : ℕ) (e : Shared) → at ends.items k e → d < job.now.ranks → inbox_capacity e d ≡ job.now.capacity) }
{
    shared(alloc, job.ranks(), job.capacity())
}

/// What the ranks of a job did, each in a thread of its own with its end of a carrier.
fn run_by<E: Ends + Send, R: Threads + Wait + Sync>(
    rt: &R,
    alloc: Global,
    job: &Job,
    ends: Vec<E>,
) -> Result<Ran, Failure>
    requires each { length ends.items ≡ job.now.ranks }
    requires family { E.one_call (map E.name ends.items) }
    requires places { InPlace E.place ends.items }
    requires fresh { AllFresh E.count E.pushed E.taken E.ready ends.items }
    ensures ran { IfOk result (λ ran. RanTo job.now ran.reports.items ran.is_at_rest) }
    ensures shown { IfErr result (λ failure. IsShown job.now failure) }
{
    let deciders = match seats_of(alloc, job) {
        Ok(deciders) => deciders,
        Err(_) => return Err(Failure::OutOfMemory),
    };
    match run_job(rt, alloc, job, ends, deciders) {
        Ok(report) => fitting(job, report),
        Err(fault) => match failure_of(fault) {
            Some(failure) => Err(failure),
            None => unreachable!(),
        },
    }
}

/// What the ranks of a job did, if rings of the job's places allow it and what is left in the inboxes, and whether they came to rest.
fn fitting<E: Drop, D: Drop>(job: &Job, report: Report<E, D>) -> Result<Ran, Failure>
    requires lawful { (knows : List Known) × LawfulReport job.now (contents report.residue.inboxes.items) knows report.ranks.items }
    requires own { AreOfRanks job.now (contents report.residue.inboxes.items) }
    ensures ran { IfOk result (λ ran. RanTo job.now ran.reports.items ran.is_at_rest) }
    ensures shown { IfErr result (λ failure. IsShown job.now failure) }
{
    if !fits(&report, job.capacity()) {
        return Err(Failure::Untrue);
    }
    let is_at_rest = at_rest(&report);
    Ok(Ran {
        reports: report.ranks,
        is_at_rest,
    })
}

/// The seats of a job's ranks at one board.
fn seats_of(alloc: Global, job: &Job) -> Result<Vec<Seat>, CallError>
    ensures each { IfOk result (λ seats. vec_len seats ≡ job.now.ranks) }
    ensures one_board { IfOk result (λ seats. OneBoard ⟦<Seat as Decider>⟧.board seats.items) }
    ensures nothing_known { IfOk result (λ seats. All (λ seat. ⟦<Seat as Decider>⟧.known seat ≡ nothing_known) seats.items) }
{
    seats(alloc, job.ranks())
}
