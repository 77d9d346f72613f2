//! A thread for each rank.
ghost use Rattle.std.specs.Prelude.{◌≡◌, ◌≤◌, ◌++◌, [], All, vec_len, vec_capacity, IfSome, IfOk, IfErr, OnOk};
ghost use Rattle.ulfm_carrier.specs.Family.{IsFresh};
ghost use Rattle.ulfm_script.specs.inside.SoFar.{AnswersFollowSoFar};
ghost use Rattle.ulfm_run.specs.Fault.{Fits};
ghost use Rattle.ulfm_run.specs.inside.Joined.{IsAtWork};
ghost use Rattle.ulfm_run.specs.inside.Threads.{begun_ends, begun_deciders, IsOfJob, EachFresh, WerePlayed, GaveAnswers};

use crate::finished::Finished;
use crate::worker::{Ran, Worker};
use std::alloc::Global;
use std::snapshot::Snapshot;
use std::sync::Wait;
use std::sync::atomic::AtomicU8;
use std::thread;
use std::thread::{Promise, PromisedHandle, Scope, Threads};
use ulfm_board::Decider;
use ulfm_carrier::Ends;
use ulfm_job::Job;
use ulfm_script::Player;

/// Why the ranks of a job weren't played.
#[derive(Drop)]
pub(crate) enum Unplayed {
    /// A thread couldn't be started.
    NoThread,
    /// A growth was refused.
    OutOfMemory,
}

/// What a rank's thread began with. It has no bytes.
#[derive(Drop)]
pub(crate) struct Begun<E, D> {
    pub(crate) job: Snapshot<Job>,
    pub(crate) end: Snapshot<E>,
    pub(crate) decider: Snapshot<D>,
}

impl<E: Ends, D: Decider> Promise<Ran<E, D>> for Begun<E, D> {
    ghost use Rattle.std.specs.Prelude.{◌≡◌};
    ghost use Rattle.ulfm_script.specs.Answered.{AnswersFollow};
    ghost use Rattle.ulfm_run.specs.inside.Played.{IsPlayed};

    ghost kept_by = { λ p r. IsPlayed E.name E.place E.count E.pushed E.taken E.ready p.job.value p.end.value r.report r.end × (D.board r.decider ≡ D.board p.decider.value) × AnswersFollow (D.known r.decider) r.report };
}

/// What the threads of a job's ranks share.
#[derive(Drop)]
struct Shared<'s, R> {
    /// Who starts them, and lets them wait.
    rt: &'s R,
    /// Where they grow.
    alloc: Global,
    /// The job that they play.
    job: &'s Job,
    /// How many of them have finished.
    finished: &'s Finished,
}

/// A rank that goes to work, with room for the answers of its steps.
fn new_worker<E: Ends, D: Decider>(
    alloc: Global,
    job: &Job,
    end: E,
    decider: D,
) -> Result<Worker<E, D>, Unplayed>
    requires fresh { IsFresh E.count E.pushed E.taken E.ready job.now.ranks end }
    ensures at_work { IfOk result (λ w. IsAtWork E.place E.count E.pushed E.taken E.ready job.now (E.place end) w.player w.end) }
    ensures honest { IfOk result (λ w. AnswersFollowSoFar (D.known w.decider) w.player.player) }
    ensures parts { IfOk result (λ w. (w.end ≡ end) × (w.decider ≡ decider)) }
    ensures starves { IfErr result (λ fault. fault ≡ Unplayed.OutOfMemory) }
{
    let me = end.me().number;
    let steps = job.script_len(me) as u16;
    let Ok(player) = Player::new(alloc, me, job.ranks(), steps) else {
        return Err(Unplayed::OutOfMemory);
    };
    // It tells that its rank is sound.
    let _ = player.me();
    Ok(Worker {
        player,
        end,
        decider,
        starved: 0,
    })
}

/// Starts a rank's thread. Nothing: no thread could be started.
fn start<'s, X: 's, E, D, R>(
    scope: &Scope<'s, X>,
    shared: &Shared<'s, R>,
    me: u8,
    worker: Worker<E, D>,
) -> Option<PromisedHandle<Ran<E, D>, Begun<E, D>>>
where
    E: Ends + Send + 's,
    D: Decider + Send + 's,
    R: Threads + Wait + Sync,
    requires place { E.place worker.end ≡ me }
    requires at_work { IsAtWork E.place E.count E.pushed E.taken E.ready shared.now.job.now me worker.player worker.end }
    requires honest { AnswersFollowSoFar (D.known worker.decider) worker.player.player }
    ensures { IfSome result (λ h. (h.promise.job.value ≡ shared.now.job.now) × (h.promise.end.value ≡ worker.end) × (h.promise.decider.value ≡ worker.decider)) }
{
    let rt = shared.rt;
    let job = shared.job;
    let finished = shared.finished;
    let begun = Begun {
        job: Snapshot::of(job),
        end: Snapshot::of(&worker.end),
        decider: Snapshot::of(&worker.decider),
    };
    scope
        .spawn_with(begun, move || worker.play(rt, job, finished, me))
        .ok()
}

/// Makes a rank ready, and starts its thread.
fn start_rank<'s, X: 's, E, D, R>(
    scope: &Scope<'s, X>,
    shared: &Shared<'s, R>,
    end: E,
    decider: D,
) -> Result<PromisedHandle<Ran<E, D>, Begun<E, D>>, Unplayed>
where
    E: Ends + Send + 's,
    D: Decider + Send + 's,
    R: Threads + Wait + Sync,
    requires fresh { IsFresh E.count E.pushed E.taken E.ready shared.now.job.now.ranks end }
    ensures { IfOk result (λ h. (h.promise.job.value ≡ shared.now.job.now) × (h.promise.end.value ≡ end) × (h.promise.decider.value ≡ decider)) }
{
    let me = end.me().number;
    let worker = new_worker(shared.alloc, shared.job, end, decider)?;
    match start(scope, shared, me, worker) {
        Some(handle) => Ok(handle),
        None => Err(Unplayed::NoThread),
    }
}

/// Starts a thread for each rank, in order, as far as that can be done: once it is seen that ends and deciders fit the job.
fn start_all<'s, X: 's, E, D, R>(
    scope: &Scope<'s, X>,
    shared: &Shared<'s, R>,
    ends: Vec<E>,
    deciders: Vec<D>,
    handles: Vec<PromisedHandle<Ran<E, D>, Begun<E, D>>>,
) -> (
    Vec<PromisedHandle<Ran<E, D>, Begun<E, D>>>,
    Result<(), Unplayed>,
)
where
    E: Ends + Send + 's,
    D: Decider + Send + 's,
    R: Threads + Wait + Sync,
    requires room { (handles.items ≡ []) × (vec_len ends ≤ vec_capacity handles) }
    requires fits { Fits E.place shared.now.job.now ends.items deciders.items }
    requires fresh { EachFresh E.count E.pushed E.taken E.ready shared.now.job.now.ranks ends.items }
    ensures ends { OnOk result.1 (begun_ends result.0.items ≡ ends.items) }
    ensures deciders { OnOk result.1 ((rest : _) × (begun_deciders result.0.items ++ rest ≡ deciders.items)) }
    ensures jobs { All (IsOfJob shared.now.job.now) result.0.items }
{
    let mut handles = handles;
    let mut deciders = deciders.into_iter();
    for end in ends {
        let Some(decider) = deciders.next() else {
            unreachable!();
        };
        match start_rank(scope, shared, end, decider) {
            Ok(handle) => handles.push_reserved(handle),
            Err(fault) => return (handles, Err(fault)),
        }
    }
    (handles, Ok(()))
}

/// Starts all ranks in a scope, and joins them. What they give back stands in rank order.
fn run_in<'s, X: 's, E, D, R>(
    scope: &Scope<'s, X>,
    shared: &Shared<'s, R>,
    ends: Vec<E>,
    deciders: Vec<D>,
) -> Result<Vec<Ran<E, D>>, Unplayed>
where
    E: Ends + Send + 's,
    D: Decider + Send + 's,
    R: Threads + Wait + Sync,
    requires fits { Fits E.place shared.now.job.now ends.items deciders.items }
    requires fresh { EachFresh E.count E.pushed E.taken E.ready shared.now.job.now.ranks ends.items }
    ensures played { IfOk result (λ ran. WerePlayed E.name E.place E.count E.pushed E.taken E.ready D.board shared.now.job.now ends.items deciders.items ran.items) }
    ensures answers { IfOk result (λ ran. All (GaveAnswers D.known) ran.items) }
{
    let Ok(handles) = Vec::with_capacity(shared.alloc, ends.len()) else {
        return Err(Unplayed::OutOfMemory);
    };
    let (handles, started) = start_all(scope, shared, ends, deciders, handles);
    match thread::join_promised(shared.rt, handles) {
        Ok(ran) => match started {
            Ok(()) => Ok(ran),
            Err(fault) => Err(fault),
        },
        Err(refused) => {
            for handle in refused.value {
                drop(handle.join(shared.rt));
            }
            match started {
                Ok(()) => Err(Unplayed::OutOfMemory),
                Err(fault) => Err(fault),
            }
        }
    }
}

/// Plays each rank in a thread of its own, which borrows the job. What they give back stands in rank order.
///
/// # Errors
///
/// `NoThread` where a thread couldn't be started, `OutOfMemory` where a growth was refused; the threads that were
/// started have run to their end then.
pub(crate) fn play_all<E, D, R>(
    rt: &R,
    alloc: Global,
    job: &Job,
    ends: Vec<E>,
    deciders: Vec<D>,
) -> Result<Vec<Ran<E, D>>, Unplayed>
where
    E: Ends + Send,
    D: Decider + Send,
    R: Threads + Wait + Sync,
    requires fits { Fits E.place job.now ends.items deciders.items }
    requires fresh { EachFresh E.count E.pushed E.taken E.ready job.now.ranks ends.items }
    ensures played { IfOk result (λ ran. WerePlayed E.name E.place E.count E.pushed E.taken E.ready D.board job.now ends.items deciders.items ran.items) }
    ensures answers { IfOk result (λ ran. All (GaveAnswers D.known) ran.items) }
{
    let none = Finished {
        count: AtomicU8::new(0),
    };
    let finished = &none;
    thread::scope(
        thread::scope_env(),
        rt,
        |scope| -> Result<Vec<Ran<E, D>>, Unplayed>
            requires fits { Fits E.place job.now ends.items deciders.items }
            requires fresh { EachFresh E.count E.pushed E.taken E.ready job.now.ranks ends.items }
            ensures played { IfOk result (λ ran. WerePlayed E.name E.place E.count E.pushed E.taken E.ready D.board job.entry.now ends.items deciders.items ran.items) }
            ensures answers { IfOk result (λ ran. All (GaveAnswers D.known) ran.items) }
        {
            let shared = Shared {
                rt,
                alloc,
                job,
                finished,
            };
            run_in(scope, &shared, ends, deciders)
        },
    )
}
