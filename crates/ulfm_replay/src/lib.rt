//! The replay of a job, round by round, and that of the job with one more stop, at each place in turn; and schedules as values, made of worlds.
//!
//!     let reports = replay(alloc, &job)?;
//!     let moves = replay_in_order(alloc, &job)?.moves;
//!     let lines = sweep(alloc, &job)?;
//!
//! A [`Recorder`] keeps the moves of events that a world plays, whoever chooses them:
//!
//!     let underway = recorder.before(&job, &world, &event)?;
//!     world.apply(event)?;
//!     recorder.after(&job, &world, underway)?;
//!
//! It promises, by the clauses of each call:
//!
//! - [`replay`] (`settled`, `refused`): it returns. Its reports are those of a run of the world that ends at rest, and it gives a step up exactly
//!   after as many polls as the job grants (`IsReplayed`, `MadeAtRest`, Replay.antt of `ulfm_world`). So all laws of `ulfm_world` hold of it: each
//!   excluded rank had stopped before the decision was made (`made`), no answer is 11, no decision is untrue, and all logs have one order, before
//!   any report is looked at. Only out of memory refuses it. [`replay_in_order`] ensures the same.
//! - [`sweep`] (`places`, `swept`, `full`, `memory`): there is a line for each place of a stop, in order, which counts the answers of a replay of
//!   the job with that stop (`places_of`, `IsSwept`, Sweep.antt).
//! - [`Recorder`], [`courses_of`], [`waits_of`]: each value has the words of the world, so a schedule that is printed is the one that was played.
//!   Read Lines.antt (the events), then Turns.antt, Ranks.antt (the trace) and Waits.antt (what open steps wait for).
//!
//! Files:
//!
//! - `rounds.rt`: [`replay`], round by round; `rounds/polling.rt`: the polls of a round
//! - `recording.rt`: the moves of a replay, where they are asked for; `played.rt`: the reports with these
//! - `sweeps.rt`: [`sweep`]; `line.rt`, `kind.rt`: its lines, and the kinds of answers that they count; `fault.rt`: why it fails
//! - `recorder.rt`: [`Recorder`], which keeps the moves; `lines.rt`: the move of an event
//! - `ranks.rt`: [`courses_of`], what came of ranks; `waits.rt`: [`waits_of`], what open steps wait for
//!
//! Not here: the types of a schedule, and its text (`ulfm_schedule`); that memory suffices. No contract says in which order rounds follow one
//! another, nor anything of a replay's moves and of which message a move has.
#![tactic(auto)]

mod fault;
mod kind;
mod line;
mod lines;
mod played;
mod ranks;
mod recorder;
mod recording;
mod rounds;
mod sweeps;
mod waits;

pub use fault::SweepFault;
pub use line::SweepLine;
pub use played::Played;
pub use ranks::courses_of;
pub use recorder::{Recorder, Underway};
pub use rounds::{replay, replay_in_order};
pub use sweeps::sweep;
pub use waits::waits_of;
