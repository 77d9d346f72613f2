//! The player of a rank's steps, and the trace of what came of them.
//!
//! A [`Player`] is a rank with a script. It polls the next step, and answers it or leaves it open:
//!
//!     let called = player.call(&asked);
//!
//! [`turn`] is one turn of a rank over the hands of its caller: items go out, one comes in, a step is polled. [`trace_text`] prints what all ranks
//! report. Read Calls.antt first (what a poll says), then Answered.antt (what a report owes).
//!
//! It promises:
//!
//! - [`Player`], `call` (`called`): each poll answers its step by the rank's log, or leaves it open by it (`AnswersStep`, `LeavesOpen`, Calls.antt).
//! - [`Player`], `decide` (`decides`): the first poll of a shrink or an agreement enters it. Later, where the rank has a proposal, it is handed in,
//!   and what the board holds is adopted and told (`IsDecided`, `AnswersDecision`, Deciding.antt).
//! - [`Player`], `is_next_played`, `skip`: a step is played exactly where it has no condition, or all those of one alternative hold of the rank's
//!   own answers so far (`is_played`, `fulfils`, Reacting.antt of `ulfm_answer`).
//! - [`next_step`]: a step that names an earlier one is played on the communicator that this one was answered, and on one that no rank makes where it
//!   was answered none (`meant`, Meant.antt; [`nowhere_is_never_made`]).
//! - [`trace_text`], [`all_met`]: the trace is the text of the reports, byte for byte, a line for each answer (`trace_of`, Trace.antt of
//!   `ulfm_answer`). Whether all answers are as their steps expect is told (`all_met`, Reacting.antt of `ulfm_answer`).
//!
//! Files:
//!
//! - `player.rt`, with `player/` for polls, decisions, items and copies; `called.rt`: what came of a poll
//! - `poll.rt`, `receiving.rt`, `joint.rt`, `topic.rt`, `members.rt`: one poll, by the kind of its step; `meant.rt`: which is next
//! - `hands.rt`: a turn; `report.rt`, `trace.rt`, `expected.rt`: what a rank did, its text, and whether it is as the job expects
//! - `fault.rt`: why a run fails; `law.rt`: a law of communicators that weren't made
//!
//! Not here: whose turn it is. The trace as JSON is in `ulfm_forms`.
#![tactic(auto)]

mod called;
mod expected;
mod fault;
mod hands;
mod joint;
mod law;
mod meant;
mod members;
mod player;
mod poll;
mod receiving;
mod report;
mod topic;
mod trace;

pub use called::{Called, Decided};
pub use expected::all_met;
pub use fault::RunFault;
pub use hands::{Hands, turn};
pub use law::nowhere_is_never_made;
pub use meant::{NOWHERE, made_at, meant_by, next_step, played_at};
pub use player::Player;
pub use receiving::{message_at, request_at};
pub use report::RankReport;
pub use topic::{last_round, topic_of};
pub use trace::trace_text;
