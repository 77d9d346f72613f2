//! Schedules as values: what ranks do one after another, which message each receive gets, what came of each rank, and what open steps wait for.
//!
//!     push_schedule(&mut text, &job, &schedule)?;
//!     let needed = awaited(alloc, rank, rank.log(), need)?;
//!
//! A [`Schedule`] is made of a world by `ulfm_replay`, which also says by contracts that its text is the one of that world. Words, JSON and the
//! pictures of `ulfm_draw` are printed from it. [`replayed`] gives that of a replay, by the reports of its ranks, with what the steps that it gave
//! up wait for.
//!
//! It promises, each call by one clause:
//!
//! - [`push_schedule`]: the words of a schedule: its moves, a line each, the trace that it leaves, and what steps wait for (Words.antt);
//!   [`push_passed`], [`push_end`], [`push_waits`]: those of its lines that name no step.
//! - [`awaited`], [`due_of`], [`would_bring`]: what a step waits for that stands open, of which ranks, and which step of a rank would bring it
//!   (Waits.antt).
//! - `Wait::of`, [`push_wait`]: the same as a value, and in words (Values.antt).
//!
//! Files:
//!
//! - `schedule.rt`, `moved.rt`, `cargo.rt`, `parcel.rt`, `course.rt`: a schedule and its parts; `numbers.rt`: its messages by number
//! - `replaying.rt`, `under_way.rt`, `given_up.rt`: the schedule of a replay
//! - `need.rt`, `awaiting.rt`: what a step waits for, and of whom; `bearing.rt`, `bearer.rt`: who would bring it
//! - `wait.rt`, `missed.rt`, `held.rt`, `remark.rt`: an open step as it is told; `wait_words.rt`: its words
//!
//! Not here: the moves of a world's events (`ulfm_replay`). No contract says anything of the numbers of messages, of what moves send, nor of
//! [`replayed`]. Pictures, which show them, are held byte for byte by `tools/gate/check-pictures`.
#![tactic(auto)]

mod awaiting;
mod bearer;
mod bearing;
mod cargo;
mod course;
mod given_up;
mod held;
mod missed;
mod moved;
mod need;
mod numbers;
mod parcel;
mod remark;
mod replaying;
mod schedule;
mod under_way;
mod wait;
mod wait_words;

pub use awaiting::{awaited, position_by};
pub use bearer::{Bearer, Fate};
pub use bearing::{due_of, need_of, would_bring};
pub use cargo::{Cargo, push_cargo};
pub use course::{Course, End, push_end};
pub use moved::{Deed, Move, push_passed};
pub use need::Need;
pub use numbers::{Before, Numbers};
pub use parcel::Parcel;
pub use remark::Remark;
pub use replaying::replayed;
pub use schedule::{Schedule, push_schedule, push_waits};
pub use wait::{Wait, WaitingStep};
pub use wait_words::{push_bringing, push_named, push_needed, push_wait};
