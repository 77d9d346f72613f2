//! Jobs: what the ranks are to do, and where they stop.
//!
//! A [`Job`] has 1 to 8 ranks and 1 to 256 steps in all, or none. A [`Step`] is one call of a rank. A [`Condition`] is asked of an earlier answer
//! for a step to be played, a [`Clause`] is what a step expects of its answer. A [`LeftStep`] may be given up while it stands open. By a [`Naming`] a
//! step is on the communicator that an earlier one was answered; [`Asked`] is a step as it is played, on that one. `ulfm_reader`
//! reads a job from its text, and all that plays one stands on this crate:
//!
//!     for step in job.script(rank) { .. }
//!     let job = job.with_stop(rank, at)?;
//!
//! A [`Place`] says before which of their steps one or two ranks stop, as the file of the job numbers them, or that none does:
//!
//!     let Some(place) = Place::parse("0.2+1.3") else { .. };
//!     let job = place.job(alloc, &job)?;
//!     for place in &places(alloc, &job, 1)? { .. }
//!
//! A job always keeps its limits: that is its invariant, `IsJob`. Read Job.antt first, then Words.antt (a step in the words of traces) and
//! Begins.antt (when an answer begins as a clause says).
//!
//! It promises:
//!
//! - [`Job`], `with_turns`, `with_stop`, `with_left`: a job with other turns, one more stop, or one more step that may be given up early, is the
//!   same in all else (`with_turns`, `with_stop`, `with_left`, Job.antt).
//! - [`Place`], `job`: the job at a place is the job with its stops, one before each named step, in the numbers of the file; or behind it, where the
//!   rank dies inside it, and the step may be given up. It is refused where it would have more than 256 steps (`job_at`, Place.antt).
//! - [`places`]: the places of a job are listed in their order, up to a stop of each rank that is always played (`places_of`, Places.antt). Each is
//!   inside the job (`IsPlaceOf`, Place.antt).
//! - [`Place`], `parse`: a text is read as the place that is written so, or as none (`place_of_text`, `place_text`, Text.antt); [`unstarred`]: what
//!   stands before its star.
//!
//! Files:
//!
//! - `job.rt`, `limits.rt`, `fault.rt`: a job, its limits, and why one is refused; `copied.rt`: a job once more
//! - `op.rt`: the ops, by their names, their keys, and how their answers begin, in one table (Ops.antt)
//! - `step.rt`: a step; `words.rt`: its words; `copying.rt`: it once more; `noted_step.rt`: as a report keeps it; `label.rt`, `text.rt`, `texts.rt`:
//!   its texts; `asked.rt`: as it is played (Naming.antt)
//! - `condition.rt`, `clause.rt`: what is asked of answers; `left_step.rt`, `joint.rt`: steps that may be given up, and those that ranks decide
//!   together; `naming.rt`: those on communicators that earlier ones make
//! - `place.rt`, `stop.rt`: where ranks stop; `place_text.rt`: a place as it is read; `digits.rt`: a number as it is read (Digits.antt);
//!   `job_places.rt`: [`places`], all of a job; `job_stops.rt`: its own stops
//! - `script_with_stop.rt`, `shifted_numbers.rt`: a script with one more stop, and the numbers of its steps then
//!
//! Not here: whether a job gets stuck, or what its steps are answered.
#![tactic(auto)]

mod asked;
mod clause;
mod condition;
mod copied;
mod copying;
mod digits;
mod fault;
mod job;
mod job_places;
mod job_stops;
mod joint;
mod label;
mod left_step;
pub mod limits;
mod naming;
mod noted_step;
mod op;
mod place;
mod place_text;
mod script_with_stop;
mod shifted_numbers;
mod step;
mod stop;
mod text;
mod texts;
mod words;

pub use asked::{Asked, Sending};
pub use clause::Clause;
pub use condition::Condition;
pub use copied::expecting;
pub use digits::{is_number, number_in};
pub use fault::{Fault, JobFault};
pub use job::Job;
pub use job_places::places;
pub use job_stops::own_stops;
pub use label::Label;
pub use left_step::LeftStep;
pub use limits::MOST_STEPS;
pub use naming::Naming;
pub use noted_step::{NotedStep, NotedWords};
pub use op::{OPS, Op};
pub use place::Place;
pub use place_text::unstarred;
pub use step::Step;
pub use stop::Stop;
pub use text::Text;
pub use texts::Texts;
pub use words::{CalledComm, StepWords};
