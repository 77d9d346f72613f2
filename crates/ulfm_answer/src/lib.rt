//! The answers of a rank's steps, their words, and what a job asks of them.
//!
//!     if is_played(alloc, job.conditions(), me, done) { .. }
//!     push_answer(&mut text, &report.answer)?;
//!
//! A job's conditions and expectations compare the words of an answer with their own, without a text: [`fulfils`] and [`holds_of`] follow the words
//! as they are put. Read Told.antt first (what is told of an answer, and its code).
//!
//! It promises, each call by one clause that names its whole result:
//!
//! - [`is_played`], [`fulfils`]: a step is played exactly where it has no condition, or all those of one alternative hold of the rank's own answers
//!   so far (`is_played`, `fulfils`, Reacting.antt).
//! - [`each_met`], [`holds_of`]: whether answers are as their steps expect (`each_met`, `holds_of`, Reacting.antt).
//! - [`push_answer`], [`push_told`], [`push_steps`], [`push_closing`]: the words of an answer and the lines of a trace, byte for byte; if a growth is
//!   refused, the text stays as it was (`told_text`, `trace_of`, Trace.antt).
//! - [`push_code`], `ToldAnswer::read`: the code of an answer, read back, gives what is told of it.
//!
//! Files:
//!
//! - `answer.rt`: what comes of a step; `told_answer.rt`: what is told of it; `codes.rt`, `reading.rt`: its code, there and back
//! - `putting.rt`, `sink.rt`, `bytes.rt`: its words, piece by piece; `lines.rt`: the lines of a trace
//! - `follow.rt`: whether the words begin so; `conditions.rt`, `expectations.rt`: what a job asks of them
//!
//! Not here: which answer a step gets (`ulfm_script`).
#![tactic(auto)]

mod answer;
mod bytes;
mod codes;
mod conditions;
mod expectations;
mod follow;
mod lines;
mod putting;
mod reading;
mod sink;
mod told_answer;

pub use answer::{StepAnswer, StepReport};
pub use bytes::Bytes;
pub use codes::push_code;
pub use conditions::{fulfils, is_played};
pub use expectations::{each_met, holds_of};
pub use follow::begins_told;
pub use lines::{push_answer, push_closing, push_steps, push_told};
pub use putting::numbers_of;
pub use told_answer::ToldAnswer;
