//! The result of a job in the forms that are written: in plain words or MPI's, for people, and as JSON, an object a line, for programs. The keys of
//! objects are in docs/JSON.md and in jobs/output.schema.json.
//!
//!     push_steps(&mut text, names, &job, rank, report.steps())?;
//!
//! Each call promises by one clause which text it adds:
//!
//! - [`push_steps`], [`push_end`]: a trace as JSON has an object for each line of the trace in words, with the names that were read of its steps
//!   (`trace_json`, Trace.antt; in either form: `trace_in`, Form.antt).
//! - [`push_head`] begins the object of a step, and [`push_answered`] one with its answer: what lists and schedules share with traces.
//! - [`push_call_in`], [`push_told_in`], [`push_answer_in`], [`push_lines_in`]: a call, an answer and lines in the words of a [`Wording`]
//!   (Worded.antt, WordedTrace.antt; MPI's: MpiCall.antt, MpiAnswer.antt).
//!
//! Files:
//!
//! - `trace.rt`: steps and the ends of ranks as objects; `call.rt`: what a step asks for; `answer.rt`: what it was answered; `error.rt`: refusals;
//!   `parts.rt`: texts and lists of objects
//! - `worded.rt`, `worded_trace.rt`: calls, answers and traces in plain words or MPI's, of `mpi_call.rt` and `mpi_answer.rt`
//! - `form.rt`: words or JSON; `wording.rt`: whose words; `style.rt`: the forms of a picture
//!
//! Not here: the objects of lists (`ulfm_outcomes_list`) and of sweeps (`ulfm_run_reply`). It isn't proved that the output is JSON by its schema:
//! tools/gate/check-json looks at that.
#![tactic(auto)]

mod answer;
mod call;
mod error;
mod form;
mod mpi_answer;
mod mpi_call;
mod parts;
mod style;
mod trace;
mod worded;
mod worded_trace;
mod wording;

pub use call::{push_comm, push_tag};
pub use form::Form;
pub use parts::{push_objects, push_texts};
pub use style::Style;
pub use trace::{push_answered, push_end, push_ended, push_head, push_steps};
pub use worded::{push_answer_in, push_call_in, push_told_in};
pub use worded_trace::{push_call_at, push_line_in, push_lines_in};
pub use wording::Wording;
