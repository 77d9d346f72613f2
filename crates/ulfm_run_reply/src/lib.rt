//! The replies of `replay`, `run`, `sweep` and `draw`: what comes of a job that is played.
//!
//!     let reply = replay_reply(alloc, is_strict, turns, place, bytes)?;
//!     let text = reply.body.text(alloc, form)?;
//!
//! Each call promises by one clause, of the text that its reply has in a form ([`AnyBody`]: `text_in`, AnyBody.antt): a reply is a value, and is
//! printed at the end. `run_reply` and `draw_reply` are told the form: repeated traces are counted by their texts, and of what a picture shows there
//! is no contract. They rest on `replay` and `sweep` of `ulfm_replay` and on `run_job`, `at_rest` and `fits` of `ulfm_run`. Read
//! Played.antt first, then Tally.antt and Brief.antt (runs that are repeated).
//!
//! - [`replay_reply`]: the trace is that of a replay, which is lawful for the job and ends at rest (`IsReplayReply`, Played.antt).
//! - [`run_reply`]: the trace is of reports that are lawful for the job, have an order that rings of its `capacity` allow, and leave no more of any
//!   sender in an inbox than these have places (`IsRunReply`, Played.antt).
//! - Both: a trace comes with 9 exactly where an answer isn't as its step expects, or all answers of a row of `never` came; otherwise by `--strict`
//!   with 6 exactly where a step is unfinished, but for one that its rank may give up to die inside it; otherwise with 0. A row that names a step
//!   inside which its rank may die isn't looked at (`as_asked`, Asking.antt; `played_status`, Unfinished.antt; `is_looked_at`, Asking.antt of
//!   `ulfm_command_line`).
//! - [`run_reply`] fails with F2 for good jobs alone, and with F4 only where some reports of the job's ranks show an untrue decision, an answer of
//!   11, or no one order; or where some lawful ones have no order that rings of its `capacity` allow, or leave more of a rank in an inbox than these
//!   have places. There is an inbox for each rank, and nothing is left in it of others (`failed_in`, Failure.antt of `ulfm_command_line`;
//!   `ShowUntrue`, Fault.antt of `ulfm_run`; `ShowNoRoom`, `AreOfRanks`, Played.antt).
//! - [`run_reply`]: as JSON an object below the trace says whether nothing waits for any running rank. Then these know what failed and was revoked
//!   (`RanTo`, Played.antt; `rest_in`, Rest.antt; `rest` of `LawfulReport`, Lawful.antt of `ulfm_report_laws`).
//! - With `--turns N` a replay or a run is one of the job with `turns = N` (`given_turns`, Played.antt).
//! - With `--repeat N` there are `N` lists of lawful reports, and each distinct trace is written once, with its count. With `--brief` too, each
//!   distinct line is (`repeats_in`, Brief.antt).
//! - [`sweep_reply`]: a line for each place of a stop, in order, as `ulfm_replay` promises them (`IsSweepReply`, `sweep_in`, Sweep.antt).
//! - [`draw_reply`]: with 0 the job was replayed (`IsDrawReply`, Played.antt).
//! - A trace is the text of the reports, byte for byte, in words or as JSON (`trace_in`, Form.antt of `ulfm_forms`).
//!
//! Files:
//!
//! - `replayed.rt`, `run.rt`, `swept.rt`, `picture.rt`: the four replies
//! - `any_reply.rt`: a reply, also one of no play; `any_body.rt`: what is written with its status, and its text
//! - `trace.rt`: the reply that a trace is, with its status; `traced.rt`: its text, in words or as JSON; `ran.rt`: what came of a run, and its text
//! - `demands.rt`: whether answers are as the job asks
//! - `tally.rt`: `run --repeat`, each trace once with its count; `lines_at.rt`: each line once, place by place; `line_at.rt`: one of them;
//!   `brief.rt`: what is printed of them
//! - `turns.rt`: the job with the turns of `--turns`; `faults.rt`: why a run has no trace
//! - `remarks.rt`: what standard error is to tell of the reports
//!
//! Not here: that a run ends or comes to rest, and what a picture shows. No contract speaks of what is told on standard error.
#![tactic(auto)]

mod any_body;
mod any_reply;
mod brief;
mod demands;
mod faults;
mod line_at;
mod lines_at;
mod picture;
mod ran;
mod remarks;
mod replayed;
mod run;
mod swept;
mod tally;
mod trace;
mod traced;
mod turns;

pub use any_body::AnyBody;
pub use any_reply::AnyReply;
pub use lines_at::LinesAt;
pub use picture::draw_reply;
pub use ran::Ran;
pub use replayed::replay_reply;
pub use run::run_reply;
pub use swept::sweep_reply;
pub use tally::Counted;
