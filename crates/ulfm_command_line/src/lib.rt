//! Command lines, a job's text with the stops of a place, and the replies that need no engine: `check`, `expand`, `places`, and refusals.
//!
//!     let asked = asked_for(alloc, words)?;
//!     let reply = check_reply(alloc, bytes);
//!     let text = reply.body.text(alloc, asked.form)?;
//!
//! Read CommandLine.antt first, then Wish.antt (the parts of a command line that name steps), Holding.antt (what holds at a place of what a text
//! asks for), Stopped.antt, Named.antt (places by names), and then Replies.antt. It promises:
//!
//! - [`asked_for`] (`ok`, `form`, `wish`, `files`, `ranges`, `no_fault`, `told`): it answers what the words ask for (`meant`, CommandLine.antt),
//!   which files they name (`files_in`, CommandLine.antt), and the form of the reply (`form_asked`, CommandLine.antt). Words that can't be followed,
//!   or ask for help, are told so (`AsksFor`, `IsWordsStatus`, CommandLine.antt).
//! - [`asked_at`]: with `--stop PLACE` the answers are those of the job, its rows and its names with the stops of that place; a place that the job
//!   hasn't is refused (`IsAskedAt`, `IsRefusal`, Stopped.antt). A job may ask some things only before a step (docs/JOBS.md): they are asked where
//!   each stop lies before that step (`held_at`, Holding.antt).
//! - [`settled_place`]: a step may be named in a place: its number is that of the first step of the rank with this name, and where there is none the
//!   text is refused (`IsNamed`, `IsUnnamed`, Named.antt; `place_named`, Naming.antt).
//! - [`nowhere_is_as_read`]: this law says that without a stop the job is the one of the text.
//! - [`check_reply`]: whether the job is good, or the line of its refusal (`IsCheckReply`, `refused_in`, Replies.antt).
//! - [`expand_reply`]: a text whose TOML document is that of the job with its steps and rows written out, or the refusal of that text, if it is too
//!   long or nested too deep to be read (`IsExpandReply`, `IsWritten`, Expanded.antt).
//! - [`places_reply`]: the places of the job, a line each (`IsPlacesReply`, Places.antt; `places_of`, Places.antt of `ulfm_job`).
//! - [`Body`]: what a reply writes, whose text in a form is `body_in` (Body.antt).
//! - [`failed`]: the line of a failure, in either form (`failed_in`, `out_of_memory_text`, Failure.antt).
//!
//! Files:
//!
//! - words: `subcommands.rt`, `options.rt`, `flagged.rt` (what clap is told), `command.rt` (what was asked for), `list_options.rt`, `wish.rt`, `place_option.rt`
//!   and `number.rt` (parts of that), `unfollowed.rt` (the call, or what is said in its place)
//! - what else is said of words: `unmeant.rt`, `tips.rt`, `help.rt`, `version.rt`
//! - a text at a place: `reading_at_place.rt`, `holding.rt` (what is asked before the steps of a name), `looked_at.rt` (which rows count), `copied.rt` (parts
//!   of a reading once more), `laws.rt`; places by names: `place_names.rt`, `place_by_names.rt`
//! - replies: `reply.rt` (`check`, refusals, and the statuses of the program), `expansion.rt`, `nesting.rt` (how deep its document is), `place_lines.rt`
//!   (`places`), `failure.rt` (no trace), `body.rt` (what a reply writes, and its printer), `unknown.rt`
//! - for standard error alone: `remark.rt`, `unmet.rt`, `verdict_line.rt`
//!
//! Not here: replies that an engine makes (`ulfm_run_reply`, `ulfm_outcomes_reply`), and the way to the streams (`ulfm_program`). No contract speaks
//! of the words of help, of tips and of remarks.
#![tactic(auto)]

mod body;
mod command;
mod copied;
mod expansion;
mod failure;
mod flagged;
mod help;
mod holding;
mod laws;
mod list_options;
mod looked_at;
mod nesting;
mod number;
mod options;
mod place_by_names;
mod place_lines;
mod place_names;
mod place_option;
mod reading_at_place;
mod remark;
mod reply;
mod subcommands;
mod tips;
mod unfollowed;
mod unknown;
mod unmeant;
mod unmet;
mod verdict_line;
mod version;
mod wish;

pub use body::Body;
pub use command::{Asked, Carrier, ListOptions, RunOptions, Wanted};
pub use expansion::expand_reply;
pub use failure::{Failure, failed, failed_line};
pub use holding::{expects, holds_at, stops_at};
pub use laws::nowhere_is_as_read;
pub use looked_at::is_looked_at;
pub use options::MOST_THREADS;
pub use place_by_names::settled_place;
pub use place_lines::places_reply;
pub use reading_at_place::{asked_at, stopped_at};
pub use remark::{Remark, StepTold};
pub use reply::{
    DONE, INPUT_FAILED, JOB_REFUSED, NO_SCHEDULE, NOT_EXPECTED, OUTPUT_FAILED, PAST_LIMIT,
    RUN_FAILED, Reply, UNFINISHED, USAGE, check_reply, refusal,
};
pub use ulfm_forms::{Form, Wording};
pub use ulfm_job::Place;
pub use unfollowed::{Unfollowed, asked_for};
pub use unmet::push_unmet_answers;
pub use verdict_line::{Extent, Verdict, Where};
pub use wish::{Choice, Wish};
