//! The program without its `main`: words and a job's bytes in, a status and a reply out.
//!
//!     let status = run_each(&rt, &Exploration, alloc, words, &mut input, &mut output, &mut errors);
//!
//! It promises the following, on the contracts of the replies, in `ulfm_command_line`, `ulfm_run_reply` and `ulfm_outcomes_reply`:
//!
//! - [`run_on`] (`replies`, `cut_off`, `output_failed`, `input_failed`): with status 0, 1, 3 or 6 to 9 the reply to the bytes that were read of the
//!   input is written, whole. With 4 a beginning of it is, with 5 nothing. All this holds whatever standard error takes (`IsReplyTo`, `AreRead`,
//!   `GetsReply`, `GetsBeginning`, Replies.antt). The reply to each command is the one that these crates promise: `IsReplayReply`, `IsRunReply`,
//!   `IsDrawReply`, `IsSweepReply`, `IsListReply`, `IsExpandReply`, `IsPlacesReply` and their like.
//! - [`run_on`] (`in_form`): with `--json` the same is written as objects, by definitions beside those of the words. If memory runs out before the
//!   command line is read, the line is in words; once some of the input was read, and for files that are named, it is in that form (`IsReplyIn`,
//!   Replies.antt; `form_asked`, CommandLine.antt of `ulfm_command_line`). The objects of a schedule are those of a value whose words are the
//!   schedule's.
//! - [`run_each`] (`replies`, `in_form`, `cut_off`, `output_failed`, `input_failed`): if the words name no file, all of this holds of the program
//!   (`files_in`, CommandLine.antt of `ulfm_command_line`).
//! - [`run_each`] (`of_files`, `untouched`): if they name files, these are found, in their order, and the input isn't read. For each comes the reply
//!   to the bytes that were read of what was opened by its name ([`Opens`]), below the name where there are several; or no reply, with 5; or a beginning
//!   of that, with 4, and then no other file. The status is the greatest of theirs. If the words find no memory, that alone is told (`GetsAnswers`,
//!   `AreAnswers`, `IsAnswer`, Files.antt; `GetsStarved`, Replies.antt).
//! - [`run_on`], [`run_each`] (`words_first`, `not_followed`): words that can't be followed, or ask for help, are answered before the input is read
//!   (`AsksFor`, `IsWordsStatus`, CommandLine.antt of `ulfm_command_line`).
//! - [`rows_stay_away`]: if no schedule of a job has all answers of a row of `never`, as status 0 of `outcomes` says, the reports of one of its
//!   schedules don't have them, whatever its turns (`RowsStayAway`, Laws.antt; `AreOfSchedule`, Scheduled.antt of `ulfm_outcomes_spec`). Those of a run
//!   and a replay are such by laws of `ulfm_outcomes`.
//! - [`expands_alike`]: the text that `expand` writes, with 0, is read as the same job, with the same rows, names and provisos; its steps come from
//!   other places of the file (`ExpandsAlike`, Laws.antt).
//! - [`without_words`]: if the words can't be had, the line that says so is written, with 4 a beginning of it (`not_text`, `GetsFrontOf`,
//!   Replies.antt; `out_of_memory_text`, Failure.antt of `ulfm_command_line`).
//!
//! Files:
//!
//! - `files.rt`: [`run_each`], file by file; `opens.rt`: [`Opens`], what opens them by their names; `laws.rt`: the laws of rows,
//!   and of `expand`
//! - `app.rt`: [`run_on`], from words and one input to a status; [`without_words`], where there are no words
//! - `reply.rt`: which reply a command gets; `engine.rt`: what plays a job for it, in one value
//! - `progress.rt`, `far.rt`: how far a search is, on standard error
//! - `page_file.rt`: the page of `--html`, beside the reply: a table, a step a row and a place a column, and behind whatever isn't as wanted a picture of
//!   a schedule. It stands alone: nothing is fetched, and no script runs
//! - `page.rt`: that page, from a job's bytes to its text; `column.rt`, `cell.rt`: a place, and what a step comes to there; `unwanted.rt`:
//!   whatever isn't as wanted, with its schedule; `silent_watch.rt`: who looks on meanwhile
//!
//! Not here: a proof that places are all moments of a death. That is stated (`PlacesAreEvery`, Deaths.antt), and `tools/gate/deaths-check` holds it.
//! Nor is it here how words are read (`ulfm_command_line`), and what standard error says of a reply (`ulfm_explain`). No contract speaks of standard
//! error or of the page, whose lists and schedules come from a `Finder`, and are what that promises. It isn't promised either that the bytes of a
//! file are those on the disk: no contract can say it.
#![tactic(auto)]

mod app;
mod cell;
mod column;
mod engine;
mod far;
mod files;
mod laws;
mod opens;
mod page;
mod page_file;
mod progress;
mod reply;
mod silent_watch;
mod unwanted;

pub use app::{run_on, without_words};
pub use engine::Engine;
pub use files::run_each;
pub use laws::{expands_alike, rows_stay_away};
pub use opens::Opens;
pub use page::page_of;
