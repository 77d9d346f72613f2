//! The replies of `outcomes`: the list of all that the steps of a job may be answered, and below it whatever the job doesn't want; or a schedule
//! that shows answers. With `--stops` both wherever ranks stop.
//!
//!     let reply = list_reply(&rt, &search, asked.show, bytes, &mut watch)?;
//!
//! It promises the one clause of [`list_reply`]: `IsListReply` (ListReply.antt). It rests on the two contracts of `Finder` (`ulfm_outcomes_spec`),
//! and on nothing else of the search. Its parts:
//!
//! - A list (`IsOutcomesReply`, `IsJudged`, Outcomes.antt). With 0, or 6 by `--strict`, no schedule fails an expectation (`MeetsExpected`,
//!   Unmet.antt of `ulfm_outcomes_spec`), and none has all answers of a row of `never` that is looked at (`NoneComes`, Wanted.antt). With 9 some
//!   schedule fails an expectation, or has all answers of a row. One that does is written below the list, its events and its trace (`IsSchedule`,
//!   Goals.antt of `ulfm_outcomes_spec`; `IsScheduleText`, Schedule.antt of `ulfm_outcomes_spec`), or that there are more states than the limit
//!   (`IsToldOf`, Wanted.antt). With 7 there are more states than the limit.
//! - With `--only` and `--notes` a list has the lines of those steps, and all else stays the same. With 1 some part of `--only` names no step
//!   (`chosen`, `unknown_part`, `list_in`, `lists_in`, Chosen.antt). The `verdict` of `--json` is that of the list (`judgement_alone`,
//!   `judgement_of_all`, Hangs.antt).
//! - With `--show` and 0 there is a schedule that has all answers, and without `--draw` it is written; with 8 none has (`IsShowReply`,
//!   Outcomes.antt).
//! - With `--draw` alone the schedule is that of the first step that never ends, with `--stops` at the first place where one does; if none does, the
//!   list is written (`IsDrawn`, Drawn.antt; `IsFirstPicture`, EachPlace.antt).
//! - With `--stops` there is a list for each place, in order, but for those with more states than the limit. Each is the list of all outcomes of
//!   the job at its place, whatever the number of threads ([`list_places`]: `AreLists`, `IsListedAt`, Lists.antt). They are written as one list,
//!   that of these places, and below it stand the others (`IsEachPlaceReply`, EachPlace.antt).
//! - With `--stops` and 9 one schedule follows that fails an expectation, or has all answers of a row of `never` that is looked at: that of the
//!   first place that has one. Earlier places have none, unless a row of `never` there couldn't be decided within the limit. With 7 none is found at
//!   any place, and the first such row is told (`IsJudgedEach`, EachPlace.antt).
//! - With `--stops --show` the first place that has such a schedule is shown, and with 8 none has one (`IsShowEachReply`, ShowEach.antt).
//!
//! Files:
//!
//! - `search.rt`: a search, with its limit and its form: what most functions here take
//! - `outcomes_reply.rt`: [`list_reply`], and the reply to one job; `place_lists.rt`, `lists.rt`: the lists of places; `threads.rt`: these by threads
//! - `picked_steps.rt`: the steps whose lines a list has (`--only`, `--notes`)
//! - `unwanted.rt`: whatever a job doesn't want, and where it comes first; `never_rows.rt`: rows of `never`; `finding.rt`: what was found;
//!   `finding_threads.rt`: where it comes first, by threads
//! - `each_place.rt`: the reply with `--stops`; `show_reply.rt`, `show_each_place.rt`: with `--show`, and with both
//! - `drawing.rt`: the step that `--draw` draws; `hanging.rt`, `hang.rt`: the first step that never ends
//! - `onlooker.rt`: who is told how far the lists are
//! - for standard error alone: `verdict_lines.rt`, `mistakes.rt`, `remarks.rt`, `unheld.rt`
//!
//! Not here: the search (`ulfm_outcomes`), and how a list is printed (`ulfm_outcomes_list`). No contract speaks of a verdict's line on standard error, of
//! mistakes and of what a picture shows.
#![tactic(auto)]

mod drawing;
mod each_place;
mod finding;
mod finding_threads;
mod hang;
mod hanging;
mod lists;
mod mistakes;
mod never_rows;
mod onlooker;
mod outcomes_reply;
mod picked_steps;
mod place_lists;
mod remarks;
mod search;
mod show_each_place;
mod show_reply;
mod threads;
mod unheld;
mod unwanted;
mod verdict_lines;

pub use hanging::open_goals;
pub use lists::Lists;
pub use onlooker::{Onlooker, Seen};
pub use outcomes_reply::list_reply;
pub use search::Search;
pub use threads::list_places;
