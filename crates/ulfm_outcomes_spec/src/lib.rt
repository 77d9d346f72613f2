//! The definitions of `outcomes`: what a list of all outcomes is, a schedule that shows answers, and its text; and [`Finder`], which finds them.
//!
//!     let reach = finder.outcomes(alloc, &job, limit, &mut watch)?;
//!     let unmet = first_unmet(&job, &reached.found);
//!
//! The promises of each job are about all schedules in which ranks follow their scripts, give nothing up but what the job lets them (`may_leave`),
//! and never lack memory, with a ring for each ordered pair of ranks (`ComesTo`, Obeying.antt of `ulfm_reduction_laws`).
//!
//! [`Finder`], `outcomes`, ensures `IsList` (Outcomes.antt): `IsWholeList`, or `IsTooMany`. The fields of `IsWholeList`:
//!
//! - `complete`, `stuck`: no answer is left out, in the words of the trace. Neither is a step that some schedule leaves open for ever: no schedule
//!   can go on, its rank runs, and it stands open (`IsOutcome`, `IsStuck`, Outcomes.antt).
//! - `shared_complete`, `shared_stuck`: the same of schedules over shared inboxes, one for each rank (`IsSharedOutcome`, `IsSharedStuck`,
//!   Outcomes.antt).
//! - `possible`, `coded`: nothing is invented: each row is an answer that some schedule over rings gives, or a step that one leaves open for ever. A
//!   row without the code of an answer is that of an open step alone (`IsOfAnswer`, `IsOfOpen`, Outcomes.antt).
//! - `not_reached`: a step without a row is answered by no schedule, and none leaves it open for ever (`IsNotReached`, Outcomes.antt).
//! - `reached`, `covered`, `few`: the keys that are counted are different, and each is that of a world to which a late schedule leads. From each such
//!   world events that may go first, of the seven kinds that `first_event.rt` of `ulfm_outcomes` has, lead to one that goes on as a world with one of
//!   these keys: worlds at which one does aren't counted, and those in which others went on meanwhile aren't looked at. The keys are no more than the
//!   limit (`AreKeysOfJob`, `HasKeyAhead`, Outcomes.antt; `GoingFirst`, Graph.antt of `ulfm_reduction_laws`).
//!
//! If there are more different keys than the limit, `IsTooMany` (Outcomes.antt) says so (`many`), and nothing is said of answers.
//!
//! - [`Finder`], `show`: a schedule of the job with all the answers that are sought, and its text, or that there are more worlds than the limit
//!   (`IsTold`, Told.antt), or nothing where no schedule has them all (`IsLook`, Told.antt). Read `IsPossible`, `IsSchedule`, Goals.antt, and
//!   `IsScheduleText`, Schedule.antt, whose lines are said in `ulfm_replay`.
//! - [`Finder`], `outcomes_with`: by the same search, that no schedule has all answers of any of several rows (`AreNowhere`, Told.antt).
//! - [`first_unmet`]: by the list, whether each answer is as its step expects in every schedule (`MeetsExpected`, `Judges`, Unmet.antt).
//! - [`shared_shows_no_more`]: what no schedule over rings shows, none over shared inboxes does (`SharedShowsNoMore`, Goals.antt).
//! - [`answers_stay_away`]: of answers that no schedule of a job has together, the reports of one of its schedules don't have all. In such reports no
//!   step is `unfinished` but one that the job lets its rank leave, and none was refused for want of memory (`AnswersStayAway`, `AreOfSchedule`,
//!   `AreWhole`, Scheduled.antt).
//!
//! Files:
//!
//! - `finder.rt`: [`Finder`], with the three contracts on which replies rest; `query.rt`: what it is asked for; `unmet.rt`: [`first_unmet`];
//!   `laws.rt`: the laws of answers together
//!
//! Not here: the search that meets these contracts (`ulfm_outcomes`). Replies are proved over [`Finder`], and so beside that search, not after it.
//! The program has one finder, which `main` alone names.
#![tactic(auto)]

mod finder;
mod laws;
mod query;
mod unmet;

pub use finder::Finder;
pub use laws::{answers_stay_away, shared_shows_no_more};
pub use query::Query;
pub use unmet::first_unmet;
