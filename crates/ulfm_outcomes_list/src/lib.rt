//! A list of outcomes as a value, its words and its JSON, and what a job wants of it: of one job, and of the job wherever ranks stop.
//!
//!     let list = list_of(alloc, steps, judgement, &reached)?;
//!     push_list(&mut text, form, names, &list)?;
//!     let list = lists_of(alloc, &job, steps, judgement, listed)?;
//!     push_unmet(&mut text, form, Some(place), asked, unmet, &told)?;
//!
//! A search finds rows: the rank, the number of its step, and the code of an answer, or nothing more where the step never ends. Read Text.antt first
//! (what rows tell), then Judgement.antt (what a list comes to). Each call promises by one clause its whole result:
//!
//! - [`list_of`]: each step of the job in the order of the trace, its answers in the order of their texts, each once, and whether it never ends
//!   (`list_found`, Listed.antt). A [`StepList`] has them as values, each answer as a `ToldAnswer`.
//! - [`lists_of`]: as one list, an answer stands at a place exactly where the list of this place has it for the same step, which the file may number
//!   otherwise than the job at the place. So it is with a step that never ends (`list_at`, List.antt; `places_with`, Union.antt; `number_at`,
//!   Numbers.antt).
//! - [`push_list`]: it prints such a value, for one place or for all alike, each answer with its places (`printed`, ListJson.antt), in words
//!   (`list_text`, ListText.antt) or as JSON (`list_json`, ListJson.antt). In words a line names eight places at most. The law `lines_tell` of
//!   `ulfm_outcomes` says what these lines tell of schedules.
//! - [`unmet_in`], `Goals::of`: the first answer that isn't as its step expects (`first_unmet`, Unmet.antt), and what a schedule is to show
//!   (Goals.antt).
//! - [`push_told`], [`push_unmet`], [`push_row`], [`push_more_at`]: what stands below a list: what isn't as it should be, and the schedule that
//!   shows it (Told.antt), in plain words, in MPI's (ScheduleWords.antt), or as objects (`schedule_json`, ScheduleJson.antt).
//!
//! Files:
//!
//! - `rows.rt`: what rows tell of a step; `goals_met.rt`: whether they have what goals ask for
//! - `list.rt`: from rows to a list; `step_list.rt`, `listed_step.rt`, `outcomes.rt`, `outcome.rt`: its parts, from the whole down
//! - `list_of_places.rt`, `union.rt`: the lists of places as one; `place_list.rt`: what is kept of one of them; `numbers.rt`: steps as the file numbers
//!   them
//! - `judgement.rt`: what a list comes to, in a word or two
//! - `list_in_form.rt`: what is printed of a list, by `list_text.rt`, in plain words or MPI's, or by `list_json.rt`; `worded.rt`: an answer and its
//!   plain words
//! - `unmet.rt`: answers that aren't as expected; `goals.rt`: what a schedule is to show
//! - `search_result.rt`: what is told below a list; `schedule_json.rt`: a schedule as JSON, of `events.rt` and `waits.rt`; `schedule_words.rt`: one
//!   in MPI's words
//! - `job_step.rt`: the steps of a job; `open_step.rt`: one that is left open
//!
//! Not here: whether the rows are all there are (`ulfm_outcomes`), and that a schedule is one of the job (`ulfm_outcomes_spec`). No contract says
//! that the message of an event is the one that its step got.
#![tactic(auto)]

mod events;
mod goals;
mod goals_met;
mod job_step;
mod judgement;
mod list;
mod list_in_form;
mod list_json;
mod list_of_places;
mod list_text;
mod listed_step;
mod numbers;
mod open_step;
mod outcome;
mod outcomes;
mod place_list;
mod rows;
mod schedule_json;
mod schedule_words;
mod search_result;
mod step_list;
mod union;
mod unmet;
mod waits;
mod worded;

pub use goals::Goals;
pub use goals_met::has_each;
pub use job_step::{JobStep, steps_of};
pub use judgement::Judgement;
pub use list::list_of;
pub use list_in_form::{more_in, push_list};
pub use list_of_places::lists_of;
pub use listed_step::ListedStep;
pub use numbers::{filed_number, number_at};
pub use open_step::OpenStep;
pub use outcome::Outcome;
pub use outcomes::Outcomes;
pub use place_list::Listed;
pub use rows::{add_answers, code_at, in_order, is_stuck, some_never_end};
pub use schedule_words::push_schedule_in;
pub use search_result::{Told, push_more_at, push_row, push_told, push_unmet};
pub use step_list::StepList;
pub use union::some_never_ends;
pub use unmet::{Unmet, is_expected, unmet_in};
pub use worded::Worded;
