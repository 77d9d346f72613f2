//! The reply of `outcomes`: a line for each step, with all that it may be answered, and below it a schedule that shows what the job doesn't
//! want.
ghost use Rattle.std.specs.Prelude.{◌≡◌, ◌++◌, ℕ, List, None, IfOk, IsTrue, option_map, string_bytes};
ghost use Rattle.ulfm_reader.specs.JobText.{rows_of};
ghost use Rattle.ulfm_forms.specs.declared.form.Form.{Form};
ghost use Rattle.ulfm_command_line.specs.Body.{body_in};
ghost use Rattle.ulfm_command_line.specs.Stopped.{IsAskedAt, asked_view};
ghost use Rattle.ulfm_reach.specs.declared.reach.Reach.TheVariants.{All};
ghost use Rattle.ulfm_outcomes_spec.specs.Outcomes.{IsList};
ghost use Rattle.ulfm_outcomes_list.specs.ListJson.{more_in};
ghost use Rattle.ulfm_outcomes_list.specs.Text.{some_never_ends};
ghost use Rattle.ulfm_command_line.specs.Wish.{choice_view};
ghost use Rattle.ulfm_outcomes_reply.specs.Chosen.{list_in, unknown_part};
ghost use Rattle.ulfm_outcomes_reply.specs.Drawn.{left_drawn};
ghost use Rattle.ulfm_outcomes_reply.specs.ListReply.{IsListReply};
ghost use Rattle.ulfm_outcomes_reply.specs.Outcomes.{IsJudged, IsOutcomesReply, list_status};
ghost use Rattle.ulfm_outcomes_reply.specs.Hangs.{judgement_alone};
ghost use Rattle.ulfm_outcomes_reply.specs.Wanted.{AreRuledOut};

use crate::drawing::drawn;
use crate::each_place::each_place_reply;
use crate::finding::Finding;
use crate::hang::judgement_alone;
use crate::never_rows::list_with_rows;
use crate::onlooker::Onlooker;
use crate::picked_steps::{chosen, no_name, printed, unknown_part};
use crate::search::Search;
use crate::show_each_place::show_each_reply;
use crate::show_reply::show_reply;
use crate::unwanted::unwanted;
use crate::verdict_lines::list_remarks;
use std::alloc::AllocError;
use std::thread::Threads;
use ulfm_command_line::{Body, DONE, PAST_LIMIT, Reply, UNFINISHED, asked_at};
use ulfm_outcomes_list::{Judgement, list_of, more_in, some_never_end};
use ulfm_outcomes_spec::Finder;
use ulfm_reach::{Reach, Reached, Watch};
use ulfm_reader::Reading;

/// The reply of `outcomes` by this search, perhaps with answers that a schedule is to show. Where a picture is asked for without any, it shows a
/// step that never ends. `watch` is told how far it is.
pub fn list_reply<R, F, W>(
    rt: &R,
    search: &Search<'_, F>,
    show: Option<&str>,
    bytes: &[u8],
    watch: &mut W,
) -> Result<Reply, AllocError>
where
    R: Threads + Sync,
    F: Finder + Sync,
    W: Watch + Onlooker + Sync,
    ensures { IfOk result (λ r. IsListReply search.now.form (option_map (λ s. s.now) show.entry) (choice_view search.now.choice) search.now.options bytes.now r.status (body_in search.now.form r.body)) }
{
    match (show, search.options.stops) {
        (Some(show), Some(stops)) => show_each_reply(search, stops, show, bytes, &*watch),
        (Some(show), None) => show_reply(search, show, bytes, watch),
        (None, Some(stops)) => each_place_reply(rt, search, stops, bytes, &*watch),
        (None, None) => outcomes_reply(search, bytes, watch),
    }
}

/// The reply without answers that a schedule is to show.
fn outcomes_reply<F: Finder, W: Watch>(
    search: &Search<'_, F>,
    bytes: &[u8],
    watch: &mut W,
) -> Result<Reply, AllocError>
    ensures { IfOk result (λ r. IsOutcomesReply search.now.form (choice_view search.now.choice) search.now.options bytes.now r.status (body_in search.now.form r.body)) }
{
    let read = asked_at(search.alloc, search.options.place, bytes)?;
    match read {
        Ok(asked) => named_reply(search, &asked, watch),
        Err(reply) => Ok(reply),
    }
}

/// The reply to what was asked for, with its place of stops, or that it has no step of a name.
fn named_reply<F: Finder, W: Watch>(
    search: &Search<'_, F>,
    asked: &Reading,
    watch: &mut W,
) -> Result<Reply, AllocError>
    ensures { (bytes : List ℕ) → IsAskedAt search.now.options.place bytes (asked_view asked.now) → IfOk result (λ r. IsOutcomesReply search.now.form (choice_view search.now.choice) search.now.options bytes r.status (body_in search.now.form r.body)) }
{
    match unknown_part(search, asked)? {
        Some(part) => no_name(search.alloc, part),
        None => explored_reply(search, asked, watch),
    }
}

/// The reply to what was asked for, where the job has the steps that are named.
fn explored_reply<F: Finder, W: Watch>(
    search: &Search<'_, F>,
    asked: &Reading,
    watch: &mut W,
) -> Result<Reply, AllocError>
    requires { unknown_part (choice_view search.now.choice) (asked_view asked.now) ≡ None }
    ensures { (bytes : List ℕ) → IsAskedAt search.now.options.place bytes (asked_view asked.now) → IfOk result (λ r. IsOutcomesReply search.now.form (choice_view search.now.choice) search.now.options bytes r.status (body_in search.now.form r.body)) }
{
    let (reach, rules_out) = list_with_rows(search, &asked.job, asked.never.as_slice(), watch)?;
    reached_reply(search, asked, &reach, rules_out, watch)
}

/// The reply where this was reached.
fn reached_reply<F: Finder, W: Watch>(
    search: &Search<'_, F>,
    asked: &Reading,
    reach: &Reach,
    rules_out: bool,
    watch: &mut W,
) -> Result<Reply, AllocError>
    requires named { unknown_part (choice_view search.now.choice) (asked_view asked.now) ≡ None }
    requires list { IsList asked.now.job search.now.options.limit reach.now }
    requires out { IsTrue rules_out → AreRuledOut asked.now.job (rows_of asked.now.never.items) }
    ensures { (bytes : List ℕ) → IsAskedAt search.now.options.place bytes (asked_view asked.now) → IfOk result (λ r. IsOutcomesReply search.now.form (choice_view search.now.choice) search.now.options bytes r.status (body_in search.now.form r.body)) }
{
    match reach {
        Reach::All(reached) => judged(search, asked, reached, rules_out, watch),
        Reach::More => more_reply(search),
    }
}

/// The reply that there are more states than the limit.
fn more_reply<F>(search: &Search<'_, F>) -> Result<Reply, AllocError>
    ensures { IfOk result (λ r. (r.status ≡ 7) × (body_in search.now.form r.body ≡ more_in search.now.form search.now.options.limit)) }
{
    Ok(Reply {
        status: PAST_LIMIT,
        body: Body::Text(more_in(search.alloc, search.form, search.options.limit as usize)?),
        remarks: None,
    })
}

/// A whole list, and below it what its job doesn't want.
fn judged<F: Finder, W: Watch>(
    search: &Search<'_, F>,
    asked: &Reading,
    reached: &Reached,
    rules_out: bool,
    watch: &mut W,
) -> Result<Reply, AllocError>
    requires list { IsList asked.now.job search.now.options.limit (All reached.now) }
    requires out { IsTrue rules_out → AreRuledOut asked.now.job (rows_of asked.now.never.items) }
    ensures { IfOk result (λ r. IsJudged search.now.form (choice_view search.now.choice) search.now.options (asked_view asked.now) reached.now r.status (body_in search.now.form r.body)) }
{
    match drawn(search, None, asked, &reached.found, watch)? {
        Some(reply) => Ok(reply),
        None => undrawn(search, asked, reached, rules_out, watch),
    }
}

/// A whole list, and below it what its job doesn't want, where nothing is drawn.
fn undrawn<F: Finder, W: Watch>(
    search: &Search<'_, F>,
    asked: &Reading,
    reached: &Reached,
    rules_out: bool,
    watch: &mut W,
) -> Result<Reply, AllocError>
    requires list { IsList asked.now.job search.now.options.limit (All reached.now) }
    requires out { IsTrue rules_out → AreRuledOut asked.now.job (rows_of asked.now.never.items) }
    requires none { left_drawn search.now.options.drawn asked.now.job reached.now.found ≡ None }
    ensures { IfOk result (λ r. IsJudged search.now.form (choice_view search.now.choice) search.now.options (asked_view asked.now) reached.now r.status (body_in search.now.form r.body)) }
{
    match unwanted(search, None, asked, &reached.found, rules_out, watch)? {
        Some(told) => {
            let list = text_of(search, asked, reached, told.judgement)?;
            below(list, told)
        }
        None => good(search, asked, reached, watch),
    }
}

/// A whole list of a job that is wanted.
fn good<F: Finder, W: Watch>(
    search: &Search<'_, F>,
    asked: &Reading,
    reached: &Reached,
    watch: &mut W,
) -> Result<Reply, AllocError>
    ensures { IfOk result (λ r. (r.status ≡ list_status search.now.options.is_strict (some_never_ends reached.now.found)) × (body_in search.now.form r.body ≡ list_in search.now.form (choice_view search.now.choice) (asked_view asked.now) (judgement_alone search.now.options.is_strict (asked_view asked.now) reached.now.found) reached.now)) }
{
    let is_open = some_never_end(&reached.found);
    let judgement = judgement_alone(search, asked, &reached.found)?;
    Ok(Reply {
        status: list_status(search.options.is_strict, is_open),
        body: Body::Text(text_of(search, asked, reached, judgement)?),
        remarks: list_remarks(search, asked, &reached.found, watch),
    })
}

/// The text of a whole list, which comes to this.
fn text_of<F>(
    search: &Search<'_, F>,
    asked: &Reading,
    reached: &Reached,
    judgement: Judgement,
) -> Result<String, AllocError>
    ensures { IfOk result (λ text. string_bytes text ≡ list_in search.now.form (choice_view search.now.choice) (asked_view asked.now) judgement reached.now) }
{
    let steps = chosen(search, asked)?;
    let list = list_of(search.alloc, steps.as_slice(), judgement, reached)?;
    printed(search, asked, &list)
}

/// The status of a list that has nothing else to tell.
pub(crate) fn list_status(is_strict: bool, is_open: bool) -> u8
    ensures { result ≡ list_status is_strict is_open }
{
    if is_strict && is_open {
        UNFINISHED
    } else {
        DONE
    }
}

/// What is told, below this text.
pub(crate) fn below(text: String, told: Finding) -> Result<Reply, AllocError>
    ensures { IfOk result (λ r. (r.status ≡ told.status) × ((form : Form) → body_in form r.body ≡ string_bytes text ++ string_bytes told.text)) }
{
    let mut text = text;
    text.push_str(told.text.as_str())?;
    Ok(Reply {
        status: told.status,
        body: Body::Text(text),
        remarks: told.remarks,
    })
}
