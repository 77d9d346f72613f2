//! What a job doesn't want, and the first place at which it comes.
ghost use Rattle.std.specs.Prelude.{◌≡◌, ℕ, List, IfOk, IsTrue, Some, string_bytes};
ghost use Rattle.ulfm_reader.specs.JobText.{rows_of};
ghost use Rattle.std.specs.Option.{option_or};
ghost use Rattle.ulfm_outcomes_spec.specs.Goals.{IsPossible};
ghost use Rattle.ulfm_outcomes_spec.specs.Told.{IsTold};
ghost use Rattle.ulfm_outcomes_spec.specs.Unmet.{Judges};
ghost use Rattle.ulfm_outcomes_list.specs.Unmet.{first_unmet};
ghost use Rattle.ulfm_command_line.specs.Stopped.{asked_at, asked_view};
ghost use Rattle.ulfm_outcomes_reply.specs.EachPlace.{places_in};
ghost use Rattle.ulfm_outcomes_reply.specs.Wanted.{AreRuledOut, HasList, IsToldOf, filed};
ghost use Rattle.ulfm_outcomes_list.specs.Told.{row_in, unmet_in};
ghost use Rattle.ulfm_outcomes_reply.specs.inside.Looking.{row_judgement, row_status};
ghost use Rattle.ulfm_outcomes_reply.specs.inside.Judging.{AreListedOf, IsFirstUnwanted, IsListedOf, IsUnwanted, IsUnwantedAt, is_found};

use crate::finding::Finding;
use crate::never_rows::{FirstRow, first_row, row_judgement, row_status};
use crate::onlooker::{Onlooker, Seen};
use crate::search::Search;
use crate::verdict_lines::{row_remarks, unmet_remarks, where_of};
use std::alloc::AllocError;
use ulfm_command_line::{NOT_EXPECTED, Place, stopped_at};
use ulfm_job::Job;
use ulfm_outcomes_list::{
    Goals, Judgement, Listed, Told, Unmet, filed_number, push_row, push_unmet,
};
use ulfm_outcomes_spec::{Finder, first_unmet};
use ulfm_reach::{Rows, Watch};
use ulfm_reader::Reading;

/// What is told of the first of these places where a schedule is found that isn't wanted. Where none is found, of the first with a row of
/// `never` that can't be looked for within the limit, if there is one.
pub(crate) fn first_unwanted<F: Finder, L: Onlooker>(
    search: &Search<'_, F>,
    asked: &Reading,
    listed: &[Listed],
    onlooker: &L,
) -> Result<Option<Finding>, AllocError>
    requires { AreListedOf (asked_view asked.now) search.now.options.limit listed.now }
    ensures { IfOk result (IsFirstUnwanted search.now.form search.now.options (asked_view asked.now) (places_in listed.now)) }
{
    let mut first = None;
    for one in listed {
        let told = unwanted_at(search, asked, one, onlooker)?;
        if is_found(&told) {
            return Ok(told);
        }
        first = earlier(first, told);
    }
    Ok(first)
}

/// Whether a schedule was found that isn't wanted, by what is told.
pub(crate) fn is_found(told: &Option<Finding>) -> bool
    ensures { result ≡ is_found told.now }
{
    match told {
        Some(finding) => finding.status == NOT_EXPECTED,
        None => false,
    }
}

/// What is told first of a place and of a later one.
pub(crate) fn earlier(first: Option<Finding>, then: Option<Finding>) -> Option<Finding>
    ensures { result ≡ option_or first then }
{
    first.or(then)
}

/// What is told of a place, if what was asked for isn't as it is wanted there.
fn unwanted_at<F: Finder, L: Onlooker>(
    search: &Search<'_, F>,
    asked: &Reading,
    one: &Listed,
    onlooker: &L,
) -> Result<Option<Finding>, AllocError>
    requires { IsListedOf (asked_view asked.now) search.now.options.limit one.now }
    ensures { IfOk result (IsUnwantedAt search.now.form search.now.options one.now.place (asked_at one.now.place (asked_view asked.now))) }
{
    let watch = &mut Seen::of(onlooker, one.place);
    let made = stopped_at(search.alloc, one.place, asked)?;
    unwanted(
        search,
        Some(one.place),
        &made,
        &one.found,
        one.rules_out,
        watch,
    )
}

/// What is told of what was asked for, perhaps with the stops of a place, if it isn't as it is wanted, by the rows of a list, and
/// by whether the search for it ruled rows of `never` out.
pub(crate) fn unwanted<F: Finder, W: Watch>(
    search: &Search<'_, F>,
    at: Option<Place>,
    asked: &Reading,
    found: &Rows,
    rules_out: bool,
    watch: &mut W,
) -> Result<Option<Finding>, AllocError>
    requires list { HasList asked.now.job search.now.options.limit found.now }
    requires out { IsTrue rules_out → AreRuledOut asked.now.job (rows_of asked.now.never.items) }
    ensures { IfOk result (IsUnwanted search.now.form search.now.options at (asked_view asked.now) found.now) }
{
    if let Some(unmet) = first_unmet(&asked.job, found) {
        let told = unmet_told(search, at, asked, unmet, watch)?;
        return Ok(Some(told));
    }
    let rows = asked.never.as_slice();
    if let Some(first) = first_row(search, &asked.job, found, rows, rules_out, watch)? {
        let told = row_told(search, at, asked, &first)?;
        return Ok(Some(told));
    }
    Ok(None)
}

/// What is told of a step that isn't answered as it expects.
fn unmet_told<F: Finder, W: Watch>(
    search: &Search<'_, F>,
    at: Option<Place>,
    asked: &Reading,
    unmet: Unmet,
    watch: &mut W,
) -> Result<Finding, AllocError>
    requires { Judges asked.now.job (Some unmet) }
    ensures { IfOk result (λ r. (found : List (List ℕ)) → first_unmet asked.now.job found ≡ Some unmet → IsToldOf search.now.form search.now.options at (asked_view asked.now) found r.judgement r.status (string_bytes r.text)) }
{
    let goals = unmet.goals(search.alloc, &asked.job)?;
    let told = told_of(search, &asked.job, &goals, watch)?;
    let text = unmet_text(search, at, asked, unmet, &told)?;
    Ok(Finding {
        judgement: Judgement::unmet(unmet),
        status: NOT_EXPECTED,
        text,
        remarks: unmet_remarks(search.alloc, asked, where_of(search, at), unmet, &told),
    })
}

/// What comes of a search for goals that some schedule shows.
pub(crate) fn told_of<F: Finder, W: Watch>(
    search: &Search<'_, F>,
    job: &Job,
    goals: &Goals,
    watch: &mut W,
) -> Result<Told, AllocError>
    requires { IsPossible job.now goals.now }
    ensures { IfOk result (IsTold job.now goals.now search.now.options.is_brief search.now.options.limit) }
{
    match search.show(job, goals, watch)? {
        Some(told) => Ok(told),
        None => unreachable!(),
    }
}

/// The text of that.
fn unmet_text<F>(
    search: &Search<'_, F>,
    at: Option<Place>,
    asked: &Reading,
    unmet: Unmet,
    told: &Told,
) -> Result<String, AllocError>
    ensures { IfOk result (λ text. string_bytes text ≡ unmet_in search.now.form at asked.now.names.items asked.now.job (filed at unmet) told.now) }
{
    let filed = filed(at, unmet);
    let mut text = String::new(search.alloc);
    push_unmet(&mut text, search.form, at, asked, filed, told)?;
    Ok(text)
}

/// The step with the number that it has in the file.
pub(crate) fn filed(at: Option<Place>, unmet: Unmet) -> Unmet
    ensures { result ≡ filed at unmet }
{
    match at {
        Some(place) => Unmet {
            step: filed_number(place, unmet.rank, unmet.step),
            ..unmet
        },
        None => unmet,
    }
}

/// What is told of a row whose answers come together.
fn row_told<F>(
    search: &Search<'_, F>,
    at: Option<Place>,
    asked: &Reading,
    first: &FirstRow,
) -> Result<Finding, AllocError>
    ensures { IfOk result (λ r. (r.judgement ≡ row_judgement first.now.told) × (r.status ≡ row_status first.now.told) × (string_bytes r.text ≡ row_in search.now.form at asked.now.names.items asked.now.job first.now.number first.now.told)) }
{
    let mut text = String::new(search.alloc);
    push_row(&mut text, search.form, at, asked, first.number, &first.told)?;
    Ok(Finding {
        judgement: row_judgement(&first.told),
        status: row_status(&first.told),
        text,
        remarks: row_remarks(search.alloc, asked, where_of(search, at), first),
    })
}
