//! The reply of `outcomes --stops`: what each step may be answered wherever ranks stop, and below it what the job doesn't want at the first
//! place where it comes.
ghost use Rattle.std.specs.Prelude.{◌≡◌, ◌++◌, ◌<◌, ◌≤◌, ℕ, List, None, IfOk, OnOk, string_bytes};
ghost use Rattle.ulfm_job.specs.declared.place.Place.TheVariants.{Nowhere};
ghost use Rattle.ulfm_command_line.specs.Body.{body_in};
ghost use Rattle.ulfm_command_line.specs.Stopped.{IsAskedAt, asked_view};
ghost use Rattle.ulfm_command_line.specs.Wish.{choice_view};
ghost use Rattle.ulfm_outcomes_reply.specs.Chosen.{lists_in, unknown_part};
ghost use Rattle.ulfm_outcomes_reply.specs.EachPlace.{IsEachPlaceReply, places_past};
ghost use Rattle.ulfm_outcomes_reply.specs.inside.Judging.{AreListedOf, AreSharing, IsEachText, lists_judgement, lists_status, lists_text};

use crate::drawing::first_drawn;
use crate::finding_threads::first_by_threads;
use crate::hang::judgement_of_all;
use crate::lists::Lists;
use crate::onlooker::Onlooker;
use crate::outcomes_reply::{below, list_status};
use crate::picked_steps::{chosen, no_name, printed, unknown_part};
use crate::search::Search;
use crate::threads::list_places;
use crate::unheld::with_unheld;
use crate::verdict_lines::lists_remarks;
use std::alloc::AllocError;
use std::thread;
use std::thread::Threads;
use ulfm_command_line::{
    Body, ListOptions, MOST_THREADS, PAST_LIMIT, Place, Reply, asked_at, refusal,
};
use ulfm_job::{JobFault, MOST_STEPS, places};
use ulfm_outcomes_list::{Judgement, Listed, lists_of, push_more_at, some_never_ends};
use ulfm_outcomes_spec::Finder;
use ulfm_reader::Reading;

/// The reply of `outcomes --stops` by this search. The onlooker is told how far the lists and the searches are.
pub fn each_place_reply<R, F, L>(
    rt: &R,
    search: &Search<'_, F>,
    stops: u8,
    bytes: &[u8],
    onlooker: &L,
) -> Result<Reply, AllocError>
where
    R: Threads + Sync,
    F: Finder + Sync,
    L: Onlooker + Sync,
    ensures { IfOk result (λ r. IsEachPlaceReply search.now.form (choice_view search.now.choice) search.now.options stops bytes.now r.status (body_in search.now.form r.body)) }
{
    let read = asked_at(search.alloc, Place::Nowhere, bytes)?;
    match read {
        Ok(asked) => named_reply(rt, search, stops, &asked, onlooker),
        Err(reply) => Ok(reply),
    }
}

/// The reply to what was asked for, or that it has no step of a name.
fn named_reply<R, F, L>(
    rt: &R,
    search: &Search<'_, F>,
    stops: u8,
    asked: &Reading,
    onlooker: &L,
) -> Result<Reply, AllocError>
where
    R: Threads + Sync,
    F: Finder + Sync,
    L: Onlooker + Sync,
    ensures { (bytes : List ℕ) → IsAskedAt Nowhere bytes (asked_view asked.now) → IfOk result (λ r. IsEachPlaceReply search.now.form (choice_view search.now.choice) search.now.options stops bytes r.status (body_in search.now.form r.body)) }
{
    match unknown_part(search, asked)? {
        Some(part) => no_name(search.alloc, part),
        None => listed_reply(rt, search, stops, asked, onlooker),
    }
}

/// The reply to what was asked for, where the job has the steps that are named.
fn listed_reply<R, F, L>(
    rt: &R,
    search: &Search<'_, F>,
    stops: u8,
    asked: &Reading,
    onlooker: &L,
) -> Result<Reply, AllocError>
where
    R: Threads + Sync,
    F: Finder + Sync,
    L: Onlooker + Sync,
    ensures { (bytes : List ℕ) → IsAskedAt Nowhere bytes (asked_view asked.now) → unknown_part (choice_view search.now.choice) (asked_view asked.now) ≡ None → IfOk result (λ r. IsEachPlaceReply search.now.form (choice_view search.now.choice) search.now.options stops bytes r.status (body_in search.now.form r.body)) }
{
    if asked.job.len() + stops as usize > MOST_STEPS {
        return Ok(refusal(JobFault::TooLarge));
    }
    let places = places(search.alloc, &asked.job, stops)?;
    let threads = threads_of(rt, search.options);
    let lists = list_places(rt, search, asked, places.as_slice(), threads, onlooker)?;
    onlooker.see_listed(lists.listed.len(), places.len());
    match first_drawn(search, asked, lists.listed.as_slice(), onlooker)? {
        Some(reply) => Ok(reply),
        None => judged(rt, search, asked, &lists, threads, onlooker),
    }
}

/// How many threads share the places: as many as are asked for, else as there are processors, 64 at most.
fn threads_of<R: Threads>(rt: &R, options: ListOptions) -> u8
    ensures asked { AreSharing options.threads result }
    ensures some { 0 < result }
{
    match options.threads {
        Some(threads) => threads.max(1),
        None => processors(rt),
    }
}

/// How many processors there are, 64 at most, or 1 where that isn't known.
fn processors<R: Threads>(rt: &R) -> u8
    ensures some { 0 < result }
    ensures few { result ≤ 64 }
{
    match thread::available_parallelism(rt) {
        Ok(count) if count.get() < MOST_THREADS as usize => count.get() as u8,
        Ok(_) => MOST_THREADS as u8,
        Err(_) => 1,
    }
}

/// The lists, and below them what isn't wanted.
fn judged<R, F, L>(
    rt: &R,
    search: &Search<'_, F>,
    asked: &Reading,
    lists: &Lists,
    threads: u8,
    onlooker: &L,
) -> Result<Reply, AllocError>
where
    R: Threads + Sync,
    F: Finder + Sync,
    L: Onlooker + Sync,
    requires listed { AreListedOf (asked_view asked.now) search.now.options.limit lists.now.listed.items }
    requires threads { 0 < threads }
    ensures { IfOk result (λ r. IsEachText search.now.form (choice_view search.now.choice) search.now.options (asked_view asked.now) lists.now r.status (body_in search.now.form r.body)) }
{
    let listed = lists.listed.as_slice();
    match first_by_threads(rt, search, asked, listed, threads, onlooker)? {
        Some(told) => {
            let text = text_of(search, asked, lists, told.judgement)?;
            below(text, with_unheld(told, asked, listed))
        }
        None => alone(search, asked, lists, onlooker),
    }
}

/// The lists of a job that is wanted at each of their places.
fn alone<F: Finder, L: Onlooker>(
    search: &Search<'_, F>,
    asked: &Reading,
    lists: &Lists,
    onlooker: &L,
) -> Result<Reply, AllocError>
    ensures { IfOk result (λ r. (r.status ≡ lists_status search.now.options lists.now) × (body_in search.now.form r.body ≡ lists_text search.now.form (choice_view search.now.choice) (asked_view asked.now) search.now.options lists.now (lists_judgement search.now.options (asked_view asked.now) lists.now))) }
{
    let judgement = judgement_of(search, asked, lists)?;
    Ok(Reply {
        status: status_of(search.options, lists),
        body: Body::Text(text_of(search, asked, lists, judgement)?),
        remarks: lists_remarks(search, asked, lists, onlooker),
    })
}

/// What lists come to below which nothing is told: past the limit that isn't known.
fn judgement_of<F>(
    search: &Search<'_, F>,
    asked: &Reading,
    lists: &Lists,
) -> Result<Judgement, AllocError>
    ensures { IfOk result (λ j. j ≡ lists_judgement search.now.options (asked_view asked.now) lists.now) }
{
    if !lists.past_limit.is_empty() {
        return Ok(Judgement::NotKnown);
    }
    judgement_of_all(search, asked, lists.listed.as_slice())
}

/// The text of the lists, which come to this, if there is one, and of the places past the limit.
fn text_of<F: Finder>(
    search: &Search<'_, F>,
    asked: &Reading,
    lists: &Lists,
    judgement: Judgement,
) -> Result<String, AllocError>
    ensures { IfOk result (λ text. string_bytes text ≡ lists_text search.now.form (choice_view search.now.choice) (asked_view asked.now) search.now.options lists.now judgement) }
{
    let listed = lists.listed.as_slice();
    if lists.past_limit.is_empty() {
        return listed_text(search, asked, listed, judgement);
    }
    let mut text = if listed.is_empty() {
        String::new(search.alloc)
    } else {
        listed_text(search, asked, listed, judgement)?
    };
    push_places_past(&mut text, search, lists.past_limit.as_slice())?;
    Ok(text)
}

/// The text of the lists of places, which come to this.
fn listed_text<F: Finder>(
    search: &Search<'_, F>,
    asked: &Reading,
    listed: &[Listed],
    judgement: Judgement,
) -> Result<String, AllocError>
    ensures { IfOk result (λ text. string_bytes text ≡ lists_in search.now.form (choice_view search.now.choice) (asked_view asked.now) judgement listed.now) }
{
    let steps = chosen(search, asked)?;
    let list = lists_of(
        search.alloc,
        &asked.job,
        steps.as_slice(),
        judgement,
        listed,
    )?;
    printed(search, asked, &list)
}

/// Puts below a text that there are more states than the limit at these places, a line for each.
fn push_places_past<F>(
    text: &mut String,
    search: &Search<'_, F>,
    places: &[Place],
) -> Result<(), AllocError>
    ensures { OnOk result (string_bytes text.new ≡ string_bytes text.old ++ places_past search.now.form search.now.options.limit places.now) }
{
    let limit = search.options.limit as usize;
    for place in places {
        push_more_at(text, search.form, limit, *place)?;
    }
    Ok(())
}

/// The status of lists below which nothing is told.
fn status_of(options: ListOptions, lists: &Lists) -> u8
    ensures { result ≡ lists_status options lists.now }
{
    if !lists.past_limit.is_empty() {
        return PAST_LIMIT;
    }
    list_status(options.is_strict, some_never_ends(lists.listed.as_slice()))
}
