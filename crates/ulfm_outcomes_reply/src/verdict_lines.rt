//! What lists come to, in a line: for people, and none of it is promised.

use crate::finding::asks;
use crate::hang::Hang;
use crate::hanging::hanging;
use crate::lists::Lists;
use crate::mistakes::{push_mistakes, push_mistakes_at};
use crate::never_rows::{FirstRow, row_judgement};
use crate::onlooker::{Onlooker, Seen};
use crate::remarks::{remarks_on, skipped_in};
use crate::search::Search;
use crate::unheld::push_unheld;
use crate::unwanted::filed;
use std::alloc::{AllocError, Global};
use ulfm_command_line::{Extent, Place, Remark, StepTold, Verdict, Where, stopped_at};
use ulfm_outcomes_list::{Judgement, Listed, Told, Unmet};
use ulfm_outcomes_spec::Finder;
use ulfm_reach::{Rows, Watch};
use ulfm_reader::Reading;

/// What is told of the list of a job below which nothing stands: what it comes to, which steps each schedule skips, which answers are mistakes of
/// the script, and by `--strict` how a step never ends. Nothing where a growth was refused.
pub(crate) fn list_remarks<F: Finder, W: Watch>(
    search: &Search<'_, F>,
    asked: &Reading,
    found: &Rows,
    watch: &mut W,
) -> Option<Vec<Remark>> {
    let mut remarks = skipped_in(search.alloc, asked, found).ok()?;
    let hang = Hang::first(search, asked, Place::Nowhere, found);
    let at = where_of(search, None);
    remarks
        .push(verdict_on(search.alloc, asked, at, hang, Extent::Alone).ok()?)
        .ok()?;
    push_mistakes(&mut remarks, asked, found).ok()?;
    if let (Some(hang), true) = (hang, search.options.is_strict) {
        let shown = hanging(search, &asked.job, hang.left, watch).ok()?;
        add(&mut remarks, shown).ok()?;
    }
    Some(remarks)
}

/// What is told of the lists of places below which nothing stands, as `list_remarks` tells it of one list.
pub(crate) fn lists_remarks<F: Finder, L: Onlooker>(
    search: &Search<'_, F>,
    asked: &Reading,
    lists: &Lists,
    onlooker: &L,
) -> Option<Vec<Remark>> {
    if !lists.past_limit.is_empty() {
        return None;
    }
    let listed = lists.listed.as_slice();
    let hang = Hang::first_of(search, asked, listed);
    let mut remarks = Vec::new(search.alloc);
    let at = one_of_some(hang.map_or(Place::Nowhere, |hang| hang.place));
    let extent = Extent::Places(listed.len());
    remarks
        .push(verdict_on(search.alloc, asked, at, hang, extent).ok()?)
        .ok()?;
    push_mistakes_at(&mut remarks, asked, listed).ok()?;
    push_unheld(&mut remarks, asked, listed).ok()?;
    if let (Some(hang), true) = (hang, search.options.is_strict) {
        let shown = hanging_at(search, asked, hang, onlooker).ok()?;
        add(&mut remarks, shown).ok()?;
    }
    Some(remarks)
}

/// A schedule in which the step never ends, at its place.
fn hanging_at<F: Finder, L: Onlooker>(
    search: &Search<'_, F>,
    asked: &Reading,
    hang: Hang,
    onlooker: &L,
) -> Result<Option<Remark>, AllocError> {
    if !hang.place.is_inside(&asked.job) {
        return Ok(None);
    }
    let watch = &mut Seen::of(onlooker, hang.place);
    let made = stopped_at(search.alloc, hang.place, asked)?;
    hanging(search, &made.job, hang.left, watch)
}

/// What is told of a step that isn't answered as it expects, and of what a search came to that shows it.
pub(crate) fn unmet_remarks(
    alloc: Global,
    asked: &Reading,
    at: Where,
    unmet: Unmet,
    told: &Told,
) -> Option<Vec<Remark>> {
    let mut remarks = remarks_on(alloc, asked, None, told).ok()?;
    remarks
        .push(verdict_unmet(alloc, asked, at, unmet).ok()?)
        .ok()?;
    Some(remarks)
}

/// What is told of a row of `never`, and of what a search for it came to.
pub(crate) fn row_remarks(
    alloc: Global,
    asked: &Reading,
    at: Where,
    first: &FirstRow,
) -> Option<Vec<Remark>> {
    let number = first.number;
    let mut remarks = remarks_on(alloc, asked, Some(number), &first.told).ok()?;
    let what = row_judgement(&first.told).words();
    remarks
        .push(Remark::Verdict(Verdict::Row(what, number, at)))
        .ok()?;
    Some(remarks)
}

/// Where that is so: at this one of several places, or in the job that was asked for with its place.
pub(crate) fn where_of<F>(search: &Search<'_, F>, at: Option<Place>) -> Where {
    match at {
        Some(place) => one_of_some(place),
        None => Where {
            place: search.options.place,
            is_one_of_some: false,
        },
    }
}

/// This one of several places.
fn one_of_some(place: Place) -> Where {
    Where {
        place,
        is_one_of_some: true,
    }
}

/// Adds a remark, if there is one.
fn add(remarks: &mut Vec<Remark>, more: Option<Remark>) -> Result<(), AllocError> {
    if let Some(remark) = more {
        remarks.push(remark)?;
    }
    Ok(())
}

/// What lists come to below which nothing is told, by the first step that never ends, if one does.
fn verdict_on(
    alloc: Global,
    asked: &Reading,
    at: Where,
    hang: Option<Hang>,
    extent: Extent,
) -> Result<Remark, AllocError> {
    Ok(Remark::Verdict(match hang {
        Some(hang) => hangs(StepTold::of(alloc, asked, hang.left.rank, hang.filed)?, at),
        None => good(asked, extent),
    }))
}

/// That a step never ends.
fn hangs(step: StepTold, at: Where) -> Verdict {
    Verdict::Step(Judgement::Hangs.words(), step, at)
}

/// What is so where nothing is wrong.
fn good(asked: &Reading, extent: Extent) -> Verdict {
    Verdict::Good(Judgement::good(false, asks(asked)).words(), extent)
}

/// That a step isn't answered as it expects, of what is asked for with the stops of this place.
fn verdict_unmet(
    alloc: Global,
    asked: &Reading,
    at: Where,
    unmet: Unmet,
) -> Result<Remark, AllocError> {
    let told = StepTold::of(alloc, asked, unmet.rank, unmet.step as usize)?;
    let told = if at.is_one_of_some {
        told.numbered(filed(Some(at.place), unmet).step as usize)
    } else {
        told
    };
    Ok(Remark::Verdict(Verdict::Step(Judgement::unmet(unmet).words(), told, at)))
}
