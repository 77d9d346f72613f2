//! What lists come to where nothing is told below them, and the first step that never ends, as a verdict names it: that is for people, and none of it
//! is promised.
ghost use Rattle.std.specs.Prelude.{◌≡◌, IfOk, map};
ghost use Rattle.std.specs.List.{list_any};
ghost use Rattle.ulfm_outcomes_list.specs.Listed.{step_view};
ghost use Rattle.ulfm_command_line.specs.Stopped.{asked_view};
ghost use Rattle.ulfm_outcomes_reply.specs.Hangs.{hangs_at, hangs_somewhere, is_hang, judgement_alone, judgement_of_all};

use crate::finding::asks;
use crate::search::Search;
use std::alloc::AllocError;
use ulfm_command_line::{expects, stops_at};
use ulfm_job::{Place, Stop};
use ulfm_outcomes_list::{JobStep, Judgement, Listed, OpenStep, is_stuck, number_at, steps_of};
use ulfm_reach::Rows;
use ulfm_reader::Reading;

/// A step that never ends in some schedule.
#[derive(Clone, Copy)]
pub(crate) struct Hang {
    /// The place at which it is one.
    pub(crate) place: Place,
    /// The step, by its number in the job at that place.
    pub(crate) left: OpenStep,
    /// Its number in the file.
    pub(crate) filed: usize,
}

impl Hang {
    /// The first one of a job at a place, by its list. A step that expects to be unfinished isn't one, but with `--strict`.
    pub(crate) fn first<F>(
        search: &Search<'_, F>,
        asked: &Reading,
        place: Place,
        found: &Rows,
    ) -> Option<Hang> {
        let steps = steps_of(search.alloc, &asked.job).ok()?;
        let stops = stops_at(search.alloc, place, &asked.job).ok()?;
        let is_strict = search.options.is_strict;
        let at = steps.iter().find(|at| is_hang(
            is_strict,
            asked,
            stops.as_slice(),
            place,
            found,
            at,
        ))?;
        let number = number_at(place, &asked.job, at.rank, at.number);
        Some(Hang {
            place,
            left: OpenStep {
                rank: at.rank,
                step: u16::try_from(number).ok()?,
            },
            filed: at.number,
        })
    }

    /// The first one at these places.
    pub(crate) fn first_of<F>(
        search: &Search<'_, F>,
        asked: &Reading,
        listed: &[Listed],
    ) -> Option<Hang> {
        listed
            .iter()
            .find_map(|one| Hang::first(search, asked, one.place, &one.found))
    }
}

/// What the list of a job comes to below which nothing is told.
pub(crate) fn judgement_alone<F>(
    search: &Search<'_, F>,
    asked: &Reading,
    found: &Rows,
) -> Result<Judgement, AllocError>
    ensures { IfOk result (λ j. j ≡ judgement_alone search.now.options.is_strict (asked_view asked.now) found.now) }
{
    let steps = steps_of(search.alloc, &asked.job)?;
    let hangs = hangs_at(search, asked, steps.as_slice(), Place::Nowhere, found)?;
    Ok(Judgement::good(hangs, asks(asked)))
}

/// What the lists of places come to below which nothing is told.
pub(crate) fn judgement_of_all<F>(
    search: &Search<'_, F>,
    asked: &Reading,
    listed: &[Listed],
) -> Result<Judgement, AllocError>
    ensures { IfOk result (λ j. j ≡ judgement_of_all search.now.options.is_strict (asked_view asked.now) listed.now) }
{
    let steps = steps_of(search.alloc, &asked.job)?;
    let hangs = hangs_somewhere(search, asked, steps.as_slice(), listed)?;
    Ok(Judgement::good(hangs, asks(asked)))
}

/// Whether some of these steps hangs at one of these places.
fn hangs_somewhere<F>(
    search: &Search<'_, F>,
    asked: &Reading,
    steps: &[JobStep<'_>],
    listed: &[Listed],
) -> Result<bool, AllocError>
    ensures { IfOk result (λ is. is ≡ hangs_somewhere search.now.options.is_strict (asked_view asked.now) (map step_view steps.now) listed.now) }
{
    for one in listed {
        let hangs = hangs_at(search, asked, steps, one.place, &one.found)?;
        if hangs {
            return Ok(true);
        }
    }
    Ok(false)
}

/// Whether some of these steps of the file hangs at a place, by its list.
fn hangs_at<F>(
    search: &Search<'_, F>,
    asked: &Reading,
    steps: &[JobStep<'_>],
    place: Place,
    found: &Rows,
) -> Result<bool, AllocError>
    ensures { IfOk result (λ is. is ≡ hangs_at search.now.options.is_strict (asked_view asked.now) (map step_view steps.now) place found.now) }
{
    let stops = stops_at(search.alloc, place, &asked.job)?;
    let is_strict = search.options.is_strict;
    Ok(some_hangs(is_strict, asked, stops.as_slice(), steps, place, found))
}

/// Whether some of these steps of the file hangs where these stops are.
fn some_hangs(
    is_strict: bool,
    asked: &Reading,
    stops: &[Stop],
    steps: &[JobStep<'_>],
    place: Place,
    found: &Rows,
) -> bool
    ensures { result ≡ list_any (λ at. is_hang is_strict (asked_view asked.now) stops.now place found.now (step_view at)) steps.now }
{
    steps
        .iter()
        .any(|at| is_hang(is_strict, asked, stops, place, found, at))
}

/// Whether a step of the file never ends at a place, where these stops are, and doesn't expect to be unfinished there, or whatever it expects.
fn is_hang(
    is_strict: bool,
    asked: &Reading,
    stops: &[Stop],
    place: Place,
    found: &Rows,
    at: &JobStep<'_>,
) -> bool
    ensures { result ≡ is_hang is_strict (asked_view asked.now) stops.now place found.now (step_view at.now) }
{
    let number = number_at(place, &asked.job, at.rank, at.number);
    is_stuck(found, at.rank, number) && (is_strict || !expects(asked, stops, at.rank, at.number))
}
