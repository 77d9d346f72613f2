//! The step that `--draw` draws where no answers are to be shown: the first one that never ends.
ghost use Rattle.std.specs.Prelude.{◌≡◌, Some, IfOk, map};
ghost use Rattle.ulfm_outcomes_spec.specs.Unmet.{Judges};
ghost use Rattle.ulfm_outcomes_list.specs.Listed.{step_view};
ghost use Rattle.ulfm_command_line.specs.Body.{body_in};
ghost use Rattle.ulfm_command_line.specs.Stopped.{asked_at, asked_view};
ghost use Rattle.ulfm_outcomes_reply.specs.Drawn.{IsDrawn, first_left, left_drawn, left_of};
ghost use Rattle.ulfm_outcomes_reply.specs.Wanted.{HasList};
ghost use Rattle.ulfm_outcomes_reply.specs.inside.Judging.{AreListedOf, IsDrawnThere, IsFirstDrawn, IsListedOf};
ghost use Rattle.ulfm_outcomes_reply.specs.inside.Looking.{IsDrawnOf};

use crate::onlooker::{Onlooker, Seen};
use crate::search::Search;
use crate::show_reply::told_reply;
use crate::unwanted::told_of;
use std::alloc::AllocError;
use ulfm_command_line::{Place, Reply, stopped_at};
use ulfm_outcomes_list::{JobStep, Listed, Unmet, is_stuck, steps_of};
use ulfm_outcomes_spec::Finder;
use ulfm_reach::{Rows, Watch};
use ulfm_reader::Reading;

/// The picture at the first of these places where a step never ends, where one is asked for.
pub(crate) fn first_drawn<F: Finder, L: Onlooker>(
    search: &Search<'_, F>,
    asked: &Reading,
    listed: &[Listed],
    onlooker: &L,
) -> Result<Option<Reply>, AllocError>
    requires { AreListedOf (asked_view asked.now) search.now.options.limit listed.now }
    ensures { IfOk result (IsFirstDrawn search.now.form search.now.options (asked_view asked.now) listed.now) }
{
    for one in listed {
        let drawn = drawn_there(search, asked, one, onlooker)?;
        if drawn.is_some() {
            return Ok(drawn);
        }
    }
    Ok(None)
}

/// The picture at a place, where a step never ends there.
fn drawn_there<F: Finder, L: Onlooker>(
    search: &Search<'_, F>,
    asked: &Reading,
    one: &Listed,
    onlooker: &L,
) -> Result<Option<Reply>, AllocError>
    requires { IsListedOf (asked_view asked.now) search.now.options.limit one.now }
    ensures { IfOk result (IsDrawnThere search.now.form search.now.options one.now (asked_at one.now.place (asked_view asked.now))) }
{
    if search.options.drawn.is_none() {
        return Ok(None);
    }
    let watch = &mut Seen::of(onlooker, one.place);
    let made = stopped_at(search.alloc, one.place, asked)?;
    drawn(search, Some(one.place), &made, &one.found, watch)
}

/// The picture of what was asked for, perhaps with the stops of a place, by the rows of its list, where one is asked for and a step never ends.
pub(crate) fn drawn<F: Finder, W: Watch>(
    search: &Search<'_, F>,
    at: Option<Place>,
    asked: &Reading,
    found: &Rows,
    watch: &mut W,
) -> Result<Option<Reply>, AllocError>
    requires { HasList asked.now.job search.now.options.limit found.now }
    ensures { IfOk result (IsDrawnOf search.now.form search.now.options at (asked_view asked.now) found.now) }
{
    match left_drawn(search, asked, found)? {
        Some(left) => {
            let reply = left_reply(search, at, asked, left, watch)?;
            Ok(Some(reply))
        }
        None => Ok(None),
    }
}

/// The first step that never ends, where a picture is asked for.
fn left_drawn<F>(
    search: &Search<'_, F>,
    asked: &Reading,
    found: &Rows,
) -> Result<Option<Unmet>, AllocError>
    ensures { IfOk result (λ left. left ≡ left_drawn search.now.options.drawn asked.now.job found.now) }
{
    if search.options.drawn.is_none() {
        return Ok(None);
    }
    let steps = steps_of(search.alloc, &asked.job)?;
    Ok(first_left(found, steps.as_slice()))
}

/// The first of these steps that never ends.
fn first_left(found: &Rows, steps: &[JobStep<'_>]) -> Option<Unmet>
    ensures { result ≡ first_left found.now (map step_view steps.now) }
{
    for at in steps {
        let left = left_of(found, at);
        if left.is_some() {
            return left;
        }
    }
    None
}

/// A step that never ends, if it doesn't.
fn left_of(found: &Rows, at: &JobStep<'_>) -> Option<Unmet>
    ensures { result ≡ left_of found.now (step_view at.now) }
{
    match u16::try_from(at.number) {
        Ok(step) if is_stuck(found, at.rank, at.number) => Some(Unmet {
            rank: at.rank,
            step,
            is_open: true,
        }),
        _ => None,
    }
}

/// The reply that shows this step, which never ends in some schedule.
fn left_reply<F: Finder, W: Watch>(
    search: &Search<'_, F>,
    at: Option<Place>,
    asked: &Reading,
    left: Unmet,
    watch: &mut W,
) -> Result<Reply, AllocError>
    requires { Judges asked.now.job (Some left) }
    ensures { IfOk result (λ r. IsDrawn search.now.form search.now.options at (asked_view asked.now) left r.status (body_in search.now.form r.body)) }
{
    let goals = left.goals(search.alloc, &asked.job)?;
    let told = told_of(search, &asked.job, &goals, watch)?;
    told_reply(search, at, asked, &told)
}
