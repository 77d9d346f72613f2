//! The reply of `outcomes --stops --show`: the first place at which a schedule shows answers, and that schedule.
ghost use Rattle.std.specs.Prelude.{◌≡◌, ℕ, All, List, IfOk, Some};
ghost use Rattle.ulfm_job.specs.Place.{IsPlaceOf, job_at};
ghost use Rattle.ulfm_outcomes_reply.specs.ShowEach.{AreGoalsAt, IsShowEachReply, beside};
ghost use Rattle.ulfm_outcomes_reply.specs.inside.Judging.{IsFirstLook, IsInside, IsLookAt, IsLookAtText, look_at_status};
ghost use Rattle.ulfm_outcomes_reply.specs.inside.Looking.{IsLookText, look_status};
ghost use Rattle.ulfm_command_line.specs.Body.{body_in};
ghost use Rattle.ulfm_command_line.specs.Stopped.{IsAskedAt, asked_at, asked_view};
ghost use Rattle.ulfm_job.specs.declared.place.Place.TheVariants.{Nowhere};

use crate::onlooker::{Onlooker, Seen};
use crate::search::Search;
use crate::show_reply::{no_goal, nowhere_reply, told_reply};
use std::alloc::{AllocError, Global};
use ulfm_command_line::{Place, Reply, asked_at, refusal, stopped_at};
use ulfm_job::{Clause, Job, JobFault, MOST_STEPS, Stop, places};
use ulfm_outcomes_list::{Goals, Told};
use ulfm_outcomes_spec::Finder;
use ulfm_reader::Reading;

/// The reply of `outcomes --stops --show` by this search, with these answers. The onlooker is told how far the searches are.
pub fn show_each_reply<F: Finder, L: Onlooker>(
    search: &Search<'_, F>,
    stops: u8,
    show: &str,
    bytes: &[u8],
    onlooker: &L,
) -> Result<Reply, AllocError>
    ensures { IfOk result (λ r. IsShowEachReply search.now.form search.now.options stops show.now bytes.now r.status (body_in search.now.form r.body)) }
{
    let read = asked_at(search.alloc, Place::Nowhere, bytes)?;
    match read {
        Ok(asked) => sought_reply(search, stops, show, &asked, onlooker),
        Err(reply) => Ok(reply),
    }
}

/// The reply to what was asked for.
fn sought_reply<F: Finder, L: Onlooker>(
    search: &Search<'_, F>,
    stops: u8,
    show: &str,
    asked: &Reading,
    onlooker: &L,
) -> Result<Reply, AllocError>
    ensures { (bytes : List ℕ) → IsAskedAt Nowhere bytes (asked_view asked.now) → IfOk result (λ r. IsShowEachReply search.now.form search.now.options stops show.now bytes r.status (body_in search.now.form r.body)) }
{
    if asked.job.len() + stops as usize > MOST_STEPS {
        return Ok(refusal(JobFault::TooLarge));
    }
    let answers = match asked.goals(search.alloc, show)? {
        Ok(answers) => answers,
        Err(text) => return no_goal(search.alloc, text),
    };
    let places = places(search.alloc, &asked.job, stops)?;
    let answers = answers.as_slice();
    let look = first_look(search, &asked.job, answers, places.as_slice(), onlooker)?;
    look_reply(search, asked, &look)
}

/// What came of a search at a place.
#[derive(Drop)]
pub(crate) struct LookAt {
    pub(crate) place: Place,
    pub(crate) told: Told,
}

/// The first of these places at which a schedule has all these answers, or at which it can't be looked for within the limit.
fn first_look<F: Finder, L: Onlooker>(
    search: &Search<'_, F>,
    job: &Job,
    answers: &[Clause],
    places: &[Place],
    onlooker: &L,
) -> Result<Option<LookAt>, AllocError>
    requires { All (IsPlaceOf job.now) places.now }
    ensures { IfOk result (IsFirstLook job.now answers.now search.now.options.is_brief search.now.options.limit places.now) }
{
    for place in places {
        if let Some(told) = look_at(search, job, answers, *place, onlooker)? {
            return Ok(Some(LookAt {
                place: *place,
                told,
            }));
        }
    }
    Ok(None)
}

/// What comes of a search for these answers at a place.
fn look_at<F: Finder, L: Onlooker>(
    search: &Search<'_, F>,
    job: &Job,
    answers: &[Clause],
    place: Place,
    onlooker: &L,
) -> Result<Option<Told>, AllocError>
    requires { IsPlaceOf job.now place }
    ensures { IfOk result (IsLookAt job.now answers.now search.now.options.is_brief search.now.options.limit place) }
{
    // A job without room for so many stops was refused before: what is left is memory.
    let Ok(stopped) = place.job(search.alloc, job) else {
        return Err(AllocError);
    };
    let goals = goals_at(search.alloc, place, job, &stopped, answers)?;
    let watch = &mut Seen::of(onlooker, place);
    let look = search.show(&stopped, &goals, watch)?;
    Ok(look)
}

/// What clauses of the file's steps ask for in the job at a place, which is `stopped`.
fn goals_at(
    alloc: Global,
    place: Place,
    job: &Job,
    stopped: &Job,
    clauses: &[Clause],
) -> Result<Goals, AllocError>
    requires { stopped.now ≡ job_at place job.now }
    ensures { IfOk result (AreGoalsAt place job.now clauses.now) }
{
    match place {
        Place::Nowhere => Ok(Goals::of(alloc, stopped, clauses)?),
        Place::One(stop) => {
            let moved = beside(alloc, job, stop, clauses)?;
            Ok(Goals::of(alloc, stopped, moved.as_slice())?)
        }
        Place::Two(first, second) => {
            let half = beside(alloc, job, first, clauses)?;
            let moved = beside(alloc, job, second, half.as_slice())?;
            Ok(Goals::of(alloc, stopped, moved.as_slice())?)
        }
    }
}

/// Clauses of the file's steps by the numbers that these have beside a stop.
fn beside(
    alloc: Global,
    job: &Job,
    stop: Stop,
    clauses: &[Clause],
) -> Result<Vec<Clause>, AllocError>
    ensures { IfOk result (λ moved. moved.items ≡ beside job.now stop clauses.now) }
{
    Ok(stop.clauses(alloc, job.script_len(stop.rank), clauses)?)
}

/// The reply to what came of a search at each place.
fn look_reply<F>(
    search: &Search<'_, F>,
    asked: &Reading,
    look: &Option<LookAt>,
) -> Result<Reply, AllocError>
    requires { IsInside asked.now.job look.now }
    ensures { IfOk result (λ r. (r.status ≡ look_at_status look.now) × IsLookAtText search.now.form search.now.options.drawn (asked_view asked.now) look.now (body_in search.now.form r.body)) }
{
    match look {
        Some(look) => look_at_reply(search, asked, look),
        None => nowhere_reply(search.alloc, search.form),
    }
}

/// The reply to what came of a search at a place.
fn look_at_reply<F>(
    search: &Search<'_, F>,
    asked: &Reading,
    look: &LookAt,
) -> Result<Reply, AllocError>
    requires { IsPlaceOf asked.now.job look.now.place }
    ensures { IfOk result (λ r. (r.status ≡ look_status (Some look.now.told)) × IsLookText search.now.form search.now.options.drawn (Some look.now.place) (asked_at look.now.place (asked_view asked.now)) (Some look.now.told) (body_in search.now.form r.body)) }
{
    let made = stopped_at(search.alloc, look.place, asked)?;
    told_reply(search, Some(look.place), &made, &look.told)
}
