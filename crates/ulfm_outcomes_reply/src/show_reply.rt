//! The reply of `outcomes --show`: a schedule that shows answers.
ghost use Rattle.std.specs.Prelude.{◌≡◌, ℕ, List, None, Some, IfOk};
ghost use Rattle.ulfm_forms.specs.declared.form.Form.{Form as Written};
ghost use Rattle.ulfm_outcomes_reply.specs.Outcomes.{IsShowReply, nowhere_in};
ghost use Rattle.ulfm_outcomes_reply.specs.inside.Looking.{IsLookText, look_status};
ghost use Rattle.ulfm_command_line.specs.Body.{body_in};
ghost use Rattle.ulfm_command_line.specs.Stopped.{IsAskedAt, asked_view};
ghost use Rattle.ulfm_command_line.specs.Unknown.{no_goal};

use crate::search::Search;
use std::alloc::{AllocError, Global};
use ulfm_command_line::{Body, DONE, JOB_REFUSED, NO_SCHEDULE, PAST_LIMIT, Place, Reply, asked_at};
use ulfm_draw::drawn;
use ulfm_forms::Form;
use ulfm_outcomes_list::{Goals, Told, push_told};
use ulfm_outcomes_spec::Finder;
use ulfm_reach::Watch;
use ulfm_reader::Reading;

/// The reply of `outcomes --show` by this search, with these answers. `watch` is told how far it is.
pub fn show_reply<F: Finder, W: Watch>(
    search: &Search<'_, F>,
    show: &str,
    bytes: &[u8],
    watch: &mut W,
) -> Result<Reply, AllocError>
    ensures { IfOk result (λ r. IsShowReply search.now.form search.now.options show.now bytes.now r.status (body_in search.now.form r.body)) }
{
    let read = asked_at(search.alloc, search.options.place, bytes)?;
    match read {
        Ok(asked) => sought_reply(search, show, &asked, watch),
        Err(reply) => Ok(reply),
    }
}

/// The reply to what was asked for, with its place of stops.
fn sought_reply<F: Finder, W: Watch>(
    search: &Search<'_, F>,
    show: &str,
    asked: &Reading,
    watch: &mut W,
) -> Result<Reply, AllocError>
    ensures { (bytes : List ℕ) → IsAskedAt search.now.options.place bytes (asked_view asked.now) → IfOk result (λ r. IsShowReply search.now.form search.now.options show.now bytes r.status (body_in search.now.form r.body)) }
{
    let answers = match asked.goals(search.alloc, show)? {
        Ok(answers) => answers,
        Err(text) => return no_goal(search.alloc, text),
    };
    let goals = Goals::of(search.alloc, &asked.job, answers.as_slice())?;
    let look = search.show(&asked.job, &goals, watch)?;
    look_reply(search, asked, &look)
}

/// The reply to a goal that names no answer of the job.
pub(crate) fn no_goal(alloc: Global, goal: &str) -> Result<Reply, AllocError>
    ensures { IfOk result (λ r. (r.status ≡ 1) × ((form : Written) → body_in form r.body ≡ no_goal goal.now)) }
{
    Ok(Reply {
        status: JOB_REFUSED,
        body: Body::NoGoal(String::from_str(alloc, goal)?),
        remarks: None,
    })
}

/// The reply to what came of a search.
fn look_reply<F>(
    search: &Search<'_, F>,
    asked: &Reading,
    look: &Option<Told>,
) -> Result<Reply, AllocError>
    ensures { IfOk result (λ r. (r.status ≡ look_status look.now) × IsLookText search.now.form search.now.options.drawn None (asked_view asked.now) look.now (body_in search.now.form r.body)) }
{
    match look {
        Some(told) => told_reply(search, None, asked, told),
        None => nowhere_reply(search.alloc, search.form),
    }
}

/// The reply that no schedule shows the answers.
pub(crate) fn nowhere_reply(alloc: Global, form: Form) -> Result<Reply, AllocError>
    ensures { IfOk result (λ r. (r.status ≡ 8) × (body_in form r.body ≡ nowhere_in form)) }
{
    Ok(Reply {
        status: NO_SCHEDULE,
        body: Body::Text(String::from_str(alloc, nowhere(form))?),
        remarks: None,
    })
}

/// What is said where no schedule shows the answers, in this form.
fn nowhere(form: Form) -> &'static str
    ensures { result.now ≡ nowhere_in form }
{
    match form {
        Form::Words(_) => "no schedule\n",
        Form::Json => "{\"schedule\":null}\n",
    }
}

/// The reply of what is told, perhaps with the stops of a place: a schedule is drawn where it is to be.
pub(crate) fn told_reply<F>(
    search: &Search<'_, F>,
    at: Option<Place>,
    asked: &Reading,
    told: &Told,
) -> Result<Reply, AllocError>
    ensures { IfOk result (λ r. (r.status ≡ look_status (Some told.now)) × IsLookText search.now.form search.now.options.drawn at (asked_view asked.now) (Some told.now) (body_in search.now.form r.body)) }
{
    let style = search.options.drawn;
    if let (Told::Schedule(schedule), Some(style)) = (told, style) {
        let note = note_of(search.alloc, at)?;
        let wording = search.form.wording();
        let text = drawn(
            search.alloc,
            style,
            wording,
            &asked.job,
            schedule,
            note.as_str(),
        )?;
        return Ok(Reply {
            status: DONE,
            body: Body::Text(text),
            remarks: None,
        });
    }
    let mut text = String::new(search.alloc);
    push_told(&mut text, search.form, at, asked, told)?;
    Ok(Reply {
        status: status_of(told),
        body: Body::Text(text),
        remarks: None,
    })
}

/// What a picture says of its place: nothing where no stop was put there.
fn note_of(alloc: Global, at: Option<Place>) -> Result<String, AllocError> {
    let Some(place) = at else {
        return Ok(String::new(alloc));
    };
    match place {
        Place::Nowhere => Ok(String::new(alloc)),
        Place::One(_) => format!(in alloc; "with a stop at {place}"),
        Place::Two(..) => format!(in alloc; "with stops at {place}"),
    }
}

/// The status of what is told.
fn status_of(told: &Told) -> u8
    ensures { result ≡ look_status (Some told.now) }
{
    match told {
        Told::Schedule(_) => DONE,
        Told::Many(_) => PAST_LIMIT,
    }
}
