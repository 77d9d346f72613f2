//! The reply of `places`: a line for each place of a job.
ghost use Rattle.std.specs.Prelude.{◌≡◌, ◌++◌, IfOk, OnOk, string_bytes};
ghost use Rattle.ulfm_forms.specs.declared.form.Form.{Form as Written};
ghost use Rattle.ulfm_command_line.specs.Body.{body_in};
ghost use Rattle.ulfm_command_line.specs.Places.{IsPlacesReply, place_line_in, places_in};

use crate::body::Body;
use crate::reply::{DONE, Reply, refusal};
use std::alloc::{AllocError, Global};
use ulfm_forms::Form;
use ulfm_job::{Job, JobFault, MOST_STEPS, Place, places};
use ulfm_reader::ReadJob;

/// The reply of `places`, with at most so many stops, 1 or 2.
pub fn places_reply(alloc: Global, stops: u8, bytes: &[u8]) -> Result<Reply, AllocError>
    ensures { IfOk result (λ r. (form : Written) → IsPlacesReply form stops bytes.now r.status (body_in form r.body)) }
{
    let job = match Job::read(alloc, bytes) {
        Ok(job) => job,
        Err(fault) => return Ok(refusal(fault)),
    };
    if job.len() + stops as usize > MOST_STEPS {
        return Ok(refusal(JobFault::TooLarge));
    }
    let places = places(alloc, &job, stops)?;
    Ok(Reply {
        status: DONE,
        body: Body::Places(places),
        remarks: None,
    })
}

/// A line for each of these places.
pub(crate) fn places_in(alloc: Global, form: Form, places: &[Place]) -> Result<String, AllocError>
    ensures { IfOk result (λ text. string_bytes text ≡ places_in form places.now) }
{
    let mut text = String::new(alloc);
    for place in places {
        push_place(&mut text, form, *place)?;
    }
    Ok(text)
}

/// The line of a place, in this form.
fn push_place(text: &mut String, form: Form, place: Place) -> Result<(), AllocError>
    ensures { OnOk result (string_bytes text.new ≡ string_bytes text.old ++ place_line_in form place) }
{
    match form {
        Form::Words(_) => write!(text, "{place}\n"),
        Form::Json => write!(text, "{{\"place\":\"{place}\"}}\n"),
    }
}
