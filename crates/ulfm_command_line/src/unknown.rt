//! How it is printed that a job hasn't what the words name: a place, an answer, a step.
ghost use Rattle.std.specs.Prelude.{◌≡◌, IfOk, string_bytes};
ghost use Rattle.ulfm_command_line.specs.Unknown.{no_goal, no_name, no_place_in, no_place_json, no_place_text, unnamed_in, unnamed_json, unnamed_text};

use std::alloc::{AllocError, Global};
use ulfm_forms::Form;
use ulfm_job::Place;

/// The line for a place that a job hasn't, in this form.
pub(crate) fn no_place_in(alloc: Global, form: Form, place: Place) -> Result<String, AllocError>
    ensures { IfOk result (λ text. string_bytes text ≡ no_place_in form place) }
{
    match form {
        Form::Words(_) => no_place_text(alloc, place),
        Form::Json => no_place_json(alloc, place),
    }
}

/// What stands before a place that a job hasn't.
const NO_PLACE: &str = "place refused: ";

/// The line for a place that a job hasn't.
fn no_place_text(alloc: Global, place: Place) -> Result<String, AllocError>
    ensures { IfOk result (λ text. string_bytes text ≡ no_place_text place) }
{
    format!(in alloc; "{NO_PLACE}{place}\n")
}

/// The object for a place that a job hasn't.
fn no_place_json(alloc: Global, place: Place) -> Result<String, AllocError>
    ensures { IfOk result (λ text. string_bytes text ≡ no_place_json place) }
{
    format!(in alloc; "{{\"place_refused\":\"{place}\"}}\n")
}

/// The line for a text that names no place of a job, in this form.
pub(crate) fn unnamed_in(alloc: Global, form: Form, text: &str) -> Result<String, AllocError>
    ensures { IfOk result (λ line. string_bytes line ≡ unnamed_in form text.now) }
{
    match form {
        Form::Words(_) => unnamed_text(alloc, text),
        Form::Json => unnamed_json(alloc, text),
    }
}

/// The line for a text that names no place of a job.
fn unnamed_text(alloc: Global, text: &str) -> Result<String, AllocError>
    ensures { IfOk result (λ line. string_bytes line ≡ unnamed_text text.now) }
{
    format!(in alloc; "place refused: {text}\n")
}

/// The object for a text that names no place of a job.
fn unnamed_json(alloc: Global, text: &str) -> Result<String, AllocError>
    ensures { IfOk result (λ line. string_bytes line ≡ unnamed_json text.now) }
{
    format!(in alloc; "{{\"place_refused\":\"{text}\"}}\n")
}

/// The line for a goal that names no answer of the job.
pub(crate) fn no_goal(alloc: Global, text: &str) -> Result<String, AllocError>
    ensures { IfOk result (λ line. string_bytes line ≡ no_goal text.now) }
{
    format!(in alloc; "goal refused: {text}\n")
}

/// The line for a name that no step of the job has.
pub(crate) fn no_name(alloc: Global, name: &str) -> Result<String, AllocError>
    ensures { IfOk result (λ line. string_bytes line ≡ no_name name.now) }
{
    format!(in alloc; "name refused: {name}\n")
}
