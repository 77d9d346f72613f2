//! The reply of `sweep`: a line for each place of a stop.
ghost use Rattle.std.specs.Prelude.{◌≡◌, ◌++◌, IfOk, OnOk, string_bytes};
ghost use Rattle.ulfm_forms.specs.declared.form.Form.{Form as Written};
ghost use Rattle.ulfm_run_reply.specs.AnyBody.{text_in};
ghost use Rattle.ulfm_run_reply.specs.Sweep.{IsSweepReply, sweep_in, sweep_json, sweep_line, sweep_line_in};

use crate::any_body::AnyBody;
use crate::any_reply::AnyReply;
use std::alloc::{AllocError, Global};
use ulfm_command_line::{DONE, refusal};
use ulfm_forms::Form;
use ulfm_job::Job;
use ulfm_reader::ReadJob;
use ulfm_replay::{SweepFault, SweepLine, sweep};

/// The reply of `sweep`.
pub fn sweep_reply(alloc: Global, bytes: &[u8]) -> Result<AnyReply, AllocError>
    ensures { IfOk result (λ r. (form : Written) → IsSweepReply form bytes.now r.status (text_in form r.body)) }
{
    let job = match Job::read(alloc, bytes) {
        Ok(job) => job,
        Err(fault) => return Ok(AnyReply::plain(refusal(fault))),
    };
    match sweep(alloc, &job) {
        Ok(lines) => Ok(AnyReply {
            status: DONE,
            body: AnyBody::Sweep(lines),
            remarks: None,
        }),
        Err(SweepFault::Job(fault)) => Ok(AnyReply::plain(refusal(fault))),
        Err(SweepFault::Run(_)) => Err(AllocError),
    }
}

/// The lines of a sweep, in this form.
pub fn sweep_text(alloc: Global, form: Form, lines: &[SweepLine]) -> Result<String, AllocError>
    ensures { IfOk result (λ text. string_bytes text ≡ sweep_in form lines.now) }
{
    let mut text = String::new(alloc);
    for line in lines {
        push_line(&mut text, form, line)?;
    }
    Ok(text)
}

/// One line of a sweep, in this form.
fn push_line(text: &mut String, form: Form, line: &SweepLine) -> Result<(), AllocError>
    ensures { OnOk result (string_bytes text.new ≡ string_bytes text.old ++ sweep_line_in form line.now) }
{
    match form {
        Form::Words(_) => push_words(text, line),
        Form::Json => push_object(text, line),
    }
}

/// One line of a sweep in words.
fn push_words(text: &mut String, line: &SweepLine) -> Result<(), AllocError>
    ensures { OnOk result (string_bytes text.new ≡ string_bytes text.old ++ sweep_line line.now) }
{
    write!(
        text,
        "stop {} at {}: done {} over {} pending {} unfinished {} refused {}\n",
        line.rank, line.at, line.done, line.over, line.pending, line.unfinished, line.refused,
    )
}

/// One line of a sweep as an object.
fn push_object(text: &mut String, line: &SweepLine) -> Result<(), AllocError>
    ensures { OnOk result (string_bytes text.new ≡ string_bytes text.old ++ sweep_json line.now) }
{
    write!(
        text,
        "{{\"stop\":{},\"at\":{},\"done\":{},\"over\":{},\"pending\":{},\"unfinished\":{},\"refused\":{}}}\n",
        line.rank, line.at, line.done, line.over, line.pending, line.unfinished, line.refused,
    )
}
