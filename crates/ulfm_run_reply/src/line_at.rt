//! The line of a trace at a place: of a rank's step, or of how a rank ended.
ghost use Rattle.std.specs.Prelude.{◌≡◌, ◌++◌, option_map, IfOk, OnOk, string_bytes};
ghost use Rattle.ulfm_job.specs.Words.{told_at};
ghost use Rattle.ulfm_forms.specs.Trace.{step_json};
ghost use Rattle.ulfm_run_reply.specs.Brief.{end_line_in, line_at, line_of, step_line_in};

use std::alloc::{AllocError, Global};
use ulfm_answer::{StepAnswer, push_closing};
use ulfm_forms::{Form, push_answered, push_end, push_line_in};
use ulfm_reader::Reading;
use ulfm_script::RankReport;

/// The line of these reports, in this form, of a rank's step, or without a step of how the rank ended. None where the step has no answer.
///
/// # Errors
///
/// `AllocError` where a growth was refused.
pub(crate) fn line_at(
    alloc: Global,
    form: Form,
    asked: &Reading,
    rank: u8,
    at: Option<usize>,
    reports: &[RankReport],
) -> Result<Option<String>, AllocError>
    ensures { IfOk result (λ line. option_map string_bytes line ≡ line_at form asked.now.names.items asked.now.job (rank, at) reports.now) }
{
    match reports.get(rank as usize) {
        Some(report) => line_of(alloc, form, asked, rank, at, report),
        None => Ok(None),
    }
}

/// The line of a rank's step in its report, or without a step of how the rank ended.
fn line_of(
    alloc: Global,
    form: Form,
    asked: &Reading,
    rank: u8,
    at: Option<usize>,
    report: &RankReport,
) -> Result<Option<String>, AllocError>
    ensures { IfOk result (λ line. option_map string_bytes line ≡ line_of form asked.now.names.items asked.now.job rank at report.now) }
{
    let Some(step) = at else {
        return Ok(Some(end_line(alloc, form, rank, report)?));
    };
    match report.steps().get(step) {
        Some(done) => Ok(Some(step_line(alloc, form, asked, rank, step, &done.answer)?)),
        None => Ok(None),
    }
}

/// The line of a rank's step with this answer.
///
/// # Errors
///
/// `AllocError` where a growth was refused.
pub(crate) fn step_line(
    alloc: Global,
    form: Form,
    asked: &Reading,
    rank: u8,
    step: usize,
    answer: &StepAnswer,
) -> Result<String, AllocError>
    ensures { IfOk result (λ text. string_bytes text ≡ step_line_in form asked.now.names.items asked.now.job rank step answer.now) }
{
    let mut text = String::new(alloc);
    match form {
        Form::Words(wording) => {
            push_line_in(&mut text, wording, &asked.job, rank, step, answer)?;
        }
        Form::Json => push_object(&mut text, asked, rank, step, answer)?,
    }
    Ok(text)
}

/// Adds the object of a rank's step with this answer.
fn push_object(
    text: &mut String,
    asked: &Reading,
    rank: u8,
    step: usize,
    answer: &StepAnswer,
) -> Result<(), AllocError>
    ensures { OnOk result (string_bytes text.new ≡ string_bytes text.old ++ step_json asked.now.names.items rank step (told_at asked.now.job rank step) answer.now) }
{
    push_answered(
        text,
        &asked.names,
        rank,
        step,
        asked.job.told(rank, step),
        answer,
    )?;
    text.push_str("}\n")
}

/// The line of how a rank ended.
fn end_line(alloc: Global, form: Form, rank: u8, report: &RankReport) -> Result<String, AllocError>
    ensures { IfOk result (λ text. string_bytes text ≡ end_line_in form rank report.now) }
{
    let mut text = String::new(alloc);
    match form {
        Form::Words(_) => push_closing(&mut text, rank, report.stopped(), report.starved())?,
        Form::Json => push_end(&mut text, rank, report.stopped(), report.starved())?,
    }
    Ok(text)
}
