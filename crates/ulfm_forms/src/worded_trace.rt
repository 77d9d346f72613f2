//! The lines of a trace in plain words, or in MPI's.
ghost use Rattle.std.specs.Prelude.{◌≡◌, ◌++◌, option_map, OnOk, string_bytes};
ghost use Rattle.ulfm_job.specs.Words.{told_view};
ghost use Rattle.ulfm_forms.specs.WordedTrace.{asked_in, call_at, line_in, lines_in};

use crate::worded::{push_answer_in, push_call_in};
use crate::wording::Wording;
use std::alloc::AllocError;
use ulfm_answer::{StepAnswer, StepReport};
use ulfm_job::{Job, StepWords};

/// Puts a step in these words, if the job has it.
fn push_asked_in(
    text: &mut String,
    wording: Wording,
    step: Option<StepWords<'_>>,
) -> Result<(), AllocError>
    ensures { OnOk result (string_bytes text.new ≡ string_bytes text.old ++ asked_in wording (option_map told_view step.entry)) }
{
    match step {
        Some(step) => push_call_in(text, wording, step),
        None => Ok(()),
    }
}

/// Puts the step `k` of the rank `r` of a job in these words.
///
/// # Errors
///
/// A growth was refused: a part of it may stand in the text then.
pub fn push_call_at(
    text: &mut String,
    wording: Wording,
    job: &Job,
    r: u8,
    k: usize,
) -> Result<(), AllocError>
    ensures { OnOk result (string_bytes text.new ≡ string_bytes text.old ++ call_at wording job.now r k) }
{
    push_asked_in(text, wording, job.told(r, k))
}

/// Puts the line of an answered step in these words.
///
/// # Errors
///
/// A growth was refused: a part of it may stand in the text then.
pub fn push_line_in(
    text: &mut String,
    wording: Wording,
    job: &Job,
    r: u8,
    k: usize,
    answer: &StepAnswer,
) -> Result<(), AllocError>
    ensures { OnOk result (string_bytes text.new ≡ string_bytes text.old ++ line_in wording job.now r k answer.now) }
{
    write!(text, "{r} {k} ")?;
    push_call_at(text, wording, job, r, k)?;
    text.push_str(": ")?;
    push_answer_in(text, wording, answer)?;
    text.push_str("\n")
}

/// Puts a line for each of the answered steps of the rank `r` of a job behind another text, in these words.
///
/// # Errors
///
/// A growth was refused: some lines may stand in the text then.
pub fn push_lines_in(
    text: &mut String,
    wording: Wording,
    job: &Job,
    r: u8,
    steps: &[StepReport],
) -> Result<(), AllocError>
    ensures { OnOk result (string_bytes text.new ≡ string_bytes text.old ++ lines_in wording job.now r 0 steps.now) }
{
    for (k, report) in steps.iter().enumerate() {
        push_line_in(text, wording, job, r, k, &report.answer)?;
    }
    Ok(())
}
