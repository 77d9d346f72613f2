//! The lines of a trace as JSON.
ghost use Rattle.std.specs.Prelude.{◌≡◌, ◌++◌, option_map, OnOk, string_bytes};
ghost use Rattle.std.specs.Option.{option_copied};
ghost use Rattle.ulfm_job.specs.Words.{told_view};
ghost use Rattle.ulfm_forms.specs.Trace.{answered_json, end_json, ended_json, head_json, name_json, step_json, steps_json};

use crate::answer::push_answer;
use crate::call::push_call;
use std::alloc::AllocError;
use ulfm_answer::{StepAnswer, StepReport};
use ulfm_job::{Job, StepWords};
use ulfm_reader::{Name, name_at};

/// The key of a step's name, where it has one.
fn push_name(text: &mut String, name: Option<&str>) -> Result<(), AllocError>
    ensures { OnOk result (string_bytes text.new ≡ string_bytes text.old ++ name_json (option_copied name.entry)) }
{
    match name {
        Some(name) => write!(text, ",\"name\":\"{name}\""),
        None => Ok(()),
    }
}

/// The beginning of the object of a step: its rank, its number, its name, and what it asks for.
pub fn push_head(
    text: &mut String,
    names: &[Name],
    rank: u8,
    k: usize,
    step: Option<StepWords<'_>>,
) -> Result<(), AllocError>
    ensures { OnOk result (string_bytes text.new ≡ string_bytes text.old ++ head_json names.now rank k (option_map told_view step.entry)) }
{
    write!(text, "{{\"rank\":{rank},\"step\":{k}")?;
    push_name(text, name_at(names, rank, k))?;
    text.push_str(",")?;
    match step {
        Some(step) => push_call(text, step),
        None => text.push_str("\"op\":null"),
    }
}

/// The object of a step with its answer, but for its end.
pub fn push_answered(
    text: &mut String,
    names: &[Name],
    rank: u8,
    k: usize,
    step: Option<StepWords<'_>>,
    answer: &StepAnswer,
) -> Result<(), AllocError>
    ensures { OnOk result (string_bytes text.new ≡ string_bytes text.old ++ answered_json names.now rank k (option_map told_view step.entry) answer.now) }
{
    push_head(text, names, rank, k, step)?;
    text.push_str(",\"answer\":")?;
    push_answer(text, answer)
}

/// The line of a step with its answer.
fn push_step(
    text: &mut String,
    names: &[Name],
    rank: u8,
    k: usize,
    step: Option<StepWords<'_>>,
    answer: &StepAnswer,
) -> Result<(), AllocError>
    ensures { OnOk result (string_bytes text.new ≡ string_bytes text.old ++ step_json names.now rank k (option_map told_view step.entry) answer.now) }
{
    push_answered(text, names, rank, k, step, answer)?;
    text.push_str("}\n")
}

/// The lines of a rank's answered steps.
pub fn push_steps(
    text: &mut String,
    names: &[Name],
    job: &Job,
    rank: u8,
    steps: &[StepReport],
) -> Result<(), AllocError>
    ensures { OnOk result (string_bytes text.new ≡ string_bytes text.old ++ steps_json names.now job.now rank 0 steps.now) }
{
    for (k, report) in steps.iter().enumerate() {
        push_step(text, names, rank, k, job.told(rank, k), &report.answer)?;
    }
    Ok(())
}

/// The object of how a rank ended.
pub fn push_ended(
    text: &mut String,
    rank: u8,
    stopped: bool,
    starved: u32,
) -> Result<(), AllocError>
    ensures { OnOk result (string_bytes text.new ≡ string_bytes text.old ++ ended_json rank stopped starved) }
{
    let end = if stopped { "stopped" } else { "done" };
    write!(
        text,
        "{{\"rank\":{rank},\"end\":\"{end}\",\"starved\":{starved}}}"
    )
}

/// The line of how a rank ended.
pub fn push_end(text: &mut String, rank: u8, stopped: bool, starved: u32) -> Result<(), AllocError>
    ensures { OnOk result (string_bytes text.new ≡ string_bytes text.old ++ end_json rank stopped starved) }
{
    push_ended(text, rank, stopped, starved)?;
    text.push_str("\n")
}
