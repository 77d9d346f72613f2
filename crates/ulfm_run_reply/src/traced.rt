//! The trace in each form.
ghost use Rattle.std.specs.Prelude.{◌≡◌, ◌++◌, IfOk, OnOk, string_bytes};
ghost use Rattle.ulfm_forms.specs.Form.{trace_in};
ghost use Rattle.ulfm_forms.specs.Trace.{rank_json, trace_json};
ghost use Rattle.ulfm_forms.specs.WordedTrace.{rank_in, words_of};
ghost use Rattle.ulfm_forms.specs.declared.wording.Wording.TheVariants.{Mpi};
ghost use Rattle.std.specs.List.{flat_map};

use std::alloc::{AllocError, Global};
use ulfm_answer::push_closing;
use ulfm_base::OutOfMemory;
use ulfm_forms::{Form, Wording, push_end, push_lines_in, push_steps};
use ulfm_job::Job;
use ulfm_reader::Name;
use ulfm_script::{RankReport, trace_text};

/// The trace of the reports of a job's ranks, in this form. Its steps have these names.
///
/// # Errors
///
/// `OutOfMemory` where a growth was refused.
pub fn trace_in(
    alloc: Global,
    form: Form,
    names: &[Name],
    job: &Job,
    reports: &[RankReport],
) -> Result<String, OutOfMemory>
    ensures { IfOk result (λ text. string_bytes text ≡ trace_in form names.now job.now reports.now) }
{
    match form {
        Form::Words(wording) => trace_words(alloc, wording, job, reports),
        Form::Json => trace_json(alloc, names, job, reports),
    }
}

/// The trace in these words.
fn trace_words(
    alloc: Global,
    wording: Wording,
    job: &Job,
    reports: &[RankReport],
) -> Result<String, OutOfMemory>
    ensures { IfOk result (λ text. string_bytes text ≡ words_of wording job.now reports.now) }
{
    match wording {
        Wording::Plain => trace_text(alloc, job, reports),
        Wording::Mpi => mpi_trace(alloc, job, reports),
    }
}

/// The trace in MPI's words.
fn mpi_trace(alloc: Global, job: &Job, reports: &[RankReport]) -> Result<String, OutOfMemory>
    ensures { IfOk result (λ text. string_bytes text ≡ flat_map (rank_in Mpi job.now) reports.now) }
{
    let mut text = String::new(alloc);
    for report in reports {
        push_mpi_rank(&mut text, job, report)?;
    }
    Ok(text)
}

/// The lines of a rank in MPI's words.
fn push_mpi_rank(text: &mut String, job: &Job, report: &RankReport) -> Result<(), AllocError>
    ensures { OnOk result (string_bytes text.new ≡ string_bytes text.old ++ rank_in Mpi job.now report.now) }
{
    let rank = report.me().number;
    push_lines_in(text, Wording::Mpi, job, rank, report.steps())?;
    push_closing(text, rank, report.stopped(), report.starved())
}

/// The lines of a rank as objects.
fn push_rank(
    text: &mut String,
    names: &[Name],
    job: &Job,
    report: &RankReport,
) -> Result<(), AllocError>
    ensures { OnOk result (string_bytes text.new ≡ string_bytes text.old ++ rank_json names.now job.now report.now) }
{
    let rank = report.me().number;
    push_steps(text, names, job, rank, report.steps())?;
    push_end(text, rank, report.stopped(), report.starved())
}

/// The trace of the reports of a job's ranks: for each rank an object for each answered step, then one that says how it ended. Its
/// steps have these names.
///
/// # Errors
///
/// `OutOfMemory` where a growth was refused.
pub fn trace_json(
    alloc: Global,
    names: &[Name],
    job: &Job,
    reports: &[RankReport],
) -> Result<String, OutOfMemory>
    ensures { IfOk result (λ text. string_bytes text ≡ trace_json names.now job.now reports.now) }
{
    let mut text = String::new(alloc);
    for report in reports {
        push_rank(&mut text, names, job, report)?;
    }
    Ok(text)
}
