//! The reply that a trace is.
ghost use Rattle.std.specs.Prelude.{◌≡◌};
ghost use Rattle.ulfm_answer.specs.Report.{is_unfinished};
ghost use Rattle.ulfm_reader.specs.JobText.{rows_of};
ghost use Rattle.ulfm_run_reply.specs.Asking.{as_asked};
ghost use Rattle.ulfm_run_reply.specs.Unfinished.{has_unfinished, left_from, leaves_unfinished, played_status};
ghost use Rattle.ulfm_run_reply.specs.declared.any_body.AnyBody.TheVariants.{Ran as Run, Trace};

use crate::any_body::AnyBody;
use crate::any_reply::AnyReply;
use crate::demands::as_asked;
use crate::ran::Ran;
use crate::remarks::remarks_on;
use std::alloc::Global;
use ulfm_answer::{StepAnswer, StepReport};
use ulfm_command_line::{DONE, NOT_EXPECTED, UNFINISHED};
use ulfm_job::Job;
use ulfm_reader::Reading;
use ulfm_script::RankReport;

/// The trace of the reports of a job's ranks, with its status, by what its text asks for.
pub fn trace_reply(
    alloc: Global,
    is_strict: bool,
    asked: Reading,
    reports: Vec<RankReport>,
) -> AnyReply
    ensures status { result.status ≡ played_status is_strict (as_asked (rows_of asked.never.items) asked.job reports.items) (has_unfinished asked.job reports.items) }
    ensures body { result.body ≡ Trace asked reports }
{
    let status = status_of(alloc, is_strict, &asked, reports.as_slice());
    let remarks = remarks_on(alloc, &asked, &reports);
    AnyReply {
        status,
        body: AnyBody::Trace(asked, reports),
        remarks,
    }
}

/// The trace of a run, with its status, by what the text of the job asks for.
pub fn ran_reply(alloc: Global, is_strict: bool, asked: Reading, ran: Ran) -> AnyReply
    ensures status { result.status ≡ played_status is_strict (as_asked (rows_of asked.never.items) asked.job ran.reports.items) (has_unfinished asked.job ran.reports.items) }
    ensures body { result.body ≡ Run asked ran }
{
    let status = status_of(alloc, is_strict, &asked, ran.reports.as_slice());
    let remarks = remarks_on(alloc, &asked, &ran.reports);
    AnyReply {
        status,
        body: AnyBody::Ran(asked, ran),
        remarks,
    }
}

/// The status of the reports of a job's ranks, by what its text asks for.
fn status_of(alloc: Global, is_strict: bool, asked: &Reading, reports: &[RankReport]) -> u8
    ensures { result ≡ played_status is_strict (as_asked (rows_of asked.now.never.items) asked.now.job reports.now) (has_unfinished asked.now.job reports.now) }
{
    let is_met = as_asked(alloc, asked, reports);
    played_status(is_strict, is_met, has_unfinished(&asked.job, reports))
}

/// The status of what was played to its end, by whether the answers are as the job asks, and whether a step was left unfinished.
pub fn played_status(is_strict: bool, is_met: bool, is_unfinished: bool) -> u8
    ensures { result ≡ played_status is_strict is_met is_unfinished }
{
    if !is_met {
        NOT_EXPECTED
    } else if is_strict && is_unfinished {
        UNFINISHED
    } else {
        DONE
    }
}

/// Whether some step of some rank was left unfinished. One that may be given up early isn't looked at.
pub fn has_unfinished(job: &Job, reports: &[RankReport]) -> bool
    ensures { result ≡ has_unfinished job.now reports.now }
{
    reports.iter().any(|report| leaves_unfinished(job, report))
}

/// Whether some step of a rank was left unfinished, that may not be given up early.
fn leaves_unfinished(job: &Job, report: &RankReport) -> bool
    ensures { result ≡ leaves_unfinished job.now report.now }
{
    left_from(job, report.me().number, report.steps())
}

/// Whether one of these steps of a rank was left unfinished, that may not be given up early.
fn left_from(job: &Job, rank: u8, steps: &[StepReport]) -> bool
    ensures { result ≡ left_from job.now rank 0 steps.now }
{
    for (k, step) in steps.iter().enumerate() {
        if is_unfinished(step) && !job.may_leave(rank, k) {
            return true;
        }
    }
    false
}

/// Whether a step was left unfinished.
pub(crate) fn is_unfinished(step: &StepReport) -> bool
    ensures { result ≡ is_unfinished step.now.answer }
{
    match step.answer {
        StepAnswer::Unfinished => true,
        _ => false,
    }
}
