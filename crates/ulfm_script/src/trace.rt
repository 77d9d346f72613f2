//! The trace: what is printed of the ranks' reports.
ghost use Rattle.std.specs.Prelude.{◌≡◌, ◌++◌, OnOk, IfOk, string_bytes};
ghost use Rattle.ulfm_answer.specs.Trace.{trace_of, rank_text};

use crate::report::RankReport;
use std::alloc::{AllocError, Global};
use ulfm_answer::{push_closing, push_steps};
use ulfm_base::OutOfMemory;
use ulfm_job::Job;

fn push_rank(text: &mut String, job: &Job, report: &RankReport) -> Result<(), AllocError>
    ensures { OnOk result (string_bytes text.new ≡ string_bytes text.old ++ rank_text job.now report.now) }
{
    let me = report.me().number;
    push_steps(text, job, me, report.steps())?;
    push_closing(text, me, report.stopped(), report.starved())
}

/// The trace of the reports of a job: for each rank its answered steps in order, a line each, then a line that says how it
/// ended.
///
/// # Errors
///
/// `OutOfMemory` where a growth was refused.
pub fn trace_text(alloc: Global, job: &Job, reports: &[RankReport]) -> Result<String, OutOfMemory>
    ensures { IfOk result (λ text. string_bytes text ≡ trace_of job.now reports.now) }
{
    let mut text = String::new(alloc);
    for report in reports {
        push_rank(&mut text, job, report)?;
    }
    Ok(text)
}
