//! What standard error tells of reports: for people, and none of it is promised.

use crate::demands::has_come;
use crate::trace::is_unfinished;
use std::alloc::{AllocError, Global};
use ulfm_answer::StepReport;
use ulfm_command_line::{Remark, StepTold, push_unmet_answers};
use ulfm_reader::Reading;
use ulfm_script::RankReport;

/// What is told of the reports of a job's ranks: answers that aren't as their steps expect, rows whose answers all came, and steps that are
/// unfinished. Nothing where a growth was refused.
pub fn remarks_on(alloc: Global, asked: &Reading, reports: &[RankReport]) -> Option<Vec<Remark>> {
    found_in(alloc, asked, reports).ok()
}

/// What is told of the reports of a job's ranks, or that a growth was refused.
fn found_in(
    alloc: Global,
    asked: &Reading,
    reports: &[RankReport],
) -> Result<Vec<Remark>, AllocError> {
    let mut remarks = Vec::new(alloc);
    for report in reports {
        let rank = report.me().number;
        push_unmet_answers(&mut remarks, asked, rank, report.steps())?;
        push_unfinished(&mut remarks, asked, rank, report.steps())?;
    }
    for (number, row) in asked.never.iter().enumerate() {
        if has_come(alloc, &asked.job, reports, row) {
            remarks.push(Remark::came(alloc, asked, number)?)?;
        }
    }
    Ok(remarks)
}

/// Adds which of a rank's answered steps are unfinished.
fn push_unfinished(
    remarks: &mut Vec<Remark>,
    asked: &Reading,
    rank: u8,
    done: &[StepReport],
) -> Result<(), AllocError> {
    let alloc = *remarks.allocator();
    for (at, step) in done.iter().enumerate() {
        if is_unfinished(step) && !asked.job.may_leave(rank, at) {
            remarks.push(Remark::Unfinished(StepTold::of(alloc, asked, rank, at)?))?;
        }
    }
    Ok(())
}
