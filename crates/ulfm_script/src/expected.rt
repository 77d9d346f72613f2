//! Whether all answers are as a job expects.
ghost use Rattle.std.specs.Prelude.{◌≡◌};
ghost use Rattle.ulfm_answer.specs.Reacting.{all_met, meets_expected};

use crate::report::RankReport;
use std::alloc::Global;
use ulfm_answer::each_met;
use ulfm_job::{Clause, Job};

/// Whether the answers of a rank are as its steps expect.
fn meets_expected(alloc: Global, expected: &[Clause], report: &RankReport) -> bool
    ensures { result ≡ meets_expected expected.now report.now }
{
    each_met(alloc, expected, report.me().number, report.steps())
}

/// Whether the answers of all ranks are as their steps expect, as far as they were played.
pub fn all_met(alloc: Global, job: &Job, reports: &[RankReport]) -> bool
    ensures { result ≡ all_met job.now reports.now }
{
    let expected = job.expected();
    reports
        .iter()
        .all(|report| meets_expected(alloc, expected, report))
}
