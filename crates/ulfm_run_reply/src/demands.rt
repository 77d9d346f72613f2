//! What a job's text asks of the answers of all ranks.
ghost use Rattle.std.specs.Prelude.{◌≡◌};
ghost use Rattle.std.specs.List.{list_all, list_any};
ghost use Rattle.ulfm_reader.specs.JobText.{rows_of};
ghost use Rattle.ulfm_run_reply.specs.Asking.{as_asked, has_come, holds_among};

use std::alloc::Global;
use ulfm_answer::holds_of;
use ulfm_command_line::is_looked_at;
use ulfm_job::{Clause, Job};
use ulfm_reader::Reading;
use ulfm_script::{RankReport, all_met};

/// Whether a clause holds of the answers of its rank.
fn holds_among(alloc: Global, reports: &[RankReport], clause: &Clause) -> bool
    ensures { result ≡ holds_among reports.now clause.now }
{
    match reports.get(clause.rank as usize) {
        Some(report) => holds_of(alloc, report.steps(), clause),
        None => false,
    }
}

/// Whether all answers of a row have come.
fn all_have_come(alloc: Global, reports: &[RankReport], row: &[Clause]) -> bool
    ensures { result ≡ list_all (holds_among reports.now) row.now }
{
    row.iter().all(|clause| holds_among(alloc, reports, clause))
}

/// Whether a row that is looked at has come: all of its answers.
pub(crate) fn has_come(alloc: Global, job: &Job, reports: &[RankReport], row: &Vec<Clause>) -> bool
    ensures { result ≡ has_come job.now reports.now row.now.items }
{
    let row = row.as_slice();
    is_looked_at(job, row) && all_have_come(alloc, reports, row)
}

/// Whether one of these rows has come.
fn one_of_these(alloc: Global, job: &Job, reports: &[RankReport], rows: &[Vec<Clause>]) -> bool
    ensures { result ≡ list_any (λ row. has_come job.now reports.now row.items) rows.now }
{
    rows.iter().any(|row| has_come(alloc, job, reports, row))
}

/// Whether one of these rows has come.
fn one_has_come(alloc: Global, job: &Job, reports: &[RankReport], rows: &[Vec<Clause>]) -> bool
    ensures { result ≡ list_any (has_come job.now reports.now) (rows_of rows.now) }
{
    one_of_these(alloc, job, reports, rows)
}

/// Whether the answers are as the text asks: each as its step expects, as far as they were played, and not all of any row of `never` that is
/// looked at.
#[tactic(auto, unfolding(crate::specs::Asking::as_asked))]
pub fn as_asked(alloc: Global, asked: &Reading, reports: &[RankReport]) -> bool
    ensures { result ≡ as_asked (rows_of asked.now.never.items) asked.now.job reports.now }
{
    all_met(alloc, &asked.job, reports)
        && !one_has_come(alloc, &asked.job, reports, asked.never.as_slice())
}
