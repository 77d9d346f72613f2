//! One line of a sweep.
ghost use Rattle.std.specs.Prelude.{◌≡◌, ◌≤◌, length, sum_by};
ghost use Rattle.std.specs.List.{count_by};
ghost use Rattle.ulfm_replay.specs.Sweep.{answers_of, line_of};
ghost use Rattle.ulfm_replay.specs.inside.Kinds.{kind_of};

use crate::kind::Kind;
use ulfm_script::RankReport;

/// How many answers of each kind all ranks got in the replay of a job with one more stop. It stands before the step `at` of
/// `rank`, or after its last one.
#[derive(Clone, Copy, Debug, PartialEq, Eq)]
pub struct SweepLine {
    /// The rank that stops.
    pub rank: u8,
    /// How many steps it has before the stop.
    pub at: u16,
    /// Waits, late cancels and receives of what probes found that got a letter.
    pub done: usize,
    /// Such steps that were told that it is over.
    pub over: usize,
    /// Waits that met failures that weren't acknowledged.
    pub pending: usize,
    /// Steps that were given up after their last poll.
    pub unfinished: usize,
    /// Calls that were refused.
    pub refused: usize,
}

impl SweepLine {
    /// The line of a stop at a place, by the reports that came of it.
    #[tactic(auto, using(crate::proofs::Swept::answers_few))]
    pub(crate) fn of(rank: u8, at: u16, reports: &[RankReport]) -> SweepLine
        requires { sum_by (λ report. length report.steps) reports.now ≤ 65535 }
        ensures { result ≡ line_of rank at reports.now }
    {
        SweepLine {
            rank,
            at,
            done: answers_of(reports, Kind::Done),
            over: answers_of(reports, Kind::Over),
            pending: answers_of(reports, Kind::Pending),
            unfinished: answers_of(reports, Kind::Unfinished),
            refused: answers_of(reports, Kind::Refused),
        }
    }
}

/// How many answers of the reports are of a kind.
fn answers_of(reports: &[RankReport], kind: Kind) -> usize
    requires { answers_of (kind_of kind) reports.now ≤ 65535 }
    ensures { result ≡ answers_of (kind_of kind) reports.now }
{
    reports.iter().map(|report| answers_in(report, kind)).sum()
}

/// How many answers of one report are of a kind.
fn answers_in(report: &RankReport, kind: Kind) -> usize
    ensures { result ≡ count_by (λ step. kind_of kind step.answer) report.now.steps }
{
    report
        .steps()
        .iter()
        .filter(|step| kind.has(&step.answer))
        .count()
}
