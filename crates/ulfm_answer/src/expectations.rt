//! What is expected of answers.
ghost use Rattle.std.specs.Prelude.{◌≡◌, ◌&&◌};
ghost use Rattle.std.specs.List.{list_any};
ghost use Rattle.ulfm_job.specs.declared.clause.Clause.{Clause as SeenClause};
ghost use Rattle.ulfm_answer.specs.Reacting.{each_met, holds_of, is_met, is_of, one_holds};
ghost use Rattle.ulfm_answer.specs.Report.{is_skipped};

use crate::answer::{StepAnswer, StepReport};
use crate::follow::begins;
use std::alloc::Global;
use ulfm_job::Clause;

/// Whether the step `k` of a rank asks for a clause.
fn is_of(rank: u8, k: usize, clause: &Clause) -> bool
    ensures { result ≡ is_of rank k clause.now }
{
    clause.rank == rank && clause.at as usize == k
}

/// Whether a clause holds of these answered steps of its rank.
pub fn holds_of(alloc: Global, done: &[StepReport], clause: &Clause) -> bool
    ensures { result ≡ holds_of done.now clause.now }
{
    match done.get(clause.step as usize) {
        Some(report) => begins(alloc, &report.answer, clause.words.as_bytes()),
        None => false,
    }
}

/// Whether the step `k` of a rank asks for a clause that holds of these answered steps of the rank.
fn is_of_and_holds(alloc: Global, rank: u8, k: usize, done: &[StepReport], clause: &Clause) -> bool
    ensures { result ≡ (is_of rank k clause.now && holds_of done.now clause.now) }
{
    is_of(rank, k, clause) && holds_of(alloc, done, clause)
}

/// Whether the step `k` of a rank asks for one of these clauses.
fn asks(clauses: &[Clause], rank: u8, k: usize) -> bool
    ensures { result ≡ list_any (is_of rank k) clauses.now }
{
    clauses.iter().any(|clause| is_of(rank, k, clause))
}

/// Whether the step `k` of a rank asks for one of these clauses that holds of these answered steps.
fn asks_and_holds(
    alloc: Global,
    clauses: &[Clause],
    rank: u8,
    k: usize,
    done: &[StepReport],
) -> bool
    ensures { result ≡ list_any (λ (c : SeenClause). is_of rank k c && holds_of done.now c) clauses.now }
{
    clauses
        .iter()
        .any(|clause| is_of_and_holds(alloc, rank, k, done, clause))
}

/// Whether the step `k` of a rank asks for none of these clauses, or for one that holds of these answered steps.
fn one_holds(alloc: Global, clauses: &[Clause], rank: u8, k: usize, done: &[StepReport]) -> bool
    ensures { result ≡ one_holds clauses.now rank k done.now }
{
    !asks(clauses, rank, k) || asks_and_holds(alloc, clauses, rank, k, done)
}

/// Whether a step was skipped.
fn is_skipped(report: &StepReport) -> bool
    ensures { result ≡ is_skipped report.now.answer }
{
    matches!(report.answer, StepAnswer::Skipped)
}

/// Whether the answered step `k` of a rank was skipped, or its answer is one that it expects, if it expects any.
fn is_met(
    alloc: Global,
    expected: &[Clause],
    rank: u8,
    k: usize,
    done: &[StepReport],
    report: &StepReport,
) -> bool
    ensures { result ≡ is_met expected.now rank k done.now report.now }
{
    is_skipped(report) || one_holds(alloc, expected, rank, k, done)
}

/// Whether each of these answered steps of a rank was skipped, or its answer is one that it expects, if it expects any.
pub fn each_met(alloc: Global, expected: &[Clause], rank: u8, done: &[StepReport]) -> bool
    ensures { result ≡ each_met expected.now rank 0 done.now done.now }
{
    for (k, step) in done.iter().enumerate() {
        if !is_met(alloc, expected, rank, k, done, step) {
            return false;
        }
    }
    true
}
