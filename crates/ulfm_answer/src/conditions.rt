//! On what conditions a step is played.
ghost use Rattle.std.specs.Prelude.{◌≡◌, ◌&&◌, ◌||◌, length, not};
ghost use Rattle.std.specs.List.{list_any};
ghost use Rattle.ulfm_job.specs.Begins.{begins};
ghost use Rattle.ulfm_job.specs.declared.condition.Condition.{Condition as SeenCondition};
ghost use Rattle.ulfm_answer.specs.Reacting.{alternative_holds, fulfils, is_asked_by, is_part_of, is_played};
ghost use Rattle.ulfm_answer.specs.Trace.{answer_text};

use crate::answer::{StepAnswer, StepReport};
use crate::follow::begins;
use std::alloc::Global;
use ulfm_job::{Condition, Text};

/// Whether an answer begins with one of these words.
fn begins_with_one(alloc: Global, answer: &StepAnswer, words: &[Text]) -> bool
    ensures { result ≡ list_any (begins (answer_text answer.now)) words.now }
{
    words
        .iter()
        .any(|words| begins(alloc, answer, words.as_bytes()))
}

/// Whether a condition holds of these answered steps of its rank.
pub fn fulfils(alloc: Global, done: &[StepReport], condition: &Condition) -> bool
    ensures { result ≡ fulfils done.now condition.now }
{
    let Some(report) = done.get(condition.step as usize) else {
        return false;
    };
    let begun = begins_with_one(alloc, &report.answer, condition.words.as_slice());
    if condition.is_not { !begun } else { begun }
}

/// Whether the step `k` of a rank has a condition.
fn is_asked_by(rank: u8, k: usize, condition: &Condition) -> bool
    ensures { result ≡ is_asked_by rank k condition.now }
{
    condition.rank == rank && condition.at as usize == k
}

/// Whether a condition belongs to an alternative of the step `k` of a rank.
fn is_part_of(rank: u8, k: usize, alternative: u16, condition: &Condition) -> bool
    ensures { result ≡ is_part_of rank k alternative condition.now }
{
    is_asked_by(rank, k, condition) && condition.alternative == alternative
}

/// Whether a condition holds of these answered steps, if it belongs to an alternative of the next step of a rank.
fn is_other_or_holds(
    alloc: Global,
    rank: u8,
    done: &[StepReport],
    alternative: u16,
    condition: &Condition,
) -> bool
    ensures { result ≡ (not (is_part_of rank (length done.now) alternative condition.now) || fulfils done.now condition.now) }
{
    !is_part_of(rank, done.len(), alternative, condition) || fulfils(alloc, done, condition)
}

/// Whether all conditions of an alternative of the next step of a rank hold of these answered steps.
fn alternative_holds(
    alloc: Global,
    conditions: &[Condition],
    rank: u8,
    done: &[StepReport],
    alternative: u16,
) -> bool
    ensures { result ≡ alternative_holds conditions.now rank (length done.now) done.now alternative }
{
    conditions.iter().all(|condition| is_other_or_holds(alloc, rank, done, alternative, condition))
}

/// Whether the next step of a rank has a condition, and all those of its alternative hold of these answered steps.
fn asks_and_holds(
    alloc: Global,
    conditions: &[Condition],
    rank: u8,
    done: &[StepReport],
    condition: &Condition,
) -> bool
    ensures { result ≡ (is_asked_by rank (length done.now) condition.now && alternative_holds conditions.now rank (length done.now) done.now condition.now.alternative) }
{
    is_asked_by(rank, done.len(), condition)
        && alternative_holds(alloc, conditions, rank, done, condition.alternative)
}

/// Whether the step `k` of a rank has one of these conditions.
fn has_one(conditions: &[Condition], rank: u8, k: usize) -> bool
    ensures { result ≡ list_any (is_asked_by rank k) conditions.now }
{
    conditions
        .iter()
        .any(|condition| is_asked_by(rank, k, condition))
}

/// Whether the next step of a rank has one of these conditions, and all those of its alternative hold of these answered steps.
fn one_holds(alloc: Global, conditions: &[Condition], rank: u8, done: &[StepReport]) -> bool
    ensures { result ≡ list_any (λ (c : SeenCondition). is_asked_by rank (length done.now) c && alternative_holds conditions.now rank (length done.now) done.now c.alternative) conditions.now }
{
    conditions.iter().any(|condition| asks_and_holds(alloc, conditions, rank, done, condition))
}

/// Whether the next step of a rank is to be played: it has none of these conditions, or all those of one of its alternatives hold of
/// these answered steps.
pub fn is_played(alloc: Global, conditions: &[Condition], rank: u8, done: &[StepReport]) -> bool
    ensures { result ≡ is_played conditions.now rank done.now }
{
    !has_one(conditions, rank, done.len()) || one_holds(alloc, conditions, rank, done)
}
