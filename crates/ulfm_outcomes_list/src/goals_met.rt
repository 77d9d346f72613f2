//! Whether a list has what goals ask for.
ghost use Rattle.std.specs.Prelude.{◌≡◌};
ghost use Rattle.std.specs.List.{list_all, list_any};
ghost use Rattle.ulfm_answer.specs.Told.{read_code};
ghost use Rattle.ulfm_job.specs.declared.clause.Clause.{Clause as SeenClause};
ghost use Rattle.ulfm_outcomes_list.specs.declared.open_step.OpenStep.{OpenStep as SeenStep};
ghost use Rattle.ulfm_outcomes_list.specs.Goals.{begins_told, has_each, tells, tells_open};

use crate::goals::Goals;
use crate::open_step::OpenStep;
use ulfm_answer::{ToldAnswer, begins_told};
use ulfm_job::Clause;
use ulfm_reach::Rows;

/// Whether a list has each answer and each open step of these.
pub fn has_each(found: &Rows, goals: &Goals) -> bool
    ensures { result ≡ has_each found.now goals.now }
{
    has_answers(found, goals.answers.as_slice()) && has_left(found, goals.left.as_slice())
}

/// Whether a list has each of these answers.
fn has_answers(found: &Rows, answers: &[Clause]) -> bool
    ensures { result ≡ list_all (λ (c : SeenClause). list_any (tells c) found.now) answers.now }
{
    answers.iter().all(|clause| has_answer(found, clause))
}

/// Whether a list has each of these open steps.
fn has_left(found: &Rows, left: &[OpenStep]) -> bool
    ensures { result ≡ list_all (λ (o : SeenStep). list_any (tells_open o) found.now) left.now }
{
    left.iter().all(|one| has_open(found, one))
}

/// Whether a list has an answer that begins as a clause says.
#[tactic(auto, using(crate::proofs::Asked::tells_here, crate::proofs::Asked::tells_on))]
fn has_answer(found: &Rows, clause: &Clause) -> bool
    ensures { result ≡ list_any (tells clause.now) found.now }
{
    for place in 0..found.len() {
        let Some(row) = found.row(place) else {
            continue;
        };
        if tells(row, clause) {
            return true;
        }
    }
    false
}

/// Whether a list has an open step.
#[tactic(auto, using(crate::proofs::Asked::open_here, crate::proofs::Asked::open_on))]
fn has_open(found: &Rows, one: &OpenStep) -> bool
    ensures { result ≡ list_any (tells_open one.now) found.now }
{
    for place in 0..found.len() {
        let Some(row) = found.row(place) else {
            continue;
        };
        if tells_open(row, one) {
            return true;
        }
    }
    false
}

/// Whether the row of a list tells of an answer that begins as a clause says.
fn tells(row: &[u8], clause: &Clause) -> bool
    ensures { result ≡ tells clause.now row.now }
{
    match row {
        [rank, step, code @ ..] => {
            *rank == clause.rank && u16::from(*step) == clause.step && begins_so(code, clause)
        }
        _ => false,
    }
}

/// Whether a code tells of an answer that begins as a clause says.
fn begins_so(code: &[u8], clause: &Clause) -> bool
    ensures { result ≡ begins_told (read_code code.now) clause.now.words }
{
    match ToldAnswer::read(code) {
        Some(told) => begins_told(&told, clause.words.as_bytes()),
        None => false,
    }
}

/// Whether the row of a list tells that a step never ends.
fn tells_open(row: &[u8], one: &OpenStep) -> bool
    ensures { result ≡ tells_open one.now row.now }
{
    match row {
        [rank, step] => *rank == one.rank && u16::from(*step) == one.step,
        _ => false,
    }
}
