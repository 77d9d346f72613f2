//! Which of a job's steps ranks decide together, and which of these may be given up.
ghost use Rattle.std.specs.Prelude.{◌≡◌, filter, option_map};
ghost use Rattle.std.specs.List.{list_any};
ghost use Rattle.ulfm_job.specs.Job.{is_decided_together, is_left, is_of_other};

use crate::clause::Clause;
use crate::left_step::LeftStep;
use crate::step::Step;

/// Whether ranks decide a step together, if there is one.
pub(crate) fn is_decided_together(step: Option<&Step>) -> bool
    ensures { result ≡ is_decided_together (option_map (λ step. step.now) step.entry) }
{
    match step {
        Some(step) => step.decides_on().is_some(),
        None => false,
    }
}

/// Whether a step is one of these.
pub(crate) fn is_left(left: &[LeftStep], rank: u8, place: usize) -> bool
    ensures { result ≡ list_any (is_left rank place) left.now }
{
    left.iter()
        .any(|left| left.rank == rank && left.at as usize == place)
}

/// Clauses but for those of one step.
pub(crate) fn without(clauses: Vec<Clause>, rank: u8, at: u16) -> Vec<Clause>
    ensures { result.items ≡ filter (is_of_other rank at) clauses.items }
{
    let mut kept = clauses;
    kept.retain(|clause| is_of_other(clause, rank, at));
    kept
}

/// Whether a clause is of another step than this one of a rank.
fn is_of_other(clause: &Clause, rank: u8, at: u16) -> bool
    ensures { result ≡ is_of_other rank at clause.now }
{
    !(clause.rank == rank && clause.at == at)
}
