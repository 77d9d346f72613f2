//! The lists of places as one list.
ghost use Rattle.std.specs.Prelude.{◌≡◌, map, IfOk};
ghost use Rattle.ulfm_outcomes_list.specs.Listed.{list_view, listed_view, outcome_view, outcomes_view, step_view};
ghost use Rattle.ulfm_outcomes_list.specs.List.{list_at, listed_at, placed, states_of, told_of};

use crate::place_list::Listed;
use crate::union::{answers_of, places_with, some_never_ends};
use crate::{JobStep, Judgement, ListedStep, Outcome, Outcomes, StepList, Worded};
use std::alloc::{AllocError, Global};
use ulfm_base::OutOfMemory;
use ulfm_job::Job;

/// The lists of places as one list: what each of these steps of the file may be answered, and at which of them. That of all steps comes to
/// this.
///
/// # Errors
///
/// `OutOfMemory` where a growth was refused, or more states than a number holds are to be counted.
pub fn lists_of<'a>(
    alloc: Global,
    job: &Job,
    steps: &[JobStep<'a>],
    judgement: Judgement,
    listed: &'a [Listed],
) -> Result<StepList<'a>, OutOfMemory>
    ensures { IfOk result (λ list. list_view list ≡ list_at job.now (map step_view steps.now) judgement listed.now) }
{
    Ok(StepList {
        steps: listed_steps(alloc, job, listed, steps)?,
        states: states_of(listed)?,
        places: Some(listed.len()),
        never_ends: some_never_ends(listed),
        judgement,
    })
}

/// How many states all places have together.
fn states_of(listed: &[Listed]) -> Result<usize, OutOfMemory>
    ensures { IfOk result (λ states. states ≡ states_of listed.now) }
{
    let mut states = 0usize;
    for one in listed {
        match states.checked_add(one.states) {
            Some(sum) => states = sum,
            None => return Err(AllocError),
        }
    }
    Ok(states)
}

/// These steps, and what the lists tell of each.
fn listed_steps<'a>(
    alloc: Global,
    job: &Job,
    listed: &'a [Listed],
    steps: &[JobStep<'a>],
) -> Result<Vec<ListedStep<'a>>, OutOfMemory>
    ensures { IfOk result (λ list. map listed_view list.items ≡ map (listed_at job.now listed.now) (map step_view steps.now)) }
{
    let mut list = Vec::new(alloc);
    for at in steps {
        let told = told_of(alloc, job, listed, at.rank, at.number)?;
        list.push(ListedStep { at: *at, told })?;
    }
    Ok(list)
}

/// What the lists tell of a step.
fn told_of<'a>(
    alloc: Global,
    job: &Job,
    listed: &'a [Listed],
    rank: u8,
    k: usize,
) -> Result<Outcomes<'a>, OutOfMemory>
    ensures { IfOk result (λ told. outcomes_view told ≡ told_of job.now listed.now rank k) }
{
    let answers = answers_of(alloc, job, listed, rank, k)?;
    let never_ends_at = places_with(alloc, job, listed, rank, k, &[])?;
    Ok(Outcomes {
        answers: placed_answers(alloc, job, listed, rank, k, answers)?,
        never_ends: !never_ends_at.is_empty(),
        never_ends_at,
    })
}

/// These answers of a step, each with its places.
fn placed_answers<'a>(
    alloc: Global,
    job: &Job,
    listed: &[Listed],
    rank: u8,
    k: usize,
    answers: Vec<Worded<'a>>,
) -> Result<Vec<Outcome<'a>>, OutOfMemory>
    ensures { IfOk result (λ placeds. map outcome_view placeds.items ≡ map (placed job.now listed.now rank k) answers.entry.items) }
{
    let mut placeds = Vec::new(alloc);
    for told in answers {
        let code = told.told().code(alloc)?;
        let places = places_with(alloc, job, listed, rank, k, code.as_slice())?;
        placeds.push(Outcome { told, places })?;
    }
    Ok(placeds)
}
