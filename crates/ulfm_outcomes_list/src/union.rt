//! What all lists tell of a step, and at which places.
ghost use Rattle.std.specs.Prelude.{◌≡◌, IfOk};
ghost use Rattle.ulfm_outcomes_list.specs.Union.{answers_of, is_row, is_told, is_told_at, places_with, some_never_ends};

use crate::numbers::number_at;
use crate::place_list::Listed;
use crate::{Worded, add_answers, in_order, some_never_end};
use std::alloc::Global;
use std::collections::BTreeSet;
use ulfm_base::OutOfMemory;
use ulfm_job::{Job, Place};
use ulfm_reach::Rows;

/// The answers that these lists have for a step of the file, each once.
fn answer_set<'a>(
    alloc: Global,
    job: &Job,
    listed: &'a [Listed],
    rank: u8,
    k: usize,
) -> Result<BTreeSet<Worded<'a>>, OutOfMemory>
    ensures { IfOk result (λ answers. answers.keys ≡ answers_of job.now listed.now rank k) }
{
    let mut answers = BTreeSet::new(alloc);
    for one in listed {
        let number = number_at(one.place, job, rank, k);
        add_answers(alloc, &one.found, rank, number, &mut answers)?;
    }
    Ok(answers)
}

/// The answers that these lists have for a step of the file, in the order of their words' bytes, each once.
pub(crate) fn answers_of<'a>(
    alloc: Global,
    job: &Job,
    listed: &'a [Listed],
    rank: u8,
    k: usize,
) -> Result<Vec<Worded<'a>>, OutOfMemory>
    ensures { IfOk result (λ answers. answers.items ≡ answers_of job.now listed.now rank k) }
{
    Ok(in_order(alloc, answer_set(alloc, job, listed, rank, k)?)?)
}

/// Whether a row tells this of the step `k` of a rank.
fn is_row(row: &[u8], rank: u8, k: usize, code: &[u8]) -> bool
    ensures { result ≡ is_row rank k code.now row.now }
{
    match row {
        [row_rank, row_step, told @ ..] => {
            *row_rank == rank && *row_step as usize == k && told == code
        }
        _ => false,
    }
}

/// Whether a list tells this of the step `k` of its own job.
#[tactic(auto, using(crate::proofs::Any::any_here, crate::proofs::Any::any_on))]
fn is_told(found: &Rows, rank: u8, k: usize, code: &[u8]) -> bool
    ensures { result ≡ is_told found.now rank k code.now }
{
    for place in 0..found.len() {
        let Some(row) = found.row(place) else {
            continue;
        };
        if is_row(row, rank, k, code) {
            return true;
        }
    }
    false
}

/// Whether the list of a place tells this of a step of the file.
fn is_told_at(job: &Job, rank: u8, k: usize, code: &[u8], one: &Listed) -> bool
    ensures { result ≡ is_told_at job.now rank k code.now one.now }
{
    let number = number_at(one.place, job, rank, k);
    is_told(&one.found, rank, number, code)
}

/// The places at which that is told: an answer by its code, or that the step never ends by no bytes.
pub(crate) fn places_with(
    alloc: Global,
    job: &Job,
    listed: &[Listed],
    rank: u8,
    k: usize,
    code: &[u8],
) -> Result<Vec<Place>, OutOfMemory>
    ensures { IfOk result (λ places. places.items ≡ places_with job.now listed.now rank k code.now) }
{
    let mut places = Vec::new(alloc);
    for one in listed {
        if !is_told_at(job, rank, k, code, one) {
            continue;
        }
        places.push(one.place)?;
    }
    Ok(places)
}

/// Whether some step never ends at some of these places.
pub fn some_never_ends(listed: &[Listed]) -> bool
    ensures { result ≡ some_never_ends listed.now }
{
    listed.iter().any(|one| some_never_end(&one.found))
}
