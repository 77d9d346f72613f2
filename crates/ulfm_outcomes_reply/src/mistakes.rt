//! Answers that are nearly always a mistake of the script, as lists have them: for people, and none of it is promised.

use std::alloc::{AllocError, Global};
use ulfm_answer::{ToldAnswer, begins_told};
use ulfm_command_line::{Place, Remark, StepTold};
use ulfm_job::{Job, Step};
use ulfm_outcomes_list::{Listed, code_at, number_at};
use ulfm_reach::Rows;
use ulfm_reader::Reading;

/// How such answers begin: a communicator, a rank, a tag or a request that isn't there, or one that the rank made before.
const MISTAKES: [&str; 5] = [
    "refused 1",
    "refused 2",
    "refused 4",
    "refused 7",
    "refused 8",
];

/// Adds the mistakes in the list of a job.
pub(crate) fn push_mistakes(
    remarks: &mut Vec<Remark>,
    asked: &Reading,
    found: &Rows,
) -> Result<(), AllocError> {
    let alloc = *remarks.allocator();
    for rank in 0..asked.job.ranks() {
        for step in 0..asked.job.script_len(rank) {
            for mistake in &MISTAKES {
                if is_mistaken(&asked.job, Place::Nowhere, found, rank, step, *mistake) {
                    let places = Vec::new(alloc);
                    remarks.push(mistaken(alloc, asked, rank, step, *mistake, places)?)?;
                }
            }
        }
    }
    Ok(())
}

/// Adds the mistakes in the lists of places, each with its places.
pub(crate) fn push_mistakes_at(
    remarks: &mut Vec<Remark>,
    asked: &Reading,
    listed: &[Listed],
) -> Result<(), AllocError> {
    let alloc = *remarks.allocator();
    for rank in 0..asked.job.ranks() {
        for step in 0..asked.job.script_len(rank) {
            for mistake in &MISTAKES {
                let places = places_of(alloc, &asked.job, listed, rank, step, *mistake)?;
                if !places.is_empty() {
                    remarks.push(mistaken(alloc, asked, rank, step, *mistake, places)?)?;
                }
            }
        }
    }
    Ok(())
}

/// The places at which a step is mistaken so.
fn places_of(
    alloc: Global,
    job: &Job,
    listed: &[Listed],
    rank: u8,
    step: usize,
    mistake: &str,
) -> Result<Vec<Place>, AllocError> {
    let mut places = Vec::new(alloc);
    for one in listed {
        if is_mistaken(job, one.place, &one.found, rank, step, mistake) {
            places.push(one.place)?;
        }
    }
    Ok(places)
}

/// Whether a step, by its number in the file, is never answered otherwise at a place than by a mistake that begins so, but where it is
/// skipped. Where it asks for what another step was refused, or skipped, that is the flow of a recovery, and no mistake.
fn is_mistaken(
    job: &Job,
    place: Place,
    found: &Rows,
    rank: u8,
    step: usize,
    mistake: &str,
) -> bool {
    let at = number_at(place, job, rank, step);
    has_answer(found, rank, at, mistake)
        && !has_other(found, rank, at, &[mistake, "skipped"])
        && is_made(job, place, found, rank, step)
}

/// Whether what a step goes on from was always made: the communicator that it calls by name, or its receive or its probe. A step that names
/// none of these is mistaken itself.
fn is_made(job: &Job, place: Place, found: &Rows, rank: u8, step: usize) -> bool {
    if let Some(naming) = job.naming_at(rank, step) {
        let at = number_at(place, job, rank, naming.step as usize);
        return !has_other(found, rank, at, &["comm"]);
    }
    let (Some(Step::Wait { req }) | Some(Step::Mrecv { req, .. }) | Some(Step::Cancel { req })) =
        job.step(rank, step) else {
        return true;
    };
    let from = *req as usize;
    match job.step(rank, from) {
        Some(Step::Recv { .. }) | Some(Step::Probe { .. }) => {
            let at = number_at(place, job, rank, from);
            !has_other(found, rank, at, &["posted", "found"])
        }
        _ => true,
    }
}

/// Whether a step has an answer that begins so in a list.
fn has_answer(found: &Rows, rank: u8, at: usize, beginning: &str) -> bool {
    (0..found.len()).any(|row| match code_at(found, row, rank, at) {
        Some(code) => begins_so(code, beginning),
        None => false,
    })
}

/// Whether it has one that begins as none of these, or never ends.
fn has_other(found: &Rows, rank: u8, at: usize, beginnings: &[&str]) -> bool {
    (0..found.len()).any(|row| match code_at(found, row, rank, at) {
        Some(code) => !beginnings.iter().any(|one| begins_so(code, *one)),
        None => false,
    })
}

/// Whether a code tells of an answer that begins so.
fn begins_so(code: &[u8], beginning: &str) -> bool {
    match ToldAnswer::read(code) {
        Some(told) => begins_told(&told, beginning.as_bytes()),
        None => false,
    }
}

/// That a step has an answer that begins so, at these places.
fn mistaken(
    alloc: Global,
    asked: &Reading,
    rank: u8,
    at: usize,
    answer: &'static str,
    places: Vec<Place>,
) -> Result<Remark, AllocError> {
    Ok(Remark::Mistaken(StepTold::of(alloc, asked, rank, at)?, answer, places))
}
