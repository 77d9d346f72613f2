//! Why a job hasn't a place: for people, and none of it is promised.

use std::alloc::{AllocError, Global};
use ulfm_command_line::Wanted;
use ulfm_job::{Job, Place, Stop};
use ulfm_reader::ReadJob;

/// Where the words stop ranks.
pub(crate) fn place_of(wanted: Wanted) -> Place {
    match wanted {
        Wanted::Replay { place, .. } | Wanted::Draw { place, .. } => place,
        Wanted::Run(options) => options.place,
        Wanted::Outcomes(options) => options.place,
        _ => Place::Nowhere,
    }
}

/// Why the job of these bytes hasn't this place, which a text perhaps names, on a line. Where it has, nothing is said.
pub(crate) fn misplaced_line(
    alloc: Global,
    bytes: &[u8],
    place: Place,
    named: Option<&str>,
) -> Result<String, AllocError> {
    let Ok(job) = Job::read(alloc, bytes) else {
        return Ok(String::new(alloc));
    };
    let Some(stop) = outside_of(&job, place) else {
        return Ok(String::new(alloc));
    };
    let reason = reason(alloc, &job, stop)?;
    match named {
        Some(text) => format!(in alloc; "place refused: {text}: {reason}\n"),
        None => format!(in alloc; "place refused: {place}: {reason}\n"),
    }
}

/// The first stop of a place that a job hasn't.
fn outside_of(job: &Job, place: Place) -> Option<Stop> {
    if place.is_inside(job) {
        return None;
    }
    match place {
        Place::Nowhere => None,
        Place::One(stop) => Some(stop),
        Place::Two(first, second) => {
            if Place::One(first).is_inside(job) {
                Some(second)
            } else {
                Some(first)
            }
        }
    }
}

/// Why a job hasn't this stop.
fn reason(alloc: Global, job: &Job, stop: Stop) -> Result<String, AllocError> {
    let rank = stop.rank;
    if rank >= job.ranks() {
        return format!(in alloc; "the job has no rank {rank}");
    }
    if stop.dies && !job.is_joint(rank, stop.at as usize) {
        return format!(in alloc;
            "a rank dies inside a shrink or an agreement, and {rank}.{} is neither",
            stop.at
        );
    }
    let steps = job.script_len(rank);
    format!(in alloc;
        "rank {rank} has {steps} steps, and a stop before one of them or after the last"
    )
}
