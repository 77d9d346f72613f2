//! Why the names of steps in `--stop` come to no place of the job: for people, and none of it is promised.

use crate::goal::no_step;
use crate::only_names::nearest_of;
use std::alloc::{AllocError, Global};
use ulfm_job::{Place, is_number, number_in};
use ulfm_reader::{ReadJob, Reading, named};

/// How a place is written.
const WRITTEN: &str =
    "a place is a rank, a dot and the number or the name of a step, as 0.2 or 0.commit, or two of them, as 0.2+1.commit";

/// What is said of more than two ranks.
const MANY: &str = "a place has two ranks at most";

/// The line on a text that comes to no place of the job of these bytes.
pub(crate) fn unnamed_line(alloc: Global, bytes: &[u8], text: &str) -> Result<String, AllocError> {
    let Ok(asked) = Reading::read(alloc, bytes) else {
        return Ok(String::new(alloc));
    };
    let reason = match text.split_once('+') {
        Some((_, second)) if second.contains('+') => Some(String::from_str(alloc, MANY)?),
        Some((first, second)) => reason_of_two(alloc, &asked, first, second)?,
        None => reason(alloc, &asked, text)?,
    };
    let reason = match &reason {
        Some(reason) => reason.as_str(),
        None => "of two ranks the lower one comes first",
    };
    format!(in alloc; "place refused: {text}: {reason}\n")
}

/// Why one of two texts names no step, where it doesn't.
fn reason_of_two(
    alloc: Global,
    asked: &Reading,
    first: &str,
    second: &str,
) -> Result<Option<String>, AllocError> {
    match reason(alloc, asked, first)? {
        Some(reason) => Ok(Some(reason)),
        None => reason(alloc, asked, second),
    }
}

/// Why a text names no step, where it doesn't.
fn reason(alloc: Global, asked: &Reading, text: &str) -> Result<Option<String>, AllocError> {
    if matches!(Place::parse(text), Some(Place::One(_))) {
        return Ok(None);
    }
    match text.split_once('.') {
        Some((rank, step)) if is_rank(rank) => {
            let step = step.strip_suffix('*').unwrap_or(step);
            reason_at(alloc, asked, rank, step)
        }
        _ => Ok(Some(String::from_str(alloc, WRITTEN)?)),
    }
}

/// Whether a text is a number as a place has it: with no 0 before other digits.
fn is_rank(text: &str) -> bool {
    is_number(text) && (text.len() == 1 || !text.starts_with('0'))
}

/// Why a rank has no such step, where it hasn't.
fn reason_at(
    alloc: Global,
    asked: &Reading,
    rank: &str,
    step: &str,
) -> Result<Option<String>, AllocError> {
    let ranks = asked.job.ranks();
    match number_in(rank, u32::from(u8::MAX)) {
        Some(number) if number < u32::from(ranks) => {
            unnamed_at(alloc, asked, number as u8, step)
        }
        _ => {
            let last = ranks.saturating_sub(1);
            let line = format!(in alloc; "the job has no rank {rank}; its ranks are 0 to {last}")?;
            Ok(Some(line))
        }
    }
}

/// Why a rank of the job has no such step, where it hasn't.
fn unnamed_at(
    alloc: Global,
    asked: &Reading,
    rank: u8,
    step: &str,
) -> Result<Option<String>, AllocError> {
    let names = asked.names.as_slice();
    if named(names, rank, step).is_some() {
        return Ok(None);
    }
    if let Some(name) = nearest_of(alloc, names, Some(rank), step)? {
        let line = format!(in alloc;
            "rank {rank} has no step of the name '{step}'; did you mean '{rank}.{name}'?"
        )?;
        return Ok(Some(line));
    }
    if let Some(other) = names.iter().find(|name| name.text.as_str() == step) {
        let other = other.rank;
        let line = format!(in alloc;
            "rank {rank} has no step of the name '{step}'; rank {other} has one"
        )?;
        return Ok(Some(line));
    }
    Ok(Some(no_step(alloc, asked, rank, step)?))
}
