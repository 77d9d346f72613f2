//! Moves in words.

use crate::picture::Picture;
use crate::row::Row;
use crate::wait::Wait;
use crate::wrapping::shortened;
use std::alloc::{AllocError, Global};

/// What a row says first: the step by its place, or the item that was taken, with the number of a message.
pub(crate) fn subject(alloc: Global, row: &Row) -> Result<String, AllocError> {
    if !row.is_taking() {
        return step(alloc, row);
    }
    match row.message {
        Some(message) => format!(in alloc; "#{message} {}", row.words),
        None => String::from_str(alloc, row.words.as_str()),
    }
}

/// A step by its place and its words, or several that were skipped by their places.
fn step(alloc: Global, row: &Row) -> Result<String, AllocError> {
    let (rank, step) = (row.rank, row.step);
    if row.through > step {
        return format!(in alloc; "{rank}.{step} to {rank}.{}", row.through);
    }
    format!(in alloc; "{rank}.{step} {}", row.words)
}

/// What a row says then: the answer, the number of the message that it got, and whether what it sent was never taken.
pub(crate) fn outcome(
    alloc: Global,
    picture: &Picture<'_>,
    number: usize,
    row: &Row,
) -> Result<String, AllocError> {
    if row.is_taking() {
        return Ok(String::new(alloc));
    }
    let mut text = shortened(alloc, row.answer.as_str())?;
    if let Some(message) = row.message {
        write!(text, " #{message}")?;
    }
    if picture.hangs_at(number) {
        text.push_str(", never taken")?;
    }
    Ok(text)
}

/// What stands before the need of a wait: whether its step waits still, and whether one of several needs is enough, or all are.
pub(crate) fn lead(picture: &Picture<'_>, wait: &Wait) -> &'static str {
    match (
        picture.is_first(wait),
        picture.lasts(wait),
        wait.is_for_message,
    ) {
        (true, true, _) => "waits for",
        (true, false, _) => "waited for",
        (false, _, true) => "or for",
        (false, _, false) => "and for",
    }
}
