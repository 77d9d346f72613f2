//! What waits come to: circles of ranks, and waits for a rank that will bring nothing any more.

use crate::picture::Picture;
use crate::wait::Wait;
use std::alloc::{AllocError, Global};

/// A line for each circle of ranks that wait for one another, and for each wait for a rank that is through or has stopped. Of a rank that gave
/// up several steps the first one counts: but for that it would stand there.
pub(crate) fn conclusions(alloc: Global, picture: &Picture<'_>) -> Result<Vec<String>, AllocError> {
    let mut lines = Vec::new(alloc);
    for rank in 0..picture.ranks() {
        if begins_circle(picture, rank) {
            lines.push(circle(alloc, picture, rank)?)?;
        }
    }
    for wait in &picture.waits {
        let (rank, on) = (wait.rank, wait.on);
        if let Some(state) = vain(picture, wait) {
            lines.push(format!(in alloc; "{rank} waits for {on}, which {state}.")?)?;
        }
    }
    Ok(lines)
}

/// Why what a wait is for won't come any more, where it is for a rank that is through or has stopped.
fn vain(picture: &Picture<'_>, wait: &Wait) -> Option<&'static str> {
    if !holds(picture, wait) || picture.waits_somewhere(wait.on) {
        return None;
    }
    if picture.is_through(wait.on) {
        return Some("is done");
    }
    picture.has_stopped(wait.on).then_some("has stopped")
}

/// Whether a wait is of the step at which its rank would stand, and isn't over as soon as what came later is there.
fn holds(picture: &Picture<'_>, wait: &Wait) -> bool {
    if wait.is_missed || picture.first_step(wait.rank) != Some(wait.step) {
        return false;
    }
    !(wait.is_for_message
        && picture
            .waits
            .iter()
            .any(|other| other.is_beside(wait) && other.is_missed))
}

/// The first other rank that a rank waits for and that waits itself.
fn next(picture: &Picture<'_>, rank: usize) -> Option<usize> {
    for wait in &picture.waits {
        if wait.rank == rank
            && wait.on != rank
            && holds(picture, wait)
            && picture
                .waits
                .iter()
                .any(|other| other.rank == wait.on && holds(picture, other))
        {
            return Some(wait.on);
        }
    }
    None
}

/// Whether a rank is the first of a circle.
fn begins_circle(picture: &Picture<'_>, rank: usize) -> bool {
    let mut at = rank;
    for _ in 0..picture.ranks() {
        match next(picture, at) {
            Some(on) if on > rank => at = on,
            Some(on) => return on == rank,
            None => return false,
        }
    }
    false
}

/// The line of a circle, from its first rank.
fn circle(alloc: Global, picture: &Picture<'_>, rank: usize) -> Result<String, AllocError> {
    let mut text = String::from_str(alloc, "A circle: ")?;
    let mut at = rank;
    for _ in 0..picture.ranks() {
        let Some(on) = next(picture, at) else {
            break;
        };
        write!(text, "{at} waits for {on}")?;
        if on == rank {
            break;
        }
        text.push_str(", ")?;
        at = on;
    }
    text.push_str(".")?;
    Ok(text)
}
