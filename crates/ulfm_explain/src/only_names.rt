//! Why a part of `--only` names no step of the job: for people, and none of it is promised.

use crate::misplaced::place_of;
use std::alloc::{AllocError, Global};
use strsim::osa_distance;
use ulfm_command_line::{Wanted, asked_at};
use ulfm_reader::Name;

/// The most edits to a name that is told as the nearest.
const MOST_EDITS: usize = 2;

/// The line on a text that names no step of the job of these bytes, with the stops of its place, and the nearest name that a step has.
pub(crate) fn name_line(
    alloc: Global,
    wanted: Wanted,
    bytes: &[u8],
    text: &str,
) -> Result<String, AllocError> {
    let mut line = format!(in alloc; "ulfm: name refused: {text}: no step is called so")?;
    if let Ok(asked) = asked_at(alloc, place_of(wanted), bytes)? {
        match nearest_of(alloc, asked.names.as_slice(), None, text)? {
            Some(name) => write!(line, "; did you mean '{name}'?")?,
            None => line.push_str(
                "; steps are called by the names that the job gives them, or as 1.5",
            )?,
        }
    }
    line.push_str("\n")?;
    Ok(line)
}

/// The name of a step, of each rank or of one, that is nearest to a text, where it is near.
pub(crate) fn nearest_of<'a>(
    alloc: Global,
    names: &'a [Name],
    rank: Option<u8>,
    text: &str,
) -> Result<Option<&'a str>, AllocError> {
    let mut nearest = None;
    let mut least = MOST_EDITS + 1;
    for name in names {
        if rank.map_or(true, |rank| rank == name.rank) {
            let name = name.text.as_str();
            let edits = osa_distance(alloc, text, name)?;
            if edits < least && edits < name.len() {
                least = edits;
                nearest = Some(name);
            }
        }
    }
    Ok(nearest)
}
