//! The steps of a job's table, written out, beside the places that they have in the file.

use crate::keys::{list_at, list_in};
use crate::steps::steps_of;
use std::alloc::{AllocError, Global};
use toml::{Table, Value};
use ulfm_job::limits::MOST_ITEMS;
use ulfm_reader::{Line, Unwritten, ranks_in, rows_out, written_out};

/// The steps of a job, written out, and the place in the file of the step from which each comes.
#[derive(Drop)]
pub struct Lines<'a> {
    /// The steps as they stand in the file.
    pub filed: &'a [Value],
    pub steps: Vec<Value>,
    pub places: Vec<usize>,
    /// Whether they are too many to be written out. Then they are as they stand in the file.
    pub are_too_many: bool,
    /// The places in the file of what has an `all` with too many tables as it stands there.
    pub long: Vec<usize>,
    /// The rows of `never`, written out, where they aren't too many.
    pub rows: Option<Vec<Value>>,
}

/// The steps of a job's table.
pub fn lines_of(alloc: Global, table: &Table) -> Result<Lines<'_>, AllocError> {
    let filed = steps_of(table);
    let lines = match written_out(alloc, ranks_in(table), filed) {
        Ok(lines) => lines,
        Err(Unwritten::TooMany) => return filed_lines(alloc, filed),
        Err(Unwritten::OutOfMemory) => return Err(AllocError),
    };
    let never = list_at(table, "never").unwrap_or(&[]);
    let rows = rows_out(alloc, ranks_in(table), lines.as_slice(), never)?;
    let mut steps = Vec::new(alloc);
    let mut places = Vec::new(alloc);
    for line in lines {
        let Line { place, step } = line;
        steps.push(step)?;
        places.push(usize::from(place))?;
    }
    let long = long_places(alloc, filed)?;
    Ok(Lines {
        filed,
        steps,
        places,
        are_too_many: false,
        long,
        rows,
    })
}

/// Steps as they stand in the file.
fn filed_lines(alloc: Global, filed: &[Value]) -> Result<Lines<'_>, AllocError> {
    let mut steps = Vec::new(alloc);
    let mut places = Vec::new(alloc);
    for (place, step) in filed.iter().enumerate() {
        steps.push(step.clone()?)?;
        places.push(place)?;
    }
    let long = long_places(alloc, filed)?;
    Ok(Lines {
        filed,
        steps,
        places,
        are_too_many: true,
        long,
        rows: None,
    })
}

/// The places of what has an `all` with too many tables.
fn long_places(alloc: Global, filed: &[Value]) -> Result<Vec<usize>, AllocError> {
    let mut places = Vec::new(alloc);
    for (place, item) in filed.iter().enumerate() {
        let inside = list_in(item, "steps").unwrap_or(&[]);
        if has_long(item) || inside.iter().any(|step| has_long(step)) {
            places.push(place)?;
        }
    }
    Ok(places)
}

/// Whether a step has one.
fn has_long(step: &Value) -> bool {
    match list_in(step, "if") {
        Some(alternatives) => alternatives.iter().any(|own| is_long(own)),
        None => match step.get("if") {
            Some(own) => is_long(own),
            None => false,
        },
    }
}

/// Whether an alternative is one.
fn is_long(alternative: &Value) -> bool {
    match list_in(alternative, "all") {
        Some(tables) => tables.len() > MOST_ITEMS,
        None => false,
    }
}
