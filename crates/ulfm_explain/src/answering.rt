//! How the answers of a step begin, as it is told.

use crate::answers::may_begin;
use crate::line::{Line, Part};
use crate::lines::lines_of;
use crate::rules::Key;
use crate::script::{Script, op_of};
use std::alloc::{AllocError, Global};
use toml::{Table, Value};

/// How the answers of a rank's step begin for which a goal may ask, parted by commas: an empty text where the bytes are no job, or have no
/// such step. Steps are counted as `--show` counts them where no rank stops.
///
/// # Errors
///
/// `AllocError` where a growth was refused.
pub fn answers_at(
    alloc: Global,
    bytes: &[u8],
    rank: u8,
    number: usize,
) -> Result<String, AllocError> {
    let Ok(text) = str::from_utf8(bytes) else {
        return Ok(String::new(alloc));
    };
    match toml::table_from_str(alloc, text) {
        Ok(table) => answers_in(alloc, &table, rank, number),
        Err(_) => Ok(String::new(alloc)),
    }
}

/// How the answers of a rank's step begin, by the table of a job.
fn answers_in(alloc: Global, table: &Table, rank: u8, number: usize) -> Result<String, AllocError> {
    let lines = lines_of(alloc, table)?;
    let script = Script {
        steps: lines.steps.as_slice(),
        rank: i64::from(rank),
    };
    match script.step(number) {
        Some(step) => answers_of(alloc, step),
        None => Ok(String::new(alloc)),
    }
}

/// How the answers of a step begin, and that it never ends, where it may stay open.
fn answers_of(alloc: Global, step: &Value) -> Result<String, AllocError> {
    let Some(op) = op_of(step) else {
        return Ok(String::new(alloc));
    };
    let mut text = format!(in alloc; "{}", Line::One("{}", Part::Beginnings(op, Key::Never)))?;
    if may_begin(op, Key::Never, "unfinished") {
        text.push_str(", never ends")?;
    }
    Ok(text)
}
