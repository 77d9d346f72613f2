//! What is wrong with a block of steps.

use crate::cause::Cause;
use crate::excerpt::{Shown, shown_value};
use crate::explanation::StepPlace;
use crate::findings::Findings;
use crate::keys::list_in;
use crate::line::{Line, Part};
use std::alloc::{AllocError, Global};
use toml::{Table, Value};
use ulfm_job::MOST_STEPS;

/// The keys of a block.
const KEYS: &[&str] = &["steps", "repeat", "on_error"];

/// What is wrong with a block.
#[derive(Drop)]
pub enum BlockFault {
    /// It has no list of one or more steps.
    NoSteps,
    /// A key that a block doesn't have.
    UnknownKey(Shown),
    /// A `repeat` that is no number of iterations: this value.
    Times(String),
    /// An `on_error` that is no text: this value.
    NoText(String),
    /// An `on_error` that names no later step of the file.
    NotLater(Shown),
    /// An `on_error` whose step stands behind another block with one.
    Behind(Shown),
    /// It has neither `repeat` nor `on_error`.
    Neither,
    /// It stands in a block.
    Inner,
}

impl BlockFault {
    /// The key at which it stands, where it is one that a block has.
    fn key(&self) -> &'static str {
        match self {
            BlockFault::Times(_) => "repeat",
            BlockFault::NoText(_) | BlockFault::NotLater(_) | BlockFault::Behind(_) => "on_error",
            _ => "",
        }
    }

    /// The line that tells it.
    pub(crate) fn line(&self) -> Line<'_> {
        match self {
            BlockFault::NoSteps => Line::Plain("a block has 'steps', a list of one or more"),
            BlockFault::UnknownKey(key) => Line::One(
                "key '{}' is unknown; a block has steps, and repeat or on_error or both",
                Part::Text(key.as_str()),
            ),
            BlockFault::Times(found) => Line::Two(
                "key 'repeat' is {}, and has to be an integer from 1 to {}",
                Part::Text(found.as_str()),
                Part::Count(MOST_STEPS),
            ),
            BlockFault::NoText(found) => Line::One(
                "key 'on_error' is {}, and has to be the name of a later step in quotes",
                Part::Text(found.as_str()),
            ),
            BlockFault::NotLater(name) => Line::One(
                "key 'on_error' is '{}', and no step of the file behind the block has this name",
                Part::Text(name.as_str()),
            ),
            BlockFault::Behind(name) => Line::One(
                "key 'on_error' is '{}', and another block with an 'on_error' stands before the step of this name",
                Part::Text(name.as_str()),
            ),
            BlockFault::Neither => Line::Plain(
                "a block has 'repeat', how often its steps are written, or 'on_error', where an error leads, or both",
            ),
            BlockFault::Inner => Line::Plain("a block stands in a block here, and may not"),
        }
    }
}

/// Whether a table that isn't written out is meant to be a block of steps.
pub fn is_block(table: &Table) -> bool {
    table.get("op").is_none() && KEYS.iter().any(|key| table.get(*key).is_some())
}

/// Tells what is wrong with the block from which the step of this place is written out.
pub fn explain_block(findings: &mut Findings<'_>, place: StepPlace) -> Result<(), AllocError> {
    let alloc = findings.alloc;
    let number = findings.filed_number(place.in_file);
    let filed = findings.lines.filed;
    let behind = filed.get(number.saturating_add(1)..).unwrap_or(&[]);
    let fault = match filed.get(number) {
        Some(item) => fault_of(alloc, item, behind)?,
        None => BlockFault::Inner,
    };
    let at = findings.place_of(Some(place.in_file), fault.key());
    findings.tell(at, Some(place), Cause::NoBlock(fault))
}

/// What is wrong with an item of the file, with these behind it. One with which nothing is wrong has a block inside.
fn fault_of(alloc: Global, item: &Value, behind: &[Value]) -> Result<BlockFault, AllocError> {
    let Some(table) = item.as_table() else {
        return Ok(BlockFault::NoSteps);
    };
    if list_in(item, "steps").unwrap_or(&[]).is_empty() {
        return Ok(BlockFault::NoSteps);
    }
    if let Some(key) = table.keys().find(|key| !is_key(key.as_str())) {
        return Ok(BlockFault::UnknownKey(Shown::new(alloc, key.as_str())?));
    }
    match fault_of_times(alloc, table)? {
        Some(fault) => Ok(fault),
        None => fault_of_goal(alloc, table, behind),
    }
}

/// Whether a block has such a key.
fn is_key(name: &str) -> bool {
    KEYS.iter().any(|key| *key == name)
}

/// What is wrong with its `repeat`, if it has one.
fn fault_of_times(alloc: Global, table: &Table) -> Result<Option<BlockFault>, AllocError> {
    let Some(value) = table.get("repeat") else {
        return Ok(None);
    };
    match value.as_integer() {
        Some(number) if 1 <= number && number <= MOST_STEPS as i64 => Ok(None),
        Some(number) => Ok(Some(BlockFault::Times(format!(in alloc; "{number}")?))),
        None => Ok(Some(BlockFault::Times(shown_value(alloc, value)?))),
    }
}

/// What is wrong with its `on_error`, or that it lacks, or else that it has a block inside.
fn fault_of_goal(alloc: Global, table: &Table, behind: &[Value]) -> Result<BlockFault, AllocError> {
    let Some(value) = table.get("on_error") else {
        return Ok(match table.get("repeat") {
            Some(_) => BlockFault::Inner,
            None => BlockFault::Neither,
        });
    };
    let Some(name) = value.as_str() else {
        return Ok(BlockFault::NoText(shown_value(alloc, value)?));
    };
    let shown = Shown::new(alloc, name)?;
    let Some(goal) = behind
        .iter()
        .position(|item| text_in(item, "name") == Some(name))
    else {
        return Ok(BlockFault::NotLater(shown));
    };
    let between = behind.get(..goal).unwrap_or(&[]);
    if between
        .iter()
        .any(|item| text_in(item, "on_error").is_some())
    {
        return Ok(BlockFault::Behind(shown));
    }
    Ok(BlockFault::Inner)
}

/// The text at a key of an item, if there is one.
fn text_in<'a>(item: &'a Value, key: &str) -> Option<&'a str> {
    item.as_table()?.get(key)?.as_str()
}
