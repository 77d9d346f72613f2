//! What standard error says beside a reply: for people, and none of it is promised.

use crate::goal::goal_reason;
use crate::misplaced::misplaced_line;
use crate::only_names::name_line;
use crate::remark_lines::{remarks_told, verdict_line};
use crate::stop_names::unnamed_line;
use crate::unheld::unheld_in;
use crate::{Explanation, explain, warnings};
use std::alloc::{AllocError, Global};
use std::io::Write;
use ulfm_command_line::{Body, Remark, RunOptions, Wanted};
use ulfm_job::JobFault;
use ulfm_reader::write_whole;

/// Why no stop can be put into a good job.
const NO_ROOM: &str =
    "a job has 256 steps at most: with stops put in, as by sweep, places and --stop, there are too many\n";

/// Why a good job can't be written out.
const TOO_LONG: &str =
    "a job's text has 1048576 bytes at most: with its steps and rows written out it has more\n";

/// Why a job is empty, most of the time.
const EMPTY: &str =
    "the job is empty; where no file is named, as in 'ulfm replay job.toml', it is read from standard input\n";

/// What to do where a list is past its limit.
const MANY_STATES: &str =
    "docs/SIZE.md says what makes so many states, and what to leave out; --limit allows up to 100000000\n";

/// What to do where a run with the turns of its job leaves steps unfinished.
const FEW_TURNS: &str =
    "threads poll fast, so the job's turns may be too few for a run: add --turns 1000000\n";

/// Says why these bytes got such a reply, or what of a good job will be refused. Where ranks stop is told by this text, if it names steps. Where it
/// can't be said, nothing is.
pub fn write_reasons<E: Write>(
    alloc: Global,
    wanted: Wanted,
    stop: Option<&str>,
    bytes: &[u8],
    body: &Body,
    errors: &mut E,
) {
    if let Ok(notes) = reasons_of(alloc, wanted, stop, bytes, body) {
        let _is_written = write_whole(errors, notes.as_bytes());
    }
}

/// Says what a reply to these bytes doesn't: which answers aren't as the job asks, and which steps hang. Where it can't be said, nothing is.
pub fn write_notes<E: Write>(
    alloc: Global,
    wanted: Wanted,
    bytes: &[u8],
    remarks: &[Remark],
    errors: &mut E,
) {
    if let Ok(notes) = notes_on(alloc, wanted, bytes, remarks) {
        let _is_written = write_whole(errors, notes.as_bytes());
    }
}

/// Says what to do where there are more states than the limit.
pub fn write_past_limit<E: Write>(errors: &mut E) {
    let _is_written = write_whole(errors, MANY_STATES.as_bytes());
}

/// Tells in one line what a list comes to, perhaps in red or green. It stands before the list, since below a long one readers miss it. Where that finds no memory, nothing is told.
pub fn write_verdict<E: Write>(
    alloc: Global,
    has_colour: bool,
    remarks: &[Remark],
    errors: &mut E,
) {
    if let Ok(line) = verdict_line(alloc, has_colour, remarks) {
        let _is_written = write_whole(errors, line.as_bytes());
    }
}

/// Tells in one line what is wrong with the words that a usage text is about. Where that finds no memory, nothing is told.
pub fn write_fault<E: Write>(alloc: Global, usage: &str, errors: &mut E) {
    if let Ok(line) = fault_line(alloc, usage) {
        let _is_written = write_whole(errors, line.as_bytes());
    }
}

/// That a goal is refused, and why, as one line.
fn goal_line(
    alloc: Global,
    wanted: Wanted,
    bytes: &[u8],
    goal: &str,
) -> Result<String, AllocError> {
    let goal = goal.trim_ascii();
    let reason = goal_reason(alloc, wanted, bytes, goal)?;
    let mut line = String::from_str(alloc, "ulfm: goal refused")?;
    push_part(&mut line, goal)?;
    push_part(&mut line, reason.as_str())?;
    line.push_str("\n")?;
    Ok(line)
}

/// Adds a part behind a colon, if it isn't empty.
fn push_part(line: &mut String, part: &str) -> Result<(), AllocError> {
    if part.is_empty() {
        return Ok(());
    }
    write!(line, ": {part}")
}

/// What a tip stands behind in a usage text.
const TIP: &str = "  tip: ";

/// The first paragraph of a usage text, and its tip, as one line.
fn fault_line(alloc: Global, usage: &str) -> Result<String, AllocError> {
    let mut line = String::from_str(alloc, "ulfm:")?;
    for part in usage.lines().take_while(|part| !part.is_empty()) {
        let part = part.trim_ascii();
        let part = part.strip_prefix("error: ").unwrap_or(part);
        write!(line, " {part}")?;
    }
    for part in usage.lines() {
        if let Some(tip) = part.strip_prefix(TIP) {
            write!(line, "; {tip}")?;
        }
    }
    line.push_str("\n")?;
    Ok(line)
}

/// Why a job is refused or can't be swept, or what of a good one will be refused.
fn reasons_of(
    alloc: Global,
    wanted: Wanted,
    stop: Option<&str>,
    bytes: &[u8],
    body: &Body,
) -> Result<String, AllocError> {
    match body {
        Body::NoGoal(goal) => goal_line(alloc, wanted, bytes, goal.as_str()),
        Body::NoName(name) => name_line(alloc, wanted, bytes, name.as_str()),
        Body::Unnamed(text) => unnamed_line(alloc, bytes, text.as_str()),
        Body::NoPlace(place) => misplaced_line(alloc, bytes, *place, stop),
        Body::Refused(_) if bytes.trim_ascii().is_empty() => String::from_str(alloc, EMPTY),
        Body::Refused(fault) => refused_notes(alloc, wanted, bytes, *fault),
        Body::Good(..) => lines_of(alloc, "warning: ", &warnings(alloc, bytes)?),
        _ => Ok(String::new(alloc)),
    }
}

/// Why a job is refused, by what is wrong with its text. Where nothing is, yet it is too large, a stop has no room in it, or its steps and rows have
/// none, written out.
fn refused_notes(
    alloc: Global,
    wanted: Wanted,
    bytes: &[u8],
    fault: JobFault,
) -> Result<String, AllocError> {
    let found = explain(alloc, bytes)?;
    if found.is_empty() && fault == JobFault::TooLarge {
        let is_expanded = matches!(wanted, Wanted::Expand);
        return String::from_str(alloc, if is_expanded { TOO_LONG } else { NO_ROOM });
    }
    lines_of(alloc, "", found.as_slice())
}

/// A line for each explanation, behind a word.
fn lines_of(alloc: Global, word: &str, found: &[Explanation]) -> Result<String, AllocError> {
    let mut notes = String::new(alloc);
    for explanation in found {
        write!(notes, "{word}{explanation}\n")?;
    }
    Ok(notes)
}

/// What is told by values, what isn't asked at the one place that was looked at, and what to do about steps that hang in a run with the turns of
/// its job.
fn notes_on(
    alloc: Global,
    wanted: Wanted,
    bytes: &[u8],
    remarks: &[Remark],
) -> Result<String, AllocError> {
    let unheld = unheld_in(alloc, wanted, bytes)?;
    let mut notes = remarks_told(alloc, remarks, unheld.as_slice())?;
    let is_usual_run = matches!(wanted, Wanted::Run(RunOptions { turns: None, .. }));
    if is_usual_run
        && remarks
            .iter()
            .any(|remark| matches!(remark, Remark::Unfinished(_)))
    {
        notes.push_str(FEW_TURNS)?;
    }
    Ok(notes)
}
