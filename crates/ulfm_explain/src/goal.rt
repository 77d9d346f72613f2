//! Why a goal of `--show` names no answer of the job: for people, and none of it is promised.

use crate::answers_at;
use crate::misplaced::place_of;
use std::alloc::{AllocError, Global};
use ulfm_command_line::{Wanted, asked_at};
use ulfm_job::{Place, is_number, number_in};
use ulfm_reader::{Reading, name_at};

/// How an answer is named.
const NAMED: &str =
    "an answer is named as '1.2 done', by a rank, a dot, a step's number or name, a space, and how it begins";

/// How many names of steps are told at most.
const MOST_TOLD: usize = 8;

/// Why a text names no answer of the job of these bytes, with the stops of its place. Nothing where that isn't known.
pub(crate) fn goal_reason(
    alloc: Global,
    wanted: Wanted,
    bytes: &[u8],
    goal: &str,
) -> Result<String, AllocError> {
    let place = place_of(wanted);
    let Ok(asked) = asked_at(alloc, place, bytes)? else {
        return Ok(String::new(alloc));
    };
    // (where a rank stops its steps are other ones than those of the file)
    let file: &[u8] = match place {
        Place::Nowhere => bytes,
        _ => &[],
    };
    reason(alloc, &asked, file, goal)
}

/// Why a text names no answer of what was read, from the bytes of a file.
fn reason(alloc: Global, asked: &Reading, file: &[u8], goal: &str) -> Result<String, AllocError> {
    let Some((place, words)) = goal.split_once(' ') else {
        return String::from_str(alloc, NAMED);
    };
    match place.split_once('.') {
        Some((rank, step)) if is_number(rank) => reason_at(alloc, asked, file, rank, step, words),
        _ => String::from_str(alloc, NAMED),
    }
}

/// Why a rank's step has no such answer.
fn reason_at(
    alloc: Global,
    asked: &Reading,
    file: &[u8],
    rank: &str,
    step: &str,
    words: &str,
) -> Result<String, AllocError> {
    let ranks = asked.job.ranks();
    match number_in(rank, u32::from(u8::MAX)) {
        Some(number) if number < u32::from(ranks) => {
            let number = number as u8;
            match at_of(asked, number, step) {
                Some(at) => no_answer(alloc, asked, file, number, at, words),
                None => no_step(alloc, asked, number, step),
            }
        }
        _ => {
            format!(in alloc;
                "the job has no rank {rank}; its ranks are 0 to {}",
                ranks.saturating_sub(1)
            )
        }
    }
}

/// The number of a rank's step, by its number or its name.
fn at_of(asked: &Reading, rank: u8, step: &str) -> Option<usize> {
    let steps = asked.job.script_len(rank);
    if is_number(step) {
        let at = number_in(step, u32::MAX)? as usize;
        return if at < steps { Some(at) } else { None };
    }
    (0..steps).find(|at| name_at(&asked.names, rank, *at) == Some(step))
}

/// That a rank has no such step, and which it has.
pub(crate) fn no_step(
    alloc: Global,
    asked: &Reading,
    rank: u8,
    step: &str,
) -> Result<String, AllocError> {
    let steps = asked.job.script_len(rank);
    if steps == 0 {
        return format!(in alloc; "rank {rank} has no steps");
    }
    if is_number(step) {
        let last = steps.saturating_sub(1);
        return format!(in alloc; "rank {rank} has no step {step}; its steps are 0 to {last}");
    }
    let mut line = format!(in alloc; "rank {rank} has no step of the name '{step}'")?;
    push_names(&mut line, asked, rank, steps)?;
    Ok(line)
}

/// Adds the first names that a rank's steps have.
fn push_names(
    line: &mut String,
    asked: &Reading,
    rank: u8,
    steps: usize,
) -> Result<(), AllocError> {
    let mut told = 0;
    for at in 0..steps {
        if let Some(name) = name_at(&asked.names, rank, at) {
            if told < MOST_TOLD {
                push_name(line, told == 0, name)?;
                told += 1;
            }
        }
    }
    Ok(())
}

/// Adds a name, behind others or as the first.
fn push_name(line: &mut String, is_first: bool, name: &str) -> Result<(), AllocError> {
    line.push_str(if is_first { "; its names are " } else { ", " })?;
    line.push_str(name)
}

/// That a step has no such answer.
fn no_answer(
    alloc: Global,
    asked: &Reading,
    file: &[u8],
    rank: u8,
    at: usize,
    words: &str,
) -> Result<String, AllocError> {
    let mut line = format!(in alloc; "rank {rank} step {at}")?;
    if let Some(told) = asked.job.told(rank, at) {
        write!(line, ", '{told}',")?;
    }
    write!(line, " has no answer that begins with '{words}'")?;
    let answers = answers_at(alloc, file, rank, at)?;
    if !answers.is_empty() {
        write!(line, "; its answers begin with {answers}")?;
    }
    Ok(line)
}
