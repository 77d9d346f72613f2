//! Schedules as values, and their text.
//!
//! Words and pictures are printed from it, and none reads another. Which message a receive got is read off its rank's matcher and log as the events
//! happen, not found out anew. It keeps answers and steps once more, since the worlds in which they came about are gone by then.
ghost use Rattle.std.specs.Prelude.{◌≡◌, ◌++◌, OnOk, codes, string_bytes};
ghost use Rattle.std.specs.List.{flat_map};
ghost use Rattle.ulfm_schedule.specs.Words.{course_text, moves_text, open_text, schedule_text};
ghost use Rattle.ulfm_schedule.specs.Values.{wait_text};

use crate::course::{Course, push_course};
use crate::moved::{Move, push_deed};
use crate::{Wait, push_wait};
use std::alloc::AllocError;
use ulfm_job::Job;

/// A schedule: what ranks do one after another, what came of each, and, where some step is to stay open, what steps wait for.
#[derive(Drop)]
pub struct Schedule {
    /// The moves, in their order.
    pub moves: Vec<Move>,
    /// What came of each rank.
    pub courses: Vec<Course>,
    /// What each step waits for that stands open, if that is told.
    pub waits: Option<Vec<Wait>>,
}

/// Puts the lines of moves.
fn push_moves(text: &mut String, job: &Job, moves: &[Move]) -> Result<(), AllocError>
    ensures { OnOk result (string_bytes text.new ≡ string_bytes text.old ++ moves_text job.now moves.now) }
{
    for moved in moves {
        push_deed(text, job, moved.rank, &moved.deed)?;
    }
    Ok(())
}

/// Puts the lines of all ranks.
fn push_courses(text: &mut String, job: &Job, courses: &[Course]) -> Result<(), AllocError>
    ensures { OnOk result (string_bytes text.new ≡ string_bytes text.old ++ flat_map (course_text job.now) courses.now) }
{
    for course in courses {
        push_course(text, job, course)?;
    }
    Ok(())
}

/// Puts the lines of what steps wait for.
fn push_lines(text: &mut String, job: &Job, waits: &[Wait]) -> Result<(), AllocError>
    ensures { OnOk result (string_bytes text.new ≡ string_bytes text.old ++ flat_map (wait_text job.now) waits.now) }
{
    for wait in waits {
        push_wait(text, job, wait)?;
    }
    Ok(())
}

/// Puts what steps wait for, below a line that says so.
fn push_open_steps(text: &mut String, job: &Job, waits: &[Wait]) -> Result<(), AllocError>
    ensures { OnOk result (string_bytes text.new ≡ string_bytes text.old ++ codes "open steps:\n" ++ flat_map (wait_text job.now) waits.now) }
{
    text.push_str("open steps:\n")?;
    push_lines(text, job, waits)
}

/// Puts what steps wait for, if that is told.
///
/// # Errors
///
/// `AllocError` where a growth was refused.
pub fn push_waits(text: &mut String, job: &Job, waits: &Option<Vec<Wait>>) -> Result<(), AllocError>
    ensures { OnOk result (string_bytes text.new ≡ string_bytes text.old ++ open_text job.now waits.now) }
{
    match waits {
        Some(waits) => push_open_steps(text, job, waits.as_slice()),
        None => Ok(()),
    }
}

/// Puts a schedule of a job in words: its moves, a line each; the trace that it leaves, in which a step that stands open is `unfinished`; and what
/// steps wait for, if that is told.
///
/// # Errors
///
/// `AllocError` where a growth was refused.
pub fn push_schedule(text: &mut String, job: &Job, schedule: &Schedule) -> Result<(), AllocError>
    ensures { OnOk result (string_bytes text.new ≡ string_bytes text.old ++ schedule_text job.now schedule.now) }
{
    text.push_str("events:\n")?;
    push_moves(text, job, schedule.moves.as_slice())?;
    text.push_str("trace:\n")?;
    push_courses(text, job, schedule.courses.as_slice())?;
    push_waits(text, job, &schedule.waits)
}
