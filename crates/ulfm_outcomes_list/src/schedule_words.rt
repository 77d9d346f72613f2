//! A schedule in plain words, or in MPI's.
ghost use Rattle.std.specs.Prelude.{◌≡◌, ◌++◌, OnOk, codes, string_bytes};
ghost use Rattle.std.specs.List.{flat_map};
ghost use Rattle.ulfm_outcomes_list.specs.ScheduleWords.{answered_in, course_in, deed_in, move_in, left_in, mpi_schedule, placed_call, schedule_in};

use std::alloc::AllocError;
use ulfm_answer::StepAnswer;
use ulfm_forms::{Wording, push_answer_in, push_call_at, push_line_in, push_lines_in};
use ulfm_job::{Job, NotedStep};
use ulfm_schedule::{
    Course, Deed, Move, Schedule, push_end, push_passed, push_schedule, push_waits,
};

/// Puts the step `k` of the rank `r` of a job, by its place.
fn push_placed(
    text: &mut String,
    wording: Wording,
    job: &Job,
    r: u8,
    k: usize,
) -> Result<(), AllocError>
    ensures { OnOk result (string_bytes text.new ≡ string_bytes text.old ++ placed_call wording job.now r k) }
{
    write!(text, "{r}.{k} ")?;
    push_call_at(text, wording, job, r, k)
}

/// Puts the line of a step that is opened.
fn push_opened(
    text: &mut String,
    wording: Wording,
    job: &Job,
    r: u8,
    k: usize,
) -> Result<(), AllocError>
    ensures { OnOk result (string_bytes text.new ≡ string_bytes text.old ++ placed_call wording job.now r k ++ codes ": open\n") }
{
    push_placed(text, wording, job, r, k)?;
    text.push_str(": open\n")
}

/// Puts the line of a step that has its answer.
fn push_answered(
    text: &mut String,
    wording: Wording,
    job: &Job,
    r: u8,
    k: usize,
    answer: &StepAnswer,
) -> Result<(), AllocError>
    ensures { OnOk result (string_bytes text.new ≡ string_bytes text.old ++ answered_in wording job.now r k answer.now) }
{
    push_placed(text, wording, job, r, k)?;
    text.push_str(": ")?;
    push_answer_in(text, wording, answer)?;
    text.push_str("\n")
}

/// Puts the line of what the rank `r` of a job does.
fn push_deed(
    text: &mut String,
    wording: Wording,
    job: &Job,
    r: u8,
    deed: &Deed,
) -> Result<(), AllocError>
    ensures { OnOk result (string_bytes text.new ≡ string_bytes text.old ++ deed_in wording job.now r deed.now) }
{
    match deed {
        Deed::Left(d, cargo) => push_passed(text, r, *d, false, *cargo),
        Deed::Took(s, cargo) => push_passed(text, *s, r, true, *cargo),
        Deed::Opened(k, _) => push_opened(text, wording, job, r, *k),
        Deed::Answered(k, report) => push_answered(text, wording, job, r, *k, &report.answer),
    }
}

/// Puts the lines of moves.
fn push_moves(
    text: &mut String,
    wording: Wording,
    job: &Job,
    moves: &[Move],
) -> Result<(), AllocError>
    ensures { OnOk result (string_bytes text.new ≡ string_bytes text.old ++ flat_map (move_in wording job.now) moves.now) }
{
    for moved in moves {
        push_deed(text, wording, job, moved.rank, &moved.deed)?;
    }
    Ok(())
}

/// Puts the line of a step that stands open, as of one that is given up.
fn push_left(
    text: &mut String,
    wording: Wording,
    job: &Job,
    r: u8,
    k: usize,
    left: &Option<NotedStep>,
) -> Result<(), AllocError>
    ensures { OnOk result (string_bytes text.new ≡ string_bytes text.old ++ left_in wording job.now r k left.now) }
{
    match left {
        Some(_) => push_line_in(text, wording, job, r, k, &StepAnswer::Unfinished),
        None => Ok(()),
    }
}

/// Puts the lines of a rank.
fn push_course(
    text: &mut String,
    wording: Wording,
    job: &Job,
    course: &Course,
) -> Result<(), AllocError>
    ensures { OnOk result (string_bytes text.new ≡ string_bytes text.old ++ course_in wording job.now course.now) }
{
    let steps = course.steps.as_slice();
    push_lines_in(text, wording, job, course.rank, steps)?;
    push_left(text, wording, job, course.rank, steps.len(), &course.open)?;
    push_end(text, course.rank, course.end)
}

/// Puts the lines of all ranks.
fn push_courses(
    text: &mut String,
    wording: Wording,
    job: &Job,
    courses: &[Course],
) -> Result<(), AllocError>
    ensures { OnOk result (string_bytes text.new ≡ string_bytes text.old ++ flat_map (course_in wording job.now) courses.now) }
{
    for course in courses {
        push_course(text, wording, job, course)?;
    }
    Ok(())
}

/// Puts a schedule of a job in MPI's words.
fn push_mpi_schedule(text: &mut String, job: &Job, schedule: &Schedule) -> Result<(), AllocError>
    ensures { OnOk result (string_bytes text.new ≡ string_bytes text.old ++ mpi_schedule job.now schedule.now) }
{
    text.push_str("events:\n")?;
    push_moves(text, Wording::Mpi, job, schedule.moves.as_slice())?;
    text.push_str("trace:\n")?;
    push_courses(text, Wording::Mpi, job, schedule.courses.as_slice())?;
    push_waits(text, job, &schedule.waits)
}

/// Puts a schedule of a job in these words: its moves, a line each; the trace that it leaves; and what steps wait for, if that is told.
pub fn push_schedule_in(
    text: &mut String,
    wording: Wording,
    job: &Job,
    schedule: &Schedule,
) -> Result<(), AllocError>
    ensures { OnOk result (string_bytes text.new ≡ string_bytes text.old ++ schedule_in wording job.now schedule.now) }
{
    match wording {
        Wording::Plain => push_schedule(text, job, schedule),
        Wording::Mpi => push_mpi_schedule(text, job, schedule),
    }
}
