//! A schedule as an array of objects.
ghost use Rattle.std.specs.Prelude.{◌≡◌, ◌++◌, ◌∷◌, [], IfOk, OnOk, map, string_bytes};
ghost use Rattle.ulfm_answer.specs.declared.answer.StepAnswer.TheVariants.{Unfinished};
ghost use Rattle.std.specs.List.{flat_map};
ghost use Rattle.ulfm_outcomes_list.specs.Events.{move_json};
ghost use Rattle.ulfm_outcomes_list.specs.ScheduleJson.{course_objects, end_object, open_objects, schedule_json, schedule_objects, step_object, step_objects, waits_objects};
ghost use Rattle.ulfm_outcomes_list.specs.Waits.{wait_json};

use crate::events::{move_object, push_step_answered};
use crate::waits::wait_object;
use std::alloc::{AllocError, Global};
use ulfm_answer::{StepAnswer, StepReport};
use ulfm_forms::{push_ended, push_objects};
use ulfm_job::NotedStep;
use ulfm_reader::Reading;
use ulfm_schedule::{Course, End, Move, Schedule, Wait};

/// The objects of moves.
fn moves_of(alloc: Global, asked: &Reading, moves: &[Move]) -> Result<Vec<String>, AllocError>
    ensures { IfOk result (λ objects. map string_bytes objects.items ≡ map (move_json asked.now.names.items asked.now.job) moves.now) }
{
    let mut objects = Vec::new(alloc);
    for moved in moves {
        objects.push(move_object(alloc, asked, moved)?)?;
    }
    Ok(objects)
}

/// The object of the step `k` of the rank `r` with its answer.
fn step_object(
    alloc: Global,
    asked: &Reading,
    r: u8,
    k: usize,
    answer: &StepAnswer,
) -> Result<String, AllocError>
    ensures { IfOk result (λ text. string_bytes text ≡ step_object asked.now.names.items asked.now.job r k answer.now) }
{
    let mut text = String::new(alloc);
    push_step_answered(&mut text, asked, r, k, answer)?;
    text.push_str("}")?;
    Ok(text)
}

/// Adds the answered steps of the rank `r`.
fn push_steps(
    objects: &mut Vec<String>,
    asked: &Reading,
    r: u8,
    steps: &[StepReport],
) -> Result<(), AllocError>
    ensures { OnOk result (map string_bytes objects.new.items ≡ map string_bytes objects.old.items ++ step_objects asked.now.names.items asked.now.job r 0 steps.now) }
{
    let alloc = *objects.allocator();
    for (k, report) in steps.iter().enumerate() {
        objects.push(step_object(alloc, asked, r, k, &report.answer)?)?;
    }
    Ok(())
}

/// Adds the step `k` of the rank `r`, if it stands open.
fn push_open(
    objects: &mut Vec<String>,
    asked: &Reading,
    r: u8,
    k: usize,
    open: &Option<NotedStep>,
) -> Result<(), AllocError>
    ensures { OnOk result (map string_bytes objects.new.items ≡ map string_bytes objects.old.items ++ open_objects asked.now.names.items asked.now.job r k open.now) }
{
    match open {
        Some(_) => push_unfinished(objects, asked, r, k),
        None => Ok(()),
    }
}

/// Adds the step `k` of the rank `r`, which stands open.
fn push_unfinished(
    objects: &mut Vec<String>,
    asked: &Reading,
    r: u8,
    k: usize,
) -> Result<(), AllocError>
    ensures { OnOk result (map string_bytes objects.new.items ≡ map string_bytes objects.old.items ++ step_object asked.now.names.items asked.now.job r k Unfinished ∷ []) }
{
    let alloc = *objects.allocator();
    objects.push(step_object(alloc, asked, r, k, &StepAnswer::Unfinished)?)?;
    Ok(())
}

/// Puts how the rank `r` ended.
fn push_end(text: &mut String, r: u8, end: End) -> Result<(), AllocError>
    ensures { OnOk result (string_bytes text.new ≡ string_bytes text.old ++ end_object r end) }
{
    match end {
        End::Done => push_ended(text, r, false, 0),
        End::Stopped => push_ended(text, r, true, 0),
        End::Unreached => write!(text, "{{\"rank\":{r},\"end\":null}}"),
    }
}

/// The object of how the rank `r` ended.
fn ended(alloc: Global, r: u8, end: End) -> Result<String, AllocError>
    ensures { IfOk result (λ text. string_bytes text ≡ end_object r end) }
{
    let mut text = String::new(alloc);
    push_end(&mut text, r, end)?;
    Ok(text)
}

/// Adds what came of a rank.
fn push_course(
    objects: &mut Vec<String>,
    asked: &Reading,
    course: &Course,
) -> Result<(), AllocError>
    ensures { OnOk result (map string_bytes objects.new.items ≡ map string_bytes objects.old.items ++ course_objects asked.now.names.items asked.now.job course.now) }
{
    let steps = course.steps.as_slice();
    push_steps(objects, asked, course.rank, steps)?;
    push_open(objects, asked, course.rank, steps.len(), &course.open)?;
    let alloc = *objects.allocator();
    objects.push(ended(alloc, course.rank, course.end)?)?;
    Ok(())
}

/// Adds what came of ranks.
fn push_courses(
    objects: &mut Vec<String>,
    asked: &Reading,
    courses: &[Course],
) -> Result<(), AllocError>
    ensures { OnOk result (map string_bytes objects.new.items ≡ map string_bytes objects.old.items ++ flat_map (course_objects asked.now.names.items asked.now.job) courses.now) }
{
    for course in courses {
        push_course(objects, asked, course)?;
    }
    Ok(())
}

/// Adds what steps wait for.
fn push_waits(objects: &mut Vec<String>, asked: &Reading, waits: &[Wait]) -> Result<(), AllocError>
    ensures { OnOk result (map string_bytes objects.new.items ≡ map string_bytes objects.old.items ++ map (wait_json asked.now.names.items asked.now.job) waits.now) }
{
    let alloc = *objects.allocator();
    for wait in waits {
        objects.push(wait_object(alloc, asked, wait)?)?;
    }
    Ok(())
}

/// Adds what steps wait for, if that is told.
fn push_told_waits(
    objects: &mut Vec<String>,
    asked: &Reading,
    waits: &Option<Vec<Wait>>,
) -> Result<(), AllocError>
    ensures { OnOk result (map string_bytes objects.new.items ≡ map string_bytes objects.old.items ++ waits_objects asked.now.names.items asked.now.job waits.now) }
{
    match waits {
        Some(waits) => push_waits(objects, asked, waits.as_slice()),
        None => Ok(()),
    }
}

/// The objects of a schedule.
fn objects_of(
    alloc: Global,
    asked: &Reading,
    schedule: &Schedule,
) -> Result<Vec<String>, AllocError>
    ensures { IfOk result (λ objects. map string_bytes objects.items ≡ schedule_objects asked.now.names.items asked.now.job schedule.now) }
{
    let mut objects = moves_of(alloc, asked, schedule.moves.as_slice())?;
    push_courses(&mut objects, asked, schedule.courses.as_slice())?;
    push_told_waits(&mut objects, asked, &schedule.waits)?;
    Ok(objects)
}

/// Puts a schedule of what was asked for as an array of objects: its events, the trace that it leaves, and what steps wait for that stand open.
pub(crate) fn push_schedule_json(
    text: &mut String,
    asked: &Reading,
    schedule: &Schedule,
) -> Result<(), AllocError>
    ensures { OnOk result (string_bytes text.new ≡ string_bytes text.old ++ schedule_json asked.now.names.items asked.now.job schedule.now) }
{
    let objects = objects_of(*text.allocator(), asked, schedule)?;
    push_objects(text, objects.as_slice())
}
