//! A picture by a schedule.

use crate::arrow::Arrow;
use crate::kind::kind_of;
use crate::mark::{Mark, mark_by};
use crate::picture::Picture;
use crate::row::Row;
use crate::wait::Wait;
use std::alloc::{AllocError, Global};
use ulfm_answer::StepReport;
use ulfm_forms::{Wording, push_answer_in};
use ulfm_job::Job;
use ulfm_schedule::{Cargo, Deed, Move, Schedule, push_cargo};

/// The picture of a schedule of a job, in these words, with a note on it.
pub(crate) fn picture_of<'a>(
    alloc: Global,
    wording: Wording,
    job: &'a Job,
    schedule: &Schedule,
    note: &'a str,
) -> Result<Picture<'a>, AllocError> {
    let mut picture = Picture::new(alloc, wording, job, note);
    for course in &schedule.courses {
        picture.ends.push(course.end)?;
    }
    for moved in &schedule.moves {
        add_move(&mut picture, moved)?;
    }
    for course in &schedule.courses {
        let rank = course.rank as usize;
        let step = course.steps.len();
        if course.open.is_some() && !picture.has_row(rank, step) {
            let row = opened(alloc, &picture, course.rank, step)?;
            picture.rows.push(row)?;
        }
    }
    if let Some(waits) = &schedule.waits {
        for wait in waits {
            picture.waits.push(Wait::of(alloc, job, wait)?)?;
        }
    }
    Ok(picture)
}

/// Adds a move. An item on its way isn't seen: it is as soon as it is taken.
fn add_move(picture: &mut Picture<'_>, moved: &Move) -> Result<(), AllocError> {
    let alloc = *picture.rows.allocator();
    let rank = moved.rank as usize;
    if is_skipped_behind(picture, moved) {
        return Ok(());
    }
    let mut row = match &moved.deed {
        Deed::Left(_, _) => return Ok(()),
        Deed::Took(from, cargo) => taken(alloc, rank, *from, *cargo)?,
        Deed::Opened(step, _) => opened(alloc, picture, moved.rank, *step)?,
        Deed::Answered(step, report) => answered(alloc, picture, moved.rank, *step, report)?,
    };
    row.message = moved.message;
    picture.rows.push(row)?;
    if let Deed::Took(from, cargo) = &moved.deed {
        land(picture, *from as usize, rank, *cargo)?;
    }
    send(picture, moved)
}

/// Whether a step is skipped right behind another one, whose row then stands for both.
fn is_skipped_behind(picture: &mut Picture<'_>, moved: &Move) -> bool {
    let Deed::Answered(step, report) = &moved.deed else {
        return false;
    };
    if mark_by(&report.answer) != Mark::Skip {
        return false;
    }
    match picture.last_row_of(moved.rank as usize) {
        Some(row) if row.mark == Some(Mark::Skip) && row.through.saturating_add(1) == *step => {
            row.through = *step;
            true
        }
        _ => false,
    }
}

/// The row of an item that a rank took.
fn taken(alloc: Global, rank: usize, from: u8, cargo: Cargo) -> Result<Row, AllocError> {
    let mut words = String::new(alloc);
    push_cargo(&mut words, from, cargo)?;
    Ok(Row {
        rank,
        step: 0,
        through: 0,
        mark: None,
        taken: Some(kind_of(cargo)),
        words,
        answer: String::new(alloc),
        message: None,
    })
}

/// The row of a step that was opened.
fn opened(alloc: Global, picture: &Picture<'_>, rank: u8, step: usize) -> Result<Row, AllocError> {
    Ok(Row {
        rank: rank as usize,
        step,
        through: step,
        mark: Some(Mark::Open),
        taken: None,
        words: picture.call(alloc, rank, step)?,
        answer: String::from_str(alloc, "open")?,
        message: None,
    })
}

/// The row of a step that has its answer.
fn answered(
    alloc: Global,
    picture: &Picture<'_>,
    rank: u8,
    step: usize,
    report: &StepReport,
) -> Result<Row, AllocError> {
    let mut answer = String::new(alloc);
    push_answer_in(&mut answer, picture.wording, &report.answer)?;
    Ok(Row {
        rank: rank as usize,
        step,
        through: step,
        mark: Some(mark_by(&report.answer)),
        taken: None,
        words: picture.call(alloc, rank, step)?,
        answer,
        message: None,
    })
}

/// The first item under way like this ends in the last row. One that nothing is known of begins there too.
fn land(picture: &mut Picture<'_>, from: usize, to: usize, cargo: Cargo) -> Result<(), AllocError> {
    let last = picture.last();
    for arrow in picture.arrows.iter_mut() {
        if arrow.is_awaited(from, to, cargo) {
            arrow.end = Some(last);
            return Ok(());
        }
    }
    picture.arrows.push(Arrow {
        from,
        to,
        cargo,
        start: last,
        end: Some(last),
    })?;
    Ok(())
}

/// What a move sends goes out from the last row.
fn send(picture: &mut Picture<'_>, moved: &Move) -> Result<(), AllocError> {
    let start = picture.last();
    for parcel in &moved.sent {
        picture.arrows.push(Arrow {
            from: moved.rank as usize,
            to: parcel.to as usize,
            cargo: parcel.cargo,
            start,
            end: None,
        })?;
    }
    Ok(())
}
