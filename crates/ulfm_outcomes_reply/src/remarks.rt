//! What standard error tells of a list, and of a schedule that isn't wanted: for people, and none of it is promised.

use std::alloc::{AllocError, Global};
use ulfm_answer::{StepAnswer, StepReport, ToldAnswer, holds_of};
use ulfm_command_line::{Remark, StepTold, is_looked_at, push_unmet_answers};
use ulfm_job::{Clause, Job};
use ulfm_outcomes_list::{Told, code_at};
use ulfm_reach::Rows;
use ulfm_reader::Reading;
use ulfm_schedule::{Course, Schedule};

/// Which steps each schedule skips, by a list below which nothing stands.
pub fn skipped_in(alloc: Global, asked: &Reading, found: &Rows) -> Result<Vec<Remark>, AllocError> {
    let mut remarks = Vec::new(alloc);
    for rank in 0..asked.job.ranks() {
        for at in 0..asked.job.script_len(rank) {
            if is_skipped(found, rank, at) {
                remarks.push(Remark::Skipped(StepTold::of(alloc, asked, rank, at)?))?;
            }
        }
    }
    Ok(remarks)
}

/// Whether a step has been skipped, and has nothing else in a list.
fn is_skipped(found: &Rows, rank: u8, at: usize) -> bool {
    let mut is_there = false;
    for place in 0..found.len() {
        if let Some(code) = code_at(found, place, rank, at) {
            if !matches!(ToldAnswer::read(code), Some(ToldAnswer::Skipped)) {
                return false;
            }
            is_there = true;
        }
    }
    is_there
}

/// What is told of a schedule that isn't wanted, perhaps since it has all answers of the row of this number: which of its answers aren't as
/// their steps expect, and which rows it has whole.
pub fn remarks_on(
    alloc: Global,
    asked: &Reading,
    row: Option<usize>,
    told: &Told,
) -> Result<Vec<Remark>, AllocError> {
    match told {
        Told::Schedule(schedule) => found_in(alloc, asked, row, schedule),
        Told::Many(_) => Ok(Vec::new(alloc)),
    }
}

/// What is told of a schedule: which of its answers aren't as their steps expect, and which rows it has whole.
fn found_in(
    alloc: Global,
    asked: &Reading,
    row: Option<usize>,
    schedule: &Schedule,
) -> Result<Vec<Remark>, AllocError> {
    let mut remarks = Vec::new(alloc);
    let mut answered = Vec::new(alloc);
    for course in &schedule.courses {
        let steps = answers_of(alloc, course)?;
        push_unmet_answers(&mut remarks, asked, course.rank, steps.as_slice())?;
        answered.push(steps)?;
    }
    for (number, clauses) in asked.never.iter().enumerate() {
        if row == Some(number) || has_come(alloc, &asked.job, clauses, answered.as_slice()) {
            remarks.push(Remark::came(alloc, asked, number)?)?;
        }
    }
    Ok(remarks)
}

/// The answered steps of a rank, and the one that stands open as one that is unfinished.
fn answers_of(alloc: Global, course: &Course) -> Result<Vec<StepReport>, AllocError> {
    let mut steps = Vec::new(alloc);
    steps.extend_with_clones(course.steps.as_slice())?;
    if let Some(open) = &course.open {
        steps.push(StepReport {
            step: open.clone()?,
            answer: StepAnswer::Unfinished,
            at: 0,
            polls: 0,
        })?;
    }
    Ok(steps)
}

/// Whether a row is looked at, and its answers are all there, of the ranks in their order.
fn has_come(alloc: Global, job: &Job, row: &Vec<Clause>, answered: &[Vec<StepReport>]) -> bool {
    is_looked_at(job, row.as_slice())
        && row.iter().all(|clause| match answered.get(clause.rank as usize) {
            Some(steps) => holds_of(alloc, steps.as_slice(), clause),
            None => false,
        })
}
