//! Which answers aren't as their steps expect: for people, and none of it is promised.

use crate::remark::{Remark, asks};
use std::alloc::{AllocError, Global};
use ulfm_answer::{StepAnswer, StepReport, holds_of, push_answer};
use ulfm_job::Job;
use ulfm_reader::Reading;

/// Adds what is told of these answered steps of a rank: which answers aren't as their steps expect.
///
/// # Errors
///
/// `AllocError` where a growth was refused.
pub fn push_unmet_answers(
    remarks: &mut Vec<Remark>,
    asked: &Reading,
    rank: u8,
    done: &[StepReport],
) -> Result<(), AllocError> {
    let alloc = *remarks.allocator();
    for (at, step) in done.iter().enumerate() {
        if is_unmet(alloc, &asked.job, rank, at, done, &step.answer) {
            let mut answer = String::new(alloc);
            push_answer(&mut answer, &step.answer)?;
            remarks.push(Remark::unmet(alloc, asked, rank, at, answer)?)?;
        }
    }
    Ok(())
}

/// Whether a step expects other answers than the one that it has among these of its rank.
fn is_unmet(
    alloc: Global,
    job: &Job,
    rank: u8,
    at: usize,
    done: &[StepReport],
    answer: &StepAnswer,
) -> bool {
    let mut expects = false;
    for clause in job.expected() {
        if asks(rank, at, clause) {
            if holds_of(alloc, done, clause) {
                return false;
            }
            expects = true;
        }
    }
    expects && !matches!(answer, StepAnswer::Skipped)
}
