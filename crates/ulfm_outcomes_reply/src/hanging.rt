//! A schedule in which a step never ends, for standard error: for people, and none of it is promised.

use crate::search::Search;
use std::alloc::{AllocError, Global};
use ulfm_command_line::Remark;
use ulfm_job::Job;
use ulfm_outcomes_list::{Goals, OpenStep, Told, push_schedule_in};
use ulfm_outcomes_spec::Finder;
use ulfm_reach::Watch;

/// A schedule in which this step of a job never ends, if one is found within the limit.
pub(crate) fn hanging<F: Finder, W: Watch>(
    search: &Search<'_, F>,
    job: &Job,
    left: OpenStep,
    watch: &mut W,
) -> Result<Option<Remark>, AllocError> {
    let goals = open_goals(search.alloc, left)?;
    match search.show(job, &goals, watch)? {
        Some(Told::Schedule(schedule)) => {
            let mut text = String::new(search.alloc);
            push_schedule_in(&mut text, search.form.wording(), job, &schedule)?;
            Ok(Some(Remark::Hanging(text)))
        }
        _ => Ok(None),
    }
}

/// That a step never ends.
///
/// # Errors
///
/// `AllocError` where a growth was refused.
pub fn open_goals(alloc: Global, step: OpenStep) -> Result<Goals, AllocError> {
    let mut left = Vec::new(alloc);
    left.push(step)?;
    Ok(Goals {
        answers: Vec::new(alloc),
        others: Vec::new(alloc),
        left,
    })
}
