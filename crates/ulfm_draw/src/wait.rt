//! What steps wait for that stand open at the end, or were given up.

use std::alloc::{AllocError, Global};
use ulfm_job::Job;
use ulfm_schedule::{Remark, push_bringing, push_needed};

/// What a step waits for.
#[derive(Drop)]
pub(crate) struct Wait {
    pub(crate) rank: usize,
    pub(crate) step: usize,
    /// The rank that would have to bring it.
    pub(crate) on: usize,
    /// What it is, as `a message from 1 tag 7 comm 0`.
    pub(crate) need: String,
    /// Which step would bring it, and what came of that.
    pub(crate) bearer: String,
    /// Whether it came, when the step was given up already, or is on its way.
    pub(crate) is_missed: bool,
    /// Whether a message is waited for. Where several ranks may send it, one of them is enough.
    pub(crate) is_for_message: bool,
}

impl Wait {
    /// Of one of a schedule.
    pub(crate) fn of(
        alloc: Global,
        job: &Job,
        wait: &ulfm_schedule::Wait,
    ) -> Result<Wait, AllocError> {
        let mut need = String::new(alloc);
        push_needed(&mut need, wait)?;
        let mut bearer = String::new(alloc);
        push_bringing(&mut bearer, job, wait)?;
        Ok(Wait {
            rank: wait.rank as usize,
            step: wait.step,
            on: wait.on as usize,
            need,
            bearer,
            is_missed: matches!(
                wait.remark,
                Some(Remark::Later | Remark::NoticeLater | Remark::NoticeMissing)
            ),
            is_for_message: wait.need.is_message(),
        })
    }

    /// Whether it is of the same step as another one.
    pub(crate) fn is_beside(&self, other: &Wait) -> bool {
        self.rank == other.rank && self.step == other.step
    }
}
