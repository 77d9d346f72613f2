//! What a step waits for, as a value.
ghost use Rattle.std.specs.Prelude.{◌≡◌, ◌++◌, IfOk, codes};
ghost use Rattle.ulfm_schedule.specs.Waits.{wait_words};
ghost use Rattle.ulfm_schedule.specs.Values.{wait_text};

use crate::bearer::{Bearer, bearer_of};
use crate::need::Need;
use crate::remark::Remark;
use std::alloc::AllocError;
use ulfm_answer::StepReport;
use ulfm_job::{Job, Step};

/// What a step of a rank waits for.
#[derive(Drop)]
pub struct Wait {
    /// The rank that waits.
    pub rank: u8,
    /// Its step, from 0.
    pub step: usize,
    /// What it waits for.
    pub need: Need,
    /// The rank that would have to bring it.
    pub on: u8,
    /// The step of that rank that would bring it, if one would.
    pub bearer: Option<Bearer>,
    /// Why it came too late, where it did.
    pub remark: Option<Remark>,
}

/// A step that waits for something.
#[derive(Clone, Copy)]
pub struct WaitingStep<'a> {
    /// Its rank.
    pub rank: u8,
    /// Its number, from 0.
    pub step: usize,
    /// What it asks for, as it is played; of a wait, the receive that it names.
    pub need: &'a Step,
}

impl Wait {
    /// What a step waits for of the rank `s`, and which step of `s` would bring it, if one would: its answer is among those of `s`, else it is
    /// the one that stands open there, or isn't reached.
    ///
    /// # Errors
    ///
    /// `AllocError` where a growth was refused, or what it asks for is nothing to wait for.
    #[tactic(auto, using(crate::proofs::Waiting::wait_is))]
    pub fn of(
        waiting: &WaitingStep<'_>,
        job: &Job,
        s: u8,
        done: &[StepReport],
        is_open: bool,
        due: Option<usize>,
    ) -> Result<Wait, AllocError>
        ensures { IfOk result (λ wait. wait_text job.now wait ≡ wait_words job.now waiting.now.rank waiting.now.step waiting.now.need.now s done.now is_open due ++ codes "\n") }
    {
        let Some(need) = Need::of(waiting.need) else {
            return Err(AllocError);
        };
        Ok(Wait {
            rank: waiting.rank,
            step: waiting.step,
            need,
            on: s,
            bearer: bearer_of(job, s, done, is_open, due)?,
            remark: None,
        })
    }
}
