//! Who would bring what is waited for.
ghost use Rattle.std.specs.Prelude.{◌≡◌, IfOk, length, slice_get};
ghost use Rattle.ulfm_schedule.specs.Waits.{bearer_text, due_text, fate_text};
ghost use Rattle.ulfm_schedule.specs.Values.{bearer_words, bringer_words, fate_words};

use std::alloc::AllocError;
use ulfm_answer::{StepAnswer, StepReport};
use ulfm_job::Job;

/// What came of a step.
#[derive(Drop)]
pub enum Fate {
    /// It has this answer.
    Answered(StepAnswer),
    /// It stands open.
    Open,
    /// Its rank didn't come to it.
    Unreached,
}

/// A step that would bring what is waited for, and what came of it.
#[derive(Drop)]
pub struct Bearer {
    /// Its number, from 0.
    pub step: usize,
    /// What came of it.
    pub fate: Fate,
}

/// What came of the step `k`, where these are answered, and the next one stands open or doesn't.
fn fate_of(done: &[StepReport], is_open: bool, k: usize) -> Result<Fate, AllocError>
    ensures { IfOk result (λ fate. fate_words fate ≡ fate_text (length done.now) is_open k (slice_get done.now k)) }
{
    if let Some(report) = done.get(k) {
        return Ok(Fate::Answered(report.answer.clone()?));
    }
    if is_open && k == done.len() {
        return Ok(Fate::Open);
    }
    Ok(Fate::Unreached)
}

/// The step `k` of the rank `s` of a job, and what came of it.
fn bearer_at(
    job: &Job,
    s: u8,
    done: &[StepReport],
    is_open: bool,
    k: usize,
) -> Result<Bearer, AllocError>
    ensures { IfOk result (λ bearer. bearer_words job.now s bearer ≡ due_text job.now s done.now is_open k) }
{
    // Of which job and whose it is stands in the clause alone.
    let _ = job;
    let _ = s;
    Ok(Bearer {
        step: k,
        fate: fate_of(done, is_open, k)?,
    })
}

/// Who would bring it: a step of the rank `s` of a job, or none.
pub(crate) fn bearer_of(
    job: &Job,
    s: u8,
    done: &[StepReport],
    is_open: bool,
    due: Option<usize>,
) -> Result<Option<Bearer>, AllocError>
    ensures { IfOk result (λ bearer. bringer_words job.now s bearer ≡ bearer_text job.now s done.now is_open due) }
{
    match due {
        Some(k) => Ok(Some(bearer_at(job, s, done, is_open, k)?)),
        None => Ok(None),
    }
}
