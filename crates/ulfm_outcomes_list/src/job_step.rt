//! The steps of a job, in the order of the trace.
ghost use Rattle.std.specs.Prelude.{◌≡◌, ◌++◌, IfOk, OnOk, map};
ghost use Rattle.ulfm_outcomes_list.specs.Listed.{all_steps, script_step, script_steps, step_view};

use std::alloc::Global;
use ulfm_base::OutOfMemory;
use ulfm_job::{Job, Step, StepWords};

/// A step of a job, and where it stands there.
#[derive(Clone, Copy)]
pub struct JobStep<'a> {
    /// Its rank.
    pub rank: u8,
    /// Its number.
    pub number: usize,
    /// The step, as it is told of.
    pub step: StepWords<'a>,
}

/// All steps of a job: those of the first rank, then those of the next.
///
/// # Errors
///
/// `OutOfMemory` where a growth was refused.
pub fn steps_of(alloc: Global, job: &Job) -> Result<Vec<JobStep<'_>>, OutOfMemory>
    ensures { IfOk result (λ steps. map step_view steps.items ≡ all_steps job.now) }
{
    let mut steps = Vec::new(alloc);
    for rank in 0..job.ranks() {
        push_script(&mut steps, job, rank, job.script(rank))?;
    }
    Ok(steps)
}

/// A step of a rank with this number, as it is told of.
fn job_step<'a>(job: &'a Job, rank: u8, number: usize, step: &'a Step) -> JobStep<'a>
    ensures { step_view result ≡ script_step job.now rank number step.now }
{
    let called = job.called(rank, number);
    JobStep {
        rank,
        number,
        step: StepWords { step, called },
    }
}

/// Puts the steps of a rank behind others.
fn push_script<'a>(
    steps: &mut Vec<JobStep<'a>>,
    job: &'a Job,
    rank: u8,
    script: &'a [Step],
) -> Result<(), OutOfMemory>
    ensures { OnOk result (map step_view steps.new.items ≡ map step_view steps.old.items ++ script_steps job.now rank 0 script.now) }
{
    for (number, step) in script.iter().enumerate() {
        steps.push(job_step(job, rank, number, step))?;
    }
    Ok(())
}
