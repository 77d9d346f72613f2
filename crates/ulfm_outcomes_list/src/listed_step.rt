//! A line of a list.

use crate::job_step::JobStep;
use crate::outcomes::Outcomes;

/// A step of a job, and what a list tells of it.
#[derive(Drop)]
pub struct ListedStep<'a> {
    /// The step.
    pub at: JobStep<'a>,
    /// What is told of it.
    pub told: Outcomes<'a>,
}
