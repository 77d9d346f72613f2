//! The list of all outcomes of a job.

use crate::judgement::Judgement;
use crate::listed_step::ListedStep;

/// The list of all outcomes of a job, or of what it has wherever ranks stop.
#[derive(Drop)]
pub struct StepList<'a> {
    /// Each step of the job, in the order of the trace.
    pub steps: Vec<ListedStep<'a>>,
    /// How many states are reached.
    pub states: usize,
    /// At how many places, if the list is one of places.
    pub places: Option<usize>,
    /// Whether some step never ends.
    pub never_ends: bool,
    /// What it comes to.
    pub judgement: Judgement,
}
