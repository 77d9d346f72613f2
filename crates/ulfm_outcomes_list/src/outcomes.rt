//! What a list tells of a step.

use crate::outcome::Outcome;
use ulfm_job::Place;

/// What a list tells of a step.
#[derive(Drop)]
pub struct Outcomes<'a> {
    /// Its answers, in the order of their words' bytes, each once.
    pub answers: Vec<Outcome<'a>>,
    /// Whether it never ends in some schedule.
    pub never_ends: bool,
    /// The places at which it never ends, in their order; none where a list isn't one of places.
    pub never_ends_at: Vec<Place>,
}
