//! What is kept of the list of a place.

use ulfm_job::Place;
use ulfm_reach::Rows;

/// What is kept of the list of all outcomes of a job at a place.
#[derive(Drop)]
pub struct Listed {
    /// The place.
    pub place: Place,
    /// How many states are reached there.
    pub states: usize,
    /// The rows of the list, which number steps as the job at the place does.
    pub found: Rows,
    /// Whether the search for it found that no row of `never` comes that is looked at there, but perhaps of those that ask for a step that never ends.
    pub rules_out: bool,
}
