//! An answer, and where it is one.

use crate::worded::Worded;
use ulfm_job::Place;

/// An answer of a step, and where it is one.
#[derive(Drop)]
pub struct Outcome<'a> {
    /// What is told of it, with its words.
    pub told: Worded<'a>,
    /// The places at which it is an answer, in their order; none where a list isn't one of places.
    pub places: Vec<Place>,
}
