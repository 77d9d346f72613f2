//! The lists of places.

use ulfm_job::Place;
use ulfm_outcomes_list::Listed;

/// The lists of places, in their order.
#[derive(Drop)]
pub struct Lists {
    /// A list for each place that has no more states than the limit.
    pub listed: Vec<Listed>,
    /// The other places.
    pub past_limit: Vec<Place>,
}
