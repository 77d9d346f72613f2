//! What becomes of an arriving letter.

use ulfm_base::{Letter, RequestId};

/// What became of a letter that arrived.
#[derive(Drop)]
pub enum Arrived {
    /// A waiting receive got it.
    Paired(RequestId, Letter),
    /// No waiting receive admits it, so it is kept for one that is posted later.
    Kept,
}
