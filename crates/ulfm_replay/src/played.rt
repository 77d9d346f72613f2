//! What comes of a replay.

use ulfm_schedule::Move;
use ulfm_script::RankReport;

/// What came of a replay.
#[derive(Drop)]
pub struct Played {
    /// What each rank did.
    pub reports: Vec<RankReport>,
    /// The moves of all ranks, one after another, where they were recorded.
    pub moves: Vec<Move>,
}
