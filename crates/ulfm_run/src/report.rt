//! What a run gives.

use ulfm_carrier::Residue;
use ulfm_script::RankReport;

/// What the ranks of a job did, by their numbers, and what is left of the run.
#[derive(Drop)]
pub struct Report<E, D> {
    /// What each rank did.
    pub ranks: Vec<RankReport>,
    /// What is left in the inboxes.
    pub residue: Residue,
    /// The ends of the carrier, which show what was pushed and taken.
    pub ends: Vec<E>,
    /// The deciders, which know the decisions of shrinks and agreements.
    pub deciders: Vec<D>,
}
