//! What is left in the inboxes, once the ranks are done.

use ulfm_base::{Item, WorldRank};

/// For each rank, by its number, the items left in its inbox with their senders. Those of one sender stand in the order
/// in which it pushed them.
#[derive(Drop)]
pub struct Residue {
    /// By the number of the receiver, its items with their senders.
    pub inboxes: Vec<Vec<(WorldRank, Item)>>,
}
