//! Entries into shrinks and agreements.
ghost use Rattle.ulfm_base.specs.Topic.{Fits, HasShrink};

use crate::contribution::Contribution;
use crate::topic::Topic;

/// A rank's entry into the shrink of a communicator, or into one of its agreements (ULFM, shrink and agree).
#[derive(Clone, Copy)]
pub struct Entrance {
    /// What is entered.
    pub topic: Topic,
    /// What the rank brings.
    pub contribution: Contribution,
    pub ghost fits: { Fits topic.purpose contribution.flag },
    pub ghost has_shrink: { HasShrink topic },
}
