//! What came of a poll, and of asking for a decision.

/// Whether a poll answered its step.
#[derive(Clone, Copy, Debug, PartialEq, Eq)]
pub enum Called {
    /// The step has its answer.
    Answered,
    /// The step stays open.
    NotYet,
}

/// What came of asking for the decision of a shrink or an agreement.
#[derive(Clone, Copy, Debug, PartialEq, Eq)]
pub enum Decided {
    /// The step has its answer.
    Answered,
    /// No shrink of this communicator or agreement on it stands open, or it has no proposal yet.
    NotReady,
}
