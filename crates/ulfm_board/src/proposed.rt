//! What a cell of the board keeps.
ghost use Rattle.ulfm_board.specs.Proposals.{Proposer};

use ulfm_base::Decision;

/// A decision that some rank proposes.
#[derive(Drop)]
pub(crate) struct Proposed {
    /// The decision.
    pub(crate) decision: Decision,
    pub(crate) ghost proposed: { ∥ Proposer decision ∥₁ },
}
