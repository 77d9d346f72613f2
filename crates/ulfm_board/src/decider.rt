//! Who answers for the decisions of shrinks and agreements.
ghost use Rattle.std.specs.Prelude.{◌≡◌, ℕ, List, Option, IfOk, OnErr, IsSome};
ghost use Rattle.ulfm_base.specs.declared.decision.Decision.{Decision as Decided};
ghost use Rattle.ulfm_base.specs.declared.topic.Topic.{Topic};
ghost use Rattle.ulfm_board.specs.Known.{Answers, BothAgree, Known, Starves, known_at};
ghost use Rattle.ulfm_board.specs.Proposals.{WasProposed};

use ulfm_base::{Decision, OutOfMemory};

/// Answers one decision for each shrink and each agreement: always the first that it answered.
pub trait Decider: Drop {
    /// The names of the cells that it shares with others. `None`: it shares none.
    ghost board: { Self → Option (List ℕ) };

    /// By the numbers of topics, the decisions that it knows.
    ghost known: { Self → Known };

    /// What it says of each decision that it answers.
    ghost says: { Decided → Type 0 };

    /// Hands a decision in, and answers the one that it knows on this topic from now on: the one that it knew, else, if it
    /// shares no cell, this one. That a decider which shares its cells answers the first decision that was handed in at them
    /// is held by tests alone.
    ///
    /// # Errors
    ///
    /// `OutOfMemory` where it knew no decision on this topic, and a growth was refused or the board has as many rows as may be.
    fn decide(&mut self, decision: Decision) -> Result<Decision, OutOfMemory>
        requires { WasProposed decision }
        ensures board { board self.new ≡ board self.old }
        ensures says { IfOk result (λ held. says held) }
        ensures answers { IfOk result (λ held. Answers (board self.old) (known self.old) decision held (known self.new)) }
        ensures starves { OnErr result (Starves (known self.old) decision.topic) }
        ensures unchanged { OnErr result (known self.new ≡ known self.old) };

    /// Two that share their cells know no two decisions on one topic. It changes nothing, and never answers out of memory.
    fn same(&mut self, other: &mut Self)
        requires { board other.old ≡ board self.old }
        ensures board { board self.new ≡ board self.old }
        ensures board_of_the_other { board other.new ≡ board other.old }
        ensures known { known self.new ≡ known self.old }
        ensures known_to_the_other { known other.new ≡ known other.old }
        ensures agree { IsSome (board self.old) → (topic : Topic) → BothAgree (known_at (known self.old) topic) (known_at (known other.old) topic) };
}
