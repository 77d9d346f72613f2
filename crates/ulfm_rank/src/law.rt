//! A law of what ranks refuse, stated by the contract of a function that does nothing.
ghost use Rattle.std.specs.Prelude.{◌≡◌, ◌↔◌, ℕ, List, false};
ghost use Rattle.ulfm_base.specs.declared.topic.Topic.{Topic};
ghost use Rattle.ulfm_base.specs.declared.decision.Decision.{Decision};
ghost use Rattle.ulfm_log.specs.declared.entry.Entry.{Entry};
ghost use Rattle.ulfm_log.specs.Proposal.{is_foreign, IsOwnAffair};

/// The test by which a rank refuses to adopt a decision, as `NotMember`, finds exactly those that aren't its own affair
/// (ULFM, `MPI_Comm_shrink` and `MPI_Comm_agree`).
pub fn own_affairs_alone()
    ensures { (me : ℕ) (group : List ℕ) (log : List Entry) (topic : Topic) (d : Decision) → is_foreign me group log topic d ≡ false ↔ IsOwnAffair me group log topic d }
{}
