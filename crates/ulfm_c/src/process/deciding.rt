//! The decisions of shrinks and agreements (ULFM, shrink and agree).
//!
//! No program needs `same`: it changes nothing. It is there so that a promise says that two processes of one board know no two decisions.
ghost use Rattle.std.specs.Prelude.{◌≡◌, ◌-◌, None, Some, IfOk, IfErr, IfSome};
ghost use Rattle.ulfm_base.specs.Context.{nth_shrink};
ghost use Rattle.ulfm_base.specs.Decision.{left_out};
ghost use Rattle.ulfm_base.specs.declared.decision.Decision.{Decision as Decided};
ghost use Rattle.ulfm_base.specs.declared.topic.Topic.{Topic};
ghost use Rattle.ulfm_board.specs.Known.{BothAgree, known_at};
ghost use Rattle.ulfm_c.specs.Adopting.{Adopts, IsPollRefusal, Waits};
ghost use Rattle.ulfm_log.specs.Proposal.{last_agreement, last_shrink, shrinks};

use super::Process;
use ulfm_base::{CallError, Group};
use ulfm_board::Decider;
use ulfm_log::Comm;

impl Process {
    /// Asks for the decision of the shrink that was entered last: where the rank has a proposal, it is handed in at the board, and
    /// what the board holds is adopted. Answers the communicator of the new group, or nothing yet (ULFM, `MPI_Comm_shrink`).
    ///
    /// # Errors
    ///
    /// `Stopped` where the rank has stopped, else `NoComm` where the communicator wasn't made, else `NotEntered` where
    /// its shrink wasn't entered, else `OutOfMemory` where the board found no memory: then nothing changed. Else, once
    /// there is a decision, `AlreadyMade` where one of this shrink was adopted before, else `NotMember` where it isn't this
    /// rank's to adopt, else `OutOfMemory` where a growth was refused: then the rank is as it was.
    pub fn poll_shrink(&mut self, comm: Comm) -> Result<Option<Comm>, CallError>
        ensures waits { IfOk result (λ found. found ≡ None → Waits self.old.view self.new.view (last_shrink self.old.view.rank.log comm.context)) }
        ensures adopts { IfOk result (λ found. IfSome found (λ made. (held : Decided) × Adopts self.old.view self.new.view (last_shrink self.old.view.rank.log comm.context) held × (made.context.number ≡ nth_shrink (shrinks self.old.view.rank.log comm.context.number - 1) comm.context.number))) }
        ensures refused { IfErr result (IsPollRefusal self.old.view self.new.view (last_shrink self.old.view.rank.log comm.context)) }
    {
        let Some(proposal) = self.rank.proposal(comm)? else {
            return Ok(None);
        };
        let held = match self.seat.decide(proposal) {
            Ok(held) => held,
            Err(_) => return Err(CallError::OutOfMemory),
        };
        match self.rank.adopt(comm, held) {
            Ok(made) => return Ok(Some(made)),
            Err(error) => return Err(error),
        }
    }

    /// Asks for the decision of the agreement that was entered last, as `poll_shrink` does of a shrink. Answers its value, and
    /// the members whose flags aren't in it; or nothing yet (ULFM, `MPI_Comm_agree`).
    ///
    /// # Errors
    ///
    /// `Stopped` where the rank has stopped, else `NoComm` where the communicator wasn't made, else `NotEntered` where
    /// no agreement on it was entered, else `OutOfMemory` where the board found no memory: then nothing changed. Else, once
    /// there is a decision, `AlreadyMade` where that of this agreement was adopted before, else `NotMember` where it isn't
    /// this rank's to adopt, else `OutOfMemory` where a growth was refused: then the rank is as it was.
    pub fn poll_agree(&mut self, comm: Comm) -> Result<Option<(u32, Group)>, CallError>
        ensures waits { IfOk result (λ found. found ≡ None → Waits self.old.view self.new.view (last_agreement self.old.view.rank.log comm.context)) }
        ensures adopts { IfOk result (λ found. IfSome found (λ told. (held : Decided) × Adopts self.old.view self.new.view (last_agreement self.old.view.rank.log comm.context) held × (held.value ≡ Some told.0) × (told.1 ≡ left_out held.old held.entries))) }
        ensures refused { IfErr result (IsPollRefusal self.old.view self.new.view (last_agreement self.old.view.rank.log comm.context)) }
    {
        let Some(proposal) = self.rank.verdict(comm)? else {
            return Ok(None);
        };
        let held = match self.seat.decide(proposal) {
            Ok(held) => held,
            Err(_) => return Err(CallError::OutOfMemory),
        };
        let missing = held.left_out();
        match self.rank.adopt_verdict(comm, held) {
            Ok(value) => return Ok(Some((value, missing))),
            Err(error) => return Err(error),
        }
    }

    /// Two processes of one board know no two decisions on one shrink or agreement. It changes nothing, and never answers out of memory.
    pub fn same(&mut self, other: &mut Process)
        requires board { other.old.view.board ≡ self.old.view.board }
        ensures unchanged { self.new.view ≡ self.old.view }
        ensures unchanged_other { other.new.view ≡ other.old.view }
        ensures agree { (topic : Topic) → BothAgree (known_at self.old.view.known topic) (known_at other.old.view.known topic) }
    {
        self.seat.same(&mut other.seat);
    }
}
