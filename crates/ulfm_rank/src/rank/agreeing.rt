//! Agreements (ULFM, agree).
ghost use Rattle.std.specs.Prelude.{◌≡◌, false, IsTrue, Some, IfOk, IfErr, OnOk, OnErr};
ghost use Rattle.ulfm_rank.specs.Calls.{Enters};
ghost use Rattle.ulfm_log.specs.Proposal.{Proposes};
ghost use Rattle.ulfm_rank.specs.Checks.{Passes, Fails, FailsOrStarves, agree_checks, proposal_checks, adopt_checks};
ghost use Rattle.ulfm_log.specs.Proposal.{next_agreement, last_agreement};
ghost use Rattle.ulfm_log.specs.State.{logged};

use super::Rank;
use ulfm_base::{CallError, Decision};
use ulfm_log::{Comm, Entry};

impl Rank {
    /// Enters the next agreement on a communicator, revoked or not, with a flag and the failures that are known now, and
    /// leaves word of it for each other member that isn't known to have failed (ULFM, `MPI_Comm_agree`). A rank counts
    /// its agreements on each communicator from 0.
    ///
    /// # Errors
    ///
    /// `Stopped` where the rank has stopped, else `NoComm` where the communicator wasn't made, else `AlreadyMade` where
    /// it entered an agreement there whose decision it didn't adopt yet, else `OutOfMemory` where a growth was refused.
    /// Then nothing changed.
    pub fn enter_agree(&mut self, comm: Comm, flag: u32) -> Result<(), CallError>
        ensures accepted { OnOk result (Passes (agree_checks self.old.state comm.context)) }
        ensures enters { OnOk result (Enters self.old.state (next_agreement self.old.state.log comm.context) (Some flag) self.new.state) }
        ensures refused { IfErr result (FailsOrStarves (agree_checks self.old.state comm.context)) }
        ensures unchanged { OnErr result (self.new.state ≡ self.old.state) }
        ensures room_lacked { IfErr result (λ e. e ≡ CallError.OutOfMemory → self.old.prepared ≡ false) }
        ensures stays_prepared { OnErr result (IsTrue self.old.prepared → IsTrue self.new.prepared) }
        ensures place { self.new.has_place ≡ self.old.has_place }
    {
        let members = self.running_group(comm)?.members();
        if self.is_in_round(true, comm.context) {
            return Err(CallError::AlreadyMade);
        }
        self.enter(self.next_round(true, comm.context), Some(flag), members)?;
        Ok(())
    }

    /// What the rank proposes for the agreement on a communicator that it entered last, once each member is listed, by
    /// its own entry or by one that was heard of, or excluded, as one that a listed member or the rank itself knows to
    /// have failed (ULFM, `MPI_Comm_agree`). It never answers out of memory.
    ///
    /// # Errors
    ///
    /// `Stopped` where the rank has stopped, else `NoComm` where the communicator wasn't made, else `NotEntered` where
    /// no agreement on it was entered.
    pub fn verdict(&self, comm: Comm) -> Result<Option<Decision>, CallError>
        ensures accepted { OnOk result (Passes (proposal_checks self.now.state (last_agreement self.now.state.log comm.context))) }
        ensures verdict { IfOk result (Proposes self.now.state (last_agreement self.now.state.log comm.context)) }
        ensures refused { IfErr result (Fails (proposal_checks self.now.state (last_agreement self.now.state.log comm.context))) }
    {
        self.proposal_on(self.last_round(true, comm.context))
    }

    /// Adopts the decision of the agreement on a communicator that the rank entered last, and answers its value, the AND
    /// of the listed flags (ULFM, `MPI_Comm_agree`).
    ///
    /// # Errors
    ///
    /// `Stopped` where the rank has stopped, else `NoComm` where the communicator wasn't made, else `AlreadyMade` where
    /// the decision of this agreement was adopted before, else `NotEntered` where no agreement on it was entered, else
    /// `NotMember` where the decision isn't that of this agreement and group, or takes this rank for failed, or lists this
    /// rank, or another one whose entry was heard of, with another set or flag than that of this entry, else
    /// `OutOfMemory` where a growth was refused. Then nothing changed, and the decision that was handed over is dropped.
    pub fn adopt_verdict(&mut self, comm: Comm, decision: Decision) -> Result<u32, CallError>
        ensures accepted { OnOk result (Passes (adopt_checks self.old.state (last_agreement self.old.state.log comm.context) decision)) }
        ensures value { IfOk result (λ value. decision.value ≡ Some value) }
        ensures state { OnOk result (self.new.state ≡ logged self.old.state (Entry.Adopted decision)) }
        ensures refused { IfErr result (FailsOrStarves (adopt_checks self.old.state (last_agreement self.old.state.log comm.context) decision)) }
        ensures unchanged { OnErr result (self.new.state ≡ self.old.state) }
        ensures room_lacked { IfErr result (λ e. e ≡ CallError.OutOfMemory → self.old.prepared ≡ false) }
        ensures stays_prepared { OnErr result (IsTrue self.old.prepared → IsTrue self.new.prepared) }
        ensures place { self.new.has_place ≡ self.old.has_place }
    {
        let value = decision.value;
        self.adopt_on(self.last_round(true, comm.context), decision)?;
        match value {
            Some(value) => Ok(value),
            None => unreachable!(),
        }
    }
}
