//! Shrinks (ULFM, shrink).
ghost use Rattle.std.specs.Prelude.{◌≡◌, ◌-◌, ℕ, false, IsTrue, None, IfOk, IfErr, OnOk, OnErr};
ghost use Rattle.ulfm_base.specs.Context.{nth_shrink};
ghost use Rattle.ulfm_base.specs.Group.{is_member};
ghost use Rattle.ulfm_base.specs.RankSet.{has};
ghost use Rattle.ulfm_rank.specs.Calls.{Enters};
ghost use Rattle.ulfm_log.specs.Proposal.{Proposes, last_shrink, next_shrink, shrinks};
ghost use Rattle.ulfm_rank.specs.Checks.{Passes, Fails, FailsOrStarves, group_at, shrink_checks, proposal_checks, adopt_checks};
ghost use Rattle.ulfm_log.specs.State.{logged};

use super::{Rank, may_make};
use ulfm_base::{CallError, Decision, RankSet};
use ulfm_log::{Comm, Entry};

impl Rank {
    /// Enters the shrink of a communicator, revoked or not, with the failures that are known now, and leaves word of it
    /// for each other member that isn't known to have failed (ULFM, `MPI_Comm_shrink`). A rank counts its shrinks of each
    /// communicator from 0.
    ///
    /// # Errors
    ///
    /// `Stopped` where the rank has stopped, else `NoComm` where the communicator wasn't made, else `AlreadyMade` where
    /// it entered a shrink there whose decision it didn't adopt yet, else, of contexts 0 to 62, `AlreadyMade` where a
    /// shrink was entered before, and `NoContext` past 30, else `NoContext` where the new communicator's context would be
    /// past the last one, else `OutOfMemory` where a growth was refused. Then nothing changed.
    pub fn enter_shrink(&mut self, comm: Comm) -> Result<(), CallError>
        ensures accepted { OnOk result (Passes (shrink_checks false self.old.state comm.context)) }
        ensures enters { OnOk result (Enters self.old.state (next_shrink self.old.state.log comm.context) None self.new.state) }
        ensures refused { IfErr result (FailsOrStarves (shrink_checks false self.old.state comm.context)) }
        ensures unchanged { OnErr result (self.new.state ≡ self.old.state) }
        ensures room_lacked { IfErr result (λ e. e ≡ CallError.OutOfMemory → self.old.prepared ≡ false) }
        ensures stays_prepared { OnErr result (IsTrue self.old.prepared → IsTrue self.new.prepared) }
        ensures place { self.new.has_place ≡ self.old.has_place }
    {
        self.enter_shrink_with(comm, false)
    }

    /// Enters the next shrink of a communicator, as `enter_shrink` does; where `again`, also one that was shrunk before, or whose
    /// shrink has no number among 0 to 62.
    ///
    /// # Errors
    ///
    /// `Stopped` where the rank has stopped, else `NoComm` where the communicator wasn't made, else `AlreadyMade` where
    /// it entered a shrink there whose decision it didn't adopt yet, else, of contexts 0 to 62 and without `again`,
    /// `AlreadyMade` where a shrink was entered before, and `NoContext` past 30, else `NoContext` where the new communicator's
    /// context would be past the last one, else `OutOfMemory` where a growth was refused. Then nothing changed.
    pub fn enter_shrink_with(&mut self, comm: Comm, again: bool) -> Result<(), CallError>
        ensures accepted { OnOk result (Passes (shrink_checks again self.old.state comm.context)) }
        ensures enters { OnOk result (Enters self.old.state (next_shrink self.old.state.log comm.context) None self.new.state) }
        ensures refused { IfErr result (FailsOrStarves (shrink_checks again self.old.state comm.context)) }
        ensures unchanged { OnErr result (self.new.state ≡ self.old.state) }
        ensures room_lacked { IfErr result (λ e. e ≡ CallError.OutOfMemory → self.old.prepared ≡ false) }
        ensures stays_prepared { OnErr result (IsTrue self.old.prepared → IsTrue self.new.prepared) }
        ensures place { self.new.has_place ≡ self.old.has_place }
    {
        let members = self.shrinkable(comm, again)?;
        self.enter(self.next_round(false, comm.context), None, members)?;
        Ok(())
    }

    /// The members of a communicator whose next shrink may be entered.
    fn shrinkable(&self, comm: Comm, again: bool) -> Result<RankSet, CallError>
        ensures accepted { OnOk result (Passes (shrink_checks again self.now.state comm.context)) }
        ensures members { IfOk result (λ members. (r : ℕ) → has members r ≡ is_member (group_at self.now.state comm.context.number) r) }
        ensures refused { IfErr result (Fails (shrink_checks again self.now.state comm.context)) }
    {
        let members = self.running_group(comm)?.members();
        if self.is_in_round(false, comm.context) {
            return Err(CallError::AlreadyMade);
        }
        let count = self.entered(false, comm.context);
        let child = comm.context.nth_shrink(count);
        may_make(again, comm.context, count, child)?;
        Ok(members)
    }

    /// What the rank proposes for the shrink of a communicator that it entered last, once each member is listed, by its
    /// own entry or by one that was heard of, or excluded, as one that a listed member or the rank itself knows to have
    /// failed (ULFM, `MPI_Comm_shrink`). It never answers out of memory.
    ///
    /// # Errors
    ///
    /// `Stopped` where the rank has stopped, else `NoComm` where the communicator wasn't made, else `NotEntered` where
    /// no shrink of it was entered.
    pub fn proposal(&self, comm: Comm) -> Result<Option<Decision>, CallError>
        ensures accepted { OnOk result (Passes (proposal_checks self.now.state (last_shrink self.now.state.log comm.context))) }
        ensures proposal { IfOk result (Proposes self.now.state (last_shrink self.now.state.log comm.context)) }
        ensures refused { IfErr result (Fails (proposal_checks self.now.state (last_shrink self.now.state.log comm.context))) }
    {
        self.proposal_on(self.last_round(false, comm.context))
    }

    /// Adopts the decision of the shrink of a communicator that the rank entered last: makes the communicator of its new
    /// group (ULFM, `MPI_Comm_shrink`).
    ///
    /// # Errors
    ///
    /// `Stopped` where the rank has stopped, else `NoComm` where the communicator wasn't made, else `AlreadyMade` where
    /// the decision of this shrink was adopted before, else `NotEntered` where no shrink of it was entered, else
    /// `NotMember` where the decision isn't that of this shrink and group, or its new group lacks this rank, or it
    /// lists this rank, or another one whose entry was heard of, with another set than that of this entry, else
    /// `OutOfMemory` where a growth was refused. Then nothing changed, and the decision that was handed over is dropped.
    pub fn adopt(&mut self, comm: Comm, decision: Decision) -> Result<Comm, CallError>
        ensures accepted { OnOk result (Passes (adopt_checks self.old.state (last_shrink self.old.state.log comm.context) decision)) }
        ensures made { IfOk result (λ made. made.context.number ≡ nth_shrink (shrinks self.old.state.log comm.context.number - 1) comm.context.number) }
        ensures state { OnOk result (self.new.state ≡ logged self.old.state (Entry.Adopted decision)) }
        ensures refused { IfErr result (FailsOrStarves (adopt_checks self.old.state (last_shrink self.old.state.log comm.context) decision)) }
        ensures unchanged { OnErr result (self.new.state ≡ self.old.state) }
        ensures room_lacked { IfErr result (λ e. e ≡ CallError.OutOfMemory → self.old.prepared ≡ false) }
        ensures stays_prepared { OnErr result (IsTrue self.old.prepared → IsTrue self.new.prepared) }
        ensures place { self.new.has_place ≡ self.old.has_place }
    {
        let topic = self.last_round(false, comm.context);
        self.adopt_on(topic, decision)?;
        match comm.context.nth_shrink(topic.purpose.round()) {
            Some(context) => Ok(Comm { context }),
            None => unreachable!(),
        }
    }
}
