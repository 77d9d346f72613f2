//! Failures, revocations, the rank's own stop, and entries into shrinks and agreements (ULFM).
ghost use Rattle.std.specs.Prelude.{◌≡◌, [], Some, None, IfOk, IfErr, OnOk, OnErr};
ghost use Rattle.ulfm_c.specs.View.{with_rank};
ghost use Rattle.ulfm_rank.specs.Calls.{Enters, acknowledging, revoking, stopping};
ghost use Rattle.ulfm_rank.specs.Checks.{Passes, Fails, FailsOrStarves, agree_checks, comm_checks, group_at, shrink_checks};
ghost use Rattle.ulfm_log.specs.Facts.{ack_answer, is_revoked, known_in};
ghost use Rattle.ulfm_log.specs.Proposal.{next_agreement, next_shrink};

use super::Process;
use ulfm_base::{CallError, Group};
use ulfm_log::Comm;

impl Process {
    /// The rank stops (ULFM: it fails). Again it changes nothing. It can't run out of memory.
    pub fn stop(&mut self)
        ensures { self.new.view ≡ with_rank self.old.view (stopping self.old.view.rank) }
    {
        self.rank.stop();
    }

    /// The members of a communicator that are known to have failed, in the order in which their notices were taken
    /// (ULFM, `MPI_Comm_get_failed`). It never answers out of memory.
    ///
    /// # Errors
    ///
    /// `Stopped` where the rank has stopped, else `NoComm` where the communicator wasn't made.
    pub fn get_failed(&self, comm: Comm) -> Result<Group, CallError>
        ensures accepted { OnOk result (Passes (comm_checks self.now.view.rank comm.context.number [])) }
        ensures failed { IfOk result (λ group. group ≡ known_in self.now.view.rank.log (group_at self.now.view.rank comm.context.number)) }
        ensures refused { IfErr result (Fails (comm_checks self.now.view.rank comm.context.number [])) }
    {
        self.rank.get_failed(comm)
    }

    /// Acknowledges the first `n` failures that are known in a communicator's group, or all of them where fewer are
    /// known, and never fewer than before (ULFM, `MPI_Comm_ack_failed`). Answers how many are acknowledged now.
    ///
    /// # Errors
    ///
    /// `Stopped` where the rank has stopped, else `NoComm` where the communicator wasn't made, else `OutOfMemory` where
    /// the total would rise and a growth was refused. Then nothing changed.
    pub fn ack_failed(&mut self, comm: Comm, n: u8) -> Result<u8, CallError>
        ensures accepted { OnOk result (Passes (comm_checks self.old.view.rank comm.context.number [])) }
        ensures total { IfOk result (λ total. total ≡ ack_answer self.old.view.rank.log (group_at self.old.view.rank comm.context.number) comm.context.number n) }
        ensures only { IfOk result (λ total. self.new.view ≡ with_rank self.old.view (acknowledging self.old.view.rank comm.context total)) }
        ensures refused { IfErr result (FailsOrStarves (comm_checks self.old.view.rank comm.context.number [])) }
        ensures unchanged { OnErr result (self.new.view ≡ self.old.view) }
    {
        self.rank.ack_failed(comm, n)
    }

    /// Whether a communicator is known to be revoked (ULFM, `MPI_Comm_is_revoked`). It never answers out of memory.
    ///
    /// # Errors
    ///
    /// `Stopped` where the rank has stopped, else `NoComm` where the communicator wasn't made.
    pub fn is_revoked(&self, comm: Comm) -> Result<bool, CallError>
        ensures accepted { OnOk result (Passes (comm_checks self.now.view.rank comm.context.number [])) }
        ensures revoked { IfOk result (λ revoked. revoked ≡ is_revoked self.now.view.rank.log comm.context.number) }
        ensures refused { IfErr result (Fails (comm_checks self.now.view.rank comm.context.number [])) }
    {
        self.rank.is_revoked(comm)
    }

    /// Revokes a communicator and leaves the notice for each other rank that isn't known to have failed (ULFM,
    /// `MPI_Comm_revoke`). Where it is revoked already nothing changes.
    ///
    /// # Errors
    ///
    /// `Stopped` where the rank has stopped, else `NoComm` where the communicator wasn't made, else `OutOfMemory` where
    /// it wasn't revoked before and a growth was refused. Then nothing changed.
    pub fn revoke(&mut self, comm: Comm) -> Result<(), CallError>
        ensures accepted { OnOk result (Passes (comm_checks self.old.view.rank comm.context.number [])) }
        ensures only { OnOk result (self.new.view ≡ with_rank self.old.view (revoking self.old.view.rank comm.context)) }
        ensures refused { IfErr result (FailsOrStarves (comm_checks self.old.view.rank comm.context.number [])) }
        ensures unchanged { OnErr result (self.new.view ≡ self.old.view) }
    {
        self.rank.revoke(comm)
    }

    /// Enters the next shrink of a communicator, revoked or not (ULFM, `MPI_Comm_shrink`). If `again`, also of one that was shrunk
    /// before, or whose shrink has no number among 0 to 62.
    ///
    /// # Errors
    ///
    /// `Stopped` where the rank has stopped, else `NoComm` where the communicator wasn't made, else `AlreadyMade` where
    /// it entered a shrink there whose decision it didn't adopt yet, else, of contexts 0 to 62 and without `again`,
    /// `AlreadyMade` where a shrink was entered before, and `NoContext` past 30, else `NoContext` where the new communicator's
    /// context would be past the last one, else `OutOfMemory` where a growth was refused. Then nothing changed.
    pub fn enter_shrink_with(&mut self, comm: Comm, again: bool) -> Result<(), CallError>
        ensures accepted { OnOk result (Passes (shrink_checks again self.old.view.rank comm.context)) }
        ensures enters { OnOk result (Enters self.old.view.rank (next_shrink self.old.view.rank.log comm.context) None self.new.view.rank) }
        ensures only_rank { self.new.view ≡ with_rank self.old.view self.new.view.rank }
        ensures refused { IfErr result (FailsOrStarves (shrink_checks again self.old.view.rank comm.context)) }
        ensures unchanged { OnErr result (self.new.view ≡ self.old.view) }
    {
        self.rank.enter_shrink_with(comm, again)
    }

    /// Enters the next agreement on a communicator, revoked or not, with a flag (ULFM, `MPI_Comm_agree`).
    ///
    /// # Errors
    ///
    /// `Stopped` where the rank has stopped, else `NoComm` where the communicator wasn't made, else `AlreadyMade` where
    /// it entered an agreement there whose decision it didn't adopt yet, else `OutOfMemory` where a growth was refused.
    /// Then nothing changed.
    pub fn enter_agree(&mut self, comm: Comm, flag: u32) -> Result<(), CallError>
        ensures accepted { OnOk result (Passes (agree_checks self.old.view.rank comm.context)) }
        ensures enters { OnOk result (Enters self.old.view.rank (next_agreement self.old.view.rank.log comm.context) (Some flag) self.new.view.rank) }
        ensures only_rank { self.new.view ≡ with_rank self.old.view self.new.view.rank }
        ensures refused { IfErr result (FailsOrStarves (agree_checks self.old.view.rank comm.context)) }
        ensures unchanged { OnErr result (self.new.view ≡ self.old.view) }
    {
        self.rank.enter_agree(comm, flag)
    }
}
