//! Communicators and their groups (MPI 4.0, chapter 7).
ghost use Rattle.std.specs.Prelude.{◌≡◌, Some, None, IfOk, IfErr, OnOk, OnErr};
ghost use Rattle.ulfm_base.specs.Context.{nth_dup};
ghost use Rattle.ulfm_c.specs.View.{with_rank};
ghost use Rattle.ulfm_log.specs.declared.entry.Entry.TheVariants.{Duplicated};
ghost use Rattle.ulfm_rank.specs.Checks.{Passes, FailsOrStarves, dup_checks};
ghost use Rattle.ulfm_log.specs.Communicators.{dups_of, group_of};
ghost use Rattle.ulfm_log.specs.State.{logged};

use super::Process;
use ulfm_base::{CallError, Group};
use ulfm_log::Comm;

impl Process {
    /// The group of a communicator (MPI 4.0, 7.3.2, `MPI_Comm_group`). It never answers out of memory.
    ///
    /// # Errors
    ///
    /// `NoComm` where the communicator wasn't made.
    pub fn group(&self, comm: Comm) -> Result<Group, CallError>
        ensures group { IfOk result (λ group. group_of self.now.view.rank.ranks self.now.view.rank.log comm.context.number ≡ Some group) }
        ensures refused { IfErr result (λ e. (e ≡ CallError.NoComm) × (group_of self.now.view.rank.ranks self.now.view.rank.log comm.context.number ≡ None)) }
    {
        self.rank.group(comm)
    }

    /// Duplicates a communicator: the new one has the same group (MPI 4.0, 7.4.2, `MPI_Comm_dup`). It is made at this
    /// rank alone, where MPI's call is collective. If `again`, so is one that was duplicated before, or whose duplicate has no
    /// number among 0 to 62.
    ///
    /// # Errors
    ///
    /// `Stopped` where the rank has stopped, else `NoComm` where the communicator wasn't made, else `Revoked` where it
    /// is revoked, else, of contexts 0 to 62 and without `again`, `AlreadyMade` where it was duplicated before, and
    /// `NoContext` past 30, else `NoContext` where the duplicate's context would be past the last one, else `OutOfMemory`
    /// where a growth was refused. Then nothing changed.
    pub fn dup_with(&mut self, comm: Comm, again: bool) -> Result<Comm, CallError>
        ensures accepted { OnOk result (Passes (dup_checks again self.old.view.rank comm.context.number)) }
        ensures made { IfOk result (λ made. made.context.number ≡ nth_dup (dups_of self.old.view.rank.log comm.context.number) comm.context.number) }
        ensures only { OnOk result (self.new.view ≡ with_rank self.old.view (logged self.old.view.rank (Duplicated comm.context (dups_of self.old.view.rank.log comm.context.number)))) }
        ensures refused { IfErr result (FailsOrStarves (dup_checks again self.old.view.rank comm.context.number)) }
        ensures unchanged { OnErr result (self.new.view ≡ self.old.view) }
    {
        self.rank.dup_with(comm, again)
    }
}
