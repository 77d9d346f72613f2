//! Failures, revocations and the rank's own stop (ULFM).
ghost use Rattle.std.specs.Prelude.{◌≡◌, ◌<◌, [], true, false, IfOk, IfErr, IsTrue, OnOk, OnErr};
ghost use Rattle.ulfm_rank.specs.Calls.{acknowledging, revoking, stopping};
ghost use Rattle.ulfm_rank.specs.Checks.{Passes, Fails, FailsOrStarves, group_at, comm_checks};
ghost use Rattle.ulfm_log.specs.Facts.{is_gone, is_revoked, known_in, acknowledged_of, ack_answer};

use super::Rank;
use crate::requests::clear;
use ulfm_base::{CallError, Group, WorldRank};
use ulfm_log::{Comm, Entry, forward};

impl Rank {
    /// The rank stops (ULFM: it fails). Again it changes nothing. It can't run out of memory.
    pub fn stop(&mut self)
        ensures state { self.new.state ≡ stopping self.old.state }
        ensures prepared { self.new.prepared ≡ self.old.prepared }
        ensures place { self.new.has_place ≡ self.old.has_place }
    {
        if self.stopped {
            return;
        }
        self.log.push_reserved(Entry::Stopped);
        self.stopped = true;
    }

    /// The members of a communicator that are known to have failed, in the order in which their notices were taken
    /// (ULFM, `MPI_Comm_get_failed`). It never answers out of memory.
    ///
    /// # Errors
    ///
    /// `Stopped` where the rank has stopped, else `NoComm` where the communicator wasn't made.
    pub fn get_failed(&self, comm: Comm) -> Result<Group, CallError>
        ensures accepted { OnOk result (Passes (comm_checks self.now.state comm.context.number [])) }
        ensures failed { IfOk result (λ group. group ≡ known_in self.now.state.log (group_at self.now.state comm.context.number)) }
        ensures refused { IfErr result (Fails (comm_checks self.now.state comm.context.number [])) }
    {
        let group = self.running_group(comm)?;
        Ok(self.faults.known_in(group))
    }

    /// Whether another rank is known to have failed. A rank that stopped knows what it knew as it stopped.
    pub fn knows_failed(&self, peer: WorldRank) -> bool
        ensures { result ≡ is_gone self.now.state.log peer.number }
    {
        self.faults.is_known(peer)
    }

    /// Acknowledges the first `n` failures that are known in a communicator's group, or all of them where fewer are
    /// known, and never fewer than before (ULFM, `MPI_Comm_ack_failed`). Answers how many are acknowledged now.
    /// Where that is the number from before, nothing changes.
    ///
    /// # Errors
    ///
    /// `Stopped` where the rank has stopped, else `NoComm` where the communicator wasn't made, else `OutOfMemory` where
    /// the total would rise and a growth was refused. Then nothing changed.
    pub fn ack_failed(&mut self, comm: Comm, n: u8) -> Result<u8, CallError>
        ensures accepted { OnOk result (Passes (comm_checks self.old.state comm.context.number [])) }
        ensures total { IfOk result (λ total. total ≡ ack_answer self.old.state.log (group_at self.old.state comm.context.number) comm.context.number n) }
        ensures state { IfOk result (λ total. self.new.state ≡ acknowledging self.old.state comm.context total) }
        ensures refused { IfErr result (FailsOrStarves (comm_checks self.old.state comm.context.number [])) }
        ensures grows { IfErr result (λ e. e ≡ CallError.OutOfMemory → acknowledged_of self.old.state.log comm.context.number < ack_answer self.old.state.log (group_at self.old.state comm.context.number) comm.context.number n) }
        ensures idle { ack_answer self.old.state.log (group_at self.old.state comm.context.number) comm.context.number n ≡ acknowledged_of self.old.state.log comm.context.number → self.new ≡ self.old }
        ensures unchanged { OnErr result (self.new.state ≡ self.old.state) }
        ensures room_lacked { IfErr result (λ e. e ≡ CallError.OutOfMemory → self.old.prepared ≡ false) }
        ensures stays_prepared { OnErr result (IsTrue self.old.prepared → IsTrue self.new.prepared) }
        ensures place { self.new.has_place ≡ self.old.has_place }
    {
        let group = self.running_group(comm)?.copied();
        let before = self.faults.acknowledged(comm.context);
        if n.min(self.faults.known_in(&group).size()) <= before {
            return Ok(before);
        }
        self.log.reserve(self.requests.len() + 2)?;
        self.faults.make_place()?;
        let total = self.faults.ack(comm.context, &group, n);
        self.log
            .push_reserved(Entry::Acknowledged(comm.context, total));
        Ok(total)
    }

    /// Whether a communicator is known to be revoked (ULFM, `MPI_Comm_is_revoked`). It never answers out of memory.
    ///
    /// # Errors
    ///
    /// `Stopped` where the rank has stopped, else `NoComm` where the communicator wasn't made.
    pub fn is_revoked(&self, comm: Comm) -> Result<bool, CallError>
        ensures accepted { OnOk result (Passes (comm_checks self.now.state comm.context.number [])) }
        ensures revoked { IfOk result (λ revoked. revoked ≡ is_revoked self.now.state.log comm.context.number) }
        ensures refused { IfErr result (Fails (comm_checks self.now.state comm.context.number [])) }
    {
        let _ = self.running_group(comm)?;
        Ok(self.faults.is_revoked(comm.context))
    }

    /// Revokes a communicator and leaves the notice for each other rank that isn't known to have failed (ULFM,
    /// `MPI_Comm_revoke`). Where it is revoked already nothing changes.
    ///
    /// # Errors
    ///
    /// `Stopped` where the rank has stopped, else `NoComm` where the communicator wasn't made, else `OutOfMemory` where
    /// it wasn't revoked before and a growth was refused. Then nothing changed.
    pub fn revoke(&mut self, comm: Comm) -> Result<(), CallError>
        ensures accepted { OnOk result (Passes (comm_checks self.old.state comm.context.number [])) }
        ensures state { OnOk result (self.new.state ≡ revoking self.old.state comm.context) }
        ensures refused { IfErr result (FailsOrStarves (comm_checks self.old.state comm.context.number [])) }
        ensures grows { IfErr result (λ e. e ≡ CallError.OutOfMemory → is_revoked self.old.state.log comm.context.number ≡ false) }
        ensures idle { is_revoked self.old.state.log comm.context.number ≡ true → self.new ≡ self.old }
        ensures unchanged { OnErr result (self.new.state ≡ self.old.state) }
        ensures room_lacked { IfErr result (λ e. e ≡ CallError.OutOfMemory → self.old.prepared ≡ false) }
        ensures stays_prepared { OnErr result (IsTrue self.old.prepared → IsTrue self.new.prepared) }
        ensures place { OnErr result (self.new.has_place ≡ self.old.has_place) }
    {
        let _ = self.running_group(comm)?;
        if self.faults.is_revoked(comm.context) {
            return Ok(());
        }
        self.log.reserve(self.requests.len() + 2)?;
        self.outboxes.reserve()?;
        self.matcher.prepare()?;
        self.faults.make_place()?;
        let known = self.faults.known();
        forward(&mut self.outboxes, self.me.number, known, comm.context);
        let _ = self.faults.revoke(comm.context);
        clear(&mut self.matcher, &mut self.requests, comm.context);
        self.log.push_reserved(Entry::Revoked(comm.context));
        Ok(())
    }
}
