//! Sends and communicators (MPI 4.0, chapters 3 and 7).
ghost use Rattle.std.specs.Prelude.{◌≡◌, ◌<◌, ◌≤◌, false, length, slice_get, IfOk, IfErr, IsTrue, OnOk, OnErr, Some, None};
ghost use Rattle.ulfm_base.specs.Context.{nth_dup};
ghost use Rattle.ulfm_rank.specs.Calls.{Sends};
ghost use Rattle.ulfm_rank.specs.Checks.{Passes, Fails, FailsOrStarves, group_at, send_checks, dup_checks};
ghost use Rattle.ulfm_log.specs.Communicators.{dups_of, group_of};
ghost use Rattle.ulfm_log.specs.State.{logged};

use super::{Rank, may_make};
use ulfm_base::{
    Body, CallError, Context, Envelope, Group, Item, Letter, NotedLetter, Tag, WorldRank,
};
use ulfm_log::{Comm, Entry};

impl Rank {
    /// The group of a communicator (MPI 4.0, 7.3.2, `MPI_Comm_group`). It never answers out of memory.
    ///
    /// # Errors
    ///
    /// `NoComm` where the communicator wasn't made.
    pub fn group(&self, comm: Comm) -> Result<Group, CallError>
        ensures group { IfOk result (λ group. group_of self.now.state.ranks self.now.state.log comm.context.number ≡ Some group) }
        ensures refused { IfErr result (λ e. (e ≡ CallError.NoComm) × (group_of self.now.state.ranks self.now.state.log comm.context.number ≡ None)) }
    {
        match self.communicators.group_of(comm.context) {
            Some(group) => Ok(group.copied()),
            None => Err(CallError::NoComm),
        }
    }

    /// Starts the send of a letter to the member at a position of a communicator (MPI 4.0, 3.7.2, `MPI_Isend`). It is
    /// buffered: the call is done when it returns. A body of more than 30 bytes takes memory of its own.
    ///
    /// # Errors
    ///
    /// `Stopped` where the rank has stopped, else `NoComm` where the communicator wasn't made, else `Revoked` where it
    /// is revoked, else `BadRank` where it has no such position, else `TooLong` where the body has more than 1,024
    /// bytes, else `ProcFailed` where the destination is known to have failed, else `OutOfMemory` where a growth was
    /// refused. Then nothing changed.
    pub fn isend(&mut self, comm: Comm, dest: u8, tag: Tag, body: &[u8]) -> Result<(), CallError>
        ensures accepted { OnOk result (Passes (send_checks self.old.state comm.context.number dest (length body.now))) }
        ensures sends { OnOk result (Sends self.old.state comm dest tag body.now self.new.state) }
        ensures refused { IfErr result (FailsOrStarves (send_checks self.old.state comm.context.number dest (length body.now))) }
        ensures unchanged { OnErr result (self.new.state ≡ self.old.state) }
        ensures room_lacked { length body.now ≤ 30 → IfErr result (λ e. e ≡ CallError.OutOfMemory → self.old.prepared ≡ false) }
        ensures stays_prepared { OnErr result (IsTrue self.old.prepared → IsTrue self.new.prepared) }
        ensures place { self.new.has_place ≡ self.old.has_place }
    {
        let to = self.destination(comm, dest, body.len())?;
        let envelope = Envelope {
            context: comm.context,
            source: self.me,
            tag,
        };
        let body = Body::from_bytes(*self.log.allocator(), body)?;
        self.log.reserve(self.requests.len() + 2)?;
        self.outboxes.reserve()?;
        let letter = Letter { envelope, body };
        let noted = NotedLetter::of(&letter);
        self.outboxes.put(to, Item::Letter(letter));
        self.log.push_reserved(Entry::Sent(to, noted));
        Ok(())
    }

    /// The destination of a send with a body of this many bytes.
    fn destination(&self, comm: Comm, dest: u8, size: usize) -> Result<WorldRank, CallError>
        ensures accepted { OnOk result (Passes (send_checks self.now.state comm.context.number dest size)) }
        ensures named { IfOk result (λ to. slice_get (group_at self.now.state comm.context.number) dest ≡ Some to.number) }
        ensures inside { IfOk result (λ to. to.number < self.now.state.ranks) }
        ensures refused { IfErr result (Fails (send_checks self.now.state comm.context.number dest size)) }
    {
        let group = self.running_group(comm)?;
        if self.faults.is_revoked(comm.context) {
            return Err(CallError::Revoked);
        }
        let to = group.world_of(dest).ok_or(CallError::BadRank)?;
        if size > 1024 {
            return Err(CallError::TooLong);
        }
        if self.faults.is_known(to) {
            return Err(CallError::ProcFailed);
        }
        Ok(to)
    }

    /// Duplicates a communicator: the new one has the same group (MPI 4.0, 7.4.2, `MPI_Comm_dup`). It is made at this
    /// rank alone, where MPI's call is collective.
    ///
    /// # Errors
    ///
    /// `Stopped` where the rank has stopped, else `NoComm` where the communicator wasn't made, else `Revoked` where it
    /// is revoked, else, of contexts 0 to 62, `AlreadyMade` where it was duplicated before, and `NoContext` past 30, else
    /// `NoContext` where the duplicate's context would be past the last one, else `OutOfMemory` where a growth was refused.
    /// Then nothing changed.
    pub fn dup(&mut self, comm: Comm) -> Result<Comm, CallError>
        ensures accepted { OnOk result (Passes (dup_checks false self.old.state comm.context.number)) }
        ensures made { IfOk result (λ made. made.context.number ≡ nth_dup (dups_of self.old.state.log comm.context.number) comm.context.number) }
        ensures state { OnOk result (self.new.state ≡ logged self.old.state (Entry.Duplicated comm.context (dups_of self.old.state.log comm.context.number))) }
        ensures refused { IfErr result (FailsOrStarves (dup_checks false self.old.state comm.context.number)) }
        ensures unchanged { OnErr result (self.new.state ≡ self.old.state) }
        ensures room_lacked { IfErr result (λ e. e ≡ CallError.OutOfMemory → self.old.prepared ≡ false) }
        ensures stays_prepared { OnErr result (IsTrue self.old.prepared → IsTrue self.new.prepared) }
        ensures place { self.new.has_place ≡ self.old.has_place }
    {
        self.dup_with(comm, false)
    }

    /// Duplicates a communicator, as `dup` does; where `again`, also one that was duplicated before, or whose duplicate has no
    /// number among 0 to 62.
    ///
    /// # Errors
    ///
    /// `Stopped` where the rank has stopped, else `NoComm` where the communicator wasn't made, else `Revoked` where it
    /// is revoked, else, of contexts 0 to 62 and without `again`, `AlreadyMade` where it was duplicated before, and
    /// `NoContext` past 30, else `NoContext` where the duplicate's context would be past the last one, else `OutOfMemory`
    /// where a growth was refused. Then nothing changed.
    pub fn dup_with(&mut self, comm: Comm, again: bool) -> Result<Comm, CallError>
        ensures accepted { OnOk result (Passes (dup_checks again self.old.state comm.context.number)) }
        ensures made { IfOk result (λ made. made.context.number ≡ nth_dup (dups_of self.old.state.log comm.context.number) comm.context.number) }
        ensures state { OnOk result (self.new.state ≡ logged self.old.state (Entry.Duplicated comm.context (dups_of self.old.state.log comm.context.number))) }
        ensures refused { IfErr result (FailsOrStarves (dup_checks again self.old.state comm.context.number)) }
        ensures unchanged { OnErr result (self.new.state ≡ self.old.state) }
        ensures room_lacked { IfErr result (λ e. e ≡ CallError.OutOfMemory → self.old.prepared ≡ false) }
        ensures stays_prepared { OnErr result (IsTrue self.old.prepared → IsTrue self.new.prepared) }
        ensures place { self.new.has_place ≡ self.old.has_place }
    {
        let (count, context, group) = self.duplicate_of(comm, again)?;
        self.log.reserve(self.requests.len() + 2)?;
        self.communicators.make_place()?;
        self.communicators
            .duplicate(comm.context, count, context, group);
        self.log
            .push_reserved(Entry::Duplicated(comm.context, count));
        Ok(Comm { context })
    }

    /// The number, the context and the group of the next duplicate of a communicator.
    fn duplicate_of(&self, comm: Comm, again: bool) -> Result<(u64, Context, Group), CallError>
        ensures accepted { OnOk result (Passes (dup_checks again self.now.state comm.context.number)) }
        ensures count { IfOk result (λ made. made.0 ≡ dups_of self.now.state.log comm.context.number) }
        ensures context { IfOk result (λ made. made.1.number ≡ nth_dup made.0 comm.context.number) }
        ensures group { IfOk result (λ made. group_of self.now.state.ranks self.now.state.log comm.context.number ≡ Some made.2) }
        ensures refused { IfErr result (Fails (dup_checks again self.now.state comm.context.number)) }
    {
        let group = self.running_group(comm)?;
        if self.faults.is_revoked(comm.context) {
            return Err(CallError::Revoked);
        }
        let count = self.communicators.dups(comm.context);
        let child = comm.context.nth_dup(count);
        let context = may_make(again, comm.context, count, child)?;
        Ok((count, context, group.copied()))
    }
}
