//! Sends, receives and their tests (MPI 4.0, 3.7 and 3.8.4).
ghost use Rattle.std.specs.Prelude.{◌≡◌, ℕ, length, true, false, IfOk, IfErr, OnOk, OnErr};
ghost use Rattle.ulfm_base.specs.declared.pattern.Pattern.{Pattern};
ghost use Rattle.ulfm_match.specs.History.{count_before};
ghost use Rattle.ulfm_match.specs.Pairing.{Pairing, LawfulPairing};
ghost use Rattle.ulfm_c.specs.View.{with_rank};
ghost use Rattle.ulfm_log.specs.declared.entry.Entry.TheVariants.{Released};
ghost use Rattle.ulfm_rank.specs.Answer.{IsRequest, IsTestAnswer, is_release};
ghost use Rattle.ulfm_rank.specs.Calls.{Sends, Posts};
ghost use Rattle.ulfm_rank.specs.Cancel.{IsCancelAnswer, cancelling};
ghost use Rattle.ulfm_rank.specs.Checks.{Passes, FailsOrStarves, IsTestRefusal, send_checks, receive_checks};
ghost use Rattle.ulfm_log.specs.Facts.{is_stopped};
ghost use Rattle.ulfm_rank.specs.History.{history_of};
ghost use Rattle.ulfm_log.specs.State.{logged};

use super::Process;
use ulfm_base::{CallError, RequestId, Tag};
use ulfm_log::{Cancel, Comm, TestAnswer};

impl Process {
    /// Starts the send of a letter to the member at a position of a communicator (MPI 4.0, 3.7.2, `MPI_Isend`). It is
    /// buffered: the call is done when it returns.
    ///
    /// # Errors
    ///
    /// `Stopped` where the rank has stopped, else `NoComm` where the communicator wasn't made, else `Revoked` where it
    /// is revoked, else `BadRank` where it has no such position, else `TooLong` where the body has more than 1,024
    /// bytes, else `ProcFailed` where the destination is known to have failed, else `OutOfMemory` where a growth was
    /// refused. Then nothing changed.
    pub fn isend(&mut self, comm: Comm, dest: u8, tag: Tag, body: &[u8]) -> Result<(), CallError>
        ensures accepted { OnOk result (Passes (send_checks self.old.view.rank comm.context.number dest (length body.now))) }
        ensures sends { OnOk result (Sends self.old.view.rank comm dest tag body.now self.new.view.rank) }
        ensures only_rank { self.new.view ≡ with_rank self.old.view self.new.view.rank }
        ensures refused { IfErr result (FailsOrStarves (send_checks self.old.view.rank comm.context.number dest (length body.now))) }
        ensures unchanged { OnErr result (self.new.view ≡ self.old.view) }
    {
        self.rank.isend(comm, dest, tag, body)
    }

    /// Posts a receive of a letter on a communicator, from one position or any, with one tag or any, of at most `room`
    /// bytes (MPI 4.0, 3.7.2, `MPI_Irecv`). Answers the number of its request.
    ///
    /// # Errors
    ///
    /// `Stopped` after the stop, else `NoComm` where the communicator wasn't made, else `Revoked` where it is revoked,
    /// else `BadRank` where it has no such position, else `OutOfMemory` where a growth was refused. Then nothing changed.
    pub fn irecv(
        &mut self,
        comm: Comm,
        source: Option<u8>,
        tag: Option<Tag>,
        room: u16,
    ) -> Result<RequestId, CallError>
        ensures accepted { OnOk result (Passes (receive_checks self.old.view.rank comm.context.number source)) }
        ensures posts { OnOk result (Posts self.old.view.rank comm source tag room self.new.view.rank) }
        ensures number { IfOk result (λ id. id.number ≡ count_before (history_of self.old.view.rank.log) (length (history_of self.old.view.rank.log))) }
        ensures request { IfOk result (λ id. (i : ℕ) × (pattern : Pattern) × IsRequest self.new.view.rank.log id.number i pattern) }
        ensures only_rank { self.new.view ≡ with_rank self.old.view self.new.view.rank }
        ensures refused { IfErr result (FailsOrStarves (receive_checks self.old.view.rank comm.context.number source)) }
        ensures unchanged { OnErr result (self.new.view ≡ self.old.view) }
    {
        self.rank.irecv(comm, source, tag, room)
    }

    /// Tests a request (MPI 4.0, 3.7.3, `MPI_Test`). An answer `Done` or `Over` releases it. It never answers out of
    /// memory.
    ///
    /// # Errors
    ///
    /// `Stopped` after the stop, else `NoRequest` where there is no such request or it was released. Then nothing
    /// changed.
    pub fn test(&mut self, id: RequestId) -> Result<TestAnswer, CallError>
        ensures answer { IfOk result (IsTestAnswer self.old.view.rank.ranks self.old.view.rank.log id.number) }
        ensures request { OnOk result ((i : ℕ) × (pattern : Pattern) × IsRequest self.old.view.rank.log id.number i pattern) }
        ensures pairing { OnOk result ((pairing : Pairing) × LawfulPairing (history_of self.old.view.rank.log) pairing) }
        ensures running { OnOk result (is_stopped self.old.view.rank.log ≡ false) }
        ensures released { IfOk result (λ answer. is_release answer ≡ true → self.new.view ≡ with_rank self.old.view (logged self.old.view.rank (Released id answer))) }
        ensures stays { IfOk result (λ answer. is_release answer ≡ false → self.new.view ≡ self.old.view) }
        ensures refused { IfErr result (IsTestRefusal self.old.view.rank.log id.number) }
        ensures unchanged { OnErr result (self.new.view ≡ self.old.view) }
    {
        self.rank.test(id)
    }

    /// Cancels a receive (MPI 4.0, 3.8.4, `MPI_Cancel`). One that waits is withdrawn: it gets no letter from now on. One
    /// that has a letter or is over answers as a test of it. Both release the request. It never answers out of memory.
    ///
    /// # Errors
    ///
    /// `Stopped` after the stop, else `NoRequest` where there is no such request or it was released. Then nothing
    /// changed.
    pub fn cancel(&mut self, id: RequestId) -> Result<Cancel, CallError>
        ensures answer { IfOk result (IsCancelAnswer self.old.view.rank.ranks self.old.view.rank.log id.number) }
        ensures request { OnOk result ((i : ℕ) × (pattern : Pattern) × IsRequest self.old.view.rank.log id.number i pattern) }
        ensures pairing { OnOk result ((pairing : Pairing) × LawfulPairing (history_of self.old.view.rank.log) pairing) }
        ensures running { OnOk result (is_stopped self.old.view.rank.log ≡ false) }
        ensures released { IfOk result (λ answer. self.new.view ≡ with_rank self.old.view (logged self.old.view.rank (cancelling id answer))) }
        ensures refused { IfErr result (IsTestRefusal self.old.view.rank.log id.number) }
        ensures unchanged { OnErr result (self.new.view ≡ self.old.view) }
    {
        self.rank.cancel(id)
    }
}
