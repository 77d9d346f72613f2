//! Probes and their messages (MPI 4.0, 3.8.1 to 3.8.3).
ghost use Rattle.std.specs.Prelude.{◌≡◌, ℕ, false, IfOk, IfErr, OnOk, OnErr};
ghost use Rattle.ulfm_base.specs.declared.pattern.Pattern.{Pattern};
ghost use Rattle.ulfm_match.specs.Pairing.{Pairing, LawfulPairing};
ghost use Rattle.ulfm_c.specs.View.{with_rank};
ghost use Rattle.ulfm_log.specs.declared.entry.Entry.TheVariants.{Received};
ghost use Rattle.ulfm_rank.specs.Checks.{Passes, receive_checks};
ghost use Rattle.ulfm_log.specs.Facts.{is_stopped};
ghost use Rattle.ulfm_rank.specs.History.{history_of};
ghost use Rattle.ulfm_rank.specs.Messages.{HasMessage, IsLookAnswer, IsLookRefusal, IsMessage, IsMessageAnswer, IsMessageRefusal, IsProbeAnswer, IsProbeRefusal};
ghost use Rattle.ulfm_log.specs.State.{logged};

use super::Process;
use ulfm_base::{CallError, Tag};
use ulfm_log::{Comm, MessageId, Probed, Status, TestAnswer};

impl Process {
    /// Looks for a letter on a communicator, from one position or any, with one tag or any, and leaves it where it is (MPI
    /// 4.0, 3.8.1, `MPI_Iprobe`). Answers what is told of it, where there is one. It never answers out of memory.
    ///
    /// # Errors
    ///
    /// `Stopped` after the stop, else `NoComm` where the communicator wasn't made, else `Revoked` where it is revoked,
    /// else `BadRank` where it has no such position, else `ProcFailed` where it finds nothing and the position is that
    /// of a rank that is known to have failed.
    pub fn iprobe(
        &self,
        comm: Comm,
        source: Option<u8>,
        tag: Option<Tag>,
    ) -> Result<Option<Status>, CallError>
        ensures accepted { OnOk result (Passes (receive_checks self.now.view.rank comm.context.number source)) }
        ensures answer { IfOk result (IsLookAnswer self.now.view.rank comm source tag) }
        ensures refused { IfErr result (IsLookRefusal self.now.view.rank comm source tag) }
    {
        self.rank.iprobe(comm, source, tag)
    }

    /// Looks for a letter as `iprobe` does, and makes it a message, for `mrecv` alone (MPI 4.0, 3.8.2, `MPI_Improbe`). A
    /// probe that finds nothing changes nothing.
    ///
    /// # Errors
    ///
    /// Those of `iprobe`, and at last `OutOfMemory` where it would find a letter and a growth was refused. Then nothing
    /// changed.
    pub fn improbe(
        &mut self,
        comm: Comm,
        source: Option<u8>,
        tag: Option<Tag>,
    ) -> Result<Probed, CallError>
        ensures accepted { OnOk result (Passes (receive_checks self.old.view.rank comm.context.number source)) }
        ensures answer { IfOk result (IsProbeAnswer self.old.view.rank comm source tag self.new.view.rank) }
        ensures message { IfOk result (HasMessage self.new.view.rank.log) }
        ensures only_rank { self.new.view ≡ with_rank self.old.view self.new.view.rank }
        ensures refused { IfErr result (IsProbeRefusal self.old.view.rank comm source tag) }
        ensures unchanged { OnErr result (self.new.view ≡ self.old.view) }
    {
        self.rank.improbe(comm, source, tag)
    }

    /// Receives a message with room for so many bytes (MPI 4.0, 3.8.3, `MPI_Mrecv`). Answers `Done`, or `Over` with
    /// `Truncated` where its letter is longer, and releases it. It never answers out of memory, and works on a revoked
    /// communicator too.
    ///
    /// # Errors
    ///
    /// `Stopped` after the stop, else `NoRequest` where there is no such message or it was received before. Then
    /// nothing changed.
    pub fn mrecv(&mut self, id: MessageId, room: u16) -> Result<TestAnswer, CallError>
        ensures answer { IfOk result (IsMessageAnswer self.old.view.rank.ranks self.old.view.rank.log id.number room) }
        ensures message { OnOk result ((i : ℕ) × (pattern : Pattern) × IsMessage self.old.view.rank.log id.number i pattern) }
        ensures pairing { OnOk result ((pairing : Pairing) × LawfulPairing (history_of self.old.view.rank.log) pairing) }
        ensures running { OnOk result (is_stopped self.old.view.rank.log ≡ false) }
        ensures received { IfOk result (λ answer. self.new.view ≡ with_rank self.old.view (logged self.old.view.rank (Received id answer))) }
        ensures refused { IfErr result (IsMessageRefusal self.old.view.rank.log id.number) }
        ensures unchanged { OnErr result (self.new.view ≡ self.old.view) }
    {
        self.rank.mrecv(id, room)
    }
}
