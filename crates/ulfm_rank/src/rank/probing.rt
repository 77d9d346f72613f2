//! Matched probes and their messages (MPI 4.0, 3.8.2 and 3.8.3).
ghost use Rattle.std.specs.Prelude.{◌≡◌, ℕ, false, IfOk, IfErr, IsTrue, OnOk, OnErr};
ghost use Rattle.ulfm_base.specs.declared.pattern.Pattern.{Pattern};
ghost use Rattle.ulfm_match.specs.Pairing.{Pairing, LawfulPairing};
ghost use Rattle.ulfm_rank.specs.Checks.{Passes, receive_checks};
ghost use Rattle.ulfm_log.specs.Facts.{is_stopped};
ghost use Rattle.ulfm_rank.specs.History.{history_of};
ghost use Rattle.ulfm_rank.specs.Messages.{HasMessage, IsMessage, IsMessageAnswer, IsMessageRefusal, IsProbeAnswer, IsProbeRefusal};
ghost use Rattle.ulfm_log.specs.State.{is_ready, logged};

use super::Rank;
use crate::answer::{answer_in, status_in};
use crate::failures::names_known;
use crate::request::{Fate, Request, with_room};
use crate::requests::{find, put};
use ulfm_base::{CallError, Tag};
use ulfm_log::{Comm, Entry, MessageId, NotedAnswer, Probed, TestAnswer};

impl Rank {
    /// Looks for a letter on a communicator, from one position or any, with one tag or any (MPI 4.0, 3.8.2,
    /// `MPI_Improbe`). It finds the one that a receive would get where it is posted now. Then no other receive or probe
    /// gets this letter: it is kept as a message, for `mrecv` alone, and stays where the communicator is revoked. A
    /// probe that finds nothing changes nothing.
    ///
    /// # Errors
    ///
    /// `Stopped` after the stop, else `NoComm` where the communicator wasn't made, else `Revoked` where it is revoked,
    /// else `BadRank` where it has no such position, else `ProcFailed` where it finds nothing and the position is that
    /// of a rank that is known to have failed, else `OutOfMemory` where it would find a letter and a growth was refused.
    /// Then nothing changed.
    pub fn improbe(
        &mut self,
        comm: Comm,
        source: Option<u8>,
        tag: Option<Tag>,
    ) -> Result<Probed, CallError>
        ensures accepted { OnOk result (Passes (receive_checks self.old.state comm.context.number source)) }
        ensures answer { IfOk result (IsProbeAnswer self.old.state comm source tag self.new.state) }
        ensures message { IfOk result (HasMessage self.new.state.log) }
        ensures idle { IfOk result (λ probed. probed ≡ Probed.Nothing → self.new ≡ self.old) }
        ensures refused { IfErr result (IsProbeRefusal self.old.state comm source tag) }
        ensures unchanged { OnErr result (self.new.state ≡ self.old.state) }
        ensures room_lacked { IfErr result (λ e. e ≡ CallError.OutOfMemory → is_ready self.old ≡ false) }
        ensures stays_prepared { OnErr result (IsTrue self.old.prepared → IsTrue self.new.prepared) }
        ensures keeps_place { OnErr result (IsTrue self.old.has_place → IsTrue self.new.has_place) }
    {
        let pattern = self.pattern_of(comm, source, tag, 1024)?;
        if !self.matcher.keeps_match(&pattern) {
            if names_known(&self.faults, pattern.source) {
                return Err(CallError::ProcFailed);
            }
            return Ok(Probed::Nothing);
        }
        let places = self.requests.len() + 3;
        self.log.reserve(places)?;
        self.requests.reserve(1)?;
        let id = MessageId {
            number: self.matcher.count(),
        };
        let letter = match self.matcher.probe(&pattern) {
            Some(letter) => letter,
            None => unreachable!(),
        };
        let status = status_in(&self.communicators, pattern.context, &letter);
        let fate = Fate::Found(letter);
        put(&mut self.requests, id.number, Request { pattern, fate });
        self.log.push_reserved(Entry::Probed(id, pattern));
        Ok(Probed::Found(id, status))
    }

    /// Receives a message with room for so many bytes (MPI 4.0, 3.8.3, `MPI_Mrecv`). Answers `Done`, or `Over` with
    /// `Truncated` where its letter is longer, and releases it. It never answers out of memory, and works on a revoked
    /// communicator too.
    ///
    /// # Errors
    ///
    /// `Stopped` after the stop, else `NoRequest` where there is no such message or it was received before. Then
    /// nothing changed.
    pub fn mrecv(&mut self, id: MessageId, room: u16) -> Result<TestAnswer, CallError>
        ensures answer { IfOk result (IsMessageAnswer self.old.state.ranks self.old.state.log id.number room) }
        ensures message { OnOk result ((i : ℕ) × (pattern : Pattern) × IsMessage self.old.state.log id.number i pattern) }
        ensures pairing { OnOk result ((pairing : Pairing) × LawfulPairing (history_of self.old.state.log) pairing) }
        ensures running { OnOk result (is_stopped self.old.state.log ≡ false) }
        ensures received { IfOk result (λ answer. self.new.state ≡ logged self.old.state (Entry.Received id answer)) }
        ensures refused { IfErr result (IsMessageRefusal self.old.state.log id.number) }
        ensures unchanged { OnErr result (self.new ≡ self.old) }
        ensures prepared { self.new.prepared ≡ self.old.prepared }
        ensures keeps_place { IsTrue self.old.has_place → IsTrue self.new.has_place }
    {
        if self.stopped {
            return Err(CallError::Stopped);
        }
        let found = match find(&self.requests, id.number, true) {
            Some(message) => message,
            None => return Err(CallError::NoRequest),
        };
        let pattern = with_room(&found.pattern, room);
        let Request { fate, .. } = self.requests.shift_remove(&id.number).unwrap();
        let request = Request { pattern, fate };
        let answer = answer_in(&self.communicators, &self.faults, request);
        let noted = NotedAnswer::of(&answer);
        self.log.push_reserved(Entry::Received(id, noted));
        Ok(answer)
    }
}
