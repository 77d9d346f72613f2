//! Receives and their tests (MPI 4.0, 3.7).
ghost use Rattle.std.specs.Prelude.{◌≡◌, ℕ, length, nat_eq, true, false, IfOk, IfErr, IsTrue, OnOk, OnErr};
ghost use Rattle.indexmap.specs.IndexMap.{get};
ghost use Rattle.ulfm_base.specs.declared.pattern.Pattern.{Pattern};
ghost use Rattle.ulfm_match.specs.History.{count_before};
ghost use Rattle.ulfm_match.specs.Pairing.{Pairing, LawfulPairing};
ghost use Rattle.ulfm_rank.specs.Answer.{IsRequest, IsTestAnswer, is_release};
ghost use Rattle.ulfm_rank.specs.Calls.{IsReceive, Posts};
ghost use Rattle.ulfm_rank.specs.Checks.{Passes, Fails, FailsOrStarves, IsTestRefusal, receive_checks};
ghost use Rattle.ulfm_log.specs.Facts.{is_stopped};
ghost use Rattle.ulfm_rank.specs.History.{history_of};
ghost use Rattle.ulfm_log.specs.State.{is_ready, logged};
ghost use Rattle.ulfm_rank.specs.Standing.{IsInStep, IsOfGroup};

use super::Rank;
use crate::answer::{answer_in, answer_to_waiting};
use crate::failures::names_known;
use crate::request::{Request, is_waiting};
use crate::requests::{admit, find, put};
use crate::sources::source_of;
use indexmap::IndexMap;
use ulfm_base::{CallError, Pattern, RequestId, Tag};
use ulfm_log::{Comm, Entry, NotedAnswer, TestAnswer};
use ulfm_match::Matcher;

impl Rank {
    /// The matcher of its receives and letters, and the receives and messages that aren't released, by number. Some lawful
    /// pairing of what the log tells leaves both.
    pub fn receives(&self) -> (&Matcher, &IndexMap<u64, Request>)
        ensures { IsInStep self.now.state.ranks self.now.state.log result.0.now (get nat_eq result.1.now) }
    {
        (&self.matcher, &self.requests)
    }

    /// What a receive with these arguments asks for, where it may be posted.
    pub(super) fn pattern_of(
        &self,
        comm: Comm,
        source: Option<u8>,
        tag: Option<Tag>,
        room: u16,
    ) -> Result<Pattern, CallError>
        ensures accepted { OnOk result (Passes (receive_checks self.now.state comm.context.number source)) }
        ensures asks_for { IfOk result (IsReceive self.now.state comm source tag room) }
        ensures of_group { IfOk result (IsOfGroup self.now.state.ranks self.now.state.log) }
        ensures refused { IfErr result (Fails (receive_checks self.now.state comm.context.number source)) }
    {
        let group = self.running_group(comm)?;
        if self.faults.is_revoked(comm.context) {
            return Err(CallError::Revoked);
        }
        let source = source_of(group, source)?;
        Ok(Pattern {
            context: comm.context,
            source,
            tag,
            room,
        })
    }

    /// Posts a receive of a letter on a communicator, from one position or any, with one tag or any, of at most `room`
    /// bytes (MPI 4.0, 3.7.2). Answers the number of its request. Where the position is that of a rank that is known to
    /// have failed and no kept letter is for it, the request is over at once.
    ///
    /// # Errors
    ///
    /// `Stopped` after the stop, else `NoComm` where the communicator wasn't made, else `Revoked` where it is revoked,
    /// else `BadRank` where it has no such position, else `OutOfMemory` where a growth was refused. Then nothing changed.
    pub fn irecv(
        &mut self,
        comm: Comm,
        source: Option<u8>,
        tag: Option<Tag>,
        room: u16,
    ) -> Result<RequestId, CallError>
        ensures accepted { OnOk result (Passes (receive_checks self.old.state comm.context.number source)) }
        ensures posts { OnOk result (Posts self.old.state comm source tag room self.new.state) }
        ensures number { IfOk result (λ id. id.number ≡ count_before (history_of self.old.state.log) (length (history_of self.old.state.log))) }
        ensures request { IfOk result (λ id. (i : ℕ) × (pattern : Pattern) × IsRequest self.new.state.log id.number i pattern) }
        ensures refused { IfErr result (FailsOrStarves (receive_checks self.old.state comm.context.number source)) }
        ensures unchanged { OnErr result (self.new.state ≡ self.old.state) }
        ensures room_lacked { IfErr result (λ e. e ≡ CallError.OutOfMemory → is_ready self.old ≡ false) }
        ensures stays_prepared { OnErr result (IsTrue self.old.prepared → IsTrue self.new.prepared) }
        ensures keeps_place { OnErr result (IsTrue self.old.has_place → IsTrue self.new.has_place) }
    {
        let pattern = self.pattern_of(comm, source, tag, room)?;
        let places = self.requests.len() + 3;
        self.log.reserve(places)?;
        self.requests.reserve(1)?;
        self.matcher.prepare()?;
        let gone = names_known(&self.faults, pattern.source);
        let (id, fate) = admit(&mut self.matcher, gone, pattern);
        put(&mut self.requests, id.number, Request { pattern, fate });
        self.log.push_reserved(Entry::Posted(pattern));
        Ok(id)
    }

    /// Tests a request (MPI 4.0, 3.7.3). An answer `Done` or `Over` releases it. It never answers out of
    /// memory.
    ///
    /// # Errors
    ///
    /// `Stopped` after the stop, else `NoRequest` where there is no such request or it was released. Then nothing
    /// changed.
    pub fn test(&mut self, id: RequestId) -> Result<TestAnswer, CallError>
        ensures answer { IfOk result (IsTestAnswer self.old.state.ranks self.old.state.log id.number) }
        ensures request { OnOk result ((i : ℕ) × (pattern : Pattern) × IsRequest self.old.state.log id.number i pattern) }
        ensures pairing { OnOk result ((pairing : Pairing) × LawfulPairing (history_of self.old.state.log) pairing) }
        ensures running { OnOk result (is_stopped self.old.state.log ≡ false) }
        ensures released { IfOk result (λ answer. is_release answer ≡ true → self.new.state ≡ logged self.old.state (Entry.Released id answer)) }
        ensures stays { IfOk result (λ answer. is_release answer ≡ false → self.new ≡ self.old) }
        ensures refused { IfErr result (IsTestRefusal self.old.state.log id.number) }
        ensures unchanged { OnErr result (self.new ≡ self.old) }
        ensures prepared { self.new.prepared ≡ self.old.prepared }
        ensures keeps_place { IsTrue self.old.has_place → IsTrue self.new.has_place }
    {
        if self.stopped {
            return Err(CallError::Stopped);
        }
        let found = match find(&self.requests, id.number, false) {
            Some(request) => request,
            None => return Err(CallError::NoRequest),
        };
        if is_waiting(&found.fate) {
            let pattern = &found.pattern;
            return Ok(answer_to_waiting(&self.communicators, &self.faults, pattern));
        }
        let request = self.requests.shift_remove(&id.number).unwrap();
        let answer = answer_in(&self.communicators, &self.faults, request);
        let noted = NotedAnswer::of(&answer);
        self.log.push_reserved(Entry::Released(id, noted));
        Ok(answer)
    }
}
