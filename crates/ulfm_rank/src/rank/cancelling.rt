//! Cancelling of receives (MPI 4.0, 3.8.4).
ghost use Rattle.std.specs.Prelude.{◌≡◌, ℕ, false, IfOk, IfErr, IsTrue, OnOk, OnErr};
ghost use Rattle.ulfm_base.specs.declared.pattern.Pattern.{Pattern};
ghost use Rattle.ulfm_match.specs.Pairing.{Pairing, LawfulPairing};
ghost use Rattle.ulfm_rank.specs.Answer.{IsRequest};
ghost use Rattle.ulfm_rank.specs.Cancel.{IsCancelAnswer, cancelling};
ghost use Rattle.ulfm_rank.specs.Checks.{IsTestRefusal};
ghost use Rattle.ulfm_log.specs.Facts.{is_stopped};
ghost use Rattle.ulfm_rank.specs.History.{history_of};
ghost use Rattle.ulfm_log.specs.State.{logged};

use super::Rank;
use crate::answer::answer_in;
use crate::request::is_waiting;
use crate::requests::find;
use ulfm_base::{CallError, RequestId};
use ulfm_log::{Cancel, Entry, NotedAnswer};

impl Rank {
    /// Cancels a receive (MPI 4.0, 3.8.4). One that waits is withdrawn: it gets no letter from now on. One that has a
    /// letter or is over answers as a test of it. Both release the request. It never answers out of memory.
    ///
    /// # Errors
    ///
    /// `Stopped` after the stop, else `NoRequest` where there is no such request or it was released. Then nothing
    /// changed.
    pub fn cancel(&mut self, id: RequestId) -> Result<Cancel, CallError>
        ensures answer { IfOk result (IsCancelAnswer self.old.state.ranks self.old.state.log id.number) }
        ensures request { OnOk result ((i : ℕ) × (pattern : Pattern) × IsRequest self.old.state.log id.number i pattern) }
        ensures pairing { OnOk result ((pairing : Pairing) × LawfulPairing (history_of self.old.state.log) pairing) }
        ensures running { OnOk result (is_stopped self.old.state.log ≡ false) }
        ensures released { IfOk result (λ answer. self.new.state ≡ logged self.old.state (cancelling id answer)) }
        ensures refused { IfErr result (IsTestRefusal self.old.state.log id.number) }
        ensures unchanged { OnErr result (self.new ≡ self.old) }
        ensures prepared { self.new.prepared ≡ self.old.prepared }
        ensures keeps_place { IsTrue self.old.has_place → IsTrue self.new.has_place }
    {
        if self.stopped {
            return Err(CallError::Stopped);
        }
        let found = match find(&self.requests, id.number, false) {
            Some(request) => request,
            None => return Err(CallError::NoRequest),
        };
        let waits = is_waiting(&found.fate);
        let request = self.requests.shift_remove(&id.number).unwrap();
        if waits {
            let _ = self.matcher.withdraw(id);
            self.log.push_reserved(Entry::Cancelled(id));
            return Ok(Cancel::Cancelled);
        }
        let answer = answer_in(&self.communicators, &self.faults, request);
        let noted = NotedAnswer::of(&answer);
        self.log.push_reserved(Entry::Released(id, noted));
        Ok(Cancel::Completed(answer))
    }
}
