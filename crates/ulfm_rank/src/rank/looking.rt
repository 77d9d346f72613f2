//! Probes that change nothing (MPI 4.0, 3.8.1).
ghost use Rattle.std.specs.Prelude.{IfOk, IfErr, OnOk};
ghost use Rattle.ulfm_rank.specs.Checks.{Passes, receive_checks};
ghost use Rattle.ulfm_rank.specs.Messages.{IsLookAnswer, IsLookRefusal};

use super::Rank;
use crate::answer::status_in;
use crate::failures::names_known;
use ulfm_base::{CallError, Tag};
use ulfm_log::{Comm, Status};

impl Rank {
    /// Looks for a letter as `improbe` does, and leaves it where it is (MPI 4.0, 3.8.1, `MPI_Iprobe`): any receive or probe may
    /// get it. Answers what is told of it, where there is one. It never answers out of memory.
    ///
    /// # Errors
    ///
    /// `Stopped` after the stop, else `NoComm` where the communicator wasn't made, else `Revoked` where it is revoked,
    /// else `BadRank` where it has no such position, else `ProcFailed` where it finds nothing and the position is that
    /// of a rank that is known to have failed.
    pub fn iprobe(
        &self,
        comm: Comm,
        source: Option<u8>,
        tag: Option<Tag>,
    ) -> Result<Option<Status>, CallError>
        ensures accepted { OnOk result (Passes (receive_checks self.now.state comm.context.number source)) }
        ensures answer { IfOk result (IsLookAnswer self.now.state comm source tag) }
        ensures refused { IfErr result (IsLookRefusal self.now.state comm source tag) }
    {
        let pattern = self.pattern_of(comm, source, tag, 1024)?;
        match self.matcher.earliest(&pattern) {
            Some(letter) => {
                let status = status_in(&self.communicators, pattern.context, letter);
                Ok(Some(status))
            }
            None => {
                if names_known(&self.faults, pattern.source) {
                    return Err(CallError::ProcFailed);
                }
                Ok(None)
            }
        }
    }
}
