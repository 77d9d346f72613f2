//! A step once more.
ghost use Rattle.std.specs.Prelude.{◌≡◌, IfOk};
ghost use Rattle.ulfm_job.specs.Job.{bodiless};

use crate::step::Step;
use std::alloc::Global;
use ulfm_base::OutOfMemory;

impl Step {
    /// The same step once more, where it has no body to carry: nothing of a send. It never answers out of memory.
    pub fn bodiless(&self) -> Option<Step>
        ensures { result ≡ bodiless self.now }
    {
        match self {
            Step::Send { .. } => None,
            Step::Recv {
                from,
                tag,
                room,
                comm,
            } => Some(Step::Recv {
                from: *from,
                tag: *tag,
                room: *room,
                comm: *comm,
            }),
            Step::Wait { req } => Some(Step::Wait { req: *req }),
            Step::Probe { from, tag, comm } => Some(Step::Probe {
                from: *from,
                tag: *tag,
                comm: *comm,
            }),
            Step::Mrecv { req, room } => Some(Step::Mrecv {
                req: *req,
                room: *room,
            }),
            Step::Cancel { req } => Some(Step::Cancel { req: *req }),
            Step::Failed { comm } => Some(Step::Failed { comm: *comm }),
            Step::Ack { count, comm } => Some(Step::Ack {
                count: *count,
                comm: *comm,
            }),
            Step::Revoke { comm } => Some(Step::Revoke { comm: *comm }),
            Step::Dup { comm, again } => Some(Step::Dup {
                comm: *comm,
                again: *again,
            }),
            Step::Shrink { comm, again } => Some(Step::Shrink {
                comm: *comm,
                again: *again,
            }),
            Step::Agree { flag, comm } => Some(Step::Agree {
                flag: *flag,
                comm: *comm,
            }),
            Step::Note { text } => Some(Step::Note { text: text.copy() }),
            Step::Stop => Some(Step::Stop),
        }
    }

    /// The same step once more.
    ///
    /// # Errors
    ///
    /// `OutOfMemory` where it sends a body of more than 30 bytes and a growth was refused.
    pub fn copy(&self, alloc: Global) -> Result<Step, OutOfMemory>
        ensures { IfOk result (λ step. step ≡ self.now) }
    {
        if let Step::Send {
            to,
            tag,
            body,
            comm,
        } = self
        {
            let body = body.copy(alloc)?;
            return Ok(Step::Send {
                to: *to,
                tag: *tag,
                body,
                comm: *comm,
            });
        }
        match self.bodiless() {
            Some(step) => Ok(step),
            None => unreachable!(),
        }
    }
}
