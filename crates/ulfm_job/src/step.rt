//! What a rank is asked to do.
//!
//! A step is lent: by a job, and by an event of a world. One that stays open is no send, so a player keeps it without taking memory.
ghost use Rattle.std.specs.Prelude.{◌≡◌, ◌↔◌, IsTrue, Some};

use crate::label::Label;
use crate::op::Op;
use crate::text::Text;
use ulfm_base::{Context, Tag};

/// One step of one rank. A rank (`to`, `from`) is one of the communicator `comm`, which is
/// named by its context; `req` is the number of the step, of the same rank, that posted the receive or probed.
#[derive(Drop, PartialEq)]
pub enum Step {
    /// Sends a letter to a position of a communicator.
    Send {
        to: u8,
        tag: Tag,
        body: Text,
        comm: Context,
    },
    /// Posts a receive, from a position or any, with a tag or any.
    Recv {
        from: Option<u8>,
        tag: Option<Tag>,
        room: u16,
        comm: Context,
    },
    /// Tests the request of an earlier step.
    Wait {
        req: u16,
    },
    /// Looks for a letter, from a position or any, with a tag or any, and takes it from all other receives.
    Probe {
        from: Option<u8>,
        tag: Option<Tag>,
        comm: Context,
    },
    /// Receives the letter that an earlier probe found.
    Mrecv {
        req: u16,
        room: u16,
    },
    /// Cancels the receive of an earlier step.
    Cancel {
        req: u16,
    },
    /// Asks for the failures known in a communicator.
    Failed {
        comm: Context,
    },
    /// Acknowledges the first failures known in a communicator.
    Ack {
        count: u8,
        comm: Context,
    },
    /// Revokes a communicator.
    Revoke {
        comm: Context,
    },
    /// Duplicates a communicator; where `again`, also where it has a duplicate, or none by a number.
    Dup {
        comm: Context,
        again: bool,
    },
    /// Shrinks a communicator; where `again`, also where it was shrunk, or has no shrink by a number.
    Shrink {
        comm: Context,
        again: bool,
    },
    /// Agrees on a value, by the AND of flags, with the members of a communicator.
    Agree {
        flag: u32,
        comm: Context,
    },
    /// Marks a place of the script, and does nothing else.
    Note {
        text: Label,
    },
    /// The rank stops.
    Stop,
}

const _: () = prove!(size_of::<Step>() <= 48);

impl Step {
    ghost use Rattle.ulfm_job.specs.Job.{decides_on, is_agreement_step};
    ghost use Rattle.ulfm_job.specs.Naming.{on_comm};
    ghost use Rattle.ulfm_job.specs.Ops.{op_of};

    /// Its op.
    pub fn op(&self) -> Op
        ensures { result ≡ op_of self.now }
    {
        match self {
            Step::Send { .. } => Op::Send,
            Step::Recv { .. } => Op::Recv,
            Step::Wait { .. } => Op::Wait,
            Step::Probe { .. } => Op::Probe,
            Step::Mrecv { .. } => Op::Mrecv,
            Step::Cancel { .. } => Op::Cancel,
            Step::Failed { .. } => Op::Failed,
            Step::Ack { .. } => Op::Ack,
            Step::Revoke { .. } => Op::Revoke,
            Step::Dup { .. } => Op::Dup,
            Step::Shrink { .. } => Op::Shrink,
            Step::Agree { .. } => Op::Agree,
            Step::Note { .. } => Op::Note,
            Step::Stop => Op::Stop,
        }
    }

    /// The communicator about which ranks decide together by this step: they shrink it, or agree on it.
    pub fn decides_on(&self) -> Option<Context>
        ensures { result ≡ decides_on self.now }
    {
        match self {
            Step::Shrink { comm, .. } | Step::Agree { comm, .. } => Some(*comm),
            _ => None,
        }
    }

    /// Whether ranks decide about this communicator by this step.
    pub fn is_decided_on(&self, context: Context) -> bool
        ensures { IsTrue result ↔ (decides_on self.now ≡ Some context) }
    {
        match self.decides_on() {
            Some(comm) => same_comm(comm, context),
            None => false,
        }
    }

    /// Whether this step is an agreement.
    pub fn is_agreement(&self) -> bool
        ensures { result ≡ is_agreement_step self.now }
    {
        matches!(self, Step::Agree { .. })
    }

    /// The step on another communicator, where it is on one.
    pub fn on(self, other: Context) -> Step
        ensures { result ≡ on_comm other self }
    {
        match self {
            Step::Send { to, tag, body, .. } => Step::Send {
                to,
                tag,
                body,
                comm: other,
            },
            Step::Recv {
                from,
                tag,
                room,
                ..
            } => Step::Recv {
                from,
                tag,
                room,
                comm: other,
            },
            Step::Probe { from, tag, .. } => Step::Probe {
                from,
                tag,
                comm: other,
            },
            Step::Failed { .. } => Step::Failed { comm: other },
            Step::Ack { count, .. } => Step::Ack { count, comm: other },
            Step::Revoke { .. } => Step::Revoke { comm: other },
            Step::Dup { again, .. } => Step::Dup { comm: other, again },
            Step::Shrink { again, .. } => Step::Shrink { comm: other, again },
            Step::Agree { flag, .. } => Step::Agree { flag, comm: other },
            step => step,
        }
    }

    /// Whether two steps are the same.
    pub fn is_same(&self, other: &Step) -> bool
        ensures { IsTrue result ↔ (self.now ≡ other.now) }
    {
        self == other
    }
}

fn same_comm(comm: Context, other: Context) -> bool
    ensures { IsTrue result ↔ (comm ≡ other) }
{
    comm == other
}
