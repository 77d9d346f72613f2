//! What comes of a step.

ghost use Rattle.std.specs.Prelude.{◌≡◌, IfOk};

use smallvec::SmallVec;
use ulfm_base::{Body, CallError, Group, OutOfMemory, RankNumbers, RequestId};
use ulfm_job::NotedStep;
use ulfm_log::{Comm, MessageId, Status};

/// The answer of a step.
#[derive(Drop)]
pub enum StepAnswer {
    /// A send was accepted.
    Sent,
    /// A receive was posted.
    Posted(RequestId),
    /// A wait got this letter, or a receive of what a probe found, or a cancel that came too late.
    Done(Status, Body),
    /// The receive that such a step names is over: 5, 6 or 15.
    Over(CallError),
    /// A wait for any source met failures that aren't acknowledged.
    Pending,
    /// A probe found this message, of a letter with this status.
    Found(MessageId, Status),
    /// A receive was cancelled: it gets no letter.
    Cancelled,
    /// The members known to have failed, as ranks of the communicator, in the order of the notices.
    Ranks(RankNumbers),
    /// How many failures are acknowledged.
    Acked(u8),
    /// The communicator is revoked.
    Revoked,
    /// A duplicate was made.
    Made(Comm),
    /// A shrink made a communicator, with this group, in which the rank has this position.
    Shrunk(Comm, Group, u8),
    /// An agreement has this value, and leaves out these members, as ranks of the communicator.
    Agreed(u32, RankNumbers),
    /// A note was made.
    Noted,
    /// The rank stopped.
    Stopped,
    /// The last poll that the job grants left the step open.
    Unfinished,
    /// The step wasn't played, since none of its conditions held.
    Skipped,
    /// The call was refused.
    Refused(CallError),
}

/// A step with its answer.
#[derive(Drop)]
pub struct StepReport {
    /// What was to be done.
    pub step: NotedStep,
    /// What came of it.
    pub answer: StepAnswer,
    /// The log's length when the step's last poll began.
    pub at: usize,
    /// How many uses of `call` left the step open, staying at its greatest value.
    pub polls: u32,
}

/// The same positions once more, with as many places.
fn copy_positions(positions: &RankNumbers) -> Result<RankNumbers, OutOfMemory>
    ensures { IfOk result (λ copy. copy ≡ positions.now) }
{
    // Here alone it is said that they fit their places.
    let _ = positions.len();
    let alloc = *positions.allocator();
    let mut items: RankNumbers = SmallVec::from_slice(alloc, positions.as_slice())?;
    let mut copy = SmallVec::with_capacity(alloc, positions.capacity())?;
    copy.append(&mut items)?;
    Ok(copy)
}

impl Clone for StepAnswer {
    ghost is_clone = { λ x y. y ≡ x };

    fn clone(&self) -> Result<StepAnswer, OutOfMemory> {
        let answer = match self {
            StepAnswer::Sent => StepAnswer::Sent,
            StepAnswer::Posted(id) => StepAnswer::Posted(*id),
            StepAnswer::Done(status, body) => StepAnswer::Done(*status, body.clone()?),
            StepAnswer::Over(error) => StepAnswer::Over(*error),
            StepAnswer::Pending => StepAnswer::Pending,
            StepAnswer::Found(id, status) => StepAnswer::Found(*id, *status),
            StepAnswer::Cancelled => StepAnswer::Cancelled,
            StepAnswer::Ranks(positions) => StepAnswer::Ranks(copy_positions(positions)?),
            StepAnswer::Acked(total) => StepAnswer::Acked(*total),
            StepAnswer::Revoked => StepAnswer::Revoked,
            StepAnswer::Made(comm) => StepAnswer::Made(*comm),
            StepAnswer::Shrunk(comm, group, me) => StepAnswer::Shrunk(*comm, group.clone()?, *me),
            StepAnswer::Agreed(value, left_out) => {
                StepAnswer::Agreed(*value, copy_positions(left_out)?)
            }
            StepAnswer::Noted => StepAnswer::Noted,
            StepAnswer::Stopped => StepAnswer::Stopped,
            StepAnswer::Unfinished => StepAnswer::Unfinished,
            StepAnswer::Skipped => StepAnswer::Skipped,
            StepAnswer::Refused(error) => StepAnswer::Refused(*error),
        };
        Ok(answer)
    }
}

impl Clone for StepReport {
    ghost is_clone = { λ x y. y ≡ x };

    fn clone(&self) -> Result<StepReport, OutOfMemory> {
        Ok(StepReport {
            step: self.step.clone()?,
            answer: self.answer.clone()?,
            at: self.at,
            polls: self.polls,
        })
    }
}
