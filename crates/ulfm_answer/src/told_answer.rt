//! What is told of an answer.
ghost use Rattle.std.specs.Prelude.{◌≡◌};
ghost use Rattle.ulfm_answer.specs.Told.{told_of};
ghost use Rattle.ulfm_answer.specs.inside.Told.{members_of};

use crate::answer::StepAnswer;
use crate::bytes::Bytes;
use crate::putting::numbers_of;
use smallvec::SmallVec;
use std::alloc::Global;
use ulfm_base::{CallError, RankNumbers};

/// What is told of an answer: all of it but the numbers of requests and messages, which no text has.
#[derive(Drop)]
pub enum ToldAnswer<'a> {
    /// A send was accepted.
    Sent,
    /// A receive was posted.
    Posted,
    /// A letter of this source with this tag came, and this body.
    Done(u8, u16, Bytes<'a>),
    /// The receive is over.
    Over(CallError),
    /// A wait for any source met failures that aren't acknowledged.
    Pending,
    /// A probe found a letter of this source with this tag, and its length.
    Found(u8, u16, usize),
    /// A receive was cancelled.
    Cancelled,
    /// The members known to have failed.
    Ranks(Bytes<'a>),
    /// How many failures are acknowledged.
    Acked(u8),
    /// The communicator is revoked.
    Revoked,
    /// A duplicate was made, with this context.
    Made(u64),
    /// A shrink made a communicator with this context and these members, in which the rank has this position.
    Shrunk(u64, Bytes<'a>, u8),
    /// An agreement has this value, and leaves out these members.
    Agreed(u32, Bytes<'a>),
    /// A note was made.
    Noted,
    /// The rank stopped.
    Stopped,
    /// The step was given up.
    Unfinished,
    /// The step wasn't played.
    Skipped,
    /// The call was refused.
    Refused(CallError),
}

/// The members of the group that a shrink made, of any other answer none. It never answers out of memory.
pub(crate) fn members_of(alloc: Global, answer: &StepAnswer) -> RankNumbers
    ensures { result.items ≡ members_of answer.now }
{
    match answer {
        StepAnswer::Shrunk(_, group, _) => numbers_of(alloc, group),
        _ => SmallVec::new(alloc),
    }
}

/// What is told of an answer, of whose group these are the members.
pub(crate) fn told_of<'a>(answer: &'a StepAnswer, members: &'a [u8]) -> ToldAnswer<'a>
    requires { members.now ≡ members_of answer.now }
    ensures { result ≡ told_of answer.now }
{
    match answer {
        StepAnswer::Sent => ToldAnswer::Sent,
        StepAnswer::Posted(_) => ToldAnswer::Posted,
        StepAnswer::Done(status, body) => {
            ToldAnswer::Done(
                status.source,
                status.tag.number,
                Bytes::new(body.as_bytes()),
            )
        }
        StepAnswer::Over(error) => ToldAnswer::Over(*error),
        StepAnswer::Pending => ToldAnswer::Pending,
        StepAnswer::Found(_, status) => {
            ToldAnswer::Found(status.source, status.tag.number, status.length)
        }
        StepAnswer::Cancelled => ToldAnswer::Cancelled,
        StepAnswer::Ranks(failed) => ToldAnswer::Ranks(Bytes::new(failed.as_slice())),
        StepAnswer::Acked(total) => ToldAnswer::Acked(*total),
        StepAnswer::Revoked => ToldAnswer::Revoked,
        StepAnswer::Made(comm) => ToldAnswer::Made(comm.context.number),
        StepAnswer::Shrunk(comm, _, me) => {
            ToldAnswer::Shrunk(comm.context.number, Bytes::new(members), *me)
        }
        StepAnswer::Agreed(value, left_out) => {
            ToldAnswer::Agreed(*value, Bytes::new(left_out.as_slice()))
        }
        StepAnswer::Noted => ToldAnswer::Noted,
        StepAnswer::Stopped => ToldAnswer::Stopped,
        StepAnswer::Unfinished => ToldAnswer::Unfinished,
        StepAnswer::Skipped => ToldAnswer::Skipped,
        StepAnswer::Refused(error) => ToldAnswer::Refused(*error),
    }
}
