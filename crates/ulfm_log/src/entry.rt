//! What a rank writes into its log, and what its calls answer.

ghost use Rattle.std.specs.Prelude.{◌≡◌};

use crate::held_decision::HeldDecision;
use crate::message::MessageId;
use crate::noted_answer::NotedAnswer;
use ulfm_base::{
    Body, CallError, Context, Entrance, NotedItem, NotedLetter, OutOfMemory, Pattern, RequestId,
    Tag, WorldRank,
};

/// Names a communicator by its context.
#[derive(Clone, Copy, Debug, PartialEq, Eq)]
pub struct Comm {
    /// By the path from the world.
    pub context: Context,
}

/// What is told of a letter that was received (MPI 4.0, 3.2.5).
#[derive(Clone, Copy)]
pub struct Status {
    /// The sender's rank in the communicator of the request.
    pub source: u8,
    /// The letter's tag.
    pub tag: Tag,
    /// How many bytes the body has.
    pub length: usize,
}

/// What a test of a request tells (MPI 4.0, 3.7.3). The first two release it.
#[derive(Drop)]
pub enum TestAnswer {
    /// The receive got this letter.
    Done(Status, Body),
    /// The receive ended without a letter, or with one that was longer than its room.
    Over(CallError),
    /// It takes letters from any source, and failures in its group aren't acknowledged.
    Pending,
    /// It waits.
    NotYet,
}

/// What a probe finds (MPI 4.0, 3.8.2).
#[derive(Clone, Copy)]
pub enum Probed {
    /// This message, and what is told of its letter.
    Found(MessageId, Status),
    /// No letter that a receive could get.
    Nothing,
}

/// What becomes of a request that is to be cancelled (MPI 4.0, 3.8.4).
#[derive(Drop)]
pub enum Cancel {
    /// The receive was withdrawn, and gets no letter.
    Cancelled,
    /// It had ended before, with this answer.
    Completed(TestAnswer),
}

/// An accepted call that changed something, or an item that was taken. Of letters it keeps no bytes; contracts see them.
#[derive(Drop)]
pub enum Entry {
    /// A communicator was duplicated, and this is the number of the duplicate among its duplicates, from 0.
    Duplicated(Context, u64),
    /// A shrink or an agreement was entered.
    Entered(Entrance),
    /// The decision of a shrink or of an agreement was adopted.
    Adopted(HeldDecision),
    /// The failures acknowledged of a communicator rose to this total.
    Acknowledged(Context, u8),
    /// A context was revoked by the rank's own call.
    Revoked(Context),
    /// A letter for a rank was accepted.
    Sent(WorldRank, NotedLetter),
    /// A receive was posted.
    Posted(Pattern),
    /// A request was released with this answer.
    Released(RequestId, NotedAnswer),
    /// A probe found a letter for a receive that asks for this, and the letter became this message.
    Probed(MessageId, Pattern),
    /// A message was received with this answer.
    Received(MessageId, NotedAnswer),
    /// A request was withdrawn.
    Cancelled(RequestId),
    /// The rank stopped.
    Stopped,
    /// An item was taken that came from a rank.
    Took(WorldRank, NotedItem),
}

const _: () = prove!(size_of::<Entry>() <= 64);

impl Clone for Entry {
    ghost is_clone = { λ x y. y ≡ x };

    fn clone(&self) -> Result<Entry, OutOfMemory> {
        let entry = match self {
            Entry::Duplicated(context, count) => Entry::Duplicated(*context, *count),
            Entry::Entered(entrance) => Entry::Entered(*entrance),
            Entry::Adopted(decision) => Entry::Adopted(decision.clone()?),
            Entry::Acknowledged(context, total) => Entry::Acknowledged(*context, *total),
            Entry::Revoked(context) => Entry::Revoked(*context),
            Entry::Sent(to, letter) => Entry::Sent(*to, letter.clone()?),
            Entry::Posted(pattern) => Entry::Posted(*pattern),
            Entry::Released(id, answer) => Entry::Released(*id, answer.clone()?),
            Entry::Probed(id, pattern) => Entry::Probed(*id, *pattern),
            Entry::Received(id, answer) => Entry::Received(*id, answer.clone()?),
            Entry::Cancelled(id) => Entry::Cancelled(*id),
            Entry::Stopped => Entry::Stopped,
            Entry::Took(source, item) => Entry::Took(*source, item.clone()?),
        };
        Ok(entry)
    }
}
