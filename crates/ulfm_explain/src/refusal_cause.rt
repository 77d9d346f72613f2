//! Why a step that can be read will be refused when it runs.

use crate::line::{Line, Part};
use crate::rules::Key;
use ulfm_job::Op;
use ulfm_job::limits::{LAST_COMM, MOST_BODY};

/// The last communicator that can be duplicated or shrunk.
pub const LAST_PARENT: i64 = (LAST_COMM as i64 - 2) / 2;

/// Why a step will be refused.
#[derive(Clone, Copy)]
pub enum Doom {
    /// A rank past those of the world, which has so many.
    PastRanks(Key, i64, u8),
    /// A body of more bytes than a message may have.
    LongBody(usize),
    /// A communicator that no earlier step of the rank makes.
    NotMade(i64),
    /// A communicator that the earlier step of this number revokes.
    Revoked(i64, usize),
    /// A communicator of which none can be made any more, by this op.
    NoContext(i64, Op),
    /// An op on a communicator on which the earlier step of this number has it already.
    Again(i64, Op, usize),
    /// A `req` that names a step that its rank doesn't have.
    NoSuchStep(i64),
    /// A `req` that names its own step.
    Itself(i64),
    /// A `req` that names a later step.
    Later(usize),
    /// A `req` that has to name a step with the first op, and names one with the second.
    AnotherOp(usize, Op, Op),
    /// A `req` that names a step with this op, which will be refused itself.
    RefusedStep(usize, Op),
    /// A `req` of which the earlier step with this op and number leaves nothing.
    UsedUp(i64, Op, usize),
}

impl Doom {
    /// The key that it is about.
    pub fn key(&self) -> Key {
        match self {
            Doom::PastRanks(key, _, _) => *key,
            Doom::LongBody(_) => Key::Body,
            Doom::NotMade(_) | Doom::Revoked(_, _) | Doom::NoContext(_, _) | Doom::Again(_, _, _) =>
                Key::Comm,
            Doom::NoSuchStep(_)
            | Doom::Itself(_)
            | Doom::Later(_)
            | Doom::AnotherOp(_, _, _)
            | Doom::RefusedStep(_, _)
            | Doom::UsedUp(_, _, _) => Key::Req,
        }
    }

    /// The number of the other step of its rank of which it tells, if it tells of one.
    pub fn other(&self) -> Option<usize> {
        match self {
            Doom::Revoked(_, step)
            | Doom::Again(_, _, step)
            | Doom::Later(step)
            | Doom::AnotherOp(step, _, _)
            | Doom::RefusedStep(step, _)
            | Doom::UsedUp(_, _, step) => Some(*step),
            _ => None,
        }
    }

    /// The line that tells it, but for its end, where the other step has this name.
    pub(crate) fn line<'a>(&self, name: Option<&'a str>) -> Line<'a> {
        match *self {
            Doom::PastRanks(key, value, ranks) => {
                let count = usize::from(ranks);
                Line::Four(
                    "key '{}' is {}, and no communicator has more than the {} ranks 0 to {}",
                    Part::Key(key),
                    Part::Number(value),
                    Part::Count(count),
                    Part::Count(count.saturating_sub(1)),
                )
            }
            Doom::LongBody(count) => Line::Two(
                "key 'body' has {} bytes, and {} are the most",
                Part::Count(count),
                Part::Count(MOST_BODY),
            ),
            Doom::NotMade(comm) => Line::Two(
                "no earlier step of its rank makes communicator {} ({} does)",
                Part::Number(comm),
                Part::Maker(comm),
            ),
            Doom::Revoked(comm, number) => Line::Two(
                "{} of its rank revokes communicator {}",
                Part::Step(number, name),
                Part::Number(comm),
            ),
            Doom::NoContext(comm, op) => Line::Three(
                "key 'comm' is {}, and {} is the last of which there is a {}",
                Part::Number(comm),
                Part::Number(LAST_PARENT),
                Part::Op(op),
            ),
            Doom::Again(comm, op, number) => Line::Three(
                "{} of its rank is a {} of communicator {} too, and one is the most",
                Part::Step(number, name),
                Part::Op(op),
                Part::Number(comm),
            ),
            Doom::NoSuchStep(req) => Line::Two(
                "key 'req' is {}, and its rank has no step {}",
                Part::Number(req),
                Part::Number(req),
            ),
            Doom::Itself(req) => Line::One(
                "key 'req' is {}, and that is this step itself",
                Part::Number(req),
            ),
            Doom::Later(number) => Line::Two(
                "key 'req' is {}, and {} of its rank comes later",
                Part::Count(number),
                Part::Step(number, name),
            ),
            Doom::AnotherOp(number, wanted, op) => Line::Four(
                "key 'req' is {}, and {} of its rank is no {} but {}",
                Part::Count(number),
                Part::Step(number, name),
                Part::Op(wanted),
                Part::An(op),
            ),
            Doom::RefusedStep(number, op) => Line::Three(
                "key 'req' is {}, and the {} that is {} of its rank will be refused",
                Part::Count(number),
                Part::Op(op),
                Part::Step(number, name),
            ),
            Doom::UsedUp(req, op, number) => Line::Three(
                "key 'req' is {}, and {} of its rank, {}, uses up what that one left",
                Part::Number(req),
                Part::Step(number, name),
                Part::An(op),
            ),
        }
    }

    /// The end of that line.
    pub(crate) fn end(&self) -> &'static str {
        match self {
            Doom::NoSuchStep(_) | Doom::Itself(_) | Doom::Later(_) | Doom::AnotherOp(_, _, _) =>
                "; req counts the steps of one rank, from 0: this step will be refused",
            _ => ": this step will be refused",
        }
    }
}
