//! Communicators past 62 at two ranks and their seats: messages, agreements and shrinks on a further duplicate.
ghost use Rattle.std.specs.Prelude.{IsTrue};
ghost use Rattle.ulfm_rank.specs.Calls.{IsFrom};

use std::alloc::Global;
use std::test::Fail;
use ulfm_base::{CallError, Item, Tag, WorldRank};
use ulfm_board::{Decider, Seat, seats};
use ulfm_log::{Comm, TestAnswer};
use ulfm_rank::Rank;

const TAG: Tag = Tag { number: 5 };

/// Whether an item is one that may come from this rank.
fn is_from(item: &Item, source: WorldRank) -> bool
    ensures { IsTrue result → IsFrom source item.now }
{
    match item {
        Item::Letter(letter) => letter.envelope.source.number == source.number,
        _ => true,
    }
}

/// Takes an item that came from the other rank: whether it could.
pub(crate) fn take(rank: &mut Rank, other: WorldRank, item: Item) -> bool {
    if rank.prepare().is_err()
        || rank.is_stopped()
        || other.number >= rank.ranks()
        || !is_from(&item, other)
    {
        return false;
    }
    rank.take(other, item);
    true
}

/// Hands the next item of a rank on to the other one: whether there was one.
fn hand_on(from: &mut Rank, to: &mut Rank) -> bool {
    let dest = to.me().number;
    if dest >= from.ranks() {
        return false;
    }
    match from.take_out(dest) {
        Some(item) => take(to, from.me(), item),
        None => false,
    }
}

/// Makes the second duplicate of the world.
fn second_duplicate(rank: &mut Rank) -> Result<Comm, CallError> {
    let world = rank.world();
    rank.dup_with(world, true)?;
    rank.dup_with(world, true)
}

/// Whether a letter on a communicator comes to the other rank.
fn is_delivered(one: &mut Rank, two: &mut Rank, comm: Comm) -> Result<bool, CallError> {
    one.isend(comm, 1, TAG, b"far")?;
    if !hand_on(one, two) {
        return Ok(false);
    }
    let request = two.irecv(comm, Some(0), Some(TAG), 3)?;
    match two.test(request)? {
        TestAnswer::Done(_, body) => Ok(body.as_bytes() == b"far".as_slice()),
        _ => Ok(false),
    }
}

/// Asks for the decision of the agreement that was entered last.
fn agreed(rank: &mut Rank, seat: &mut Seat, comm: Comm) -> Result<Option<u32>, CallError> {
    let Some(verdict) = rank.verdict(comm)? else {
        return Ok(None);
    };
    let held = match seat.decide(verdict) {
        Ok(held) => held,
        Err(_) => return Ok(None),
    };
    Ok(Some(rank.adopt_verdict(comm, held)?))
}

/// Enters the next shrink of a communicator on which no other rank runs, and asks for its decision. Answers the number that it makes.
fn shrunk(rank: &mut Rank, seat: &mut Seat, comm: Comm) -> Result<Option<u64>, CallError> {
    rank.enter_shrink_with(comm, true)?;
    let Some(proposal) = rank.proposal(comm)? else {
        return Ok(None);
    };
    let held = match seat.decide(proposal) {
        Ok(held) => held,
        Err(_) => return Ok(None),
    };
    Ok(Some(rank.adopt(comm, held)?.context.number))
}

/// Whether both are told the AND of their flags.
fn agree(
    one: &mut Rank,
    first: &mut Seat,
    two: &mut Rank,
    second: &mut Seat,
    comm: Comm,
) -> Result<bool, CallError> {
    one.enter_agree(comm, 6)?;
    two.enter_agree(comm, 3)?;
    if !hand_on(one, two) || !hand_on(two, one) {
        return Ok(false);
    }
    Ok(agreed(one, first, comm)? == Some(2) && agreed(two, second, comm)? == Some(2))
}

/// Whether the first shrinks a communicator twice once the second stopped.
fn shrinks_twice(
    one: &mut Rank,
    first: &mut Seat,
    two: &mut Rank,
    comm: Comm,
) -> Result<bool, CallError> {
    two.stop();
    if !hand_on(two, one) {
        return Ok(false);
    }
    Ok(shrunk(one, first, comm)? == Some(601) && shrunk(one, first, comm)? == Some(2219))
}

/// Whether two ranks use the second duplicate of the world.
fn use_it(
    one: &mut Rank,
    first: &mut Seat,
    two: &mut Rank,
    second: &mut Seat,
) -> Result<bool, CallError> {
    let comm = second_duplicate(one)?;
    let same = second_duplicate(two)?;
    Ok(
        comm.context.number == 67
            && same.context.number == 67
            && is_delivered(one, two, comm)?
            && agree(one, first, two, second, comm)?
            && agree(one, first, two, second, comm)?
            && shrinks_twice(one, first, two, comm)?,
    )
}

/// Whether a first rank and a second one do.
fn uses_with_a_second(
    alloc: Global,
    one: &mut Rank,
    first: &mut Seat,
    second: &mut Seat,
) -> Result<bool, CallError> {
    match Rank::start(alloc, 1, 2) {
        Ok(mut two) => {
            let is_used = use_it(one, first, &mut two, second);
            // Let go by the standard library, as the ranks of world/adopting.rt.
            drop(two);
            is_used
        }
        Err(error) => Err(error),
    }
}

/// Whether two ranks of these seats do.
fn is_used(alloc: Global, first: &mut Seat, second: &mut Seat) -> Result<bool, CallError> {
    match Rank::start(alloc, 0, 2) {
        Ok(mut one) => {
            let is_used = uses_with_a_second(alloc, &mut one, first, second);
            drop(one);
            is_used
        }
        Err(error) => Err(error),
    }
}

#[test]
fn a_further_duplicate_is_a_communicator(rt: HostRuntime) -> Result<(), Fail> {
    let mut all = seats(rt.alloc(), 2)?;
    let mut first = all.pop().ok_or("no seat")?;
    let mut second = all.pop().ok_or("no seat")?;
    assert!(rt; is_used(rt.alloc(), &mut first, &mut second)?);
    Ok(())
}
