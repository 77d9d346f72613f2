//! Seats of one board, which answer what one of them was handed.
ghost use Rattle.std.specs.Prelude.{IfOk};
ghost use Rattle.ulfm_base.specs.declared.decision.Decision.{Decision as Decided};
ghost use Rattle.ulfm_board.specs.Proposals.{WasProposed};

use crate::further::take;
use std::alloc::Global;
use std::test::Fail;
use std::thread;
use std::thread::{JoinHandle, Threads};
use ulfm_base::{
    CallError, Context, Contribution, Decision, Group, Item, OutOfMemory, Purpose, RankSet, Topic,
    WorldRank,
};
use ulfm_board::{Decider, Seat, seats};
use ulfm_log::{Comm, proposed};
use ulfm_rank::Rank;

// What a rank proposes for the shrink that it entered last.
fn proposal_of(rank: &Rank, comm: Comm) -> Result<Decision, CallError>
    ensures { IfOk result (λ (d : Decided). WasProposed d) }
{
    let Some(proposal) = rank.proposal(comm)? else {
        return Err(CallError::NotEntered);
    };
    Ok(proposal)
}

// Takes notice that another rank stopped, if the world has it.
fn hear(rank: &mut Rank, other: WorldRank) -> Result<(), CallError> {
    if other.number < rank.ranks() && !take(rank, other, Item::Gone) {
        return Err(CallError::BadRank);
    }
    Ok(())
}

// Takes notice that all of up to three others stopped.
fn hear_all(rank: &mut Rank) -> Result<(), CallError> {
    hear(rank, WorldRank { number: 1 })?;
    hear(rank, WorldRank { number: 2 })?;
    hear(rank, WorldRank { number: 3 })
}

// Shrinks a communicator on which no other rank runs.
fn shrunk(rank: &mut Rank, comm: Comm) -> Result<Comm, CallError> {
    rank.enter_shrink(comm)?;
    let proposal = proposal_of(rank, comm)?;
    rank.adopt(comm, proposal)
}

// Shrinks the world's communicator, the new one, that one's, and once more.
fn fourth_shrunk(rank: &mut Rank) -> Result<Comm, CallError> {
    let world = rank.world();
    let first = shrunk(rank, world)?;
    let second = shrunk(rank, first)?;
    let third = shrunk(rank, second)?;
    shrunk(rank, third)
}

// The communicator of this context: the world's, its first duplicate's, or that which the fourth shrink in a row makes.
fn comm_of(rank: &mut Rank, context: u64) -> Result<Comm, CallError> {
    let comm = match context {
        0 => rank.world(),
        1 => rank.dup(rank.world())?,
        _ => fourth_shrunk(rank)?,
    };
    if comm.context.number != context {
        return Err(CallError::NoComm);
    }
    Ok(comm)
}

// What a rank proposes for the shrink of the communicator of this context, once all others stopped.
fn proposal_by(rank: &mut Rank, context: u64) -> Result<Decision, CallError>
    ensures { IfOk result (λ (d : Decided). WasProposed d) }
{
    hear_all(rank)?;
    let comm = comm_of(rank, context)?;
    rank.enter_shrink(comm)?;
    proposal_of(rank, comm)
}

// What rank 0 of n proposes for it.
fn last_left(alloc: Global, context: u64, n: u8) -> Result<Decision, CallError>
    ensures { IfOk result (λ (d : Decided). WasProposed d) }
{
    match Rank::start(alloc, 0, n) {
        Ok(mut rank) => {
            let proposal = proposal_by(&mut rank, context);
            // Let go by the standard library, as the ranks of world/adopting.rt.
            drop(rank);
            proposal
        }
        Err(error) => Err(error),
    }
}

// Whether a seat answers a decision by this one.
fn answers(seat: &mut Seat, decision: Decision, by: &Decision) -> Result<bool, Fail>
    requires { WasProposed decision }
{
    Ok(seat.decide(decision)?.is_same(by))
}

// Whether a seat answers the decision on the shrink of a context, of the last of so many ranks, by that of the last of as many as are wanted.
fn answers_by_size(
    seat: &mut Seat,
    context: u64,
    handed_in: u8,
    wanted: u8,
    alloc: Global,
) -> Result<bool, Fail> {
    let by = last_left(alloc, context, wanted)?;
    let decision = last_left(alloc, context, handed_in)?;
    answers(seat, decision, &by)
}

#[test]
fn seats_of_one_board(rt: HostRuntime) -> Result<(), Fail> {
    let mut all = seats(rt.alloc(), 2)?;
    for (place, context, handed_in, wanted) in [
        (0, 0, 2, 2),
        (1, 0, 3, 2),
        (0, 0, 3, 2),
        (1, 1, 3, 3),
        (0, 1, 2, 3),
        (0, 30, 4, 4),
    ] {
        let seat = all.get_mut(place).ok_or("no seat")?;
        assert!(rt;
            answers_by_size(seat, context, handed_in, wanted, rt.alloc())?,
            "seat {place}, context {context}, {handed_in} ranks"
        );
    }
    Ok(())
}

// What a rank that is alone in its world proposes in the agreement of this round, with this flag.
fn lone_verdict(alloc: Global, round: u64, flag: u32) -> Result<Decision, CallError>
    ensures { IfOk result (λ (d : Decided). WasProposed d) }
{
    let world = Group::world(alloc, 1)?;
    let topic = Topic {
        context: Context::WORLD,
        purpose: Purpose::Agree { round },
    };
    let mine = Contribution {
        known: RankSet::new(),
        flag: Some(flag),
    };
    let entries = [Some(mine), None, None, None, None, None, None, None];
    match proposed(topic, &world, &entries, RankSet::new()) {
        Some(verdict) => Ok(verdict),
        None => Err(CallError::NotEntered),
    }
}

// Whether two seats answer what the first of them was handed, in an agreement of this round.
fn agree_on(one: &mut Seat, other: &mut Seat, round: u64, alloc: Global) -> Result<bool, Fail> {
    let first = lone_verdict(alloc, round, 2)?;
    let second = lone_verdict(alloc, round, 3)?;
    Ok(answers(one, first.copied(), &first)? && answers(other, second, &first)?)
}

#[test]
fn rows_are_made_as_they_are_wanted(rt: HostRuntime) -> Result<(), Fail> {
    let alloc = rt.alloc();
    let (mut one, mut two, mut last) = three_seats(alloc)?;
    for round in [
        0u64,
        62,
        63,
        64,
        126,
        127,
        128,
        1_000_000,
        18_446_744_073_709_551_615,
    ] {
        assert!(rt;
            agree_on(&mut one, &mut two, round, alloc)?,
            "round {round}"
        );
    }
    for round in 0..200u64 {
        assert!(rt;
            agree_on(&mut two, &mut one, round, alloc)?,
            "round {round}"
        );
    }
    assert!(rt; agree_on(&mut two, &mut last, 500, alloc)?);
    assert!(rt; answers_by_size(&mut last, 0, 4, 4, alloc)?);
    Ok(())
}

// Whether two answers are one of two decisions, and a seat that is handed the first answers so too.
fn are_one(
    held: &Decision,
    found: &Decision,
    last: &mut Seat,
    mine: &Decision,
    theirs: &Decision,
) -> Result<bool, Fail>
    requires { WasProposed mine.now }
{
    let is_one = held.is_same(mine) || held.is_same(theirs);
    let is_found = found.is_same(held);
    let is_held = answers(last, mine.copied(), held)?;
    Ok(is_one && is_found && is_held)
}

// Hands a decision to a seat in a thread of its own. Nothing: no thread could be started.
fn start<R: Threads>(
    rt: &R,
    seat: Seat,
    decision: Decision,
) -> Option<JoinHandle<Result<Decision, OutOfMemory>>>
    requires { WasProposed decision }
{
    let child = thread::spawn(
        rt,
        move || -> Result<Decision, OutOfMemory>
            requires { WasProposed decision }
        {
            let mut seat = seat;
            seat.decide(decision)
        },
    );
    child.ok()
}

// Three seats of one board.
fn three_seats(alloc: Global) -> Result<(Seat, Seat, Seat), Fail> {
    let mut all = seats(alloc, 3)?;
    let one = all.pop().ok_or("no seat")?;
    let two = all.pop().ok_or("no seat")?;
    let three = all.pop().ok_or("no seat")?;
    Ok((one, two, three))
}

// Whether three seats give one answer: one here, one in a thread of its own, which is handed the second decision, and a later one.
fn agree_across_threads<R: Threads>(
    rt: &R,
    alloc: Global,
    mine: &Decision,
    theirs: &Decision,
) -> Result<bool, Fail>
    requires mine { WasProposed mine.now }
    requires theirs { WasProposed theirs.now }
{
    let (mut here, there, mut last) = three_seats(alloc)?;
    let child = start(rt, there, theirs.copied()).ok_or("no thread")?;
    let held = here.decide(mine.copied());
    let found = child.join(rt);
    are_one(&held?, &found?, &mut last, mine, theirs)
}

// Whether they do of two decisions on one shrink.
fn three_agree<R: Threads>(rt: &R, alloc: Global) -> Result<bool, Fail> {
    let mine = last_left(alloc, 0, 2)?;
    let theirs = last_left(alloc, 0, 3)?;
    agree_across_threads(rt, alloc, &mine, &theirs)
}

#[test]
fn one_answer_across_threads(rt: HostRuntime) -> Result<(), Fail> {
    assert!(rt; three_agree(&rt, rt.alloc())?);
    Ok(())
}
