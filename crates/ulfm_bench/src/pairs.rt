//! The two ends of a way, and the letter that goes over it.
ghost use Rattle.std.specs.Prelude.{IfSome, IfOk};
ghost use Rattle.ulfm_carrier.specs.Family.{IsFresh};
ghost use Rattle.ulfm_bench.specs.Pair.{AreOfTwo};

use crate::way::{Lane, Queues, Rings, Shared};
use crossbeam_queue::ArrayQueue;
use rtrb::RingBuffer;
use std::alloc::Global;
use std::sync::Arc;
use ulfm_base::{Body, CallError, Context, Envelope, Item, Letter, Tag, WorldRank};
use ulfm_carrier::{Ends, lanes, shared};

/// The places of each ring.
const CAPACITY: u8 = 64;

/// A letter of a rank with these bytes.
///
/// # Errors
///
/// `OutOfMemory` where a growth was refused.
pub fn letter(alloc: Global, source: WorldRank, bytes: &[u8]) -> Result<Item, CallError> {
    let body = Body::from_bytes(alloc, bytes)?;
    let envelope = Envelope {
        context: Context::WORLD,
        source,
        tag: Tag::new(1)?,
    };
    Ok(Item::Letter(Letter { envelope, body }))
}

/// The last of these ends.
#[tactic(auto, using(crate::proofs::Last::of_last, crate::proofs::Last::of_others))]
fn last<E: Ends>(ends: &mut Vec<E>) -> Option<E>
    requires fresh { AreOfTwo E.count E.pushed E.taken E.ready ends.old.items }
    ensures fresh { IfSome result (IsFresh E.count E.pushed E.taken E.ready 2) }
    ensures others { AreOfTwo E.count E.pushed E.taken E.ready ends.new.items }
{
    ends.pop()
}

/// The ends of two ranks, of these.
///
/// # Errors
///
/// `OutOfMemory` where there aren't two.
fn both<E: Ends>(ends: Vec<E>) -> Result<(E, E), CallError>
    requires fresh { AreOfTwo E.count E.pushed E.taken E.ready ends.items }
    ensures { IfOk result (λ two. IsFresh E.count E.pushed E.taken E.ready 2 two.0 × IsFresh E.count E.pushed E.taken E.ready 2 two.1) }
{
    let mut ends = ends;
    match (last(&mut ends), last(&mut ends)) {
        (Some(one), Some(zero)) => Ok((zero, one)),
        _ => Err(CallError::OutOfMemory),
    }
}

/// The ends of two ranks over lanes.
///
/// # Errors
///
/// `OutOfMemory` where a growth was refused.
pub fn over_lanes(alloc: Global) -> Result<(Lane, Lane), CallError> {
    let (zero, one) = both(lanes(alloc, 2, CAPACITY)?)?;
    Ok((Lane::new(zero, 1), Lane::new(one, 0)))
}

/// The ends of two ranks over shared inboxes.
///
/// # Errors
///
/// `OutOfMemory` where a growth was refused.
pub fn over_shared(alloc: Global) -> Result<(Shared, Shared), CallError> {
    let (zero, one) = both(shared(alloc, 2, CAPACITY)?)?;
    Ok((Shared::new(zero, 1), Shared::new(one, 0)))
}

/// The ends of two rings, one for each direction.
///
/// # Errors
///
/// `OutOfMemory` where a growth was refused.
pub fn over_rings(alloc: Global) -> Result<(Rings, Rings), CallError> {
    let (there, arriving) = RingBuffer::new(alloc, CAPACITY as usize)?;
    let (back, returning) = RingBuffer::new(alloc, CAPACITY as usize)?;
    let zero = Rings {
        me: WorldRank { number: 0 },
        out: there,
        inlet: returning,
    };
    let one = Rings {
        me: WorldRank { number: 1 },
        out: back,
        inlet: arriving,
    };
    Ok((zero, one))
}

/// The ends of two queues, one for each direction.
///
/// # Errors
///
/// `OutOfMemory` where a growth was refused.
pub fn over_queues(alloc: Global) -> Result<(Queues, Queues), CallError> {
    let there = Arc::new(alloc, ArrayQueue::new(alloc, CAPACITY as usize)?)?;
    let back = Arc::new(alloc, ArrayQueue::new(alloc, CAPACITY as usize)?)?;
    let zero = Queues {
        me: WorldRank { number: 0 },
        out: Arc::try_clone(&there)?,
        inlet: Arc::try_clone(&back)?,
    };
    let one = Queues {
        me: WorldRank { number: 1 },
        out: back,
        inlet: there,
    };
    Ok((zero, one))
}
