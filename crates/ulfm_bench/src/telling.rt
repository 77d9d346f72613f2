//! The trips that are made, and what is told of them.
use crate::both::Both;
use crate::pairs::{over_lanes, over_queues, over_rings, over_shared};
use crate::post::{Bare, Post};
use crate::side::{Side, two_ranks};
use crate::trip::{Load, in_one_thread, one_way, there_and_back};
use crate::way::Way;
use std::alloc::Global;
use std::rt::Runtime;
use std::sync::Wait;
use std::thread::Threads;
use std::time::{CpuClock, Duration};
use ulfm_base::{CallError, WorldRank};

/// The trips over each carrier, and over each ring or queue alone. Nothing where one of them failed.
pub fn of_ways<R: Runtime + Threads + Wait + Copy + Send + 'static>(
    rt: &R,
    alloc: Global,
    load: Load,
) -> Option<()> {
    there(rt, "lane", bare(over_lanes(alloc), alloc), load)?;
    there(rt, "ring", bare(over_rings(alloc), alloc), load)?;
    there(rt, "shared", bare(over_shared(alloc), alloc), load)?;
    there(rt, "queue", bare(over_queues(alloc), alloc), load)?;
    and_back(rt, "lane", bare(over_lanes(alloc), alloc), load)?;
    and_back(rt, "ring", bare(over_rings(alloc), alloc), load)?;
    and_back(rt, "shared", bare(over_shared(alloc), alloc), load)?;
    and_back(rt, "queue", bare(over_queues(alloc), alloc), load)
}

/// The trips of ranks over each carrier, and in one thread. Nothing where one of them failed.
pub fn of_ranks<R: Runtime + Threads + Wait + CpuClock + Copy + Send + 'static>(
    rt: &R,
    alloc: Global,
    load: Load,
) -> Option<()> {
    there(rt, "rank by lanes", sides(over_lanes(alloc), alloc), load)?;
    there(rt, "rank by shared", sides(over_shared(alloc), alloc), load)?;
    and_back(rt, "rank by lanes", sides(over_lanes(alloc), alloc), load)?;
    and_back(rt, "rank by shared", sides(over_shared(alloc), alloc), load)?;
    let time = in_one_thread(rt, both_ranks(alloc)?, load).ok()??;
    tell(rt, "rank", "in one thread", load, time)
}

/// Two ranks with nothing between them.
fn both_ranks(alloc: Global) -> Option<Both> {
    let (zero, one) = two_ranks(alloc)?;
    let posted = None;
    Some(Both { zero, one, posted })
}

/// Two ends with no rank round them.
fn bare<W: Way>(ways: Result<(W, W), CallError>, alloc: Global) -> Option<(Bare<W>, Bare<W>)> {
    let (zero, one) = ways.ok()?;
    Some((Bare { way: zero, alloc }, Bare { way: one, alloc }))
}

/// Two ends with their ranks.
fn sides<W: Way>(ways: Result<(W, W), CallError>, alloc: Global) -> Option<(Side<W>, Side<W>)> {
    let ((there, back), (zero, one)) = ways.ok().zip(two_ranks(alloc))?;
    Some((
        Side {
            rank: zero,
            way: there,
            other: WorldRank { number: 1 },
        },
        Side {
            rank: one,
            way: back,
            other: WorldRank { number: 0 },
        },
    ))
}

/// Tells how long the letters took from one thread to the other.
fn there<R: Runtime + Threads + Wait + Copy + Send + 'static, P: Post + Send + 'static>(
    rt: &R,
    over: &str,
    pair: Option<(P, P)>,
    load: Load,
) -> Option<()> {
    let (zero, one) = pair?;
    let time = one_way(rt, zero, one, load).ok()??;
    tell(rt, over, "one way", load, time)
}

/// Tells how long the letters took to the other thread and back, one after the other.
fn and_back<R: Runtime + Threads + Wait + Copy + Send + 'static, P: Post + Send + 'static>(
    rt: &R,
    over: &str,
    pair: Option<(P, P)>,
    load: Load,
) -> Option<()> {
    let (zero, one) = pair?;
    let time = there_and_back(rt, zero, one, load).ok()??;
    tell(rt, over, "there and back", load, time)
}

/// Prints how long a letter took, by the time of all.
fn tell<R: Runtime>(rt: &R, over: &str, trip: &str, load: Load, time: Duration) -> Option<()> {
    let tenths = time.as_nanos() * 10 / (load.count as u128).max(1);
    let (whole, part, bytes) = (tenths / 10, tenths % 10, load.bytes);
    eprintln!(rt; "{over}, {trip}, {bytes} bytes: {whole}.{part} ns a letter").ok()
}
