//! How fast messages go, in nanoseconds a message, on standard error. No contract says anything of a time.
//!
//!     ulfm_bench [COUNT [BYTES]]         over both carriers, and over the kit's rings and queues alone
//!     ulfm_bench rank [COUNT [BYTES]]    whole messages of two ranks, with calls, turns and matching, in two threads and in one
//!     ulfm_bench match [MOST]            the matcher beside plain lists, where it has to look far
//!
//! COUNT is how many messages a trip has. BYTES is 8, 64 or 1024; without it all three are measured. MOST is the most messages of a case. Of each
//! message the sender makes the bytes, and the receiver copies them into a room and frees them. What happens in one thread is told by its
//! processor time.
//!
//! - `telling.rt`: which trips are made, and their lines
//! - `trip.rt`: a trip, and its time; `way.rt`: what items go over; `pairs.rt`: both ends of a way
//! - `post.rt`: what sends and receives; `side.rt`: that of a rank; `both.rt`: two ranks in one thread
//! - `matching.rt`: the cases of the matcher; `case.rt`: their messages and receives; `pairing.rt`: the matcher and the lists
//!
//! Not here: what the figures came to (docs/MEASURED.md), and what goes beside them (bench/). tools/by-hand/bench runs all of it.
#![tactic(auto)]

mod both;
mod case;
mod matching;
mod pairing;
mod pairs;
mod post;
mod side;
mod telling;
mod trip;
mod way;

use crate::matching::each_case;
use crate::telling::{of_ranks, of_ways};
use crate::trip::Load;
use std::alloc::Global;
use std::env;
use std::process::ExitCode;
use std::rt::Runtime;
use std::sync::Wait;
use std::thread::Threads;
use std::time::CpuClock;

/// How many letters each trip has, where no word says it.
const LETTERS: u32 = 20_000;

/// The bytes of the letters.
const SIZES: [u32; 3] = [8, 64, 1024];

/// The most letters that a case of the matcher has, where no word says it.
const MOST: u32 = 10_000;

fn main(rt: HostRuntime) -> ExitCode {
    let alloc = rt.alloc();
    let measured = if is_first(&rt, "match") {
        each_case(&rt, alloc, number(&rt, 2).unwrap_or(MOST))
    } else if is_first(&rt, "rank") {
        let count = number(&rt, 2).unwrap_or(LETTERS);
        each_size(&rt, alloc, number(&rt, 3), count, true)
    } else {
        let count = number(&rt, 1).unwrap_or(LETTERS);
        each_size(&rt, alloc, number(&rt, 2), count, false)
    };
    ExitCode::from(measured.is_none() as u8)
}

/// Whether the first word after the program's name is this one.
fn is_first(rt: &HostRuntime, word: &str) -> bool {
    match env::args(rt) {
        Ok(mut words) => words.nth(1).is_some_and(|first| first.as_str() == word),
        Err(_) => false,
    }
}

/// The number that a word has, by its place after the program's name, if it has one.
fn number(rt: &HostRuntime, place: usize) -> Option<u32> {
    let mut words = env::args(rt).ok()?;
    words.nth(place)?.parse().ok()
}

/// The trips with letters of each size, or of this one alone: those of ranks, or those over ways alone. Nothing where one of them
/// failed.
fn each_size<R: Runtime + Threads + Wait + CpuClock + Copy + Send + 'static>(
    rt: &R,
    alloc: Global,
    only: Option<u32>,
    count: u32,
    whole: bool,
) -> Option<()> {
    for bytes in SIZES {
        if only.unwrap_or(bytes) != bytes {
            continue;
        }
        let load = Load {
            bytes: bytes as usize,
            count,
        };
        if whole {
            of_ranks(rt, alloc, load)?;
        } else {
            of_ways(rt, alloc, load)?;
        }
    }
    Some(())
}
