//! The lists of places, by threads.
ghost use Rattle.std.specs.Prelude.{◌≡◌, ◌<◌, All, IfOk, max};
ghost use Rattle.std.specs.Int.{div_ceil};
ghost use Rattle.ulfm_job.specs.Place.{IsPlaceOf};
ghost use Rattle.ulfm_outcomes_reply.specs.Lists.{AreLists};
ghost use Rattle.ulfm_command_line.specs.Stopped.{asked_view};
ghost use Rattle.ulfm_outcomes_reply.specs.inside.Parts.{AreJoined, AreParts, IsPart};

use crate::lists::Lists;
use crate::onlooker::Onlooker;
use crate::place_lists::list_part;
use crate::search::Search;
use std::alloc::Global;
use std::thread;
use std::thread::Threads;
use ulfm_base::OutOfMemory;
use ulfm_job::Place;
use ulfm_outcomes_spec::Finder;
use ulfm_reader::Reading;

/// The lists of all outcomes of what was asked for at these places, in their order, but for those where the job has more states than the limit. So
/// many threads share the places. The onlooker is told how far they are.
///
/// # Errors
///
/// `OutOfMemory` where a growth was refused, or the job at a place would have more than 256 steps.
pub fn list_places<R, F, L>(
    rt: &R,
    search: &Search<'_, F>,
    asked: &Reading,
    places: &[Place],
    threads: u8,
    onlooker: &L,
) -> Result<Lists, OutOfMemory>
where
    R: Threads + Sync,
    F: Finder + Sync,
    L: Onlooker + Sync,
    requires inside { All (IsPlaceOf asked.now.job) places.now }
    requires threads { 0 < threads }
    ensures { IfOk result (λ lists. AreLists (asked_view asked.now) search.now.options.limit places.now lists.listed.items lists.past_limit.items) }
{
    let size = part_size(places.len(), threads);
    let parts = list_parts(rt, search, asked, places, size, onlooker)?;
    joined(search.alloc, parts)
}

/// How many of so many places a part has, of so many parts at most.
pub(crate) fn part_size(places: usize, threads: u8) -> usize
    requires { 0 < threads }
    ensures exact { result ≡ max 1 (div_ceil places threads) }
    ensures some { 0 < result }
{
    places.div_ceil(threads as usize).max(1)
}

/// What comes of the lists of each part of so many places.
fn list_parts<R, F, L>(
    rt: &R,
    search: &Search<'_, F>,
    asked: &Reading,
    places: &[Place],
    size: usize,
    onlooker: &L,
) -> Result<Vec<Result<Lists, OutOfMemory>>, OutOfMemory>
where
    R: Threads + Sync,
    F: Finder + Sync,
    L: Onlooker + Sync,
    requires inside { All (IsPlaceOf asked.now.job) places.now }
    requires some { 0 < size }
    ensures { IfOk result (λ parts. AreParts (IsPart (asked_view asked.now) search.now.options.limit) places.now parts.items) }
{
    let list = |_start: usize, part: &[Place]| -> Result<Lists, OutOfMemory>
        requires { All (IsPlaceOf asked.now.job) part.now }
        ensures { IsPart (asked_view asked.entry.now) search.entry.now.options.limit part.entry.now result }
    { list_part(search, asked, part, onlooker) };
    let parts = thread::map_chunks(rt, search.alloc, places, size, &list)?;
    Ok(parts)
}

/// The lists of all parts, one part after another.
fn joined(alloc: Global, parts: Vec<Result<Lists, OutOfMemory>>) -> Result<Lists, OutOfMemory>
    ensures { IfOk result (λ lists. AreJoined parts.items lists.listed.items lists.past_limit.items) }
{
    let mut listed = Vec::new(alloc);
    let mut past_limit = Vec::new(alloc);
    for part in parts {
        let mut lists = part?;
        listed.append(&mut lists.listed)?;
        past_limit.append(&mut lists.past_limit)?;
    }
    Ok(Lists { listed, past_limit })
}
