//! What a job doesn't want at its places, looked for by threads.
ghost use Rattle.std.specs.Prelude.{◌<◌, All, IfOk};
ghost use Rattle.ulfm_command_line.specs.Stopped.{asked_view};
ghost use Rattle.ulfm_outcomes_reply.specs.EachPlace.{places_in};
ghost use Rattle.ulfm_outcomes_reply.specs.inside.Findings.{IsFirstOf, IsFoundIn};
ghost use Rattle.ulfm_outcomes_reply.specs.inside.Judging.{AreListedOf, IsFirstUnwanted, IsListedOf};
ghost use Rattle.ulfm_outcomes_reply.specs.inside.Parts.{AreParts};

use crate::finding::Finding;
use crate::onlooker::Onlooker;
use crate::search::Search;
use crate::threads::part_size;
use crate::unwanted::{earlier, first_unwanted, is_found};
use std::alloc::AllocError;
use std::thread;
use std::thread::Threads;
use ulfm_outcomes_list::Listed;
use ulfm_outcomes_spec::Finder;
use ulfm_reader::Reading;

/// What `first_unwanted` tells of these lists. So many threads share their places, and each looks no further than to the first one at which it finds
/// a schedule.
pub(crate) fn first_by_threads<R, F, L>(
    rt: &R,
    search: &Search<'_, F>,
    asked: &Reading,
    listed: &[Listed],
    threads: u8,
    onlooker: &L,
) -> Result<Option<Finding>, AllocError>
where
    R: Threads + Sync,
    F: Finder + Sync,
    L: Onlooker + Sync,
    requires listed { AreListedOf (asked_view asked.now) search.now.options.limit listed.now }
    requires threads { 0 < threads }
    ensures { IfOk result (IsFirstUnwanted search.now.form search.now.options (asked_view asked.now) (places_in listed.now)) }
{
    let size = part_size(listed.len(), threads);
    let parts = found_in_parts(rt, search, asked, listed, size, onlooker)?;
    first_of(parts)
}

/// What is told of each part of so many lists.
fn found_in_parts<R, F, L>(
    rt: &R,
    search: &Search<'_, F>,
    asked: &Reading,
    listed: &[Listed],
    size: usize,
    onlooker: &L,
) -> Result<Vec<Result<Option<Finding>, AllocError>>, AllocError>
where
    R: Threads + Sync,
    F: Finder + Sync,
    L: Onlooker + Sync,
    requires listed { All (IsListedOf (asked_view asked.now) search.now.options.limit) listed.now }
    requires some { 0 < size }
    ensures { IfOk result (λ parts. AreParts (IsFoundIn search.now.form search.now.options (asked_view asked.now)) listed.now parts.items) }
{
    let look = |_start: usize, part: &[Listed]| -> Result<Option<Finding>, AllocError>
        requires { All (IsListedOf (asked_view asked.now) search.now.options.limit) part.now }
        ensures { IsFoundIn search.entry.now.form search.entry.now.options (asked_view asked.entry.now) part.entry.now result }
    { first_unwanted(search, asked, part, onlooker) };
    let parts = thread::map_chunks(rt, search.alloc, listed, size, &look)?;
    Ok(parts)
}

/// What is told of all lists, by what is told of each part.
fn first_of(parts: Vec<Result<Option<Finding>, AllocError>>) -> Result<Option<Finding>, AllocError>
    ensures { IfOk result (IsFirstOf parts.items) }
{
    let mut first = None;
    for part in parts {
        let told = part?;
        if is_found(&told) {
            return Ok(told);
        }
        first = earlier(first, told);
    }
    Ok(first)
}
