//! Events one by one.

mod adopting;
mod recovery;
mod rows;

use self::recovery::RECOVERY;
use self::rows::{ROWS, Row, Told};
use std::alloc::Global;
use std::test::Fail;
use ulfm_base::Context;
use ulfm_job::{Asked, Job};
use ulfm_reader::ReadJob;
use ulfm_script::trace_text;
use ulfm_world::{Event, World};

/// What happens to a world next.
#[derive(Clone, Copy)]
enum Deed {
    /// A rank polls its step with this number in the job.
    Poll(u8, usize),
    /// An item of the first rank goes to the inbox of the second.
    Push(u8, u8),
    /// A rank takes the first item of its inbox.
    Take(u8),
    /// A rank takes the first item of another.
    TakeFrom(u8, u8),
    /// The shrink of the world by a rank is decided.
    Decide(u8),
    /// A rank gives its open step up.
    Leave(u8),
}

/// The event of a deed. Nothing: the job has no such step.
fn event_of(job: &Job, deed: Deed) -> Option<Event<'_>> {
    let event = match deed {
        Deed::Poll(r, number) => Event::Call(r, Asked::of(job.step(r, number)?)),
        Deed::Push(s, d) => Event::Push(s, d),
        Deed::Take(r) => Event::Take(r),
        Deed::TakeFrom(r, s) => Event::TakeFrom(r, s),
        Deed::Decide(r) => Event::Decide(r, Context::WORLD),
        Deed::Leave(r) => Event::Leave(r),
    };
    Some(event)
}

/// Whether a world tells this of an event.
fn tells(world: &mut World, event: Event<'_>, told: Told) -> bool {
    match (world.apply(event), told) {
        (Ok(outcome), Ok(wanted)) => outcome == wanted,
        (Err(why), Err(wanted)) => why == wanted,
        _ => false,
    }
}

/// The place of the first deed of which a world tells something else.
fn first_other(world: &mut World, job: &Job, deeds: &[(Deed, Told)]) -> Option<usize> {
    for (place, (deed, told)) in deeds.iter().enumerate() {
        let is_told = match event_of(job, *deed) {
            Some(event) => tells(world, event, *told),
            None => false,
        };
        if !is_told {
            return Some(place);
        }
    }
    None
}

/// A new world of a job, with room for one item.
fn world_of(alloc: Global, job: &Job, has_rings: bool) -> Result<World, Fail> {
    if has_rings {
        Ok(World::with_rings(alloc, job.ranks(), 1)?)
    } else {
        Ok(World::new(alloc, job.ranks(), 1)?)
    }
}

/// What of a row isn't so of a world, if anything, before its trace.
fn fault_before(world: &mut World, job: &Job, row: &Row) -> Option<&'static str> {
    if first_other(world, job, row.deeds).is_some() {
        return Some("a deed");
    }
    if world.is_at_rest() != row.is_at_rest {
        return Some("the rest");
    }
    None
}

/// What of a row with this job isn't so, if anything.
fn fault_in(alloc: Global, job: &Job, row: &Row) -> Result<Option<&'static str>, Fail> {
    let mut world = world_of(alloc, job, row.has_rings)?;
    let fault = fault_before(&mut world, job, row);
    let reports = world.into_reports(alloc)?;
    let trace = trace_text(alloc, job, reports.as_slice())?;
    Ok(if fault.is_none() && trace.as_str() != row.trace {
        Some("the trace")
    } else {
        fault
    })
}

/// What of a row isn't so, if anything.
fn fault_of(alloc: Global, row: &Row) -> Result<Option<&'static str>, Fail> {
    let job = Job::read(alloc, row.job.as_bytes())?;
    fault_in(alloc, &job, row)
}

#[test]
fn events_one_by_one(rt: HostRuntime) -> Result<(), Fail> {
    for row in ROWS.iter().chain(RECOVERY) {
        assert_eq!(rt; fault_of(rt.alloc(), row)?, None, "{}", row.name);
    }
    Ok(())
}
