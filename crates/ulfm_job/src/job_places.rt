//! All places of a job.
ghost use Rattle.std.specs.Prelude.{◌≡◌, ◌≤◌, ◌++◌, All, IfOk, OnOk, length, map};
ghost use Rattle.ulfm_job.specs.Job.{IsJob, script_at};
ghost use Rattle.ulfm_job.specs.Place.{IsPlaceOf};
ghost use Rattle.ulfm_job.specs.Places.{all_stops, is_asked, last_place, pairs_of, places_of, stops_always, stops_in, stops_near, twos};
ghost use Rattle.ulfm_job.specs.declared.place.Place.TheVariants.{One};

use crate::Job;
use crate::job_stops::is_stop_at;
use crate::place::Place;
use crate::stop::Stop;
use std::alloc::Global;
use ulfm_base::OutOfMemory;

/// All places of a job with at most so many stops: the one with none first, then those of one stop by rank and step, then those of two.
/// A rank that always stops at one of its own steps isn't stopped behind it.
///
/// # Errors
///
/// `OutOfMemory` where a growth was refused.
pub fn places(alloc: Global, job: &Job, stops: u8) -> Result<Vec<Place>, OutOfMemory>
    ensures exact { IfOk result (λ places. places.items ≡ places_of stops job.now) }
    ensures inside { IfOk result (λ places. All (IsPlaceOf job.now) places.items) }
{
    all_places(alloc, job, stops)
}

/// All places of a job with at most so many stops, by the definition that makes them.
fn all_places(alloc: Global, job: &Job, stops: u8) -> Result<Vec<Place>, OutOfMemory>
    ensures { IfOk result (λ places. places.items ≡ places_of stops job.now) }
{
    let singles = all_stops(alloc, job)?;
    let mut places = Vec::new(alloc);
    places.push(Place::Nowhere)?;
    if 1 <= stops {
        push_ones(&mut places, singles.as_slice())?;
    }
    if 2 <= stops {
        push_twos(&mut places, singles.as_slice())?;
    }
    Ok(places)
}

/// Adds a place for each of these stops.
fn push_ones(places: &mut Vec<Place>, stops: &[Stop]) -> Result<(), OutOfMemory>
    ensures { OnOk result (places.new.items ≡ places.old.items ++ map One stops.now) }
{
    for stop in stops {
        places.push(Place::One(*stop))?;
    }
    Ok(())
}

/// Adds a place for each two of these stops of which the first one's rank is the lower.
fn push_twos(places: &mut Vec<Place>, stops: &[Stop]) -> Result<(), OutOfMemory>
    ensures { OnOk result (places.new.items ≡ places.old.items ++ twos stops.now) }
{
    for first in stops {
        push_pairs(places, *first, stops)?;
    }
    Ok(())
}

/// Adds a place for this stop and each of those of a higher rank.
fn push_pairs(places: &mut Vec<Place>, first: Stop, stops: &[Stop]) -> Result<(), OutOfMemory>
    ensures { OnOk result (places.new.items ≡ places.old.items ++ pairs_of stops.now first) }
{
    for second in stops {
        if first.rank < second.rank {
            places.push(Place::Two(first, *second))?;
        }
    }
    Ok(())
}

/// The stops of all ranks of a job.
fn all_stops(alloc: Global, job: &Job) -> Result<Vec<Stop>, OutOfMemory>
    ensures { IfOk result (λ stops. stops.items ≡ all_stops job.now) }
{
    let mut stops = Vec::new(alloc);
    for rank in 0..job.ranks() {
        push_stops(&mut stops, job, rank)?;
    }
    Ok(stops)
}

/// Adds the stops of one rank.
fn push_stops(stops: &mut Vec<Stop>, job: &Job, rank: u8) -> Result<(), OutOfMemory>
    requires { IsJob job.now }
    ensures { OnOk result (stops.new.items ≡ stops.old.items ++ stops_in job.now rank) }
{
    for at in 0..last_place(job, rank) + 1 {
        push_near(stops, job, rank, at)?;
    }
    Ok(())
}

/// Adds the stops of a rank at one of its steps: before it, and inside it where ranks decide it together.
fn push_near(stops: &mut Vec<Stop>, job: &Job, rank: u8, at: usize) -> Result<(), OutOfMemory>
    requires { at ≤ 256 }
    ensures { OnOk result (stops.new.items ≡ stops.old.items ++ stops_near job.now rank at) }
{
    stops.push(Stop {
        rank,
        at: at as u16,
        dies: false,
    })?;
    if job.is_joint(rank, at) {
        stops.push(Stop {
            rank,
            at: at as u16,
            dies: true,
        })?;
    }
    Ok(())
}

/// The number of the first step at which a rank always stops, or of its steps where there is none.
fn last_place(job: &Job, rank: u8) -> usize
    ensures exact { result ≡ last_place job.now rank }
    ensures inside { result ≤ length (script_at job.now rank) }
    ensures few { result ≤ 256 }
{
    let len = job.script_len(rank);
    for at in 0..len {
        if stops_always(job, rank, at) {
            return at;
        }
    }
    len
}

/// Whether a step of a rank is a stop that is always played, where the rank comes to it.
fn stops_always(job: &Job, rank: u8, at: usize) -> bool
    ensures { result ≡ stops_always job.now rank at }
{
    is_stop_at(job, rank, at) && !is_asked(job, rank, at)
}

/// Whether a step of a rank is played on a condition.
fn is_asked(job: &Job, rank: u8, at: usize) -> bool
    ensures { result ≡ is_asked job.now rank at }
{
    job.conditions().iter().any(|condition| condition.rank == rank && condition.at as usize == at)
}
