//! What a text asks for, with the stops of a place.
ghost use Rattle.std.specs.Prelude.{◌≡◌, ◌≤◌, ℕ, List, Ok, IfOk, map};
ghost use Rattle.ulfm_job.specs.Place.{IsPlaceOf, IsStopOf};
ghost use Rattle.ulfm_reader.specs.JobText.{reading_of_bytes, rows_of};
ghost use Rattle.ulfm_command_line.specs.Stopped.{IsAsked, asked_at, asked_beside, asked_view, beside_stops, clauses_beside, filed_beside, name_beside, number_beside, reading_as};
ghost use Rattle.ulfm_command_line.specs.declared.body.Body.TheVariants.{NoPlace};

use crate::body::Body;
use crate::copied::copied_texts;
use crate::holding::held_at;
use crate::reply::{JOB_REFUSED, Reply, refusal};
use std::alloc::{AllocError, Global};
use ulfm_job::{Clause, JobFault, MOST_STEPS, Place, Stop};
use ulfm_reader::{Filed, Name, ReadJob, Reading};

/// What a text asks for, with the stops of a place, or the reply that its job is refused, or hasn't this place.
pub fn asked_at(
    alloc: Global,
    place: Place,
    bytes: &[u8],
) -> Result<Result<Reading, Reply>, AllocError>
    ensures { IfOk result (IsAsked place bytes.now) }
{
    match Reading::read(alloc, bytes) {
        Ok(read) => placed(alloc, place, read),
        Err(fault) => Ok(Err(refusal(fault))),
    }
}

/// What was read, with the stops of a place, or the reply that the job hasn't this place, or no room for these stops.
fn placed(alloc: Global, place: Place, read: Reading) -> Result<Result<Reading, Reply>, AllocError>
    ensures { (bytes : List ℕ) → reading_of_bytes bytes ≡ Ok (reading_as (asked_view read)) → IfOk result (IsAsked place bytes) }
{
    if !place.is_inside(&read.job) {
        return Ok(Err(no_place(place)));
    }
    if read.job.len() + place.len() > MOST_STEPS {
        return Ok(Err(refusal(JobFault::TooLarge)));
    }
    Ok(Ok(stopped_at(alloc, place, &read)?))
}

/// What was read, as far as it holds at a place that its job has, with the stops of that.
pub fn stopped_at(alloc: Global, place: Place, read: &Reading) -> Result<Reading, AllocError>
    requires { IsPlaceOf read.now.job place }
    ensures { IfOk result (λ made. asked_view made ≡ asked_at place (asked_view read.now)) }
{
    let read = held_at(alloc, place, read)?;
    with_stops(alloc, place, read)
}

/// What was read and holds at a place, with the stops of that.
fn with_stops(alloc: Global, place: Place, read: Reading) -> Result<Reading, AllocError>
    requires { IsPlaceOf read.job place }
    ensures { IfOk result (λ made. asked_view made ≡ beside_stops place (asked_view read)) }
{
    match place {
        Place::Nowhere => Ok(read),
        Place::One(stop) => asked_beside(alloc, stop, &read),
        Place::Two(first, second) => {
            let read = asked_beside(alloc, first, &read)?;
            asked_beside(alloc, second, &read)
        }
    }
}

/// The reply to a place that a job hasn't.
fn no_place(place: Place) -> Reply
    ensures status { result.status ≡ 1 }
    ensures body { result.body ≡ NoPlace place }
{
    Reply {
        status: JOB_REFUSED,
        body: Body::NoPlace(place),
        remarks: None,
    }
}

/// What was read and holds at its place, with one more stop of its job: steps of its rank behind the stop have a number more, by which rows, names
/// and places in the file then tell them.
fn asked_beside(alloc: Global, stop: Stop, read: &Reading) -> Result<Reading, AllocError>
    requires { IsStopOf read.now.job stop }
    ensures { IfOk result (λ made. asked_view made ≡ asked_beside stop (asked_view read.now)) }
{
    let len = read.job.script_len(stop.rank);
    let never = rows_beside(alloc, stop, len, read.never.as_slice())?;
    let names = names_beside(alloc, stop, len, read.names.as_slice())?;
    let filed = filed_beside(alloc, stop, len, read.filed.as_slice())?;
    match stop.job(&read.job) {
        Ok(job) => Ok(Reading {
            job,
            never,
            texts: copied_texts(alloc, read.texts.as_slice())?,
            names,
            filed,
            provisos: Vec::new(alloc),
        }),
        Err(_) => Err(AllocError),
    }
}

/// Rows by the numbers that steps have beside a stop.
fn rows_beside(
    alloc: Global,
    stop: Stop,
    len: usize,
    rows: &[Vec<Clause>],
) -> Result<Vec<Vec<Clause>>, AllocError>
    requires { len ≤ 256 }
    ensures { IfOk result (λ moved. rows_of moved.items ≡ map (clauses_beside stop len) (rows_of rows.now)) }
{
    let mut moved = Vec::new(alloc);
    for row in rows {
        moved.push(stop.clauses(alloc, len, row.as_slice())?)?;
    }
    Ok(moved)
}

/// Names by the numbers that steps have beside a stop.
fn names_beside(
    alloc: Global,
    stop: Stop,
    len: usize,
    names: &[Name],
) -> Result<Vec<Name>, AllocError>
    requires { len ≤ 256 }
    ensures { IfOk result (λ moved. moved.items ≡ map (name_beside stop len) names.now) }
{
    let mut moved = Vec::new(alloc);
    for name in names {
        moved.push(Name {
            rank: name.rank,
            at: number_beside(stop, len, name.rank, name.at),
            text: name.text.copy(),
        })?;
    }
    Ok(moved)
}

/// Places in the file by the numbers that steps have beside a stop.
fn filed_beside(
    alloc: Global,
    stop: Stop,
    len: usize,
    filed: &[Filed],
) -> Result<Vec<Filed>, AllocError>
    requires { len ≤ 256 }
    ensures { IfOk result (λ moved. moved.items ≡ map (filed_beside stop len) filed.now) }
{
    let mut moved = Vec::new(alloc);
    for one in filed {
        moved.push(Filed {
            rank: one.rank,
            at: number_beside(stop, len, one.rank, one.at),
            place: one.place,
        })?;
    }
    Ok(moved)
}

/// The number that a step of a rank has beside a stop.
fn number_beside(stop: Stop, len: usize, rank: u8, at: u16) -> u16
    requires { len ≤ 256 }
    ensures { result ≡ number_beside stop len rank at }
{
    if rank == stop.rank {
        stop.number(len, at)
    } else {
        at
    }
}
