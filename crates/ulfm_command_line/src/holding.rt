//! What holds at a place of what a job asks only before the steps of a name.
ghost use Rattle.std.specs.Prelude.{◌≡◌, ◌&&◌, ◌++◌, IfOk, OnOk, filter, length, map};
ghost use Rattle.std.specs.List.{list_all, range_with_len};
ghost use Rattle.ulfm_answer.specs.Reacting.{is_of};
ghost use Rattle.ulfm_job.specs.Place.{stops_of};
ghost use Rattle.ulfm_command_line.specs.Holding.{expects, held, held_at, held_row, holds, holds_at, holds_if_about, is_about, is_expected, lie_before, lies_before, stops_at};
ghost use Rattle.ulfm_reader.specs.JobText.{rows_of};
ghost use Rattle.ulfm_command_line.specs.Stopped.{asked_view};

use crate::copied::{
    copied_clauses, copied_filed, copied_names, copied_provisos, copied_row, copied_texts,
};
use std::alloc::{AllocError, Global};
use ulfm_job::{Clause, Job, Place, Stop, expecting, own_stops};
use ulfm_reader::{Name, Proviso, Reading, Subject, named};

/// Whether a stop lies before the steps of a name: its rank has one, and no more steps come before the stop than before that step.
fn lies_before(names: &[Name], text: &str, stop: Stop) -> bool
    ensures { result ≡ lies_before names.now text.now stop }
{
    match named(names, stop.rank, text) {
        Some(at) => stop.before() <= at as usize,
        None => false,
    }
}

/// Whether each of these stops does.
fn lie_before(names: &[Name], text: &str, stops: &[Stop]) -> bool
    ensures { result ≡ lie_before names.now text.now stops.now }
{
    stops.iter().all(|stop| lies_before(names, text, *stop))
}

/// All stops of a job at a place: its own, and those of the place.
pub fn stops_at(alloc: Global, place: Place, job: &Job) -> Result<Vec<Stop>, AllocError>
    ensures { IfOk result (λ stops. stops.items ≡ stops_at place job.now) }
{
    let mut stops = own_stops(alloc, job)?;
    push_stops(&mut stops, place)?;
    Ok(stops)
}

/// Adds the stops of a place.
fn push_stops(stops: &mut Vec<Stop>, place: Place) -> Result<(), AllocError>
    ensures { OnOk result (stops.new.items ≡ stops.old.items ++ stops_of place) }
{
    match place {
        Place::Nowhere => Ok(()),
        Place::One(stop) => Ok(stops.push(stop)?),
        Place::Two(first, second) => {
            stops.push(first)?;
            Ok(stops.push(second)?)
        }
    }
}

/// Whether a proviso is about this.
fn is_about(subject: Subject, proviso: &Proviso) -> bool
    ensures { result ≡ is_about subject proviso.now }
{
    match (subject, proviso.subject) {
        (Subject::Step(rank, at), Subject::Step(own, number)) => rank == own && at == number,
        (Subject::Row(row), Subject::Row(number)) => row == number,
        _ => false,
    }
}

/// Whether a proviso doesn't keep this from holding where these stops are.
fn holds_if_about(names: &[Name], stops: &[Stop], subject: Subject, proviso: &Proviso) -> bool
    ensures { result ≡ holds_if_about names.now stops.now subject proviso.now }
{
    !is_about(subject, proviso) || lie_before(names, proviso.before.as_str(), stops)
}

/// Whether no proviso of these does.
fn none_keeps(names: &[Name], provisos: &[Proviso], stops: &[Stop], subject: Subject) -> bool
    ensures { result ≡ list_all (holds_if_about names.now stops.now subject) provisos.now }
{
    provisos
        .iter()
        .all(|proviso| holds_if_about(names, stops, subject, proviso))
}

/// Whether what a job asks holds where these stops are.
fn holds(read: &Reading, stops: &[Stop], subject: Subject) -> bool
    ensures { result ≡ holds (asked_view read.now) stops.now subject }
{
    none_keeps(
        read.names.as_slice(),
        read.provisos.as_slice(),
        stops,
        subject,
    )
}

/// Whether a clause is one of what its step expects where these stops are.
fn is_expected(read: &Reading, stops: &[Stop], clause: &Clause) -> bool
    ensures { result ≡ is_expected (asked_view read.now) stops.now clause.now }
{
    holds(read, stops, Subject::Step(clause.rank, clause.at))
}

/// What is expected where these stops are.
fn held_clauses(alloc: Global, stops: &[Stop], read: &Reading) -> Result<Vec<Clause>, AllocError>
    ensures { IfOk result (λ kept. kept.items ≡ filter (is_expected (asked_view read.now) stops.now) read.now.job.expected) }
{
    let mut kept = copied_clauses(alloc, read.job.expected())?;
    kept.retain(|clause| is_expected(read, stops, clause));
    Ok(kept)
}

/// The row of this number, without its answers where it doesn't hold.
fn held_row(
    alloc: Global,
    stops: &[Stop],
    read: &Reading,
    number: usize,
) -> Result<Vec<Clause>, AllocError>
    ensures { IfOk result (λ row. row.items ≡ held_row (asked_view read.now) stops.now number) }
{
    if holds(read, stops, Subject::Row(number)) {
        copied_row(alloc, read.never.as_slice(), number)
    } else {
        Ok(Vec::new(alloc))
    }
}

/// All rows, each so.
fn held_rows(alloc: Global, stops: &[Stop], read: &Reading) -> Result<Vec<Vec<Clause>>, AllocError>
    ensures { IfOk result (λ rows. rows_of rows.items ≡ map (held_row (asked_view read.now) stops.now) (range_with_len 0 (length (rows_of read.now.never.items)))) }
{
    let mut rows = Vec::new(alloc);
    for number in 0..read.never.len() {
        rows.push(held_row(alloc, stops, read, number)?)?;
    }
    Ok(rows)
}

/// What was read, as far as it holds where these stops are.
fn held(alloc: Global, stops: &[Stop], read: &Reading) -> Result<Reading, AllocError>
    ensures { IfOk result (λ made. asked_view made ≡ held stops.now (asked_view read.now)) }
{
    let expected = held_clauses(alloc, stops, read)?;
    Ok(Reading {
        job: expecting(alloc, &read.job, expected)?,
        never: held_rows(alloc, stops, read)?,
        texts: copied_texts(alloc, read.texts.as_slice())?,
        names: copied_names(alloc, read.names.as_slice())?,
        filed: copied_filed(alloc, read.filed.as_slice())?,
        provisos: copied_provisos(alloc, read.provisos.as_slice())?,
    })
}

/// What was read, as far as it holds at a place.
pub(crate) fn held_at(alloc: Global, place: Place, read: &Reading) -> Result<Reading, AllocError>
    ensures { IfOk result (λ made. asked_view made ≡ held_at place (asked_view read.now)) }
{
    let stops = stops_at(alloc, place, &read.job)?;
    held(alloc, stops.as_slice(), read)
}

/// Whether a step of a rank asks for a clause where these stops are.
fn is_expected_of(read: &Reading, stops: &[Stop], rank: u8, step: usize, clause: &Clause) -> bool
    ensures { result ≡ (is_of rank step clause.now && is_expected (asked_view read.now) stops.now clause.now) }
{
    clause.rank == rank && clause.at as usize == step && is_expected(read, stops, clause)
}

/// Whether a step of a rank, by its number in the file, expects some answers where these stops are.
pub fn expects(read: &Reading, stops: &[Stop], rank: u8, step: usize) -> bool
    ensures { result ≡ expects (asked_view read.now) stops.now rank step }
{
    read.job
        .expected()
        .iter()
        .any(|clause| is_expected_of(read, stops, rank, step, clause))
}

/// Whether what a proviso is about holds at a place, by this proviso.
pub fn holds_at(
    alloc: Global,
    place: Place,
    read: &Reading,
    proviso: &Proviso,
) -> Result<bool, AllocError>
    ensures { IfOk result (λ is. is ≡ holds_at place (asked_view read.now) proviso.now) }
{
    let stops = stops_at(alloc, place, &read.job)?;
    Ok(lie_before(
        read.names.as_slice(),
        proviso.before.as_str(),
        stops.as_slice(),
    ))
}
