//! What a job asks only before the steps of a name, where not all stops of the one place that is looked at lie before those.

use crate::misplaced::place_of;
use std::alloc::{AllocError, Global};
use ulfm_command_line::{Remark, Wanted, holds_at, stopped_at};
use ulfm_reader::{Proviso, ReadJob, Reading, Subject};

/// What the job of these bytes doesn't ask where the words stop ranks. Nothing where they ask for the lists of places, whose reply tells it.
pub(crate) fn unheld_in(
    alloc: Global,
    wanted: Wanted,
    bytes: &[u8],
) -> Result<Vec<Remark>, AllocError> {
    let mut remarks = Vec::new(alloc);
    let place = place_of(wanted);
    let Ok(read) = Reading::read(alloc, bytes) else {
        return Ok(remarks);
    };
    if is_of_places(wanted) || read.provisos.is_empty() {
        return Ok(remarks);
    }
    if !place.is_inside(&read.job) {
        return Ok(remarks);
    }
    let made = stopped_at(alloc, place, &read)?;
    for proviso in &read.provisos {
        if !holds_at(alloc, place, &read, proviso)? {
            let moved = moved(&read, &made, proviso);
            remarks.push(Remark::unheld(alloc, &made, &moved)?)?;
        }
    }
    Ok(remarks)
}

/// Whether the words ask for the lists of places.
fn is_of_places(wanted: Wanted) -> bool {
    match wanted {
        Wanted::Outcomes(options) => options.stops.is_some(),
        _ => false,
    }
}

/// A proviso of what was read, by the numbers that steps have with the stops of a place.
fn moved(read: &Reading, made: &Reading, proviso: &Proviso) -> Proviso {
    let subject = match proviso.subject {
        Subject::Step(rank, at) => Subject::Step(rank, moved_at(read, made, rank, at)),
        Subject::Row(row) => Subject::Row(row),
    };
    Proviso {
        subject,
        before: proviso.before.copy(),
    }
}

/// The number of a step there: places in the file stand in the same order with the stops and without.
fn moved_at(read: &Reading, made: &Reading, rank: u8, at: u16) -> u16 {
    let mut both = read.filed.iter().zip(made.filed.iter());
    match both.find(|both| both.0.rank == rank && both.0.at == at) {
        Some((_, there)) => there.at,
        None => at,
    }
}
