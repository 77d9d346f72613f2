//! Where ranks would stand if no step were given up.

use crate::given_up::{GivenUp, members};
use crate::missed::missed_step;
use crate::under_way::is_sent;
use std::alloc::Global;
use ulfm_answer::StepAnswer;
use ulfm_base::OutOfMemory;
use ulfm_job::Job;
use ulfm_log::Entry;
use ulfm_script::RankReport;

/// The first step that a rank gave up, or that has its answer by what another rank did behind such a step.
#[derive(Clone, Copy, Debug, PartialEq, Eq)]
pub(crate) struct Held {
    pub(crate) step: usize,
    /// So much of the log stands before that.
    known: usize,
    pub(crate) is_given_up: bool,
}

/// Where the ranks with these reports would stand, each of them if it would.
pub(crate) fn all_held(
    alloc: Global,
    job: &Job,
    reports: &[RankReport],
) -> Result<Vec<Option<Held>>, OutOfMemory> {
    let mut held = Vec::new(alloc);
    let mut rounds = 0_usize;
    for report in reports {
        let own = first_given_up(report);
        if own.is_some() {
            rounds = 1;
        }
        held.push(own)?;
    }
    for report in reports {
        rounds = rounds.saturating_mul(report.steps().len().saturating_add(1));
    }
    for _ in 0..rounds {
        if !hold_more(alloc, job, reports, &mut held)? {
            break;
        }
    }
    Ok(held)
}

/// The first step that a rank gave up, if it did.
fn first_given_up(report: &RankReport) -> Option<Held> {
    for (number, step) in report.steps().iter().enumerate() {
        if matches!(step.answer, StepAnswer::Unfinished) {
            return Some(Held {
                step: number,
                known: step.at,
                is_given_up: true,
            });
        }
    }
    None
}

/// Looks at each rank again, by where the others would stand. Whether one would stand earlier than was known.
fn hold_more(
    alloc: Global,
    job: &Job,
    reports: &[RankReport],
    held: &mut Vec<Option<Held>>,
) -> Result<bool, OutOfMemory> {
    let mut has_changed = false;
    for (number, report) in reports.iter().enumerate() {
        let found = first_held(alloc, job, reports, held.as_slice(), report)?;
        if let (Some(found), Some(place)) = (found, held.get_mut(number)) {
            *place = Some(found);
            has_changed = true;
        }
    }
    Ok(has_changed)
}

/// Where a rank would stand, if it would.
pub(crate) fn held_at(held: &[Option<Held>], rank: u8) -> Option<Held> {
    match held.get(rank as usize) {
        Some(own) => *own,
        None => None,
    }
}

/// Whether a rank comes to a step only behind the one at which it would stand.
pub(crate) fn is_behind(held: &[Option<Held>], rank: u8, step: usize) -> bool {
    match held_at(held, rank) {
        Some(own) => step > own.step,
        None => false,
    }
}

/// The first step of a rank, before the one at which it would stand, that has its answer by what others did behind where they would.
fn first_held(
    alloc: Global,
    job: &Job,
    reports: &[RankReport],
    held: &[Option<Held>],
    report: &RankReport,
) -> Result<Option<Held>, OutOfMemory> {
    let end = match held_at(held, report.me().number) {
        Some(own) => own.step,
        None => report.steps().len(),
    };
    for (number, step) in report.steps().iter().enumerate() {
        if number >= end {
            break;
        }
        let is_held = match step.answer {
            StepAnswer::Shrunk(_, _, _) | StepAnswer::Agreed(_, _) => {
                is_decided_behind(alloc, job, reports, held, report, number)?
            }
            StepAnswer::Done(_, _) | StepAnswer::Found(_, _) | StepAnswer::Over(_) => {
                step.polls > 0 && is_taken_behind(reports, held, report, step.at)
            }
            _ => false,
        };
        if is_held {
            return Ok(Some(Held {
                step: number,
                known: step.at.saturating_sub(1),
                is_given_up: false,
            }));
        }
    }
    Ok(None)
}

/// Whether a member entered the decision of a step behind where it would stand.
fn is_decided_behind(
    alloc: Global,
    job: &Job,
    reports: &[RankReport],
    held: &[Option<Held>],
    report: &RankReport,
    step: usize,
) -> Result<bool, OutOfMemory> {
    let Some(given) = GivenUp::of(job, report, step) else {
        return Ok(false);
    };
    for s in members(alloc, &given)? {
        if enters_behind(job, reports, held, &given, s) {
            return Ok(true);
        }
    }
    Ok(false)
}

/// Whether a rank entered the decision of a step behind where it would stand.
pub(crate) fn enters_behind(
    job: &Job,
    reports: &[RankReport],
    held: &[Option<Held>],
    given: &GivenUp<'_>,
    s: u8,
) -> bool {
    let Some(source) = reports.get(s as usize) else {
        return false;
    };
    match missed_step(job, given, source) {
        Some(missed) => is_behind(held, s, missed.step),
        None => false,
    }
}

/// Whether the item that a rank took before the last poll of a step was sent behind where its sender would stand.
fn is_taken_behind(
    reports: &[RankReport],
    held: &[Option<Held>],
    report: &RankReport,
    at: usize,
) -> bool {
    let last = at.saturating_sub(1);
    let Some(Entry::Took(from, item)) = report.log().get(last) else {
        return false;
    };
    let Some(source) = reports.get(from.number as usize) else {
        return false;
    };
    match held_at(held, from.number) {
        Some(own) => !is_sent(source, own.known, report, last, item.kind()),
        None => false,
    }
}
