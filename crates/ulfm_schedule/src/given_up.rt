//! What steps wait for that were given up, by the reports of a job.

use crate::held::{Held, all_held, enters_behind, held_at};
use crate::missed::{Missed, missed_step};
use crate::{Remark, Wait, WaitingStep, awaited, due_of, need_of, position_by};
use std::alloc::Global;
use ulfm_answer::StepAnswer;
use ulfm_base::OutOfMemory;
use ulfm_job::{Job, Step};
use ulfm_log::{Entry, tells_gone};
use ulfm_script::{RankReport, played_at};

/// A step that was given up, or answered only by what others did behind such steps.
#[derive(Drop)]
pub(crate) struct GivenUp<'a> {
    /// Of the rank with this report.
    pub(crate) report: &'a RankReport,
    /// Its number.
    pub(crate) step: usize,
    /// The step by which it waits, as it is played: of a wait the receive.
    pub(crate) need: Step,
    /// At which position of its communicator the rank stands.
    pub(crate) position: Option<u8>,
    /// So much stood in the log of the rank.
    pub(crate) known: usize,
}

impl<'a> GivenUp<'a> {
    /// The step of a number, where it waits for something.
    pub(crate) fn of(job: &Job, report: &'a RankReport, step: usize) -> Option<GivenUp<'a>> {
        let me = report.me().number;
        let asked = played_at(job, me, report.steps(), step)?.bodiless()?;
        let need = need_of(job, me, report.steps(), &asked)?;
        let answered = report.steps().get(step)?;
        let known = match answered.answer {
            // It was open before the item that was taken then.
            StepAnswer::Done(_, _) | StepAnswer::Found(_, _) | StepAnswer::Over(_) => {
                answered.at.saturating_sub(1)
            }
            _ => known_by(report.log(), answered.at),
        };
        Some(GivenUp {
            report,
            step,
            position: position_by(report.rank(), &need),
            need,
            known,
        })
    }

    /// Whether it was answered by a decision.
    fn is_decided(&self) -> bool {
        match self.report.steps().get(self.step) {
            Some(step) => matches!(
                step.answer,
                StepAnswer::Shrunk(_, _, _) | StepAnswer::Agreed(_, _)
            ),
            None => false,
        }
    }
}

/// What each step of a job's ranks with these reports waited for that was given up, or that would be open for ever but for such steps.
///
/// # Errors
///
/// `OutOfMemory` where a growth was refused.
pub(crate) fn given_up(
    alloc: Global,
    job: &Job,
    reports: &[RankReport],
) -> Result<Vec<Wait>, OutOfMemory> {
    let held = all_held(alloc, job, reports)?;
    let held = held.as_slice();
    let mut waits = Vec::new(alloc);
    for report in reports {
        if let Some(own) = held_at(held, report.me().number) {
            if !own.is_given_up {
                add_step(&mut waits, job, reports, held, report, own.step)?;
            }
        }
        for (number, step) in report.steps().iter().enumerate() {
            if matches!(step.answer, StepAnswer::Unfinished) {
                add_step(&mut waits, job, reports, held, report, number)?;
            }
        }
    }
    Ok(waits)
}

/// Adds what a step waits for.
fn add_step(
    waits: &mut Vec<Wait>,
    job: &Job,
    reports: &[RankReport],
    held: &[Option<Held>],
    report: &RankReport,
    step: usize,
) -> Result<(), OutOfMemory> {
    let Some(given) = GivenUp::of(job, report, step) else {
        return Ok(());
    };
    if given.is_decided() {
        return add_decided(waits, job, reports, held, &given);
    }
    for s in ranks_of(*waits.allocator(), &given)? {
        if let Some(source) = reports.get(s as usize) {
            waits.push(wait_on(job, held, &given, source)?)?;
        }
    }
    Ok(())
}

/// Adds what a step waits for that was decided: the entry of each member that entered behind where it would stand.
fn add_decided(
    waits: &mut Vec<Wait>,
    job: &Job,
    reports: &[RankReport],
    held: &[Option<Held>],
    given: &GivenUp<'_>,
) -> Result<(), OutOfMemory> {
    for s in members(*waits.allocator(), given)? {
        if enters_behind(job, reports, held, given, s) {
            if let Some(source) = reports.get(s as usize) {
                waits.push(wait_on(job, held, given, source)?)?;
            }
        }
    }
    Ok(())
}

/// How much of a log stood there at a poll: its own entry too, where it was the one that entered.
fn known_by(log: &[Entry], at: usize) -> usize {
    match log.get(at) {
        Some(Entry::Entered(_)) => at.saturating_add(1),
        _ => at,
    }
}

/// The other members of the communicator of a shrink or an agreement.
pub(crate) fn members(alloc: Global, given: &GivenUp<'_>) -> Result<Vec<u8>, OutOfMemory> {
    awaited(alloc, given.report.rank(), &[], &given.need)
}

/// Of which ranks it waits for something.
fn ranks_of(alloc: Global, given: &GivenUp<'_>) -> Result<Vec<u8>, OutOfMemory> {
    let rank = given.report.rank();
    let log = given.report.log();
    match log.get(..given.known) {
        Some(log) => awaited(alloc, rank, log, &given.need),
        None => awaited(alloc, rank, log, &given.need),
    }
}

/// What it waits for of a rank.
fn wait_on(
    job: &Job,
    held: &[Option<Held>],
    given: &GivenUp<'_>,
    source: &RankReport,
) -> Result<Wait, OutOfMemory> {
    let s = source.me().number;
    let missed = missed_step(job, given, source);
    let due = match missed {
        Some(missed) => Some(missed.step),
        None => due_of(&given.need, given.position, job, s, source.steps()),
    };
    let waiting = WaitingStep {
        rank: given.report.me().number,
        step: given.step,
        need: &given.need,
    };
    let mut wait = Wait::of(&waiting, job, s, source.steps(), false, due)?;
    wait.remark = match missed {
        Some(missed) => Some(lateness(held, s, missed)),
        None => notice(given, source),
    };
    Ok(wait)
}

/// Why a step of the rank `s` that brought it came too late.
fn lateness(held: &[Option<Held>], s: u8, missed: Missed) -> Remark {
    if missed.is_lost {
        return Remark::Lost;
    }
    match held_at(held, s) {
        Some(own) if missed.step > own.step && own.is_given_up => Remark::AfterGivenUp(own.step),
        Some(own) if missed.step > own.step => Remark::After(own.step),
        _ => Remark::Later,
    }
}

/// That the notice of a rank's stop came later, or hadn't come, if it stopped and the one that waits didn't know it.
fn notice(given: &GivenUp<'_>, source: &RankReport) -> Option<Remark> {
    if !source.stopped() {
        return None;
    }
    let place = given
        .report
        .log()
        .iter()
        .position(|entry| tells_gone(entry, source.me()));
    match place {
        Some(place) if place < given.known => None,
        Some(_) => Some(Remark::NoticeLater),
        None => Some(Remark::NoticeMissing),
    }
}
