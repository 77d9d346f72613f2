//! What is wrong with a job and with its steps.

use crate::before::{explain_befores, explain_row_tables};
use crate::block::{explain_block, is_block};
use crate::cause::Cause;
use crate::excerpt::Shown;
use crate::explanation::StepPlace;
use crate::findings::Findings;
use crate::keys::{Sheet, integer_at, list_at, text_at};
use crate::mpi::instead_of;
use crate::nearest::nearest_op;
use crate::never::explain_never;
use crate::rules::{Key, any_step_rules, job_rules, step_rules};
use crate::step_clauses::explain_asking;
use std::alloc::AllocError;
use toml::{Table, Value};
use ulfm_job::{MOST_STEPS, Op};
use ulfm_reader::ranks_in;

/// Tells what is wrong with a job: first with its own keys, then with each step, in the order of the file, then with its
/// rows.
pub fn explain_job(findings: &mut Findings<'_>, table: &Table) -> Result<(), AllocError> {
    let ranks = ranks_in(table);
    let sheet = Sheet {
        table,
        rules: job_rules(),
        step: None,
        ranks,
        within: None,
    };
    sheet.explain(findings)?;
    let lines = findings.lines;
    let steps = lines.steps.as_slice();
    if steps.len() > MOST_STEPS {
        let at = findings.place_of_step(Some(MOST_STEPS));
        findings.tell(at, None, Cause::TooManySteps(steps.len()))?;
    } else if lines.are_too_many {
        let at = findings.place_of(None, "step");
        return findings.tell(at, None, Cause::TooManyWritten);
    }
    explain_steps(findings, ranks, steps)?;
    explain_row_tables(findings, table)?;
    explain_befores(findings, ranks, steps, table)?;
    explain_never(findings, steps, table)
}

/// Tells what is wrong with each step, up to ten things. What is wrong with a step for several ranks is told once.
fn explain_steps(
    findings: &mut Findings<'_>,
    ranks: u8,
    steps: &[Value],
) -> Result<(), AllocError> {
    for (in_file, value) in steps.iter().take(MOST_STEPS).enumerate() {
        if findings.is_full() || findings.is_told(in_file) {
            continue;
        }
        if let Some(step) = value.as_table() {
            let place = place_of(ranks, steps, in_file);
            explain_step(findings, ranks, steps, place, step)?;
        }
    }
    Ok(())
}

/// The steps of a job.
pub fn steps_of(table: &Table) -> &[Value] {
    list_at(table, "step").unwrap_or(&[])
}

/// The integer at the rank of a step, if there is one.
pub fn rank_of(step: &Value) -> Option<i64> {
    integer_at(step.as_table()?, Key::Rank)
}

/// The place of the step with this number in the file, in a job of so many ranks.
pub fn place_of(ranks: u8, steps: &[Value], in_file: usize) -> StepPlace {
    let rank = match steps.get(in_file) {
        Some(step) => rank_of(step).filter(|rank| 0 <= *rank && *rank < i64::from(ranks)),
        None => None,
    };
    let of_rank = rank.map(|rank| (rank, steps_before(steps, in_file, rank)));
    StepPlace { in_file, of_rank }
}

/// How many steps of a rank come before the step with this number in the file.
fn steps_before(steps: &[Value], in_file: usize, rank: i64) -> usize {
    let earlier = steps.iter().take(in_file);
    earlier.filter(|step| rank_of(*step) == Some(rank)).count()
}

/// Tells what is wrong with a step.
fn explain_step(
    findings: &mut Findings<'_>,
    ranks: u8,
    steps: &[Value],
    place: StepPlace,
    table: &Table,
) -> Result<(), AllocError> {
    if is_block(table) {
        return explain_block(findings, place);
    }
    let mut sheet = Sheet {
        table,
        rules: any_step_rules(),
        step: Some(place),
        ranks,
        within: None,
    };
    let Some(name) = text_at(table, Key::Op) else {
        return sheet.explain(findings);
    };
    match Op::named(name) {
        Some(op) => {
            sheet.rules = step_rules(op);
            sheet.explain(findings)?;
            explain_asking(findings, steps, place, op, &sheet)
        }
        None => {
            explain_op(findings, place, name)?;
            sheet.explain(findings)
        }
    }
}

/// Tells that there is no such op.
fn explain_op(findings: &mut Findings<'_>, place: StepPlace, op: &str) -> Result<(), AllocError> {
    let shown = Shown::new(findings.alloc, op)?;
    let cause = match instead_of(op) {
        Some(instead) => Cause::NoOp(shown, instead),
        None => Cause::UnknownOp(shown, nearest_op(findings.alloc, op)?),
    };
    let at = findings.place_of(Some(place.in_file), "op");
    findings.tell(at, Some(place), cause)
}
