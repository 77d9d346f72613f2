//! What will surely be refused in a job that can be read.
ghost use Rattle.std.specs.Prelude.{◌≤◌, IfOk, vec_len};

use crate::cause::Cause;
use crate::explanation::{Explanation, StepPlace};
use crate::findings::Findings;
use crate::lines::lines_of;
use crate::refusal_cause::Doom;
use crate::script::kept_name;
use crate::steps::place_of;
use crate::sure_refusals::Placed;
use std::alloc::{AllocError, Global};
use toml::{Table, Value};
use ulfm_reader::ranks_in;

/// The steps of a good job that will surely be refused, up to ten, in the order of the file. Steps after a stop of their
/// rank aren't run, so nothing is said of them. A text that is no TOML has none.
///
/// # Errors
///
/// `AllocError` where a growth was refused.
pub fn warnings(alloc: Global, bytes: &[u8]) -> Result<Vec<Explanation>, AllocError>
    ensures few { IfOk result (λ found. vec_len found ≤ 10) }
{
    let Ok(text) = str::from_utf8(bytes) else {
        return Ok(Vec::new(alloc));
    };
    match toml::table_from_str(alloc, text) {
        Ok(table) => table_warnings(alloc, text, &table),
        Err(error) => {
            if error.is_memory() {
                Err(AllocError)
            } else {
                Ok(Vec::new(alloc))
            }
        }
    }
}

/// The warnings of a job's table.
fn table_warnings(alloc: Global, text: &str, table: &Table) -> Result<Vec<Explanation>, AllocError>
    ensures few { IfOk result (λ found. vec_len found ≤ 10) }
{
    let lines = lines_of(alloc, table)?;
    let mut findings = Findings::new(alloc, text, &lines)?;
    if lines.steps.is_empty() {
        findings.tell(None, None, Cause::NoSteps)?;
    }
    warn_of_steps(&mut findings, ranks_in(table), lines.steps.as_slice())?;
    Ok(findings.found.into_vec())
}

/// Tells which of these steps will be refused. What will be refused of a step for several ranks is told once.
fn warn_of_steps(
    findings: &mut Findings<'_>,
    ranks: u8,
    steps: &[Value],
) -> Result<(), AllocError> {
    for (in_file, step) in steps.iter().enumerate() {
        if findings.is_told(in_file) {
            continue;
        }
        let place = place_of(ranks, steps, in_file);
        if let Some((rank, number)) = place.of_rank {
            let placed = Placed {
                steps,
                ranks,
                rank,
                number,
                step,
            };
            warn_of_step(findings, place, placed)?;
        }
    }
    Ok(())
}

/// Tells whether a step will be refused.
fn warn_of_step(
    findings: &mut Findings<'_>,
    place: StepPlace,
    placed: Placed<'_>,
) -> Result<(), AllocError> {
    if placed.is_after_stop() {
        return Ok(());
    }
    let Some(doom) = placed.doom() else {
        return Ok(());
    };
    let at = findings.place_of(Some(place.in_file), doom.key().name());
    let name = other_name(findings.alloc, placed, &doom)?;
    findings.tell(at, Some(place), Cause::Doomed(doom, name))
}

/// The name of the other step of its rank that a step's warning tells of, if it has one.
fn other_name(
    alloc: Global,
    placed: Placed<'_>,
    doom: &Doom,
) -> Result<Option<String>, AllocError> {
    let Some(number) = doom.other() else {
        return Ok(None);
    };
    match placed.sibling(number) {
        Some(step) => kept_name(alloc, step),
        None => Ok(None),
    }
}
