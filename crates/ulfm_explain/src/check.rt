//! All faults of a job's text, in the order in which they are looked for.
ghost use Rattle.std.specs.Prelude.{◌≤◌, IfOk, vec_len};

use crate::cause::Cause;
use crate::excerpt::Shown;
use crate::explanation::Explanation;
use crate::findings::Findings;
use crate::lines::lines_of;
use crate::place::{Place, place_at};
use crate::steps::explain_job;
use std::alloc::{AllocError, Global};
use toml::Table;
use ulfm_job::limits::MOST_BYTES;

/// What is wrong with a job's text: all of its faults up to ten, in the order in which the reader of jobs looks for them.
/// A good job has none.
///
/// # Errors
///
/// `AllocError` where a growth was refused.
pub fn explain(alloc: Global, bytes: &[u8]) -> Result<Vec<Explanation>, AllocError>
    ensures few { IfOk result (λ found. vec_len found ≤ 10) }
{
    if bytes.len() > MOST_BYTES {
        return one(alloc, None, Cause::TooManyBytes);
    }
    let text = match str::from_utf8(bytes) {
        Ok(text) => text,
        Err(error) => {
            let place = Some(place_at(bytes, error.valid_up_to()));
            return one(alloc, place, Cause::NotUtf8);
        }
    };
    match toml::table_from_str(alloc, text) {
        Ok(table) => explain_table(alloc, text, &table),
        Err(error) => match error.span() {
            Some(_) if is_program(text) => one(alloc, None, Cause::Program),
            Some(span) => {
                let rest = text.get(span.start..).unwrap_or("");
                let there = Shown::new(alloc, rest.lines().next().unwrap_or(""))?;
                let place = Some(place_at(bytes, span.start));
                one(alloc, place, Cause::NotToml(error, there))
            }
            None => Err(AllocError),
        },
    }
}

/// Whether a text that is no TOML begins a line as programs in C do.
fn is_program(text: &str) -> bool {
    text.lines().any(|line| line.starts_with("#include") || line.starts_with("int main"))
}

/// One explanation alone.
fn one(alloc: Global, place: Option<Place>, cause: Cause) -> Result<Vec<Explanation>, AllocError>
    ensures few { IfOk result (λ found. vec_len found ≤ 10) }
{
    let mut found = Vec::new(alloc);
    found.push(Explanation {
        place,
        step: None,
        name: None,
        cause,
    })?;
    Ok(found)
}

/// What is wrong with the table of a text.
fn explain_table(alloc: Global, text: &str, table: &Table) -> Result<Vec<Explanation>, AllocError>
    ensures few { IfOk result (λ found. vec_len found ≤ 10) }
{
    let lines = lines_of(alloc, table)?;
    let mut findings = Findings::new(alloc, text, &lines)?;
    explain_job(&mut findings, table)?;
    Ok(findings.found.into_vec())
}
