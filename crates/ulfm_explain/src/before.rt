//! What is wrong with the names before whose steps every stop has to lie.

use crate::cause::Cause;
use crate::excerpt::Shown;
use crate::findings::Findings;
use crate::keys::{list_at, text_at};
use crate::nearest::{nearest_key, nearest_name};
use crate::never::tell;
use crate::rules::{Key, row_rules};
use crate::script::{is_label, name_of};
use crate::steps::place_of;
use std::alloc::{AllocError, Global};
use toml::{Table, Value};
use ulfm_reader::MOST_ROWS;

/// The rows of `never` as they stand in the file, where they are read.
fn rows_of<'a>(findings: &Findings<'_>, table: &'a Table) -> &'a [Value] {
    match list_at(table, "never") {
        Some(rows) if rows.len() <= MOST_ROWS && findings.lines.rows.is_some() => rows,
        _ => &[],
    }
}

/// Tells of keys that the tables among the rows of `never` don't have.
pub fn explain_row_tables(findings: &mut Findings<'_>, table: &Table) -> Result<(), AllocError> {
    for row in rows_of(findings, table) {
        if let Some(row) = row.as_table() {
            explain_row_table(findings, row)?;
        }
    }
    Ok(())
}

/// Tells of keys that one of them doesn't have, and of a text that can't be a name.
fn explain_row_table(findings: &mut Findings<'_>, row: &Table) -> Result<(), AllocError> {
    let rules = row_rules();
    for name in row.keys() {
        if rules.find(name.as_str()).is_none() {
            let word = Shown::new(findings.alloc, name.as_str())?;
            let nearest = nearest_key(findings.alloc, name.as_str(), &rules)?;
            tell(findings, Cause::UnknownKey(word, nearest, rules))?;
        }
    }
    match text_at(row, Key::Before) {
        Some(name) if !is_label(name) => {
            let shown = Shown::new(findings.alloc, name)?;
            tell(findings, Cause::NotThere(shown, None))
        }
        _ => Ok(()),
    }
}

/// Tells of names that no step has: first of those before whose steps answers are expected, then of those of rows.
pub fn explain_befores(
    findings: &mut Findings<'_>,
    ranks: u8,
    steps: &[Value],
    table: &Table,
) -> Result<(), AllocError> {
    for (in_file, step) in steps.iter().enumerate() {
        if findings.is_full() || findings.is_told(in_file) {
            continue;
        }
        if let Some(name) = missing_in(steps, before_of(step)) {
            let place = place_of(ranks, steps, in_file);
            let at = findings.place_of(Some(in_file), "expect");
            let cause = not_there(findings.alloc, steps, name)?;
            findings.tell(at, Some(place), cause)?;
        }
    }
    for row in rows_of(findings, table) {
        let before = match row.as_table() {
            Some(row) => text_at(row, Key::Before),
            None => None,
        };
        if let Some(name) = missing_in(steps, before) {
            let cause = not_there(findings.alloc, steps, name)?;
            tell(findings, cause)?;
        }
    }
    Ok(())
}

/// The name before whose steps a step expects its answer.
fn before_of(step: &Value) -> Option<&str> {
    text_at(step.as_table()?.get("expect")?.as_table()?, Key::Before)
}

/// That no step has a name, and the nearest that one has.
fn not_there(alloc: Global, steps: &[Value], name: &str) -> Result<Cause, AllocError> {
    let nearest = match nearest_name(alloc, steps, name)? {
        Some(nearest) => Some(Shown::new(alloc, nearest)?),
        None => None,
    };
    Ok(Cause::NotThere(Shown::new(alloc, name)?, nearest))
}

/// A text that may be a name, if no step has that.
fn missing_in<'a>(steps: &[Value], name: Option<&'a str>) -> Option<&'a str> {
    let name = name.filter(|name| is_label(name))?;
    if steps.iter().any(|step| name_of(step) == Some(name)) {
        None
    } else {
        Some(name)
    }
}
