//! The text of a job, written out.
ghost use Rattle.std.specs.Prelude.{◌≡◌, ◌<◌, Some, map, option_map, IfOk};
ghost use Rattle.toml.specs.View.{table_view, view};
ghost use Rattle.ulfm_reader.specs.Documents.{lines_in, ranks_in, ranks_or_eight, rows_in, with_lines, with_rows, written_job};
ghost use Rattle.ulfm_reader.specs.Lines.{line_view};

use crate::fields::value_at;
use crate::line::{Line, steps_of};
use crate::members::{list_at, put};
use crate::rows_written_out::rows_out;
use crate::steps_written_out::written_out;
use crate::unwritten::Unwritten;
use std::alloc::{AllocError, Global};
use toml::{Table, Value};
use ulfm_job::limits::MOST_RANKS;

/// How many ranks a job has that says so; eight where it doesn't.
pub fn ranks_in(table: &Table) -> u8
    ensures exact { result ≡ ranks_in (table_view table.now) }
    ensures some { 0 < result }
{
    match value_at(table, "ranks") {
        Some(value) => match value.as_integer() {
            Some(ranks) => ranks_or_eight(ranks),
            None => MOST_RANKS,
        },
        None => MOST_RANKS,
    }
}

/// The number of ranks that a job says it has; eight if no job can have so many.
fn ranks_or_eight(ranks: i64) -> u8
    ensures exact { result ≡ ranks_or_eight (Some ranks) }
    ensures some { 0 < result }
{
    if 1 <= ranks && ranks <= i64::from(MOST_RANKS) {
        ranks as u8
    } else {
        MOST_RANKS
    }
}

/// The steps of a job's table, written out, where it has an array of them, and they aren't more than 256.
///
/// # Errors
///
/// `AllocError` where a growth was refused.
fn lines_in(alloc: Global, table: &Table) -> Result<Option<Vec<Line>>, AllocError>
    ensures { IfOk result (λ found. option_map (λ lines. map line_view lines.items) found ≡ lines_in (table_view table.now)) }
{
    let Some(steps) = list_at(table, "step") else {
        return Ok(None);
    };
    match written_out(alloc, ranks_in(table), steps) {
        Ok(lines) => Ok(Some(lines)),
        Err(Unwritten::TooMany) => Ok(None),
        Err(Unwritten::OutOfMemory) => Err(AllocError),
    }
}

/// The rows of a job's table of these lines, written out, where it has an array of them, and they aren't more than 1,024.
fn rows_in(alloc: Global, table: &Table, lines: &[Line]) -> Result<Option<Vec<Value>>, AllocError>
    ensures { IfOk result (λ found. option_map (λ rows. map view rows.items) found ≡ rows_in (table_view table.now) (Some (map line_view lines.now))) }
{
    match list_at(table, "never") {
        Some(rows) => rows_out(alloc, ranks_in(table), lines, rows),
        None => Ok(None),
    }
}

/// A job's table with its steps and its rows written out; as it is where it has no array of steps, or more than 256.
///
/// # Errors
///
/// `AllocError` where a growth was refused.
pub fn written_job(alloc: Global, table: Table) -> Result<Table, AllocError>
    ensures { IfOk result (λ written. table_view written ≡ written_job (table_view table)) }
{
    match lines_in(alloc, &table)? {
        Some(lines) => with_all(alloc, table, lines.as_slice()),
        None => Ok(table),
    }
}

/// A job's table with the steps of these lines, and its rows written out.
fn with_all(alloc: Global, table: Table, lines: &[Line]) -> Result<Table, AllocError>
    ensures { IfOk result (λ written. table_view written ≡ with_rows (with_lines (table_view table) (Some (map line_view lines.now))) (rows_in (table_view table) (Some (map line_view lines.now)))) }
{
    let rows = rows_in(alloc, &table, lines)?;
    let table = with_lines(alloc, table, lines)?;
    with_rows(alloc, table, rows)
}

/// A job's table with the steps of these lines.
fn with_lines(alloc: Global, table: Table, lines: &[Line]) -> Result<Table, AllocError>
    ensures { IfOk result (λ written. table_view written ≡ with_lines (table_view table) (Some (map line_view lines.now))) }
{
    let mut table = table;
    let steps = steps_of(alloc, lines)?;
    put(alloc, &mut table, "step", Value::Array(steps))?;
    Ok(table)
}

/// A job's table with these rows.
fn with_rows(alloc: Global, table: Table, rows: Option<Vec<Value>>) -> Result<Table, AllocError>
    ensures { IfOk result (λ written. table_view written ≡ with_rows (table_view table) (option_map (λ rows. map view rows.items) rows)) }
{
    let mut table = table;
    if let Some(rows) = rows {
        put(alloc, &mut table, "never", Value::Array(rows))?;
    }
    Ok(table)
}
