//! Rows of `never`, written out: those over ranks for each of them.
ghost use Rattle.std.specs.Prelude.{◌≡◌, ◌++◌, map, option_map, IfOk, OnOk};
ghost use Rattle.std.specs.List.{list_all};
ghost use Rattle.toml.specs.View.{view};
ghost use Rattle.ulfm_reader.specs.Line.{line_view};
ghost use Rattle.ulfm_reader.specs.Rows.{is_pair, is_step_there, opened, row_for, rows_if_over, rows_of, rows_out, rows_over, rows_with, said_at, texts_in, texts_of, with_texts};

use crate::line::Line;
use crate::members::{list_at, list_in, put};
use crate::row_words::{Pair, is_step_there, names, opened, said_by};
use std::alloc::{AllocError, Global};
use toml::Value;

/// The most rows of `never`, written out.
pub const MOST_ROWS: usize = 1024;

/// The texts of a row with the ranks for which their words stand.
fn said_at(alloc: Global, pair: Pair, row: &[Value]) -> Result<Value, AllocError>
    ensures { IfOk result (λ r. view r ≡ said_at pair.all pair.any (map view row.now)) }
{
    let mut texts = Vec::new(alloc);
    for value in row {
        texts.push(said_by(alloc, value, opened(pair, value))?)?;
    }
    Ok(Value::Array(texts))
}

/// An item with these texts: they are the row, or that of its key `row`.
fn with_texts(alloc: Global, value: &Value, row: Value) -> Result<Value, AllocError>
    ensures { IfOk result (λ r. view r ≡ with_texts (view value.now) (view row)) }
{
    match value.clone()? {
        Value::Table(mut table) => {
            put(alloc, &mut table, "row", row)?;
            Ok(Value::Table(table))
        }
        _ => Ok(row),
    }
}

/// Whether the words of a row stand for these ranks: for two, if it has both words.
fn is_pair(row: &[Value], pair: Pair) -> bool
    ensures { result ≡ is_pair (map view row.now) pair.all pair.any }
{
    if names("all", row) && names("any", row) {
        pair.all != pair.any
    } else {
        pair.all == pair.any
    }
}

/// Whether the step that a text names for these ranks is there.
fn is_there(lines: &[Line], pair: Pair, value: &Value) -> bool
    ensures { result ≡ is_step_there (map line_view lines.now) (opened pair.all pair.any (view value.now)) }
{
    is_step_there(lines, opened(pair, value))
}

/// Whether those of each text are.
fn all_there(lines: &[Line], row: &[Value], pair: Pair) -> bool
    ensures { result ≡ list_all (λ v. is_step_there (map line_view lines.now) (opened pair.all pair.any (view v))) row.now }
{
    row.iter().all(|value| is_there(lines, pair, value))
}

/// Whether the steps that a row names for these ranks are there.
fn are_there(lines: &[Line], row: &[Value], pair: Pair) -> bool
    ensures { result ≡ list_all (λ d. is_step_there (map line_view lines.now) (opened pair.all pair.any d)) (map view row.now) }
{
    all_there(lines, row, pair)
}

/// Adds the item for these ranks, where its row stands for them.
fn push_for(
    rows: &mut Vec<Value>,
    lines: &[Line],
    row: &[Value],
    value: &Value,
    pair: Pair,
) -> Result<(), AllocError>
    ensures { OnOk result (map view rows.new.items ≡ map view rows.old.items ++ row_for (map line_view lines.now) (map view row.now) (view value.now) pair.all pair.any) }
{
    if is_pair(row, pair) && are_there(lines, row, pair) {
        let alloc = *rows.allocator();
        let said = said_at(alloc, pair, row)?;
        rows.push(with_texts(alloc, value, said)?)?;
    }
    Ok(())
}

/// Adds those of a rank with each of so many.
fn push_with(
    rows: &mut Vec<Value>,
    lines: &[Line],
    row: &[Value],
    value: &Value,
    all: u8,
    ranks: u8,
) -> Result<(), AllocError>
    ensures { OnOk result (map view rows.new.items ≡ map view rows.old.items ++ rows_with (map line_view lines.now) (map view row.now) (view value.now) ranks all) }
{
    for any in 0..ranks {
        push_for(rows, lines, row, value, Pair { all, any })?;
    }
    Ok(())
}

/// Those of each of so many ranks with each.
fn rows_over(
    alloc: Global,
    lines: &[Line],
    row: &[Value],
    value: &Value,
    ranks: u8,
) -> Result<Vec<Value>, AllocError>
    ensures { IfOk result (λ rows. map view rows.items ≡ rows_over (map line_view lines.now) (map view row.now) (view value.now) ranks) }
{
    let mut rows = Vec::new(alloc);
    for all in 0..ranks {
        push_with(&mut rows, lines, row, value, all, ranks)?;
    }
    Ok(rows)
}

/// Those of a row that has a word for a rank.
fn rows_if_over(
    alloc: Global,
    lines: &[Line],
    row: &[Value],
    value: &Value,
    ranks: u8,
) -> Result<Vec<Value>, AllocError>
    ensures { IfOk result (λ rows. map view rows.items ≡ rows_if_over (map line_view lines.now) (map view row.now) (view value.now) ranks) }
{
    if names("all", row) || names("any", row) {
        rows_over(alloc, lines, row, value, ranks)
    } else {
        Ok(Vec::new(alloc))
    }
}

/// The texts of a row: of an array, or of that at the key `row` of a table.
fn texts_in(value: &Value) -> Option<&[Value]>
    ensures { option_map (λ texts. map view texts.now) result ≡ texts_in (view value.now) }
{
    match value.as_table() {
        Some(table) => list_at(table, "row"),
        None => list_in(value),
    }
}

/// Those texts, or none.
fn texts_of(value: &Value) -> &[Value]
    ensures { map view result.now ≡ texts_of (view value.now) }
{
    match texts_in(value) {
        Some(texts) => texts,
        None => &[],
    }
}

/// The rows for which an item stands.
fn rows_of(
    alloc: Global,
    lines: &[Line],
    ranks: u8,
    value: &Value,
) -> Result<Vec<Value>, AllocError>
    ensures { IfOk result (λ rows. map view rows.items ≡ rows_of (map line_view lines.now) ranks (view value.now)) }
{
    let mut rows = rows_if_over(alloc, lines, texts_of(value), value, ranks)?;
    if rows.is_empty() {
        rows.push(value.clone()?)?;
    }
    Ok(rows)
}

/// The rows of a job of so many ranks and of these lines, written out, where they aren't more than 1,024.
///
/// # Errors
///
/// `AllocError` where a growth was refused.
pub fn rows_out(
    alloc: Global,
    ranks: u8,
    lines: &[Line],
    values: &[Value],
) -> Result<Option<Vec<Value>>, AllocError>
    ensures { IfOk result (λ found. option_map (λ rows. map view rows.items) found ≡ rows_out (map line_view lines.now) ranks (map view values.now)) }
{
    let mut rows = Vec::new(alloc);
    for value in values {
        let mut more = rows_of(alloc, lines, ranks, value)?;
        rows.append(&mut more)?;
        if rows.len() > MOST_ROWS {
            return Ok(None);
        }
    }
    Ok(Some(rows))
}
