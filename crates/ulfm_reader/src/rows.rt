//! The rows of answers of which no run may have all.
ghost use Rattle.std.specs.Prelude.{◌≡◌, [], IfErr, codes, is_some, map, option_map};
ghost use Rattle.std.specs.List.{list_all};
ghost use Rattle.toml.specs.Data.{as_str};
ghost use Rattle.toml.specs.View.{view, table_view, items_view};
ghost use Rattle.ulfm_reader.specs.Lines.{line_view};
ghost use Rattle.ulfm_reader.specs.JobText.{Gives, in_job, rows_of};
ghost use Rattle.ulfm_reader.specs.Never.{are_texts, claims_onto, has_before, is_row, is_within, never_items, never_out, row_in, rows_in, rows_onto};
ghost use Rattle.ulfm_reader.specs.Provisos.{items_by};
ghost use Rattle.ulfm_reader.specs.inside.Reading.{draft_view, map_ok};

use crate::claim::claim_at;
use crate::draft::Draft;
use crate::fields::value_at;
use crate::proviso::items_by;
use crate::{Line, MOST_ROWS, rows_out};
use std::alloc::Global;
use toml::{Table, Value};
use ulfm_job::limits::{FEWEST_OF_ROW, MOST_OF_ROW};
use ulfm_job::{Clause, Fault, JobFault, Text};

/// Whether each value is a text.
fn are_texts(values: &[Value]) -> bool
    ensures { result ≡ list_all (λ v. is_some (as_str (view v))) values.now }
{
    values.iter().all(|value| value.is_str())
}

/// Whether there is a list of texts alone.
fn has_texts(values: Option<&[Value]>) -> bool
    ensures { result ≡ are_texts (option_map (λ s. items_view s.now) values.entry) }
{
    match values {
        Some(values) => are_texts(values),
        None => false,
    }
}

/// Whether a table has a text at the key `before`, where there is one.
fn has_before(table: Option<&Table>) -> bool
    ensures { result ≡ has_before (option_map (λ t. table_view t.now) table.entry) }
{
    match table {
        Some(table) => match value_at(table, "before") {
            Some(name) => name.is_str(),
            None => false,
        },
        None => true,
    }
}

/// Whether a value is an array of texts, or a table of one and of a name.
fn is_row(value: &Value) -> bool
    ensures { result ≡ is_row (view value.now) }
{
    has_texts(items_by(value, "row")) && has_before(value.as_table())
}

/// Whether each value is a row.
fn are_rows(values: &[Value]) -> bool
    ensures { result ≡ list_all (λ v. is_row (view v)) values.now }
{
    values.iter().all(|value| is_row(value))
}

/// The array of rows at the key `never`, where it is there.
pub fn never_values(table: &Table) -> Result<Option<&[Value]>, Fault>
    ensures { map_ok (option_map (λ s. items_view s.now)) result ≡ never_items (table_view table.now) }
{
    match value_at(table, "never") {
        Some(value) => match value.as_array() {
            Some(values) => {
                let values = values.as_slice();
                if are_rows(values) {
                    Ok(Some(values))
                } else {
                    Err(Fault::BadKey)
                }
            }
            None => Err(Fault::BadKey),
        },
        None => Ok(None),
    }
}

/// The values of the key `never`, where it is there, with rows over ranks written out.
pub fn never_out(
    alloc: Global,
    ranks: u8,
    lines: &[Line],
    values: Option<&[Value]>,
) -> Result<Option<Vec<Value>>, JobFault>
    ensures { Gives (option_map (λ rows. items_view rows.items)) result (in_job (never_out (map line_view lines.now) ranks (option_map (λ s. items_view s.now) values.entry))) }
{
    let Some(values) = values else {
        return Ok(None);
    };
    match rows_out(alloc, ranks, lines, values)? {
        Some(rows) => Ok(Some(rows)),
        None => Err(JobFault::InJob(Fault::OutOfRange)),
    }
}

/// Whether there are from the least to the most values.
fn is_within(least: usize, most: usize, values: &[Value]) -> bool
    ensures { result ≡ is_within least most (items_view values.now) }
{
    least <= values.len() && values.len() <= most
}

/// The answers that texts name.
fn claims_of(alloc: Global, draft: &Draft, values: &[Value]) -> Result<Vec<Clause>, JobFault>
    ensures { Gives (λ row. row.items) result (in_job (claims_onto (draft_view draft.now).scripts draft.now.names.items [] (items_view values.now))) }
{
    let mut row = Vec::new(alloc);
    for value in values {
        let claim = match claim_at(draft, value) {
            Ok(claim) => claim,
            Err(fault) => return Err(JobFault::InJob(fault)),
        };
        let words = Text::new(alloc, claim.words)?;
        row.push(Clause {
            rank: claim.rank,
            at: claim.step,
            step: claim.step,
            words,
        })?;
    }
    Ok(row)
}

/// The row of a value: 2 to 8 texts.
fn row_in(alloc: Global, draft: &Draft, value: &Value) -> Result<Vec<Clause>, JobFault>
    ensures { Gives (λ row. row.items) result (in_job (row_in (draft_view draft.now).scripts draft.now.names.items (items_by (codes "row") (view value.now)))) }
{
    let Some(values) = items_by(value, "row") else {
        return Err(JobFault::InJob(Fault::BadKey));
    };
    if !is_within(FEWEST_OF_ROW, MOST_OF_ROW, values) {
        return Err(JobFault::InJob(Fault::OutOfRange));
    }
    claims_of(alloc, draft, values)
}

/// The rows of values.
fn rows_of(alloc: Global, draft: &Draft, values: &[Value]) -> Result<Vec<Vec<Clause>>, JobFault>
    ensures { Gives (λ rows. rows_of rows.items) result (in_job (rows_onto (draft_view draft.now).scripts draft.now.names.items [] (items_view values.now))) }
{
    let mut rows = Vec::new(alloc);
    for value in values {
        let row = match row_in(alloc, draft, value) {
            Ok(row) => row,
            Err(fault) => return Err(fault),
        };
        rows.push(row)?;
    }
    Ok(rows)
}

/// The rows of the key `never`, written out, where it is there: 1 to 1,024.
pub fn rows_in(
    alloc: Global,
    draft: &Draft,
    values: Option<&[Value]>,
) -> Result<Vec<Vec<Clause>>, JobFault>
    ensures { Gives (λ rows. rows_of rows.items) result (in_job (rows_in (draft_view draft.now).scripts draft.now.names.items (option_map (λ s. items_view s.now) values.entry))) }
{
    match values {
        Some(values) if is_within(1, MOST_ROWS, values) => rows_of(alloc, draft, values),
        Some(_) => Err(JobFault::InJob(Fault::OutOfRange)),
        None => Ok(Vec::new(alloc)),
    }
}

/// The texts of a row, as they stand in the file.
fn texts_of(alloc: Global, values: &[Value]) -> Result<Vec<Text>, JobFault>
    ensures memory { IfErr result (λ error. error ≡ JobFault.OutOfMemory) }
{
    let mut texts = Vec::new(alloc);
    for value in values {
        if let Some(text) = value.as_str() {
            texts.push(Text::new(alloc, text)?)?;
        }
    }
    Ok(texts)
}

/// The texts of all rows.
pub fn texts_in(alloc: Global, values: Option<&[Value]>) -> Result<Vec<Vec<Text>>, JobFault>
    ensures memory { IfErr result (λ error. error ≡ JobFault.OutOfMemory) }
{
    let mut rows = Vec::new(alloc);
    for value in values.unwrap_or(&[]) {
        if let Some(row) = items_by(value, "row") {
            rows.push(texts_of(alloc, row)?)?;
        }
    }
    Ok(rows)
}
