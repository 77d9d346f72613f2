//! What is wrong with the kind of a row of `never`.

use crate::cause::Cause;
use crate::excerpt::shown_value;
use crate::findings::Findings;
use crate::kind::Kind;
use crate::line::{Line, Part};
use crate::never::tell;
use crate::rules::{Key, row_rules};
use std::alloc::AllocError;
use toml::{Table, Value};

/// What is wrong with the row of a number.
#[derive(Drop)]
pub enum RowFault {
    /// It is this value, and neither a list nor a table.
    NoList(usize, String),
    /// This value stands among its texts.
    NoText(usize, String),
    /// A key that its table lacks.
    Missing(usize, Key),
    /// A key of its table has this value.
    WrongKind(usize, Key, String),
}

impl RowFault {
    /// The line that tells it.
    pub(crate) fn line(&self) -> Line<'_> {
        match self {
            RowFault::NoList(row, found) => Line::Three(
                "row {} of key 'never' is {}, and has to be {}",
                Part::Count(*row),
                Part::Text(found.as_str()),
                Part::Kind(Kind::Row),
            ),
            RowFault::NoText(row, found) => Line::Two(
                "row {} of key 'never' has {} in it, and has to be a list of texts in quotes",
                Part::Count(*row),
                Part::Text(found.as_str()),
            ),
            RowFault::Missing(row, key) => Line::Three(
                "row {} of key 'never' has no key '{}'; it has to be {}",
                Part::Count(*row),
                Part::Key(*key),
                Part::Kind(key.kind(0)),
            ),
            RowFault::WrongKind(row, key, found) => Line::Four(
                "key '{}' in row {} of key 'never' is {}, and has to be {}",
                Part::Key(*key),
                Part::Count(*row),
                Part::Text(found.as_str()),
                Part::Kind(key.kind(0)),
            ),
        }
    }
}

/// Tells of rows that are neither lists of texts nor tables of one and of a name.
pub(crate) fn explain_row_kinds(
    findings: &mut Findings<'_>,
    rows: &[Value],
) -> Result<(), AllocError> {
    for (number, row) in rows.iter().enumerate() {
        match row.as_table() {
            Some(table) => explain_table(findings, number, table)?,
            None => explain_texts(findings, number, row)?,
        }
    }
    Ok(())
}

/// Tells of a row that is no list of texts.
fn explain_texts(
    findings: &mut Findings<'_>,
    number: usize,
    row: &Value,
) -> Result<(), AllocError> {
    let Some(texts) = row.as_array() else {
        let found = shown_value(findings.alloc, row)?;
        return tell(findings, Cause::NoRow(RowFault::NoList(number, found)));
    };
    match texts.iter().find(|text| !text.is_str()) {
        Some(other) => {
            let found = shown_value(findings.alloc, other)?;
            tell(findings, Cause::NoRow(RowFault::NoText(number, found)))
        }
        None => Ok(()),
    }
}

/// Tells of keys that a row's table lacks, or that have another kind there.
fn explain_table(
    findings: &mut Findings<'_>,
    number: usize,
    table: &Table,
) -> Result<(), AllocError> {
    for key in row_rules().required {
        match table.get(key.name()) {
            None => tell(findings, Cause::NoRow(RowFault::Missing(number, *key)))?,
            Some(value) if *key == Key::Row && value.is_array() => {
                explain_texts(findings, number, value)?;
            }
            Some(value) if *key == Key::Before && value.is_str() => {}
            Some(value) => {
                let found = shown_value(findings.alloc, value)?;
                tell(
                    findings,
                    Cause::NoRow(RowFault::WrongKind(number, *key, found)),
                )?;
            }
        }
    }
    Ok(())
}
