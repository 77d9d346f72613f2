//! What is wrong with the rows of `never`.

use crate::answers::may_begin;
use crate::cause::Cause;
use crate::claim::claim_of;
use crate::excerpt::Shown;
use crate::findings::Findings;
use crate::keys::list_at;
use crate::rules::Key;
use crate::script::{Script, op_of};
use std::alloc::AllocError;
use toml::{Table, Value};
use ulfm_job::Op;
use ulfm_job::limits::{FEWEST_OF_ROW, MOST_OF_ROW, MOST_WORDS};
use ulfm_reader::MOST_ROWS;

/// Tells how many rows there are, where there may not be so many, and then what is wrong with each, after all steps.
pub fn explain_never(
    findings: &mut Findings<'_>,
    steps: &[Value],
    table: &Table,
) -> Result<(), AllocError> {
    let Some(filed) = list_at(table, "never") else {
        return Ok(());
    };
    if filed.is_empty() || filed.len() > MOST_ROWS {
        return tell(findings, Cause::Rows(filed.len()));
    }
    let Some(rows) = &findings.lines.rows else {
        return tell(findings, Cause::ManyRows);
    };
    explain_lengths(findings, filed)?;
    let mut told = Vec::new(findings.alloc);
    for row in rows {
        for text in counted_texts(row) {
            if let (Some(wrong), false) = (wrong_in(steps, row, text), findings.is_full()) {
                explain_text(findings, filed, &mut told, text, wrong)?;
            }
        }
    }
    Ok(())
}

/// Tells of rows that have too few texts, or too many.
fn explain_lengths(findings: &mut Findings<'_>, filed: &[Value]) -> Result<(), AllocError> {
    for (number, row) in filed.iter().enumerate() {
        match texts_of(row) {
            Some(texts) if !is_length(texts.len()) => {
                tell(findings, Cause::RowLength(number, texts.len()))?;
            }
            _ => {}
        }
    }
    Ok(())
}

/// Whether a row may have so many texts.
fn is_length(texts: usize) -> bool {
    FEWEST_OF_ROW <= texts && texts <= MOST_OF_ROW
}

/// The texts of a row, where it may have so many.
fn counted_texts(row: &Value) -> &[Value] {
    match texts_of(row) {
        Some(texts) if is_length(texts.len()) => texts,
        _ => &[],
    }
}

/// The texts of a row.
fn texts_of(row: &Value) -> Option<&[Value]> {
    match row.as_table() {
        Some(table) => list_at(table, "row"),
        None => Some(row.as_array()?.as_slice()),
    }
}

/// Tells a cause, at the key `never`.
pub(crate) fn tell(findings: &mut Findings<'_>, cause: Cause) -> Result<(), AllocError> {
    let at = findings.place_of(None, "never");
    findings.tell(at, None, cause)
}

/// What is wrong with a text of a row.
#[derive(Clone, Copy)]
enum Wrong {
    NoPlace,
    NoRanks,
    NoStep,
    Long(usize),
    NoAnswer(Op),
}

impl Wrong {
    /// Why a text of a row, which is shown so, names no answer.
    fn cause(self, shown: Shown) -> Cause {
        match self {
            Wrong::NoPlace => Cause::NoPlace(shown),
            Wrong::NoRanks => Cause::NoRanks(shown),
            Wrong::NoStep => Cause::NoStep(shown),
            Wrong::Long(count) => Cause::LongWords(Key::Never, count),
            Wrong::NoAnswer(op) => Cause::NoAnswer(Key::Never, shown, op),
        }
    }
}

/// Tells what is wrong with a text of a row, by the text of the file from which it is written out: each of those once.
fn explain_text<'a>(
    findings: &mut Findings<'_>,
    filed: &'a [Value],
    told: &mut Vec<&'a str>,
    text: &'a Value,
    wrong: Wrong,
) -> Result<(), AllocError> {
    let Some(source) = source_of(filed, text) else {
        return Ok(());
    };
    if told.iter().any(|earlier| *earlier == source) {
        return Ok(());
    }
    told.push(source)?;
    let shown = Shown::new(findings.alloc, source)?;
    tell(findings, wrong.cause(shown))
}

/// The text of the file from which one is written out: it, or else one of all ranks or of any that says the same of a rank.
fn source_of<'a>(filed: &'a [Value], text: &'a Value) -> Option<&'a str> {
    let text = text.as_str()?;
    if filed.iter().any(|row| has_text(row, text)) {
        return Some(text);
    }
    Some(over_ranks(filed, text).unwrap_or(text))
}

/// Whether a row has this text.
fn has_text(row: &Value, text: &str) -> bool {
    let texts = texts_of(row).unwrap_or(&[]);
    texts.iter().any(|own| own.as_str() == Some(text))
}

/// The first text over ranks that says of a rank what this one says.
fn over_ranks<'a>(filed: &'a [Value], text: &str) -> Option<&'a str> {
    let (_, said) = text.split_once('.')?;
    for row in filed {
        for own in texts_of(row).unwrap_or(&[]) {
            if said_over_ranks(own) == Some(said) {
                return own.as_str();
            }
        }
    }
    None
}

/// What a text over ranks says of each.
fn said_over_ranks(text: &Value) -> Option<&str> {
    let text = text.as_str()?;
    match text.strip_prefix("all.") {
        Some(said) => Some(said),
        None => text.strip_prefix("any."),
    }
}

/// Whether a text over ranks says no answer.
fn lacks_answer(text: &Value) -> bool {
    match said_over_ranks(text) {
        Some(said) => !said.contains(' '),
        None => false,
    }
}

/// What is wrong with a text of a row that is written out. Where one over ranks says no answer, the others of its row say nothing wrong.
fn wrong_in(steps: &[Value], row: &Value, text: &Value) -> Option<Wrong> {
    if said_over_ranks(text).is_none() {
        return wrong_of(steps, text.as_str()?);
    }
    if lacks_answer(text) {
        Some(Wrong::NoPlace)
    } else if texts_of(row)?.iter().any(|other| lacks_answer(other)) {
        None
    } else {
        Some(Wrong::NoRanks)
    }
}

/// What is wrong with a text of one rank.
fn wrong_of(steps: &[Value], text: &str) -> Option<Wrong> {
    let Some(claim) = claim_of(text) else {
        return Some(Wrong::NoPlace);
    };
    let rank = claim.rank;
    let step = match claim.number(steps) {
        Some(number) => Script { steps, rank }.step(number),
        None => None,
    };
    let Some(step) = step else {
        return Some(Wrong::NoStep);
    };
    match op_of(step) {
        Some(_) if claim.words.len() > MOST_WORDS => Some(Wrong::Long(claim.words.len())),
        Some(op) if !may_begin(op, Key::Never, claim.words) => Some(Wrong::NoAnswer(op)),
        _ => None,
    }
}
