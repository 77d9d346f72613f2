//! Words that answers begin with, and what a step expects of its own answer.
ghost use Rattle.std.specs.Prelude.{◌≡◌, ◌≤◌, [], OnOk, codes, length, true};
ghost use Rattle.toml.specs.Data.{as_str, get_member};
ghost use Rattle.toml.specs.View.{view, table_view, items_view};
ghost use Rattle.ulfm_reader.specs.JobText.{Gives, in_step};
ghost use Rattle.ulfm_reader.specs.Plan.{order_of};
ghost use Rattle.ulfm_reader.specs.inside.Reading.{map_ok, may_begin};
ghost use Rattle.ulfm_reader.specs.Reacting.{are_few, clauses_with, expected_in, few_words, words_in, words_onto};

use crate::asker::Asker;
use crate::beginnings::{may_ask, may_expect};
use crate::fields::value_at;
use crate::proviso::items_by;
use std::alloc::Global;
use toml::{Table, Value};
use ulfm_base::OutOfMemory;
use ulfm_job::limits::MOST_ITEMS;
use ulfm_job::{Clause, Fault, JobFault, Step, Text};

/// Whether the words fit an answer of the step, of a condition or of what is expected.
fn may_begin(is_condition: bool, asked: &Step, words: &str) -> bool
    ensures { result ≡ may_begin is_condition asked.now words.now }
{
    if is_condition {
        may_ask(asked, words)
    } else {
        may_expect(asked, words)
    }
}

/// The words of a value, where they fit.
fn words_in<'a>(is_condition: bool, asked: &Step, value: &'a Value) -> Result<&'a str, Fault>
    ensures { map_ok (λ s. s.now) result ≡ words_in (may_begin is_condition asked.now) (as_str (view value.now)) }
{
    let Some(words) = value.as_str() else {
        return Err(Fault::BadKey);
    };
    if may_begin(is_condition, asked, words) {
        Ok(words)
    } else {
        Err(Fault::OutOfRange)
    }
}

/// The words of values.
fn all_words(
    alloc: Global,
    place: u16,
    is_condition: bool,
    asked: &Step,
    values: &[Value],
) -> Result<Vec<Text>, JobFault>
    ensures { Gives (λ texts. texts.items) result (in_step place (words_onto (may_begin is_condition asked.now) [] (items_view values.now))) }
{
    let mut texts = Vec::new(alloc);
    for value in values {
        let words = match words_in(is_condition, asked, value) {
            Ok(words) => words,
            Err(fault) => return Err(JobFault::InStep(fault, place)),
        };
        let words = Text::new(alloc, words)?;
        texts.push(words)?;
    }
    Ok(texts)
}

/// Whether there are 1 to 16 values.
pub fn are_few(values: &[Value]) -> bool
    ensures exact { result ≡ are_few (items_view values.now) }
    ensures few { result ≡ true → length values.now ≤ 16 }
{
    !values.is_empty() && values.len() <= MOST_ITEMS
}

/// The words of 1 to 16 values.
pub fn few_words(
    alloc: Global,
    place: u16,
    is_condition: bool,
    asked: &Step,
    values: &[Value],
) -> Result<Vec<Text>, JobFault>
    ensures { Gives (λ texts. texts.items) result (in_step place (few_words (may_begin is_condition asked.now) (items_view values.now))) }
{
    if !are_few(values) {
        return Err(JobFault::InStep(Fault::OutOfRange, place));
    }
    all_words(alloc, place, is_condition, asked, values)
}

/// Clauses of a step's own answer behind those that are there, one for each of these words.
fn push_clauses(
    clauses: &mut Vec<Clause>,
    rank: u8,
    at: u16,
    texts: &[Text],
) -> Result<(), OutOfMemory>
    ensures { OnOk result (clauses.new.items ≡ clauses_with rank at clauses.old.items texts.now) }
{
    for text in texts {
        let words = text.copy(*clauses.allocator())?;
        clauses.push(Clause {
            rank,
            at,
            step: at,
            words,
        })?;
    }
    Ok(())
}

/// What the step expects by the key `expect`, where it is there: a list of 1 to 16 words, or a table with one.
pub fn push_expected(
    clauses: &mut Vec<Clause>,
    asker: &Asker<'_>,
    step: &Step,
    table: &Table,
) -> Result<(), JobFault>
    ensures { Gives (λ _. clauses.new.items) result (in_step asker.now.place (expected_in asker.now.rank asker.now.at (order_of step.now) clauses.old.items (get_member (codes "expect") (table_view table.now)))) }
{
    let Some(value) = value_at(table, "expect") else {
        return Ok(());
    };
    let Some(values) = items_by(value, "is") else {
        return Err(JobFault::InStep(Fault::BadKey, asker.place));
    };
    let texts = few_words(*clauses.allocator(), asker.place, false, step, values)?;
    push_clauses(clauses, asker.rank, asker.at, texts.as_slice())?;
    Ok(())
}
