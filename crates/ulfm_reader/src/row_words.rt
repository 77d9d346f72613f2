//! The words `all` and `any` of a row of `never`: in one row the first is one rank, and the second is another.
ghost use Rattle.std.specs.Prelude.{◌≡◌, ◌<◌, map, option_map, IfOk};
ghost use Rattle.std.specs.List.{list_any};
ghost use Rattle.toml.specs.Data.{as_table};
ghost use Rattle.toml.specs.View.{view};
ghost use Rattle.ulfm_reader.specs.Iterations.{is_named};
ghost use Rattle.ulfm_reader.specs.Line.{line_view};
ghost use Rattle.ulfm_reader.specs.Rows.{answer_parts, has_step, is_step_there, names, opened, parted, rank_by, said_by, said_of, says};

use crate::iteration::{is_named, is_text};
use crate::line::Line;
use std::alloc::{AllocError, Global};
use toml::Value;

/// The ranks for which the words of a row stand.
#[derive(Clone, Copy)]
pub struct Pair {
    pub all: u8,
    pub any: u8,
}

/// A rank, the name of one of its steps, and how its answer begins, as they are said behind the dot.
#[derive(Clone, Copy)]
pub struct Answer<'a> {
    pub rank: u8,
    pub said: &'a str,
}

/// What stands before the first such character of a text, and what behind it.
fn parted(text: &str, at: char) -> Option<(&str, &str)>
    requires { at < 128 }
    ensures { option_map (λ parts. (parts.0.now, parts.1.now)) result ≡ parted at text.now }
{
    text.split_once(at)
}

/// What a text of a row says before its dot, and behind it.
fn answer_parts(value: &Value) -> Option<(&str, &str)>
    ensures { option_map (λ parts. (parts.0.now, parts.1.now)) result ≡ answer_parts (view value.now) }
{
    match value.as_str() {
        Some(text) => parted(text, '.'),
        None => None,
    }
}

/// Whether a text of a row says this word in place of a rank.
fn says(word: &str, value: &Value) -> bool
    ensures { result ≡ says word.now (view value.now) }
{
    match answer_parts(value) {
        Some((said, _)) => is_text(word, Some(said)),
        None => false,
    }
}

/// Whether one of these texts does.
fn any_says(word: &str, row: &[Value]) -> bool
    ensures { result ≡ list_any (λ v. says word.now (view v)) row.now }
{
    row.iter().any(|value| says(word, value))
}

/// Whether one of a row does.
pub fn names(word: &str, row: &[Value]) -> bool
    ensures { result ≡ names word.now (map view row.now) }
{
    any_says(word, row)
}

/// The rank for which a word stands.
fn rank_by(pair: Pair, word: &str) -> Option<u8>
    ensures { result ≡ rank_by pair.all pair.any word.now }
{
    if word == "all" {
        Some(pair.all)
    } else if word == "any" {
        Some(pair.any)
    } else {
        None
    }
}

/// The rank of a text whose word stands for one, with what it says behind the dot.
pub fn opened(pair: Pair, value: &Value) -> Option<Answer<'_>>
    ensures { option_map (λ o. (o.rank, o.said.now)) result ≡ opened pair.all pair.any (view value.now) }
{
    let (word, said) = answer_parts(value)?;
    let rank = rank_by(pair, word)?;
    Some(Answer { rank, said })
}

/// Whether one of these lines is a step of a rank with this name.
fn any_named(lines: &[Line], rank: i64, name: &str) -> bool
    ensures { result ≡ list_any (λ l. is_named rank name.now (as_table (view l.step))) lines.now }
{
    lines.iter().any(|line| is_named(rank, name, &line.step))
}

/// Whether a rank has a step of this name.
fn has_step(lines: &[Line], rank: i64, name: &str) -> bool
    ensures { result ≡ has_step (map line_view lines.now) rank name.now }
{
    any_named(lines, rank, name)
}

/// Whether the step that is named for a rank, if one is, is there.
pub fn is_step_there(lines: &[Line], answer: Option<Answer<'_>>) -> bool
    ensures { result ≡ is_step_there (map line_view lines.now) (option_map (λ o. (o.rank, o.said.now)) answer.entry) }
{
    match answer {
        Some(answer) => match parted(answer.said, ' ') {
            Some((name, _)) => has_step(lines, i64::from(answer.rank), name),
            None => false,
        },
        None => true,
    }
}

/// A rank, a dot, and what is said behind it.
fn said_of(alloc: Global, rank: u8, said: &str) -> Result<Value, AllocError>
    ensures { IfOk result (λ r. view r ≡ said_of rank said.now) }
{
    Ok(Value::String(format!(in alloc; "{rank}.{said}")?))
}

/// A text with the rank for which its word stands.
pub fn said_by(
    alloc: Global,
    value: &Value,
    answer: Option<Answer<'_>>,
) -> Result<Value, AllocError>
    ensures { IfOk result (λ r. view r ≡ said_by (view value.now) (option_map (λ o. (o.rank, o.said.now)) answer.entry)) }
{
    match answer {
        Some(answer) => said_of(alloc, answer.rank, answer.said),
        None => Ok(value.clone()?),
    }
}
