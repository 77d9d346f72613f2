//! How the answers begin with which steps go well.
ghost use Rattle.std.specs.Prelude.{◌≡◌, Some, map, IfOk};
ghost use Rattle.std.specs.List.{slice_get};
ghost use Rattle.std.specs.Option.{option_copied};
ghost use Rattle.toml.specs.Data.{string};
ghost use Rattle.toml.specs.View.{view};
ghost use Rattle.ulfm_reader.specs.Guards.{answers_of, fine_answers, has_own};
ghost use Rattle.ulfm_reader.specs.Line.{line_view};

use crate::line::Line;
use crate::members::text_in;
use std::alloc::{AllocError, Global};
use toml::Value;
use ulfm_job::Op;

/// Words as the items of an array.
fn words_of(alloc: Global, words: &[&str]) -> Result<Vec<Value>, AllocError>
    ensures { IfOk result (λ found. map view found.items ≡ map string (map (λ s. s.now) words.now)) }
{
    let mut found = Vec::new(alloc);
    for word in words {
        found.push(Value::String(String::from_str(alloc, word)?))?;
    }
    Ok(found)
}

/// The good answers of a step, if it has an op. A text that is no op is taken for a stop: the job is refused anyway.
fn answers_of(alloc: Global, op: Option<&str>) -> Result<Vec<Value>, AllocError>
    ensures { IfOk result (λ found. map view found.items ≡ map string (answers_of (option_copied op.entry))) }
{
    match op {
        Some(name) => words_of(alloc, Op::named(name).unwrap_or(Op::Stop).good_answers()),
        None => Ok(Vec::new(alloc)),
    }
}

/// Whether a step has a condition of its own.
pub fn has_own(step: &Value) -> bool
    ensures { result ≡ has_own (view step.now) }
{
    step.get("if").is_some()
}

/// The answers with which a line leads nowhere.
fn fine_answers(alloc: Global, line: &Line) -> Result<Vec<Value>, AllocError>
    ensures { IfOk result (λ found. map view found.items ≡ map string (fine_answers (Some (line_view line.now)))) }
{
    let mut found = answers_of(alloc, text_in(&line.step, "op"))?;
    if has_own(&line.step) {
        found.push(Value::String(String::from_str(alloc, "skipped")?))?;
    }
    Ok(found)
}

/// The answers with which the line of this number leads nowhere.
pub fn fine_answers_at(alloc: Global, lines: &[Line], at: u16) -> Result<Vec<Value>, AllocError>
    ensures { IfOk result (λ found. map view found.items ≡ map string (fine_answers (slice_get (map line_view lines.now) at))) }
{
    match lines.get(usize::from(at)) {
        Some(line) => fine_answers(alloc, line),
        None => Ok(Vec::new(alloc)),
    }
}
