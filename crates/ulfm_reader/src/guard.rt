//! Conditions by which an error in a block leads to the step that it names.
ghost use Rattle.std.specs.Prelude.{◌≡◌, ◌+◌, ◌<◌, ◌≤◌, ℕ, List, Some, map, IfOk, OnOk};
ghost use Rattle.std.specs.Option.{option_copied};
ghost use Rattle.std.specs.List.{slice_get};
ghost use Rattle.toml.specs.Data.{string};
ghost use Rattle.toml.specs.View.{table_view, view};
ghost use Rattle.ulfm_reader.specs.Guards.{asked, condition, goal_at, goal_of, guarded, guarded_by, guarded_for, guards_behind, guards_beside, guards_in, guards_with, is_reached, number_with, open_guards, rank_in};
ghost use Rattle.ulfm_reader.specs.Blocks.{name_in};
ghost use Rattle.ulfm_reader.specs.Line.{line_view};
ghost use Rattle.ulfm_reader.specs.Ranks.{rank_of};

use crate::answers::{fine_answers_at, has_own};
use crate::fields::value_at;
use crate::iteration::{is_rank, is_text};
use crate::line::Line;
use crate::members::{put, text_at, text_in};
use crate::ranks::rank_of;
use crate::together::asks_with;
use std::alloc::{AllocError, Global};
use toml::{Table, Value};

/// A line whose answer tells whether later ones are played: its number of its rank, and its number of all lines.
#[derive(Clone, Copy)]
pub struct Guard {
    pub number: u16,
    pub at: u16,
}

/// The name to which an error in a line leads, by the item that it comes from.
fn goal_of<'a>(items: &'a [Value], line: &Line) -> Option<&'a str>
    ensures { option_copied result ≡ goal_of (map view items.now) (line_view line.now) }
{
    match items.get(usize::from(line.place)) {
        Some(item) => text_in(item, "on_error"),
        None => None,
    }
}

/// The name to which an error leads in the line of this number.
fn goal_at<'a>(items: &'a [Value], lines: &[Line], at: u16) -> Option<&'a str>
    ensures { option_copied result ≡ goal_at (map view items.now) (map line_view lines.now) at }
{
    match lines.get(usize::from(at)) {
        Some(line) => goal_of(items, line),
        None => None,
    }
}

/// Whether a goal is this name.
fn is_reached(goal: Option<&str>, name: Option<&str>) -> bool
    ensures { result ≡ is_reached (option_copied goal.entry) (option_copied name.entry) }
{
    match goal {
        Some(goal) => is_text(goal, name),
        None => false,
    }
}

/// The guards, where a step of this name comes: an error in those that lead to it leads no further.
fn open_guards(
    items: &[Value],
    lines: &[Line],
    name: Option<&str>,
    guards: Vec<Guard>,
) -> Vec<Guard>
    ensures { result.items ≡ open_guards (map view items.now) (map line_view lines.now) (option_copied name.entry) guards.items }
{
    let mut open = guards;
    open.retain(|guard| !is_reached(goal_at(items, lines, guard.at), name));
    open
}

/// The guards that are asked beside this line.
fn guards_beside(items: &[Value], lines: &[Line], line: &Line, guards: Vec<Guard>) -> Vec<Guard>
    ensures { result.items ≡ guards_beside (map view items.now) (map line_view lines.now) (line_view line.now) guards.items }
{
    if has_own(&line.step) {
        guards
    } else {
        open_guards(items, lines, goal_of(items, line), guards)
    }
}

/// What guards a rank's steps behind this line, which these guard.
fn guards_behind(
    items: &[Value],
    lines: &[Line],
    line: &Line,
    own: Guard,
    guards: Vec<Guard>,
) -> Result<Vec<Guard>, AllocError>
    ensures { IfOk result (λ found. found.items ≡ guards_behind (map view items.now) (map line_view lines.now) (line_view line.now) own.at own.number guards.items) }
{
    if goal_of(items, line).is_none() {
        return Ok(guards);
    }
    let mut behind = guards_beside(items, lines, line, guards);
    behind.push(own)?;
    Ok(behind)
}

/// The rank of a step.
fn rank_in(step: &Value) -> Option<i64>
    ensures { result ≡ rank_in (view step.now) }
{
    match step.as_table() {
        Some(table) => rank_of(table),
        None => None,
    }
}

/// The guards of a rank's steps behind this line, if these guard the line itself.
fn guards_past(
    items: &[Value],
    lines: &[Line],
    line: &Line,
    own: Guard,
    guards: Vec<Guard>,
) -> Result<Vec<Guard>, AllocError>
    ensures { IfOk result (λ found. found.items ≡ guards_behind (map view items.now) (map line_view lines.now) (line_view line.now) own.at own.number (open_guards (map view items.now) (map line_view lines.now) (name_in (line_view line.now).step) guards.items)) }
{
    let open = open_guards(items, lines, text_in(&line.step, "name"), guards);
    guards_behind(items, lines, line, own, open)
}

/// What guards a rank's steps, with this line more, which may be the rank's.
fn guards_by(
    items: &[Value],
    lines: &[Line],
    rank: i64,
    line: &Line,
    own: Guard,
    guards: Vec<Guard>,
) -> Result<Vec<Guard>, AllocError>
    ensures { IfOk result (λ found. found.items ≡ guards_with (map view items.now) (map line_view lines.now) rank own.at own.number guards.items (Some (line_view line.now))) }
{
    if is_rank(rank, rank_in(&line.step)) {
        guards_past(items, lines, line, own, guards)
    } else {
        Ok(guards)
    }
}

/// The guards of a rank's steps, with the line of this number more, which may be the rank's.
fn guards_with(
    items: &[Value],
    lines: &[Line],
    rank: i64,
    own: Guard,
    guards: Vec<Guard>,
) -> Result<Vec<Guard>, AllocError>
    ensures { IfOk result (λ found. found.items ≡ guards_with (map view items.now) (map line_view lines.now) rank own.at own.number guards.items (slice_get (map line_view lines.now) own.at)) }
{
    match lines.get(usize::from(own.at)) {
        Some(line) => guards_by(items, lines, rank, line, own, guards),
        None => Ok(guards),
    }
}

/// So many lines of a rank, with the one of this number, which may be the rank's.
fn number_with(lines: &[Line], rank: i64, number: u16, at: u16) -> u16
    requires few { number ≤ at }
    requires small { at < 65535 }
    ensures exact { result ≡ number_with rank number (slice_get (map line_view lines.now) at) }
    ensures counted { result ≤ at + 1 }
{
    let Some(line) = lines.get(usize::from(at)) else {
        return number;
    };
    if is_rank(rank, rank_in(&line.step)) {
        number + 1
    } else {
        number
    }
}

/// What guards a rank's steps behind the first so many lines.
fn guards_in(
    alloc: Global,
    items: &[Value],
    lines: &[Line],
    rank: i64,
    many: u16,
) -> Result<Vec<Guard>, AllocError>
    ensures { IfOk result (λ found. found.items ≡ guards_in (map view items.now) (map line_view lines.now) rank many) }
{
    let mut number: u16 = 0;
    let mut guards = Vec::new(alloc);
    for at in 0..many {
        guards = guards_with(items, lines, rank, Guard { number, at }, guards)?;
        number = number_with(lines, rank, number, at);
    }
    Ok(guards)
}

/// The condition that the step of this number was answered so.
fn condition(alloc: Global, number: u16, answers: Vec<Value>) -> Result<Value, AllocError>
    ensures { IfOk result (λ r. (words : List (List ℕ)) → map view answers.items ≡ map string words → view r ≡ condition number words) }
{
    let mut table = Table::new(alloc);
    put(alloc, &mut table, "is", Value::Array(answers))?;
    put(alloc, &mut table, "step", Value::Integer(i64::from(number)))?;
    Ok(Value::Table(table))
}

/// What is asked of the line of a guard.
fn asked(alloc: Global, lines: &[Line], guard: Guard) -> Result<Value, AllocError>
    ensures { IfOk result (λ r. view r ≡ asked (map line_view lines.now) guard) }
{
    let answers = fine_answers_at(alloc, lines, guard.at)?;
    condition(alloc, guard.number, answers)
}

/// The conditions that these guards ask for, one of each.
fn asked_of_each(alloc: Global, lines: &[Line], guards: &[Guard]) -> Result<Vec<Value>, AllocError>
    ensures { IfOk result (λ found. map view found.items ≡ map (asked (map line_view lines.now)) guards.now) }
{
    let mut found = Vec::new(alloc);
    for guard in guards {
        found.push(asked(alloc, lines, *guard)?)?;
    }
    Ok(found)
}

/// Puts the conditions of these guards into a step, beside its own.
fn guard_by(
    alloc: Global,
    lines: &[Line],
    table: &mut Table,
    guards: &[Guard],
) -> Result<(), AllocError>
    ensures { OnOk result (table_view table.new ≡ guarded_by (map line_view lines.now) (table_view table.old) guards.now) }
{
    if guards.is_empty() {
        return Ok(());
    }
    let asked = asked_of_each(alloc, lines, guards)?;
    let conditions = asks_with(alloc, asked.as_slice(), value_at(table, "if"))?;
    put(alloc, table, "if", conditions)
}

/// Puts the conditions of its guards into a step behind so many lines, if it has a rank.
fn guard_for(
    alloc: Global,
    items: &[Value],
    lines: &[Line],
    many: u16,
    table: &mut Table,
) -> Result<(), AllocError>
    ensures { OnOk result (table_view table.new ≡ guarded_for (map view items.now) (map line_view lines.now) many (table_view table.old) (rank_of (table_view table.old))) }
{
    let Some(rank) = rank_of(table) else {
        return Ok(());
    };
    let guards = guards_in(alloc, items, lines, rank, many)?;
    let open = open_guards(items, lines, text_at(table, "name"), guards);
    guard_by(alloc, lines, table, open.as_slice())
}

/// A step behind so many lines, with the conditions of its guards.
pub fn guarded(
    alloc: Global,
    items: &[Value],
    lines: &[Line],
    many: u16,
    step: &Value,
) -> Result<Value, AllocError>
    ensures { IfOk result (λ r. view r ≡ guarded (map view items.now) (map line_view lines.now) many (view step.now)) }
{
    match step.clone()? {
        Value::Table(mut table) => {
            guard_for(alloc, items, lines, many, &mut table)?;
            Ok(Value::Table(table))
        }
        other => Ok(other),
    }
}
