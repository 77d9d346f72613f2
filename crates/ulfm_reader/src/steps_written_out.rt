//! The steps of a job, written out.
ghost use Rattle.std.specs.Prelude.{◌≡◌, ◌+◌, ◌<◌, ◌≤◌, ◌++◌, map, length, IfErr, IfOk, IfSome, OnOk, is_some};
ghost use Rattle.std.specs.List.{list_any};
ghost use Rattle.toml.specs.View.{view};
ghost use Rattle.ulfm_reader.specs.Blocks.{block_view, goal_in, item_lines, lines_of_block};
ghost use Rattle.ulfm_reader.specs.Guards.{guarded_from};
ghost use Rattle.ulfm_reader.specs.Iterations.{iterated, iterations};
ghost use Rattle.ulfm_reader.specs.Line.{line, line_view};
ghost use Rattle.ulfm_reader.specs.Lines.{lines_of, written_out};
ghost use Rattle.ulfm_reader.specs.Members.{in_table};

use crate::block::{Block, block_in, has_goal};
use crate::guard::guarded;
use crate::iteration::iterated;
use crate::line::{Line, steps_of};
use crate::shared::{check_room, push_step, shared_out};
use crate::unwritten::Unwritten;
use std::alloc::{AllocError, Global};
use toml::Value;

/// The steps of a job of so many ranks, written out.
///
/// # Errors
///
/// `TooMany` where there are more than 256; `OutOfMemory` where a growth was refused.
pub fn written_out(alloc: Global, ranks: u8, items: &[Value]) -> Result<Vec<Line>, Unwritten>
    requires { 0 < ranks }
    ensures exact { IfOk result (λ lines. map line_view lines.items ≡ written_out ranks (map view items.now)) }
    ensures many { IfErr result (λ fault. fault ≡ Unwritten.TooMany → 256 < length (written_out ranks (map view items.now))) }
    ensures few { IfOk result (λ lines. length lines.items ≤ 256) }
{
    let lines = lines_of(alloc, ranks, items)?;
    let lines = with_guards(alloc, items, lines)?;
    Ok(lines)
}

/// The lines of items, by blocks and by ranks.
fn lines_of(alloc: Global, ranks: u8, items: &[Value]) -> Result<Vec<Line>, Unwritten>
    requires { 0 < ranks }
    ensures exact { IfOk result (λ lines. map line_view lines.items ≡ lines_of ranks (map view items.now)) }
    ensures many { IfErr result (λ fault. fault ≡ Unwritten.TooMany → 256 < length (lines_of ranks (map view items.now))) }
    ensures few { IfOk result (λ lines. length lines.items ≤ 256) }
{
    let mut lines = Vec::new(alloc);
    for (place, item) in items.iter().enumerate() {
        push_item(&mut lines, ranks, place as u16, item, &items[place + 1..])?;
    }
    Ok(lines)
}

/// Adds the lines of an item, with these behind it.
fn push_item(
    lines: &mut Vec<Line>,
    ranks: u8,
    place: u16,
    item: &Value,
    behind: &[Value],
) -> Result<(), Unwritten>
    requires some { 0 < ranks }
    requires few { length lines.old.items ≤ 256 }
    ensures exact { OnOk result (map line_view lines.new.items ≡ map line_view lines.old.items ++ item_lines ranks place (map view behind.now) (view item.now)) }
    ensures many { IfErr result (λ fault. fault ≡ Unwritten.TooMany → 256 < length lines.old.items + length (item_lines ranks place (map view behind.now) (view item.now))) }
    ensures few { OnOk result (length lines.new.items ≤ 256) }
    ensures more { OnOk result (length lines.old.items < length lines.new.items) }
{
    match block_in(behind, item) {
        Some(block) => push_block(lines, ranks, place, block),
        None => push_step(lines, ranks, place, item),
    }
}

/// Adds the lines of a block.
fn push_block(
    lines: &mut Vec<Line>,
    ranks: u8,
    place: u16,
    block: Block<'_>,
) -> Result<(), Unwritten>
    requires some { 0 < ranks }
    requires few { length lines.old.items ≤ 256 }
    requires times { IfSome block.times (λ n. 0 < n) }
    requires steps { 0 < length block.steps.now }
    ensures exact { OnOk result (map line_view lines.new.items ≡ map line_view lines.old.items ++ lines_of_block ranks place (block_view block.entry)) }
    ensures many { IfErr result (λ fault. fault ≡ Unwritten.TooMany → 256 < length lines.old.items + length (lines_of_block ranks place (block_view block.entry))) }
    ensures few { OnOk result (length lines.new.items ≤ 256) }
    ensures more { OnOk result (length lines.old.items < length lines.new.items) }
{
    let alloc = *lines.allocator();
    let shared = shared_out(alloc, ranks, block.steps)?;
    let steps = steps_of(alloc, shared.as_slice())?;
    match block.times {
        Some(times) => push_iterations(lines, place, steps.as_slice(), times),
        None => push_all(lines, place, steps.as_slice()),
    }
}

/// Adds lines of these steps.
fn push_all(lines: &mut Vec<Line>, place: u16, steps: &[Value]) -> Result<(), Unwritten>
    requires few { length lines.old.items ≤ 256 }
    ensures exact { OnOk result (map line_view lines.new.items ≡ map line_view lines.old.items ++ map (line place) (map view steps.now)) }
    ensures many { IfErr result (λ fault. fault ≡ Unwritten.TooMany → 256 < length lines.old.items + length steps.now) }
    ensures few { OnOk result (length lines.new.items ≤ 256) }
    ensures more { OnOk result (length lines.new.items ≡ length lines.old.items + length steps.now) }
{
    for step in steps {
        check_room(lines.as_slice())?;
        let step = step.clone()?;
        lines.push(Line { place, step })?;
    }
    Ok(())
}

/// Adds lines of a block's steps in one iteration.
fn push_iteration(
    lines: &mut Vec<Line>,
    place: u16,
    block: &[Value],
    i: u16,
) -> Result<(), Unwritten>
    requires few { length lines.old.items ≤ 256 }
    ensures exact { OnOk result (map line_view lines.new.items ≡ map line_view lines.old.items ++ map (line place) (map (in_table (iterated (map view block.now) i)) (map view block.now))) }
    ensures many { IfErr result (λ fault. fault ≡ Unwritten.TooMany → 256 < length lines.old.items + length block.now) }
    ensures few { OnOk result (length lines.new.items ≤ 256) }
    ensures more { OnOk result (length lines.new.items ≡ length lines.old.items + length block.now) }
{
    let alloc = *lines.allocator();
    for step in block {
        check_room(lines.as_slice())?;
        let step = iterated(alloc, block, i, step)?;
        lines.push(Line { place, step })?;
    }
    Ok(())
}

/// Adds lines of a block's steps in so many iterations.
fn push_iterations(
    lines: &mut Vec<Line>,
    place: u16,
    block: &[Value],
    times: u16,
) -> Result<(), Unwritten>
    requires few { length lines.old.items ≤ 256 }
    ensures exact { OnOk result (map line_view lines.new.items ≡ map line_view lines.old.items ++ map (line place) (iterations (map view block.now) 0 times)) }
    ensures many { IfErr result (λ fault. fault ≡ Unwritten.TooMany → 256 < length lines.old.items + length (iterations (map view block.now) 0 times)) }
    ensures few { OnOk result (length lines.new.items ≤ 256) }
    ensures more { OnOk result (0 < times → length lines.old.items + length block.now ≤ length lines.new.items) }
{
    for i in 0..times {
        push_iteration(lines, place, block, i)?;
    }
    Ok(())
}

/// Whether an error in one of these items leads to a step.
fn leads(items: &[Value]) -> bool
    ensures { result ≡ list_any (λ v. is_some (goal_in (view v))) items.now }
{
    items.iter().any(|item| has_goal(item))
}

/// These lines with the conditions of their guards.
fn with_guards(alloc: Global, items: &[Value], lines: Vec<Line>) -> Result<Vec<Line>, AllocError>
    requires { length lines.items ≤ 256 }
    ensures exact { IfOk result (λ found. map line_view found.items ≡ guarded_from (map view items.now) (map line_view lines.items) 0 (map line_view lines.items)) }
    ensures few { IfOk result (λ found. length found.items ≡ length lines.items) }
{
    // A guard is looked for among all lines before: in a job without `on_error` there is none.
    if leads(items) {
        guarded_lines(alloc, items, lines.as_slice())
    } else {
        Ok(lines)
    }
}

/// Each line with the condition of its guard.
fn guarded_lines(alloc: Global, items: &[Value], lines: &[Line]) -> Result<Vec<Line>, AllocError>
    requires { length lines.now ≤ 256 }
    ensures exact { IfOk result (λ found. map line_view found.items ≡ guarded_from (map view items.now) (map line_view lines.now) 0 (map line_view lines.now)) }
    ensures few { IfOk result (λ found. length found.items ≡ length lines.now) }
{
    let mut found = Vec::new(alloc);
    for (many, line) in lines.iter().enumerate() {
        let step = guarded(alloc, items, lines, many as u16, &line.step)?;
        found.push(Line {
            place: line.place,
            step,
        })?;
    }
    Ok(found)
}
