//! Steps for several ranks, one after the other.
ghost use Rattle.std.specs.Prelude.{◌≡◌, ◌+◌, ◌<◌, ◌≤◌, ◌++◌, map, length, IfErr, IfOk, OnOk};
ghost use Rattle.toml.specs.View.{view};
ghost use Rattle.ulfm_reader.specs.Members.{in_table};
ghost use Rattle.ulfm_reader.specs.Ranks.{for_rank};
ghost use Rattle.ulfm_reader.specs.Line.{line, line_view};
ghost use Rattle.ulfm_reader.specs.Shared.{shared_out, step_lines};

use crate::line::Line;
use crate::ranks::{for_rank, placed, shared_by};
use crate::unwritten::Unwritten;
use std::alloc::Global;
use toml::Value;
use ulfm_job::MOST_STEPS;

/// These steps of a job of so many ranks, each for its ranks.
///
/// # Errors
///
/// `TooMany` where there are more than 256; `OutOfMemory` where a growth was refused.
pub fn shared_out(alloc: Global, ranks: u8, steps: &[Value]) -> Result<Vec<Line>, Unwritten>
    requires { 0 < ranks }
    ensures exact { IfOk result (λ lines. map line_view lines.items ≡ shared_out ranks (map view steps.now)) }
    ensures many { IfErr result (λ fault. fault ≡ Unwritten.TooMany → 256 < length (shared_out ranks (map view steps.now))) }
    ensures few { IfOk result (λ lines. length lines.items ≤ 256) }
    ensures more { IfOk result (λ lines. length steps.now ≤ length lines.items) }
{
    let mut lines = Vec::new(alloc);
    for (place, step) in steps.iter().enumerate() {
        push_step(&mut lines, ranks, place as u16, step)?;
    }
    Ok(lines)
}

/// Adds the lines of a step of the file.
pub fn push_step(
    lines: &mut Vec<Line>,
    ranks: u8,
    place: u16,
    step: &Value,
) -> Result<(), Unwritten>
    requires some { 0 < ranks }
    requires few { length lines.old.items ≤ 256 }
    ensures exact { OnOk result (map line_view lines.new.items ≡ map line_view lines.old.items ++ step_lines ranks place (view step.now)) }
    ensures many { IfErr result (λ fault. fault ≡ Unwritten.TooMany → 256 < length lines.old.items + length (step_lines ranks place (view step.now))) }
    ensures few { OnOk result (length lines.new.items ≤ 256) }
    ensures more { OnOk result (length lines.old.items < length lines.new.items) }
{
    let alloc = *lines.allocator();
    let several = shared_by(alloc, ranks, step)?;
    if several.is_empty() {
        check_room(lines.as_slice())?;
        let step = placed(alloc, ranks, step)?;
        lines.push(Line { place, step })?;
        return Ok(());
    }
    push_shared(lines, ranks, place, step, several.as_slice())
}

/// Adds the lines of a step for these ranks.
fn push_shared(
    lines: &mut Vec<Line>,
    ranks: u8,
    place: u16,
    step: &Value,
    several: &[i64],
) -> Result<(), Unwritten>
    requires some { 0 < ranks }
    requires few { length lines.old.items ≤ 256 }
    ensures exact { OnOk result (map line_view lines.new.items ≡ map line_view lines.old.items ++ map (line place) (map (λ r. in_table (λ ms. for_rank ranks ms r) (view step.now)) several.now)) }
    ensures many { IfErr result (λ fault. fault ≡ Unwritten.TooMany → 256 < length lines.old.items + length several.now) }
    ensures few { OnOk result (length lines.new.items ≤ 256) }
    ensures more { OnOk result (length lines.new.items ≡ length lines.old.items + length several.now) }
{
    let alloc = *lines.allocator();
    for rank in several {
        check_room(lines.as_slice())?;
        let step = for_rank(alloc, ranks, step, *rank)?;
        lines.push(Line { place, step })?;
    }
    Ok(())
}

/// That there is room for one more line.
pub fn check_room(lines: &[Line]) -> Result<(), Unwritten>
    requires { length lines.now ≤ 256 }
    ensures room { OnOk result (length lines.now < 256) }
    ensures full { IfErr result (λ fault. (fault ≡ Unwritten.TooMany) × (length lines.now ≡ 256)) }
{
    if lines.len() < MOST_STEPS {
        Ok(())
    } else {
        Err(Unwritten::TooMany)
    }
}
