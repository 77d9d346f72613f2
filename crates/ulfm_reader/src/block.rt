//! A block of steps, which are written several times, or lead to a step of a name where one of them goes wrong.
ghost use Rattle.std.specs.Prelude.{◌≡◌, ◌<◌, Some, map, length, option_map, is_some, IfSome};
ghost use Rattle.std.specs.Option.{option_copied};
ghost use Rattle.toml.specs.View.{table_view, view};
ghost use Rattle.ulfm_reader.specs.Blocks.{block_in, block_of, block_view, goal_in, keys_of, leads_on, leads_to, times_in, times_of};

use crate::fields::value_at;
use crate::iteration::is_text;
use crate::members::{list_at, text_at, text_in};
use toml::{Table, Value};

/// The most iterations of a block.
const MOST_TIMES: i64 = 256;

/// How often the steps are written, where the block says so, and the steps as they stand in the file.
#[derive(Clone, Copy)]
pub struct Block<'a> {
    pub times: Option<u16>,
    pub steps: &'a [Value],
}

/// A number of iterations.
fn times_of(number: i64) -> Option<u16>
    ensures exact { result ≡ times_of (Some number) }
    ensures some { IfSome result (λ n. 0 < n) }
{
    if 1 <= number && number <= MOST_TIMES {
        Some(number as u16)
    } else {
        None
    }
}

/// How often a block says that its steps are written.
fn times_in(table: &Table) -> Option<u16>
    ensures exact { result ≡ times_in (table_view table.now) }
    ensures some { IfSome result (λ n. 0 < n) }
{
    match value_at(table, "repeat") {
        Some(value) => match value.as_integer() {
            Some(number) => times_of(number),
            None => None,
        },
        None => None,
    }
}

/// Whether an error in an item leads to a step.
pub fn has_goal(item: &Value) -> bool
    ensures { result ≡ is_some (goal_in (view item.now)) }
{
    text_in(item, "on_error").is_some()
}

/// Whether one of these items has this name, and none before it leads to another.
fn leads_to(name: &str, behind: &[Value]) -> bool
    ensures { result ≡ leads_to name.now (map view behind.now) }
{
    for item in behind {
        if is_text(name, text_in(item, "name")) {
            return true;
        }
        if has_goal(item) {
            return false;
        }
    }
    false
}

/// Whether the name to which an error leads is that of one of the items behind.
fn leads_on(behind: &[Value], goal: Option<&str>) -> bool
    ensures { result ≡ leads_on (map view behind.now) (option_copied goal.entry) }
{
    match goal {
        Some(name) => leads_to(name, behind),
        None => false,
    }
}

/// How many keys a block has.
fn keys_of(times: Option<u16>, leads: bool) -> usize
    ensures { result ≡ keys_of times leads }
{
    match (times, leads) {
        (None, false) => 0,
        (None, true) => 2,
        (Some(_), false) => 2,
        (Some(_), true) => 3,
    }
}

/// The block that a table is, with these items behind it.
fn block_of<'a>(behind: &[Value], table: &'a Table) -> Option<Block<'a>>
    ensures exact { option_map block_view result ≡ block_of (map view behind.now) (table_view table.now) }
    ensures some { IfSome result (λ block. IfSome block.times (λ n. 0 < n)) }
    ensures steps { IfSome result (λ block. 0 < length block.steps.now) }
{
    let Some(steps) = list_at(table, "steps") else {
        return None;
    };
    let times = times_in(table);
    let leads = leads_on(behind, text_at(table, "on_error"));
    if steps.is_empty() {
        return None;
    }
    if table.len() == keys_of(times, leads) {
        Some(Block { times, steps })
    } else {
        None
    }
}

/// The block that an item is, with these items behind it.
pub fn block_in<'a>(behind: &[Value], item: &'a Value) -> Option<Block<'a>>
    ensures exact { option_map block_view result ≡ block_in (map view behind.now) (view item.now) }
    ensures some { IfSome result (λ block. IfSome block.times (λ n. 0 < n)) }
    ensures steps { IfSome result (λ block. 0 < length block.steps.now) }
{
    match item.as_table() {
        Some(table) => block_of(behind, table),
        None => None,
    }
}
