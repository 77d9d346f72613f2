//! The keys of a job's table.
ghost use Rattle.std.specs.Prelude.{◌≡◌, IfOk, is_some};
ghost use Rattle.std.specs.List.{list_all};
ghost use Rattle.toml.specs.Data.{as_table};
ghost use Rattle.toml.specs.View.{view, table_view, items_view};
ghost use Rattle.ulfm_reader.specs.inside.Reading.{map_ok, IsHead, head_view};
ghost use Rattle.ulfm_reader.specs.JobText.{step_items, head_of};

use crate::fields::{in_range, only_keys, required_number, value_at};
use crate::rows::never_values;
use toml::{Table, Value};
use ulfm_job::Fault;
use ulfm_job::limits::{MOST_CAPACITY, MOST_RANKS, MOST_TURNS};

/// The job's own keys.
#[derive(Clone, Copy)]
pub struct Head<'a> {
    pub ranks: u8,
    pub capacity: u8,
    pub turns: u32,
    pub steps: &'a [Value],
    pub never: Option<&'a [Value]>,
}

/// Reads the job's own keys.
///
/// # Errors
///
/// `BadKey` where a required key is missing, or one is of another kind; then `UnknownKey`; then `OutOfRange`.
#[tactic(auto, unfolding(crate::specs::JobText::head_of))]
pub fn head_of(table: &Table) -> Result<Head<'_>, Fault>
    ensures exact { map_ok head_view result ≡ head_of (table_view table.now) }
    ensures ranges { IfOk result (λ head. IsHead (head_view head)) }
{
    let ranks = required_number(table, "ranks")?;
    let capacity = required_number(table, "capacity")?;
    let turns = required_number(table, "turns")?;
    let steps = step_values(table)?;
    let never = never_values(table)?;
    only_keys(table, &["ranks", "capacity", "turns", "step", "never"])?;
    let ranks = in_range(ranks, 1, u32::from(MOST_RANKS))?;
    let capacity = in_range(capacity, 1, u32::from(MOST_CAPACITY))?;
    let turns = in_range(turns, 1, MOST_TURNS)?;
    Ok(Head {
        ranks: ranks as u8,
        capacity: capacity as u8,
        turns,
        steps,
        never,
    })
}

/// The array of tables at the key `step`, or no steps.
fn step_values(table: &Table) -> Result<&[Value], Fault>
    ensures { map_ok (λ s. items_view s.now) result ≡ step_items (table_view table.now) }
{
    match value_at(table, "step") {
        Some(value) => match value.as_array() {
            Some(values) => {
                let values = values.as_slice();
                if are_tables(values) {
                    Ok(values)
                } else {
                    Err(Fault::BadKey)
                }
            }
            None => Err(Fault::BadKey),
        },
        None => Ok(&[]),
    }
}

fn are_tables(values: &[Value]) -> bool
    ensures { result ≡ list_all (λ v. is_some (as_table (view v))) values.now }
{
    values.iter().all(|value| value.is_table())
}
