//! The conditions of a step.
ghost use Rattle.std.specs.Prelude.{◌≡◌, ◌≤◌, Some, codes, length};
ghost use Rattle.toml.specs.Data.{as_array, get_member};
ghost use Rattle.toml.specs.View.{items_view, table_view};
ghost use Rattle.ulfm_reader.specs.JobText.{Gives, in_step};
ghost use Rattle.ulfm_reader.specs.Keys.{required};
ghost use Rattle.ulfm_reader.specs.Plan.{order_of};
ghost use Rattle.ulfm_reader.specs.inside.Reading.{asker_view, map_ok, reference_view};
ghost use Rattle.ulfm_reader.specs.Reacting.{all_in, alternative_of, alternative_onto, asked_in, condition_in, condition_onto, conditions_in, earlier_in, few_tables, tables_onto, words_key};

use crate::asker::Asker;
use crate::clauses::{are_few, few_words};
use crate::fields::{only_keys, required_reference, value_at};
use crate::ranges::req_in;
use crate::reference::Reference;
use std::alloc::Global;
use toml::{Table, Value};
use ulfm_job::{Condition, Fault, JobFault, Step, Texts};

/// An earlier step with its number.
#[derive(Clone, Copy)]
pub(crate) struct Earlier<'a> {
    pub(crate) number: u16,
    pub(crate) step: &'a Step,
}

/// The earlier step that a condition names.
pub(crate) fn earlier_in<'a>(
    asker: &Asker<'a>,
    reference: &Reference<'_>,
) -> Result<Earlier<'a>, Fault>
    ensures { map_ok (λ found. (found.number, order_of found.step.now)) result ≡ earlier_in (asker_view asker.now) (reference_view reference.now) }
{
    let number = req_in(asker.names, asker.rank, reference)?;
    match asker.script.get(number as usize) {
        Some(step) => Ok(Earlier { number, step }),
        None => Err(Fault::OutOfRange),
    }
}

/// The values of an array at a key that has to be there.
fn required_array<'a>(table: &'a Table, key: &str) -> Result<&'a [Value], Fault>
    ensures { map_ok (λ s. items_view s.now) result ≡ required as_array (get_member key.now (table_view table.now)) }
{
    match value_at(table, key) {
        Some(value) => match value.as_array() {
            Some(values) => Ok(values.as_slice()),
            None => Err(Fault::BadKey),
        },
        None => Err(Fault::BadKey),
    }
}

/// The key of a condition's words: `is`, or where that isn't there `not`.
fn words_key(table: &Table) -> &'static str
    ensures { result.now ≡ words_key (table_view table.now) }
{
    match value_at(table, "is") {
        Some(_) => "is",
        None => "not",
    }
}

/// What one table asks for.
#[tactic(auto, unfolding(crate::specs::Reacting::asked_in))]
fn asked_in<'a>(asker: &Asker<'a>, table: &'a Table) -> Result<(Earlier<'a>, &'a [Value]), Fault>
    ensures { map_ok (λ asked. ((asked.0.number, order_of asked.0.step.now), items_view asked.1.now)) result ≡ asked_in (asker_view asker.now) (table_view table.now) }
{
    let key = words_key(table);
    let reference = required_reference(table, "step")?;
    let words = required_array(table, key)?;
    only_keys(table, &["step", key])?;
    let earlier = earlier_in(asker, &reference)?;
    Ok((earlier, words))
}

/// The condition of one table, of this alternative.
fn condition_in(
    alloc: Global,
    asker: &Asker<'_>,
    alternative: u16,
    table: &Table,
) -> Result<Condition, JobFault>
    ensures { Gives (λ condition. condition) result (in_step asker.now.place (condition_in (asker_view asker.now) alternative (table_view table.now))) }
{
    let (earlier, values) = match asked_in(asker, table) {
        Ok(asked) => asked,
        Err(fault) => return Err(JobFault::InStep(fault, asker.place)),
    };
    let words = few_words(alloc, asker.place, true, earlier.step, values)?;
    Ok(Condition {
        rank: asker.rank,
        at: asker.at,
        alternative,
        step: earlier.number,
        is_not: value_at(table, "is").is_none(),
        words: Texts::new(words),
    })
}

/// The condition of one table, behind those that are there.
fn push_condition(
    conditions: &mut Vec<Condition>,
    asker: &Asker<'_>,
    alternative: u16,
    table: &Table,
) -> Result<(), JobFault>
    ensures { Gives (λ _. conditions.new.items) result (in_step asker.now.place (condition_onto (asker_view asker.now) alternative conditions.old.items (Some (table_view table.now)))) }
{
    let condition = condition_in(*conditions.allocator(), asker, alternative, table)?;
    conditions.push(condition)?;
    Ok(())
}

/// The conditions of tables that have to hold together, behind those that are there.
fn push_together(
    conditions: &mut Vec<Condition>,
    asker: &Asker<'_>,
    alternative: u16,
    values: &[Value],
) -> Result<(), JobFault>
    ensures { Gives (λ _. conditions.new.items) result (in_step asker.now.place (tables_onto (λ k. condition_onto (asker_view asker.now) alternative) 0 conditions.old.items (items_view values.now))) }
{
    for value in values {
        match value.as_table() {
            Some(table) => push_condition(conditions, asker, alternative, table)?,
            None => return Err(JobFault::InStep(Fault::BadKey, asker.place)),
        }
    }
    Ok(())
}

/// The values of the key `all`, beside which no other stands.
fn all_in(table: &Table) -> Result<&[Value], Fault>
    ensures { map_ok (λ s. items_view s.now) result ≡ all_in (table_view table.now) }
{
    let values = required_array(table, "all")?;
    only_keys(table, &["all"])?;
    Ok(values)
}

/// The conditions of 1 to 16 tables that have to hold together, behind those that are there.
fn push_few(
    conditions: &mut Vec<Condition>,
    asker: &Asker<'_>,
    alternative: u16,
    values: &[Value],
) -> Result<(), JobFault>
    ensures { Gives (λ _. conditions.new.items) result (in_step asker.now.place (few_tables (λ k. condition_onto (asker_view asker.now) alternative) conditions.old.items (items_view values.now))) }
{
    if !are_few(values) {
        return Err(JobFault::InStep(Fault::OutOfRange, asker.place));
    }
    push_together(conditions, asker, alternative, values)
}

/// The conditions of an alternative, behind those that are there: of one table, or by its key `all` of some that have to hold together.
fn push_alternative(
    conditions: &mut Vec<Condition>,
    asker: &Asker<'_>,
    alternative: u16,
    table: &Table,
) -> Result<(), JobFault>
    ensures { Gives (λ _. conditions.new.items) result (in_step asker.now.place (alternative_of (asker_view asker.now) alternative conditions.old.items (table_view table.now))) }
{
    if value_at(table, "all").is_none() {
        return push_condition(conditions, asker, alternative, table);
    }
    match all_in(table) {
        Ok(values) => push_few(conditions, asker, alternative, values),
        Err(fault) => Err(JobFault::InStep(fault, asker.place)),
    }
}

/// The conditions of alternatives, behind those that are there.
fn push_alternatives(
    conditions: &mut Vec<Condition>,
    asker: &Asker<'_>,
    values: &[Value],
) -> Result<(), JobFault>
    requires few { length values.now ≤ 16 }
    ensures { Gives (λ _. conditions.new.items) result (in_step asker.now.place (tables_onto (alternative_onto (asker_view asker.now)) 0 conditions.old.items (items_view values.now))) }
{
    let mut alternative = 0;
    for value in values {
        match value.as_table() {
            Some(table) => push_alternative(conditions, asker, alternative, table)?,
            None => return Err(JobFault::InStep(Fault::BadKey, asker.place)),
        }
        alternative += 1;
    }
    Ok(())
}

/// The conditions of the key `if`, where it is there: of one alternative, or of a list of 1 to 16.
pub fn push_conditions(
    conditions: &mut Vec<Condition>,
    asker: &Asker<'_>,
    table: &Table,
) -> Result<(), JobFault>
    ensures { Gives (λ _. conditions.new.items) result (in_step asker.now.place (conditions_in (asker_view asker.now) conditions.old.items (get_member (codes "if") (table_view table.now)))) }
{
    let Some(value) = value_at(table, "if") else {
        return Ok(());
    };
    if let Some(table) = value.as_table() {
        return push_alternative(conditions, asker, 0, table);
    }
    let Some(values) = value.as_array() else {
        return Err(JobFault::InStep(Fault::BadKey, asker.place));
    };
    let values = values.as_slice();
    if !are_few(values) {
        return Err(JobFault::InStep(Fault::OutOfRange, asker.place));
    }
    push_alternatives(conditions, asker, values)
}
