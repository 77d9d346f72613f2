//! The conditions of a step of a block, in one of its iterations.
ghost use Rattle.std.specs.Prelude.{◌≡◌, Some, codes, map, option_map, IfOk, OnOk};
ghost use Rattle.toml.specs.View.{table_view, view};
ghost use Rattle.ulfm_reader.specs.Iterations.{refer_condition, refer_if, referred_all, referred_condition, referred_if, referred_table};
ghost use Rattle.ulfm_reader.specs.Members.{list_at};

use crate::fields::value_at;
use crate::iteration::refer;
use crate::members::{list_at, put_if_some};
use std::alloc::{AllocError, Global};
use toml::{Table, Value};

/// A table that asks for the answer of a step.
fn referred_table(
    alloc: Global,
    block: &[Value],
    rank: i64,
    i: u16,
    value: &Value,
) -> Result<Value, AllocError>
    ensures { IfOk result (λ r. view r ≡ referred_table (map view block.now) rank i (view value.now)) }
{
    match value.clone()? {
        Value::Table(mut table) => {
            refer(alloc, block, rank, i, "step", &mut table)?;
            Ok(Value::Table(table))
        }
        other => Ok(other),
    }
}

/// A list of such tables.
fn referred_tables(
    alloc: Global,
    block: &[Value],
    rank: i64,
    i: u16,
    values: &[Value],
) -> Result<Vec<Value>, AllocError>
    ensures { IfOk result (λ found. map view found.items ≡ map (referred_table (map view block.now) rank i) (map view values.now)) }
{
    let mut found = Vec::new(alloc);
    for value in values {
        found.push(referred_table(alloc, block, rank, i, value)?)?;
    }
    Ok(found)
}

/// The tables of a condition that have to hold together.
fn referred_all(
    alloc: Global,
    block: &[Value],
    rank: i64,
    i: u16,
    table: &Table,
) -> Result<Option<Value>, AllocError>
    ensures { IfOk result (λ found. option_map view found ≡ referred_all (map view block.now) rank i (list_at (codes "all") (table_view table.now))) }
{
    match list_at(table, "all") {
        Some(values) => {
            let found = referred_tables(alloc, block, rank, i, values)?;
            Ok(Some(Value::Array(found)))
        }
        None => Ok(None),
    }
}

/// Puts what names steps into a condition.
fn refer_condition(
    alloc: Global,
    block: &[Value],
    rank: i64,
    i: u16,
    table: &mut Table,
) -> Result<(), AllocError>
    ensures { OnOk result (table_view table.new ≡ refer_condition (map view block.now) rank i (table_view table.old)) }
{
    let all = referred_all(alloc, block, rank, i, table)?;
    refer(alloc, block, rank, i, "step", table)?;
    put_if_some(alloc, table, "all", all)
}

/// A condition of a step.
fn referred_condition(
    alloc: Global,
    block: &[Value],
    rank: i64,
    i: u16,
    condition: &Value,
) -> Result<Value, AllocError>
    ensures { IfOk result (λ r. view r ≡ referred_condition (map view block.now) rank i (view condition.now)) }
{
    match condition.clone()? {
        Value::Table(mut table) => {
            refer_condition(alloc, block, rank, i, &mut table)?;
            Ok(Value::Table(table))
        }
        other => Ok(other),
    }
}

/// A list of conditions.
fn referred_conditions(
    alloc: Global,
    block: &[Value],
    rank: i64,
    i: u16,
    conditions: &[Value],
) -> Result<Vec<Value>, AllocError>
    ensures { IfOk result (λ found. map view found.items ≡ map (referred_condition (map view block.now) rank i) (map view conditions.now)) }
{
    let mut found = Vec::new(alloc);
    for condition in conditions {
        found.push(referred_condition(alloc, block, rank, i, condition)?)?;
    }
    Ok(found)
}

/// A condition, or a list of them.
fn referred_if(
    alloc: Global,
    block: &[Value],
    rank: i64,
    i: u16,
    value: &Value,
) -> Result<Option<Value>, AllocError>
    ensures { IfOk result (λ found. option_map view found ≡ referred_if (map view block.now) rank i (Some (view value.now))) }
{
    if value.is_table() {
        return Ok(Some(referred_condition(alloc, block, rank, i, value)?));
    }
    match value.as_array() {
        Some(conditions) => {
            let found = referred_conditions(alloc, block, rank, i, conditions.as_slice())?;
            Ok(Some(Value::Array(found)))
        }
        None => Ok(None),
    }
}

/// Puts the conditions of a step.
pub fn refer_if(
    alloc: Global,
    block: &[Value],
    rank: i64,
    i: u16,
    table: &mut Table,
) -> Result<(), AllocError>
    ensures { OnOk result (table_view table.new ≡ refer_if (map view block.now) rank i (table_view table.old)) }
{
    let value = match value_at(table, "if") {
        Some(value) => referred_if(alloc, block, rank, i, value)?,
        None => None,
    };
    put_if_some(alloc, table, "if", value)
}
