//! What has to hold beside the condition that a step has of its own.
ghost use Rattle.std.specs.Prelude.{◌≡◌, ◌++◌, map, option_map, codes, IfOk, OnOk};
ghost use Rattle.toml.specs.View.{table_view, view};
ghost use Rattle.ulfm_reader.specs.Members.{list_at};
ghost use Rattle.ulfm_reader.specs.Together.{all_with, alternative_with, asks_with, condition_with, conditions_with, joined, together};

use crate::fields::value_at;
use crate::members::{list_at, put, put_if_some};
use std::alloc::{AllocError, Global};
use toml::{Table, Value};

/// Adds copies of tables.
fn push_tables(tables: &mut Vec<Value>, more: &[Value]) -> Result<(), AllocError>
    ensures { OnOk result (map view tables.new.items ≡ map view tables.old.items ++ map view more.now) }
{
    for table in more {
        tables.push(table.clone()?)?;
    }
    Ok(())
}

/// A condition that these tables hold.
fn together(alloc: Global, tables: Vec<Value>) -> Result<Value, AllocError>
    ensures { IfOk result (λ r. view r ≡ together (map view tables.items)) }
{
    let mut table = Table::new(alloc);
    put(alloc, &mut table, "all", Value::Array(tables))?;
    Ok(Value::Table(table))
}

/// Tables as a condition: one as it is, more by `all`.
fn joined(alloc: Global, tables: &[Value]) -> Result<Value, AllocError>
    ensures { IfOk result (λ r. view r ≡ joined (map view tables.now)) }
{
    if let [table] = tables {
        return Ok(table.clone()?);
    }
    let mut copies = Vec::new(alloc);
    push_tables(&mut copies, tables)?;
    together(alloc, copies)
}

/// The list of an `all`, with more tables behind, where it isn't empty.
fn all_with(alloc: Global, more: &[Value], table: &Table) -> Result<Option<Value>, AllocError>
    ensures { IfOk result (λ found. option_map view found ≡ all_with (map view more.now) (list_at (codes "all") (table_view table.now))) }
{
    let Some(own) = list_at(table, "all") else {
        return Ok(None);
    };
    if own.is_empty() {
        return Ok(None);
    }
    let mut tables = Vec::new(alloc);
    push_tables(&mut tables, own)?;
    push_tables(&mut tables, more)?;
    Ok(Some(Value::Array(tables)))
}

/// An alternative that holds where these tables hold too.
fn alternative_with(alloc: Global, more: &[Value], own: Table) -> Result<Value, AllocError>
    ensures { IfOk result (λ r. view r ≡ alternative_with (map view more.now) (table_view own)) }
{
    if value_at(&own, "all").is_none() {
        let mut tables = Vec::new(alloc);
        tables.push(Value::Table(own))?;
        push_tables(&mut tables, more)?;
        return together(alloc, tables);
    }
    let all = all_with(alloc, more, &own)?;
    let mut own = own;
    put_if_some(alloc, &mut own, "all", all)?;
    Ok(Value::Table(own))
}

/// A condition that holds where these tables hold too; what is no table stays.
fn condition_with(alloc: Global, more: &[Value], own: &Value) -> Result<Value, AllocError>
    ensures { IfOk result (λ r. view r ≡ condition_with (map view more.now) (view own.now)) }
{
    match own.clone()? {
        Value::Table(table) => alternative_with(alloc, more, table),
        other => Ok(other),
    }
}

/// The conditions of a list, each of which holds where these tables hold too.
fn each_with(alloc: Global, more: &[Value], values: &[Value]) -> Result<Vec<Value>, AllocError>
    ensures { IfOk result (λ found. map view found.items ≡ map (condition_with (map view more.now)) (map view values.now)) }
{
    let mut found = Vec::new(alloc);
    for value in values {
        found.push(condition_with(alloc, more, value)?)?;
    }
    Ok(found)
}

/// The conditions of a step, each alternative with these tables; what is no condition stays.
fn conditions_with(alloc: Global, more: &[Value], own: &Value) -> Result<Value, AllocError>
    ensures { IfOk result (λ r. view r ≡ conditions_with (map view more.now) (view own.now)) }
{
    match own.as_array() {
        Some(values) => {
            let found = each_with(alloc, more, values.as_slice())?;
            Ok(Value::Array(found))
        }
        None => condition_with(alloc, more, own),
    }
}

/// What a step asks for, by what it asks for of its own, where it does.
pub fn asks_with(alloc: Global, more: &[Value], own: Option<&Value>) -> Result<Value, AllocError>
    ensures { IfOk result (λ r. view r ≡ asks_with (map view more.now) (option_map (λ v. view v.now) own.entry)) }
{
    match own {
        Some(own) => conditions_with(alloc, more, own),
        None => joined(alloc, more),
    }
}
