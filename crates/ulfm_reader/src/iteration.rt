//! The steps of a block, in one of its iterations.
ghost use Rattle.std.specs.Prelude.{◌≡◌, map, IfOk, OnOk};
ghost use Rattle.std.specs.List.{list_any};
ghost use Rattle.std.specs.Option.{option_copied};
ghost use Rattle.toml.specs.Data.{as_table, string};
ghost use Rattle.toml.specs.View.{table_view, view};
ghost use Rattle.ulfm_reader.specs.Iterations.{is_named, is_rank, is_text, iterated, number, numbered, refer, refer_for, referred, tag};
ghost use Rattle.ulfm_reader.specs.Members.{in_table};

use crate::conditions_written_out::refer_if;
use crate::members::{put_if_some, text_at};
use crate::ranks::rank_of;
use crate::tags::tag_in;
use std::alloc::{AllocError, Global};
use toml::{Table, Value};

/// A text with the number of the iteration behind.
fn numbered(alloc: Global, i: u16, text: &str) -> Result<Value, AllocError>
    ensures { IfOk result (λ value. view value ≡ string (numbered i text.now)) }
{
    Ok(Value::String(format!(in alloc; "{text}-{i}")?))
}

/// Puts the number of the iteration behind the text at a key.
fn number(alloc: Global, i: u16, key: &str, table: &mut Table) -> Result<(), AllocError>
    ensures { OnOk result (table_view table.new ≡ number i key.now (table_view table.old)) }
{
    let value = match text_at(table, key) {
        Some(text) => Some(numbered(alloc, i, text)?),
        None => None,
    };
    put_if_some(alloc, table, key, value)
}

/// Puts the tag of the iteration.
fn tag(alloc: Global, i: u16, table: &mut Table) -> Result<(), AllocError>
    ensures { OnOk result (table_view table.new ≡ tag i (table_view table.old)) }
{
    let value = match text_at(table, "tag") {
        Some(text) => Some(tag_in(alloc, i, text)?),
        None => None,
    };
    put_if_some(alloc, table, "tag", value)
}

/// Whether it is this text.
pub fn is_text(text: &str, own: Option<&str>) -> bool
    ensures { result ≡ is_text text.now (option_copied own.entry) }
{
    match own {
        Some(own) => own == text,
        None => false,
    }
}

/// Whether it is this rank.
pub fn is_rank(rank: i64, own: Option<i64>) -> bool
    ensures { result ≡ is_rank rank own }
{
    match own {
        Some(own) => own == rank,
        None => false,
    }
}

/// Whether a step of this rank has this name.
pub fn is_named(rank: i64, name: &str, step: &Value) -> bool
    ensures { result ≡ is_named rank name.now (as_table (view step.now)) }
{
    match step.as_table() {
        Some(table) => is_rank(rank, rank_of(table)) && is_text(name, text_at(table, "name")),
        None => false,
    }
}

/// Whether a rank has a step of this name in a block.
fn is_of_block(block: &[Value], rank: i64, name: &str) -> bool
    ensures { result ≡ list_any (λ d. is_named rank name.now (as_table d)) (map view block.now) }
{
    for step in block {
        if is_named(rank, name, step) {
            return true;
        }
    }
    false
}

/// What names a step: where it is one of the block, that of the same iteration.
fn referred(
    alloc: Global,
    block: &[Value],
    rank: i64,
    i: u16,
    name: &str,
) -> Result<Value, AllocError>
    ensures { IfOk result (λ value. view value ≡ string (referred (map view block.now) rank i name.now)) }
{
    if is_of_block(block, rank, name) {
        numbered(alloc, i, name)
    } else {
        Ok(Value::String(String::from_str(alloc, name)?))
    }
}

/// Puts what names a step at a key.
pub fn refer(
    alloc: Global,
    block: &[Value],
    rank: i64,
    i: u16,
    key: &str,
    table: &mut Table,
) -> Result<(), AllocError>
    ensures { OnOk result (table_view table.new ≡ refer (map view block.now) rank i key.now (table_view table.old)) }
{
    let value = match text_at(table, key) {
        Some(name) => Some(referred(alloc, block, rank, i, name)?),
        None => None,
    };
    put_if_some(alloc, table, key, value)
}

/// Puts what names steps, where the step has a rank.
fn refer_for(
    alloc: Global,
    block: &[Value],
    i: u16,
    table: &mut Table,
    rank: Option<i64>,
) -> Result<(), AllocError>
    ensures { OnOk result (table_view table.new ≡ refer_for (map view block.now) i (table_view table.old) rank) }
{
    if let Some(rank) = rank {
        refer(alloc, block, rank, i, "req", table)?;
        refer(alloc, block, rank, i, "comm", table)?;
        refer_if(alloc, block, rank, i, table)?;
    }
    Ok(())
}

/// Puts what a step has in an iteration of its block.
fn iterate(alloc: Global, block: &[Value], i: u16, table: &mut Table) -> Result<(), AllocError>
    ensures { OnOk result (table_view table.new ≡ iterated (map view block.now) i (table_view table.old)) }
{
    let rank = rank_of(table);
    number(alloc, i, "name", table)?;
    number(alloc, i, "body", table)?;
    number(alloc, i, "text", table)?;
    tag(alloc, i, table)?;
    refer_for(alloc, block, i, table, rank)
}

/// A step of a block in an iteration.
pub fn iterated(alloc: Global, block: &[Value], i: u16, step: &Value) -> Result<Value, AllocError>
    ensures { IfOk result (λ r. view r ≡ in_table (iterated (map view block.now) i) (view step.now)) }
{
    match step.clone()? {
        Value::Table(mut table) => {
            iterate(alloc, block, i, &mut table)?;
            Ok(Value::Table(table))
        }
        other => Ok(other),
    }
}
