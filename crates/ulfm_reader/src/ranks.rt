//! A step for several ranks, and ranks that are named as they are seen from the rank of the step.
ghost use Rattle.std.specs.Prelude.{◌≡◌, ◌<◌, ◌^◌, map, pos, is_some, Some, IfOk, OnOk};
ghost use Rattle.std.specs.List.{filter_map, list_all, range_with_len};
ghost use Rattle.toml.specs.Data.{as_integer};
ghost use Rattle.toml.specs.View.{view, table_view};
ghost use Rattle.ulfm_reader.specs.Members.{in_table};
ghost use Rattle.ulfm_reader.specs.Ranks.{for_rank, further, further_at, natural, neighbour, numbers, placed, rank_of, several, shared_by, with_neighbour};

use crate::fields::value_at;
use crate::members::put;
use std::alloc::{AllocError, Global};
use toml::{Table, Value};

/// How many ranks further on the rank is that a text names, among so many.
fn further(ranks: u8, text: &str) -> Option<u8>
    requires { 0 < ranks }
    ensures { result ≡ further ranks text.now }
{
    match text {
        "me" => Some(0),
        "right" => Some(1),
        "left" => Some(ranks - 1),
        "me+1" => Some(1),
        "me+2" => Some(2),
        "me+3" => Some(3),
        "me+4" => Some(4),
        "me+5" => Some(5),
        "me+6" => Some(6),
        "me+7" => Some(7),
        _ => None,
    }
}

/// How many ranks further on the rank is that the text at a key names, among so many.
fn further_at(ranks: u8, key: &str, table: &Table) -> Option<u8>
    requires { 0 < ranks }
    ensures { result ≡ further_at ranks key.now (table_view table.now) }
{
    match value_at(table, key) {
        Some(value) => match value.as_str() {
            Some(text) => further(ranks, text),
            None => None,
        },
        None => None,
    }
}

/// A number, 0 for those below.
fn natural(number: i64) -> u64
    ensures exact { result ≡ natural number }
    ensures small { result < 2 ^ 63 }
{
    if number < 0 { 0 } else { number as u64 }
}

/// The rank so many further on, among so many.
fn neighbour(ranks: u8, rank: i64, further: u8) -> u8
    requires { 0 < ranks }
    ensures { result ≡ neighbour ranks rank further }
{
    ((natural(rank) + u64::from(further)) % u64::from(ranks)) as u8
}

/// Puts the number of the rank that the text at a key names there, where it names one.
fn put_neighbour(
    alloc: Global,
    table: &mut Table,
    ranks: u8,
    rank: i64,
    key: &str,
) -> Result<(), AllocError>
    requires { 0 < ranks }
    ensures { OnOk result (table_view table.new ≡ with_neighbour ranks rank key.now (table_view table.old)) }
{
    match further_at(ranks, key, table) {
        Some(further) => {
            let number = i64::from(neighbour(ranks, rank, further));
            put(alloc, table, key, Value::Integer(number))
        }
        None => Ok(()),
    }
}

/// The number at the key `rank`, where there is one.
pub fn rank_of(table: &Table) -> Option<i64>
    ensures { result ≡ rank_of (table_view table.now) }
{
    match value_at(table, "rank") {
        Some(value) => value.as_integer(),
        None => None,
    }
}

/// Puts the numbers of the ranks that `to` and `from` of a step name, where it is one of a rank.
fn put_neighbours(alloc: Global, table: &mut Table, ranks: u8) -> Result<(), AllocError>
    requires { 0 < ranks }
    ensures { OnOk result (table_view table.new ≡ placed ranks (table_view table.old)) }
{
    if let Some(rank) = rank_of(table) {
        put_neighbour(alloc, table, ranks, rank, "to")?;
        put_neighbour(alloc, table, ranks, rank, "from")?;
    }
    Ok(())
}

/// A step with the numbers of the ranks that it names.
pub fn placed(alloc: Global, ranks: u8, step: &Value) -> Result<Value, AllocError>
    requires { 0 < ranks }
    ensures { IfOk result (λ r. view r ≡ in_table (placed ranks) (view step.now)) }
{
    match step.clone()? {
        Value::Table(mut table) => {
            put_neighbours(alloc, &mut table, ranks)?;
            Ok(Value::Table(table))
        }
        other => Ok(other),
    }
}

/// The step of another rank with the numbers of the ranks that it names.
pub fn for_rank(alloc: Global, ranks: u8, step: &Value, rank: i64) -> Result<Value, AllocError>
    requires { 0 < ranks }
    ensures { IfOk result (λ r. view r ≡ in_table (λ ms. for_rank ranks ms rank) (view step.now)) }
{
    match step.clone()? {
        Value::Table(mut table) => {
            put(alloc, &mut table, "rank", Value::Integer(rank))?;
            put_neighbours(alloc, &mut table, ranks)?;
            Ok(Value::Table(table))
        }
        other => Ok(other),
    }
}

/// Whether each value is a number.
fn are_numbers(values: &[Value]) -> bool
    ensures { result ≡ list_all (λ v. is_some (as_integer (view v))) values.now }
{
    values.iter().all(|value| value.is_integer())
}

/// The numbers among these values.
fn numbers_among(alloc: Global, values: &[Value]) -> Result<Vec<i64>, AllocError>
    ensures { IfOk result (λ found. found.items ≡ filter_map (λ v. as_integer (view v)) values.now) }
{
    let mut found = Vec::new(alloc);
    for value in values {
        if let Some(number) = value.as_integer() {
            found.push(number)?;
        }
    }
    Ok(found)
}

/// The numbers of a list, where it has nothing else.
fn numbers(alloc: Global, values: &[Value]) -> Result<Vec<i64>, AllocError>
    ensures { IfOk result (λ found. found.items ≡ numbers (map view values.now)) }
{
    if are_numbers(values) {
        numbers_among(alloc, values)
    } else {
        Ok(Vec::new(alloc))
    }
}

/// All ranks, of so many.
fn each_rank(alloc: Global, ranks: u8) -> Result<Vec<i64>, AllocError>
    ensures { IfOk result (λ found. found.items ≡ map pos (range_with_len 0 ranks)) }
{
    let mut found = Vec::new(alloc);
    for rank in 0..ranks {
        found.push(i64::from(rank))?;
    }
    Ok(found)
}

/// The ranks of what stands for several: of a list of numbers, or of the text `all`.
fn several(alloc: Global, ranks: u8, value: &Value) -> Result<Vec<i64>, AllocError>
    ensures { IfOk result (λ found. found.items ≡ several ranks (Some (view value.now))) }
{
    if let Some(values) = value.as_array() {
        return numbers(alloc, values.as_slice());
    }
    match value.as_str() {
        Some("all") => each_rank(alloc, ranks),
        _ => Ok(Vec::new(alloc)),
    }
}

/// The ranks of a step that is for several, or none.
pub fn shared_by(alloc: Global, ranks: u8, step: &Value) -> Result<Vec<i64>, AllocError>
    ensures { IfOk result (λ found. found.items ≡ shared_by ranks (view step.now)) }
{
    match step.get("rank") {
        Some(value) => several(alloc, ranks, value),
        None => Ok(Vec::new(alloc)),
    }
}
