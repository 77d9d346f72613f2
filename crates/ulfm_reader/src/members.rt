//! The keys of a table, with other values.
ghost use Rattle.std.specs.Prelude.{◌≡◌, map, option_map, OnOk};
ghost use Rattle.std.specs.Option.{option_copied};
ghost use Rattle.toml.specs.View.{view, table_view};
ghost use Rattle.ulfm_reader.specs.Members.{list_at, list_in, put, put_if_some, text_at, text_in};

use crate::fields::value_at;
use std::alloc::{AllocError, Global};
use toml::{Table, Value};

/// Puts a value at a key of a table.
pub fn put(alloc: Global, table: &mut Table, key: &str, value: Value) -> Result<(), AllocError>
    ensures { OnOk result (table_view table.new ≡ put key.now (view value) (table_view table.old)) }
{
    let name = String::from_str(alloc, key)?;
    drop(table.insert(name, value)?);
    Ok(())
}

/// Puts a value at a key of a table, where there is one.
pub fn put_if_some(
    alloc: Global,
    table: &mut Table,
    key: &str,
    value: Option<Value>,
) -> Result<(), AllocError>
    ensures { OnOk result (table_view table.new ≡ put_if_some key.now (option_map view value) (table_view table.old)) }
{
    match value {
        Some(value) => put(alloc, table, key, value),
        None => Ok(()),
    }
}

/// The list that an array is.
pub fn list_in(value: &Value) -> Option<&[Value]>
    ensures { option_map (λ items. map view items.now) result ≡ list_in (view value.now) }
{
    match value.as_array() {
        Some(items) => Some(items.as_slice()),
        None => None,
    }
}

/// The list at a key, where there is an array.
pub fn list_at<'a>(table: &'a Table, key: &str) -> Option<&'a [Value]>
    ensures { option_map (λ items. map view items.now) result ≡ list_at key.now (table_view table.now) }
{
    match value_at(table, key) {
        Some(value) => match value.as_array() {
            Some(items) => Some(items.as_slice()),
            None => None,
        },
        None => None,
    }
}

/// The text at a key.
pub fn text_at<'a>(table: &'a Table, key: &str) -> Option<&'a str>
    ensures { option_copied result ≡ text_at key.now (table_view table.now) }
{
    match value_at(table, key) {
        Some(value) => value.as_str(),
        None => None,
    }
}

/// The text at a key of what may be no table.
pub fn text_in<'a>(value: &'a Value, key: &str) -> Option<&'a str>
    ensures { option_copied result ≡ text_in key.now (view value.now) }
{
    match value.as_table() {
        Some(table) => text_at(table, key),
        None => None,
    }
}
