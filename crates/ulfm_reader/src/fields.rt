//! The keys of a table, one by one.
ghost use Rattle.std.specs.Prelude.{◌≡◌, ◌≤◌, map, option_map, IfOk, IfSome, Some, string_bytes};
ghost use Rattle.std.specs.BTreeMap.{keys};
ghost use Rattle.std.specs.List.{list_any, list_all};
ghost use Rattle.std.specs.Str.{bytes_eq};
ghost use Rattle.toml.specs.Data.{as_array, get_member};
ghost use Rattle.toml.specs.View.{view, table_view, items_view};
ghost use Rattle.ulfm_reader.specs.inside.Reading.{map_ok, reference_view};
ghost use Rattle.ulfm_reader.specs.Keys.{required, required_number, optional_number, optional_comm, optional_bool, required_text, only_keys, in_range, in_range_if_some};
ghost use Rattle.ulfm_reader.specs.Reacting.{reference_in, required_reference};

use crate::reference::Reference;
use toml::{Table, Value};
use ulfm_job::Fault;

/// The value at a key.
pub fn value_at<'a>(table: &'a Table, key: &str) -> Option<&'a Value>
    ensures { option_map (λ v. view v.now) result ≡ get_member key.now (table_view table.now) }
{
    table.get(key)
}

/// The number at a key that has to be there.
pub fn required_number(table: &Table, key: &str) -> Result<i64, Fault>
    ensures { result ≡ required_number key.now (table_view table.now) }
{
    match value_at(table, key) {
        Some(value) => value.as_integer().ok_or(Fault::BadKey),
        None => Err(Fault::BadKey),
    }
}

/// The number at a key that may be left out.
pub fn optional_number(table: &Table, key: &str) -> Result<Option<i64>, Fault>
    ensures { result ≡ optional_number key.now (table_view table.now) }
{
    match value_at(table, key) {
        Some(value) => match value.as_integer() {
            Some(number) => Ok(Some(number)),
            None => Err(Fault::BadKey),
        },
        None => Ok(None),
    }
}

/// The number of a communicator, where one stands at its key. A name may stand there too, or the key be left out.
pub fn optional_comm(table: &Table) -> Result<Option<i64>, Fault>
    ensures { result ≡ optional_comm (table_view table.now) }
{
    match value_at(table, "comm") {
        Some(value) => match (value.as_integer(), value.as_str()) {
            (Some(number), _) => Ok(Some(number)),
            (None, Some(_)) => Ok(None),
            (None, None) => Err(Fault::BadKey),
        },
        None => Ok(None),
    }
}

/// The truth value at a key that may be left out.
pub fn optional_bool(table: &Table, key: &str) -> Result<Option<bool>, Fault>
    ensures { result ≡ optional_bool key.now (table_view table.now) }
{
    match value_at(table, key) {
        Some(value) => match value.as_bool() {
            Some(is) => Ok(Some(is)),
            None => Err(Fault::BadKey),
        },
        None => Ok(None),
    }
}

/// The list at a key that has to be there.
pub fn required_list<'a>(table: &'a Table, key: &str) -> Result<&'a [Value], Fault>
    ensures { map_ok (λ s. items_view s.now) result ≡ required as_array (get_member key.now (table_view table.now)) }
{
    match value_at(table, key) {
        Some(value) => match value.as_array() {
            Some(values) => Ok(values.as_slice()),
            None => Err(Fault::BadKey),
        },
        None => Err(Fault::BadKey),
    }
}

/// The text at a key that has to be there.
pub fn required_text<'a>(table: &'a Table, key: &str) -> Result<&'a str, Fault>
    ensures { map_ok (λ s. s.now) result ≡ required_text key.now (table_view table.now) }
{
    match value_at(table, key) {
        Some(value) => match value.as_str() {
            Some(text) => Ok(text),
            None => Err(Fault::BadKey),
        },
        None => Err(Fault::BadKey),
    }
}

/// What names a step, by its number or its name, at a key that has to be there.
pub fn required_reference<'a>(table: &'a Table, key: &str) -> Result<Reference<'a>, Fault>
    ensures { map_ok reference_view result ≡ required_reference key.now (table_view table.now) }
{
    match value_at(table, key) {
        Some(value) => reference_in(value),
        None => Err(Fault::BadKey),
    }
}

/// What names a step, by its number or its name.
fn reference_in(value: &Value) -> Result<Reference<'_>, Fault>
    ensures { map_ok reference_view result ≡ reference_in (Some (view value.now)) }
{
    if let Some(number) = value.as_integer() {
        return Ok(Reference::Number(number));
    }
    match value.as_str() {
        Some(text) => Ok(Reference::Name(text)),
        None => Err(Fault::BadKey),
    }
}

/// Whether a key is one of these names.
pub(crate) fn is_among(names: &[&str], key: &str) -> bool
    ensures { result ≡ list_any (λ name. bytes_eq name.now key.now) names.now }
{
    names.iter().any(|name| *name == key)
}

/// Whether each key of a table is one of these names.
fn has_only(table: &Table, names: &[&str]) -> bool
    ensures { result ≡ list_all (λ key. list_any (λ name. bytes_eq name.now (string_bytes key)) names.now) (keys table.now) }
{
    table.keys().all(|key| is_among(names, key.as_str()))
}

/// That a table has no key but these.
pub fn only_keys(table: &Table, names: &[&str]) -> Result<(), Fault>
    ensures { result ≡ only_keys (map (λ s. s.now) names.now) (table_view table.now) }
{
    if has_only(table, names) {
        Ok(())
    } else {
        Err(Fault::UnknownKey)
    }
}

/// A number within its range.
pub fn in_range(number: i64, least: u32, most: u32) -> Result<u32, Fault>
    ensures exact { result ≡ in_range least most number }
    ensures bound { IfOk result (λ n. n ≤ most) }
    ensures start { IfOk result (λ n. least ≤ n) }
{
    match u32::try_from(number) {
        Ok(n) if least <= n && n <= most => Ok(n),
        _ => Err(Fault::OutOfRange),
    }
}

/// A number from 0 to its greatest value that may be left out.
pub fn in_range_if_some(number: Option<i64>, most: u32) -> Result<Option<u32>, Fault>
    ensures exact { result ≡ in_range_if_some most number }
    ensures bound { IfOk result (λ found. IfSome found (λ n. n ≤ most)) }
{
    match number {
        Some(number) => Ok(Some(in_range(number, 0, most)?)),
        None => Ok(None),
    }
}
