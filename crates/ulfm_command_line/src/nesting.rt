//! Whether a document is nested as deep as TOML is read.
ghost use Rattle.std.specs.Prelude.{◌≡◌, nat_le};
ghost use Rattle.toml.specs.Data.{depth, items_depth, members_depth};
ghost use Rattle.toml.specs.View.{array_view, table_view, view};

use toml::value::Array;
use toml::{Table, Value};

/// Whether a value isn't nested deeper than this.
#[cycle(is_within)]
fn is_within(value: &Value, most: u8) -> bool
    ensures { result ≡ nat_le (depth (view value.now)) most }
{
    match value {
        Value::Array(items) => most > 0 && are_items_within(items, most - 1),
        Value::Table(table) => most > 0 && are_members_within(table, most - 1),
        _ => true,
    }
}

/// Whether none of these values is nested deeper than this.
#[cycle(is_within)]
fn are_items_within(items: &Array, most: u8) -> bool
    ensures { result ≡ nat_le (items_depth (array_view items.now)) most }
{
    for item in items {
        if !is_within(item, most) {
            return false;
        }
    }
    true
}

/// Whether no value of a table is nested deeper than this.
#[cycle(is_within)]
pub(crate) fn are_members_within(table: &Table, most: u8) -> bool
    ensures { result ≡ nat_le (members_depth (table_view table.now)) most }
{
    for (_key, member) in table.iter() {
        if !is_within(member, most) {
            return false;
        }
    }
    true
}
