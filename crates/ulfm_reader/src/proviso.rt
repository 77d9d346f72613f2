//! What a job asks only where stops lie before the steps of a name.
ghost use Rattle.std.specs.Prelude.{◌≡◌, codes, option_map, unwrap_or};
ghost use Rattle.std.specs.List.{list_all};
ghost use Rattle.toml.specs.Data.{as_array, as_table, get_member, no_items};
ghost use Rattle.toml.specs.View.{items_view, table_view, view};
ghost use Rattle.ulfm_reader.specs.JobText.{Gives, in_job, in_step};
ghost use Rattle.ulfm_reader.specs.Provisos.{before_in, if_named, is_named, items_by, provisos_in, row_proviso_onto, row_provisos_onto, step_provisos};

use crate::asker::Asker;
use crate::fields::{only_keys, required_list, required_text, value_at};
use crate::name::Name;
use crate::ranges::label_in;
use crate::subject::Subject;
use toml::{Table, Value};
use ulfm_job::{Fault, JobFault, Label};

/// That what a job asks holds only where every stop lies before the steps of a name.
#[derive(Drop)]
pub struct Proviso {
    /// What it asks.
    pub subject: Subject,
    /// The name.
    pub before: Label,
}

/// The list that a value is, or that at a key of the table that it is.
pub fn items_by<'a>(value: &'a Value, key: &str) -> Option<&'a [Value]>
    ensures { option_map (λ s. items_view s.now) result ≡ items_by key.now (view value.now) }
{
    match value.as_table() {
        Some(table) => match value_at(table, key) {
            Some(items) => list_of(items),
            None => None,
        },
        None => list_of(value),
    }
}

/// The list that a value is.
fn list_of(value: &Value) -> Option<&[Value]>
    ensures { option_map (λ s. items_view s.now) result ≡ as_array (view value.now) }
{
    match value.as_array() {
        Some(items) => Some(items.as_slice()),
        None => None,
    }
}

/// The name in a table of a list at this key, and of `before`.
#[tactic(auto, unfolding(crate::specs::Provisos::before_in))]
fn before_in(table: &Table, key: &str) -> Result<Label, Fault>
    ensures { result ≡ before_in key.now (table_view table.now) }
{
    required_list(table, key)?;
    let name = required_text(table, "before")?;
    only_keys(table, &[key, "before"])?;
    label_in(name)
}

/// The proviso of what a step expects by the key `expect`, where it has one, behind others.
pub fn push_step_proviso(
    provisos: &mut Vec<Proviso>,
    asker: &Asker<'_>,
    table: &Table,
) -> Result<(), JobFault>
    ensures { Gives (λ _. provisos.new.items) result (in_step asker.now.place (step_provisos asker.now.rank asker.now.at provisos.old.items (get_member (codes "expect") (table_view table.now)))) }
{
    let Some(value) = value_at(table, "expect") else {
        return Ok(());
    };
    let Some(own) = value.as_table() else {
        return Ok(());
    };
    match before_in(own, "is") {
        Ok(before) => {
            provisos.push(Proviso {
                subject: Subject::Step(asker.rank, asker.at),
                before,
            })?;
            Ok(())
        }
        Err(fault) => Err(JobFault::InStep(fault, asker.place)),
    }
}

/// The proviso of the row of `never` of this number, where it has one, behind others.
fn push_row_proviso(
    provisos: &mut Vec<Proviso>,
    number: usize,
    value: &Value,
) -> Result<(), JobFault>
    ensures { Gives (λ _. provisos.new.items) result (in_job (row_proviso_onto number provisos.old.items (as_table (view value.now)))) }
{
    let Some(own) = value.as_table() else {
        return Ok(());
    };
    match before_in(own, "row") {
        Ok(before) => {
            provisos.push(Proviso {
                subject: Subject::Row(number),
                before,
            })?;
            Ok(())
        }
        Err(fault) => Err(JobFault::InJob(fault)),
    }
}

/// Those of rows, as many as are read, behind others.
fn push_row_provisos(provisos: &mut Vec<Proviso>, values: &[Value]) -> Result<(), JobFault>
    ensures { Gives (λ _. provisos.new.items) result (in_job (row_provisos_onto 0 provisos.old.items (items_view values.now))) }
{
    for (number, value) in values.iter().enumerate() {
        match push_row_proviso(provisos, number, value) {
            Ok(()) => {}
            Err(fault) => return Err(fault),
        }
    }
    Ok(())
}

/// Whether a step has the name of a proviso.
fn is_named(names: &[Name], proviso: &Proviso) -> bool
    ensures { result ≡ is_named names.now proviso.now }
{
    names
        .iter()
        .any(|name| name.text.as_str() == proviso.before.as_str())
}

/// Whether a step has the name of each.
fn are_named(names: &[Name], provisos: &[Proviso]) -> bool
    ensures { result ≡ list_all (is_named names.now) provisos.now }
{
    provisos.iter().all(|proviso| is_named(names, proviso))
}

/// The values of a list, none where there isn't one.
fn values_or_none(values: Option<&[Value]>) -> &[Value]
    ensures { items_view result.now ≡ unwrap_or (option_map (λ s. items_view s.now) values.entry) no_items }
{
    match values {
        Some(values) => values,
        None => &[],
    }
}

/// That steps have the names of these.
fn if_named(names: &[Name], provisos: &[Proviso]) -> Result<(), JobFault>
    ensures { Gives (λ _. provisos.now) result (in_job (if_named names.now provisos.now)) }
{
    if are_named(names, provisos) {
        Ok(())
    } else {
        Err(JobFault::InJob(Fault::OutOfRange))
    }
}

/// The provisos of the rows of `never` behind those of steps, if steps have their names.
pub fn push_provisos(
    provisos: &mut Vec<Proviso>,
    names: &[Name],
    values: Option<&[Value]>,
) -> Result<(), JobFault>
    ensures { Gives (λ _. provisos.new.items) result (in_job (provisos_in names.now provisos.old.items (option_map (λ s. items_view s.now) values.entry))) }
{
    match push_row_provisos(provisos, values_or_none(values)) {
        Ok(()) => if_named(names, provisos.as_slice()),
        Err(fault) => Err(fault),
    }
}
