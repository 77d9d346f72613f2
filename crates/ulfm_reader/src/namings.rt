//! The communicator of a step, where that is the one that an earlier step makes.
ghost use Rattle.std.specs.Prelude.{◌≡◌, codes};
ghost use Rattle.toml.specs.Data.{get_member};
ghost use Rattle.toml.specs.View.{table_view};
ghost use Rattle.ulfm_reader.specs.JobText.{Gives, in_step};
ghost use Rattle.ulfm_reader.specs.Plan.{order_of};
ghost use Rattle.ulfm_reader.specs.Reacting.{makes_comm, naming_in, namings_in};
ghost use Rattle.ulfm_reader.specs.inside.Reading.{asker_view};

use crate::asker::Asker;
use crate::conditions::earlier_in;
use crate::fields::value_at;
use crate::ranges::label_in;
use crate::reference::Reference;
use toml::Table;
use ulfm_job::{Fault, JobFault, Naming, Step};

/// Whether a step makes a communicator.
fn makes_comm(step: &Step) -> bool
    ensures { result ≡ makes_comm (order_of step.now) }
{
    matches!(step, Step::Dup { .. } | Step::Shrink { .. })
}

/// That a step is on the communicator that an earlier step of this name makes.
fn naming_in(asker: &Asker<'_>, text: &str) -> Result<Naming, Fault>
    ensures { result ≡ naming_in (asker_view asker.now) text.now }
{
    let name = label_in(text)?;
    let found = earlier_in(asker, &Reference::Name(text))?;
    if !makes_comm(found.step) {
        return Err(Fault::OutOfRange);
    }
    Ok(Naming {
        rank: asker.rank,
        at: asker.at,
        step: found.number,
        name,
    })
}

/// Namings, and behind them that of a step by its key `comm`, where that is a name.
pub fn push_naming(
    namings: &mut Vec<Naming>,
    asker: &Asker<'_>,
    table: &Table,
) -> Result<(), JobFault>
    ensures { Gives (λ _. namings.new.items) result (in_step asker.now.place (namings_in (asker_view asker.now) namings.old.items (get_member (codes "comm") (table_view table.now)))) }
{
    let Some(value) = value_at(table, "comm") else {
        return Ok(());
    };
    let Some(text) = value.as_str() else {
        return Ok(());
    };
    match naming_in(asker, text) {
        Ok(naming) => namings.push(naming)?,
        Err(fault) => return Err(JobFault::InStep(fault, asker.place)),
    }
    Ok(())
}
