//! What was read of the steps.
ghost use Rattle.std.specs.Prelude.{◌≡◌, ◌+◌, ◌<◌, ◌≤◌, ℕ, [], ◌∷◌, ◌++◌, IfErr, IfOk, OnOk, codes, length, replicate, slice_index_or, slice_set};
ghost use Rattle.toml.specs.Data.{get_member};
ghost use Rattle.toml.specs.View.{view, table_view};
ghost use Rattle.ulfm_job.specs.Job.{lists_of, step_count};
ghost use Rattle.ulfm_reader.specs.JobText.{Gives, blank, drafted, in_step, step_at};
ghost use Rattle.ulfm_reader.specs.Reacting.{names_in};
ghost use Rattle.ulfm_reader.specs.inside.Reading.{draft_view, map_ok, name_behind, planned};

use crate::asker::Asker;
use crate::clauses::push_expected;
use crate::conditions::push_conditions;
use crate::fields::value_at;
use crate::filed::Filed;
use crate::name::{Name, is_new_name};
use crate::namings::push_naming;
use crate::ops::step_of;
use crate::placed::Placed;
use crate::proviso::{Proviso, push_step_proviso};
use std::alloc::Global;
use toml::{Table, Value};
use ulfm_job::{Clause, Condition, Fault, JobFault, Label, Naming, Step};

/// The steps of each rank that were read, their names and places in the file, the communicators that some name, on what conditions some are played,
/// what some expect, and of which that holds only before the steps of a name.
#[derive(Drop)]
pub struct Draft {
    pub scripts: Vec<Vec<Step>>,
    pub names: Vec<Name>,
    pub filed: Vec<Filed>,
    pub namings: Vec<Naming>,
    pub conditions: Vec<Condition>,
    pub expected: Vec<Clause>,
    pub provisos: Vec<Proviso>,
}

impl Draft {
    /// Nothing of so many ranks.
    pub fn blank(alloc: Global, ranks: u8) -> Result<Draft, JobFault>
        ensures blank { IfOk result (λ draft. draft_view draft ≡ blank ranks) }
        ensures empty { IfOk result (λ draft. lists_of draft.scripts.items ≡ replicate ranks []) }
        ensures memory { IfErr result (λ error. error ≡ JobFault.OutOfMemory) }
    {
        Ok(Draft {
            scripts: empty_scripts(alloc, ranks)?,
            names: Vec::new(alloc),
            filed: Vec::new(alloc),
            namings: Vec::new(alloc),
            conditions: Vec::new(alloc),
            expected: Vec::new(alloc),
            provisos: Vec::new(alloc),
        })
    }

    /// Reads one more step, that at a place in the file.
    ///
    /// # Errors
    ///
    /// Its first fault, or that memory ran out: then the draft is of no more use.
    pub fn read(&mut self, ranks: u8, place: u16, value: &Value) -> Result<(), JobFault>
        requires some { 0 < ranks }
        requires each { length self.old.scripts.items ≡ ranks }
        requires few { step_count (lists_of self.old.scripts.items) ≤ 255 }
        ensures exact { Gives (λ _. draft_view self.new) result (step_at ranks place (draft_view self.old) (view value.now)) }
        ensures each { OnOk result (length self.new.scripts.items ≡ ranks) }
        ensures counted { OnOk result (step_count (lists_of self.new.scripts.items) ≡ step_count (lists_of self.old.scripts.items) + 1) }
    {
        let Some(table) = value.as_table() else {
            return Err(JobFault::InStep(Fault::BadKey, place));
        };
        match step_of(ranks, self.names.as_slice(), table) {
            Ok(placed) => self.put(place, placed, table),
            Err(fault) => Err(JobFault::InStep(fault, place)),
        }
    }

    /// Puts a step at the end of its rank's script, with its name, its conditions, what it expects, and the communicator that it names.
    #[tactic(auto, unfolding(crate::specs::JobText::drafted))]
    fn put(&mut self, place: u16, placed: Placed<'_>, table: &Table) -> Result<(), JobFault>
        requires inside { placed.rank < length self.old.scripts.items }
        requires few { step_count (lists_of self.old.scripts.items) ≤ 255 }
        ensures exact { Gives (λ _. draft_view self.new) result (in_step place (drafted place (draft_view self.old) (table_view table.now) (planned placed.entry))) }
        ensures each { OnOk result (length self.new.scripts.items ≡ length self.old.scripts.items) }
        ensures counted { OnOk result (step_count (lists_of self.new.scripts.items) ≡ step_count (lists_of self.old.scripts.items) + 1) }
    {
        let Placed { rank, step } = placed;
        let step = step.kept(*self.names.allocator())?;
        let script = self.scripts[rank as usize].as_slice();
        let names = self.names.as_slice();
        let at = script.len() as u16;
        let name = match new_name(names, rank, table) {
            Ok(name) => name,
            Err(fault) => return Err(JobFault::InStep(fault, place)),
        };
        let asker = Asker {
            rank,
            at,
            script,
            names,
            place,
        };
        push_conditions(&mut self.conditions, &asker, table)?;
        push_step_proviso(&mut self.provisos, &asker, table)?;
        push_expected(&mut self.expected, &asker, &step, table)?;
        push_naming(&mut self.namings, &asker, table)?;
        push_name(&mut self.names, rank, at, name)?;
        self.filed.push(Filed { rank, at, place })?;
        push_step(&mut self.scripts, rank, step)?;
        Ok(())
    }
}

/// Names, and behind them one more where there is one.
fn push_name(names: &mut Vec<Name>, rank: u8, at: u16, name: Option<Label>) -> Result<(), JobFault>
    ensures pushed { OnOk result (names.new.items ≡ name_behind names.old.items rank at name) }
    ensures memory { IfErr result (λ error. error ≡ JobFault.OutOfMemory) }
{
    if let Some(text) = name {
        names.push(Name { rank, at, text })?;
    }
    Ok(())
}

/// One more step comes last in the script of its rank.
fn push_step(scripts: &mut Vec<Vec<Step>>, rank: u8, step: Step) -> Result<(), JobFault>
    requires { rank < length scripts.old.items }
    ensures pushed { OnOk result (lists_of scripts.new.items ≡ slice_set (lists_of scripts.old.items) rank (slice_index_or (lists_of scripts.old.items) rank [] ++ step ∷ [])) }
    ensures each { OnOk result (length scripts.new.items ≡ length scripts.old.items) }
    ensures memory { IfErr result (λ error. error ≡ JobFault.OutOfMemory) }
{
    scripts[rank as usize].push(step)?;
    Ok(())
}

/// The name of a step of a rank, where it has one.
fn new_name(names: &[Name], rank: u8, table: &Table) -> Result<Option<Label>, Fault>
    ensures { (at : ℕ) → map_ok (name_behind names.now rank at) result ≡ names_in names.now rank at (get_member (codes "name") (table_view table.now)) }
{
    let Some(value) = value_at(table, "name") else {
        return Ok(None);
    };
    match value.as_str() {
        Some(text) if is_new_name(names, rank, text) => Ok(Label::new(text)),
        Some(_) => Err(Fault::OutOfRange),
        None => Err(Fault::BadKey),
    }
}

/// An empty script for each rank.
fn empty_scripts(alloc: Global, ranks: u8) -> Result<Vec<Vec<Step>>, JobFault>
    ensures empty { IfOk result (λ scripts. lists_of scripts.items ≡ replicate ranks []) }
    ensures memory { IfErr result (λ error. error ≡ JobFault.OutOfMemory) }
{
    let mut scripts = Vec::new(alloc);
    for _ in 0..ranks {
        scripts.push(Vec::new(alloc))?;
    }
    Ok(scripts)
}
