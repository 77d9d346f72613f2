//! The job of a text.
//!
//! What speaks of jobs alone doesn't stand on this crate, so it is proved beside it: `read` is a call of the trait `ReadJob`, and `Job::new` is
//! public for it. The rows of `never` stand beside the job, since no rank's play depends on them: a job with a stop more needs none.
ghost use Rattle.std.specs.Prelude.{◌≡◌, ◌≤◌, ◌<◌, ℕ, List, Err, IfOk, length, map, option_map};
ghost use Rattle.toml.specs.View.{items_view, table_view};
ghost use Rattle.ulfm_reader.specs.Lines.{line_view};
ghost use Rattle.ulfm_reader.specs.inside.Reading.{IsHead, draft_view, head_view};
ghost use Rattle.ulfm_job.specs.Job.{lists_of, step_count};
ghost use Rattle.ulfm_reader.specs.JobText.{Gives, blank, steps_of, job_of_bytes, lines_of, never_of, reading_of, reading_of_bytes, reading_view, rest_of, IsNoDocument};
ghost use Rattle.ulfm_reader.specs.Plan.{plan_of};

use crate::draft::Draft;
use crate::filed::Filed;
use crate::head::{Head, head_of};
use crate::name::Name;
use crate::proviso::{Proviso, push_provisos};
use crate::rows::{never_out, rows_in, texts_in};
use crate::{Line, Unwritten, written_out};
use std::alloc::Global;
use toml::{Table, Value};
use ulfm_job::limits::MOST_BYTES;
use ulfm_job::{Clause, Job, JobFault, Text};

/// What a text asks for: its job, the rows of answers of which no run may have all, the names of its steps, their places in the file, and what
/// of this is asked only before the steps of a name. In each clause of a row `at` is `step`.
#[derive(Drop)]
pub struct Reading {
    /// The job.
    pub job: Job,
    /// The rows, none where the text has no `never`.
    pub never: Vec<Vec<Clause>>,
    /// Their texts as they stand in the file, for people.
    pub texts: Vec<Vec<Text>>,
    /// The names of steps.
    pub names: Vec<Name>,
    /// The place of each step in the file, in the order in which they were read.
    pub filed: Vec<Filed>,
    /// Which of its rows, and of what its steps expect, is asked only where every stop lies before the steps of a name.
    pub provisos: Vec<Proviso>,
}

/// What can be read from the text of a job.
pub trait ReadJob: Sized {
    /// Reads a job.
    ///
    /// # Errors
    ///
    /// In this order: `TooLarge` where there are more than 1,048,576 bytes; `NotToml` where they are no UTF-8 or no TOML
    /// document; `InJob` for the job's own keys, with `BadKey`, then `UnknownKey`, then `OutOfRange`; `TooLarge` where
    /// there are more than 256 steps, written out; `InStep` with the place in the file of the first step that has a fault, and its
    /// first fault: `BadKey` for its `op`, `UnknownOp`, `BadKey`, `UnknownKey`, `OutOfRange`; then those of its `name`, its `if`, its
    /// `expect`, and of a `comm` by name; then `InJob` for the tables among the rows of `never`, then with `OutOfRange` for the names before whose steps some is asked, and
    /// for the rows. `OutOfMemory` comes in place of any answer, where a growth was refused.
    fn read(alloc: Global, bytes: &[u8]) -> Result<Self, JobFault>;
}

impl ReadJob for Job {
    fn read(alloc: Global, bytes: &[u8]) -> Result<Job, JobFault>
        ensures { Gives plan_of result (job_of_bytes bytes.now) }
    {
        match Reading::read(alloc, bytes) {
            Ok(reading) => Ok(reading.job),
            Err(fault) => Err(fault),
        }
    }
}

impl ReadJob for Reading {
    #[tactic(auto, unfolding(crate::specs::JobText::reading_of_bytes))]
    fn read(alloc: Global, bytes: &[u8]) -> Result<Reading, JobFault>
        ensures { Gives reading_view result (reading_of_bytes bytes.now) }
    {
        if bytes.len() > MOST_BYTES {
            return Err(JobFault::TooLarge);
        }
        let Ok(text) = str::from_utf8(bytes) else {
            return Err(JobFault::NotToml);
        };
        match toml::table_from_str(alloc, text) {
            Ok(table) => reading_of(alloc, &table),
            Err(error) => {
                if error.is_memory() {
                    Err(JobFault::OutOfMemory)
                } else {
                    Err(JobFault::NotToml)
                }
            }
        }
    }
}

/// What a table asks for.
#[tactic(auto, unfolding(crate::specs::JobText::reading_of))]
fn reading_of(alloc: Global, table: &Table) -> Result<Reading, JobFault>
    ensures { Gives reading_view result (reading_of (table_view table.now)) }
{
    let head = match head_of(table) {
        Ok(head) => head,
        Err(fault) => return Err(JobFault::InJob(fault)),
    };
    let lines = match written_out(alloc, head.ranks, head.steps) {
        Ok(lines) => lines,
        Err(Unwritten::TooMany) => return Err(JobFault::TooLarge),
        Err(Unwritten::OutOfMemory) => return Err(JobFault::OutOfMemory),
    };
    let draft = draft_of(alloc, head.ranks, lines.as_slice())?;
    rest_of(alloc, &head, lines.as_slice(), draft)
}

/// What the job's own keys and the steps ask for, and the rows, written out.
fn rest_of(
    alloc: Global,
    head: &Head<'_>,
    lines: &[Line],
    draft: Draft,
) -> Result<Reading, JobFault>
    requires ranges { IsHead (head_view head.now) }
    requires each { length draft.scripts.items ≡ head.now.ranks }
    requires few { step_count (lists_of draft.scripts.items) ≤ 256 }
    requires lines { map line_view lines.now ≡ lines_of (head_view head.now) }
    ensures { Gives reading_view result (rest_of (head_view head.now) (draft_view draft)) }
{
    let never = match never_out(alloc, head.ranks, lines, head.never) {
        Ok(never) => never,
        Err(fault) => return Err(fault),
    };
    with_rows(alloc, head, values_of(&never), draft)
}

/// The values of a list, where there is one.
fn values_of(never: &Option<Vec<Value>>) -> Option<&[Value]>
    ensures { option_map (λ s. items_view s.now) result ≡ option_map (λ rows. items_view rows.items) never.now }
{
    match never {
        Some(values) => Some(values.as_slice()),
        None => None,
    }
}

/// What the job's own keys and the steps ask for, and these rows.
fn with_rows(
    alloc: Global,
    head: &Head<'_>,
    values: Option<&[Value]>,
    draft: Draft,
) -> Result<Reading, JobFault>
    requires ranges { IsHead (head_view head.now) }
    requires each { length draft.scripts.items ≡ head.now.ranks }
    requires few { step_count (lists_of draft.scripts.items) ≤ 256 }
    ensures { Gives reading_view result (never_of (head_view head.now) (option_map (λ s. items_view s.now) values.entry) (draft_view draft)) }
{
    let mut draft = draft;
    match push_provisos(&mut draft.provisos, draft.names.as_slice(), values) {
        Ok(()) => {}
        Err(fault) => return Err(fault),
    }
    let never = match rows_in(alloc, &draft, values) {
        Ok(never) => never,
        Err(fault) => return Err(fault),
    };
    let texts = texts_in(alloc, values)?;
    let Draft {
        scripts,
        names,
        filed,
        namings,
        conditions,
        expected,
        provisos,
    } = draft;
    let plain = Job::new(head.capacity, head.turns, scripts, conditions, expected);
    let job = plain.naming(namings);
    Ok(Reading {
        job,
        never,
        texts,
        names,
        filed,
        provisos,
    })
}

/// What the steps of these lines are, in their order.
fn draft_of(alloc: Global, ranks: u8, lines: &[Line]) -> Result<Draft, JobFault>
    requires some { 0 < ranks }
    requires few { length lines.now ≤ 256 }
    ensures exact { Gives draft_view result (steps_of ranks (blank ranks) (map line_view lines.now)) }
    ensures each { IfOk result (λ draft. length draft.scripts.items ≡ ranks) }
    ensures counted { IfOk result (λ draft. step_count (lists_of draft.scripts.items) ≡ length lines.now) }
{
    let mut draft = Draft::blank(alloc, ranks)?;
    for line in lines {
        draft.read(ranks, line.place, &line.step)?;
    }
    Ok(draft)
}

/// Which bytes are refused as no TOML: those that are few enough, and no UTF-8 or no document.
pub fn no_toml()
    ensures only { (bytes : List ℕ) → job_of_bytes bytes ≡ Err JobFault.NotToml → IsNoDocument bytes }
    ensures always { (bytes : List ℕ) → IsNoDocument bytes → job_of_bytes bytes ≡ Err JobFault.NotToml }
{}
