//! A search, how far it goes, and in which form it is told.
ghost use Rattle.std.specs.Prelude.{IfOk, IsTrue};
ghost use Rattle.ulfm_outcomes_spec.specs.Outcomes.{IsList};
ghost use Rattle.ulfm_outcomes_spec.specs.Told.{AreNowhere, IsLook};

use std::alloc::Global;
use ulfm_base::OutOfMemory;
use ulfm_command_line::{Choice, ListOptions};
use ulfm_forms::Form;
use ulfm_job::Job;
use ulfm_outcomes_list::{Goals, Told};
use ulfm_outcomes_spec::{Finder, Query};
use ulfm_reach::{Reach, Watch};

/// What a command looks by for outcomes and schedules.
#[derive(Drop)]
pub struct Search<'a, F> {
    /// Who finds them.
    pub finder: &'a F,
    /// Where they are kept.
    pub alloc: Global,
    /// The form in which they are told.
    pub form: Form,
    /// How far is looked, among others.
    pub options: ListOptions,
    /// Which lines a list has.
    pub choice: Choice<'a>,
}

impl<F: Finder> Search<'_, F> {
    /// What the steps of a job may be answered. `watch` is told how far it is.
    ///
    /// # Errors
    ///
    /// `OutOfMemory` where a growth was refused.
    pub fn outcomes<W: Watch>(&self, job: &Job, watch: &mut W) -> Result<Reach, OutOfMemory>
        ensures { IfOk result (λ reach. IsList job.now self.now.options.limit reach) }
    {
        let limit = self.options.limit as usize;
        self.finder.outcomes(self.alloc, job, limit, watch)
    }

    /// What the steps of a job may be answered, and whether the search for it found that no schedule of the job shows any of these goals. No says nothing. `watch` is told how far it is.
    ///
    /// # Errors
    ///
    /// `OutOfMemory` where a growth was refused.
    pub fn outcomes_with<W: Watch>(
        &self,
        job: &Job,
        rows: &[Goals],
        watch: &mut W,
    ) -> Result<(Reach, bool), OutOfMemory>
        ensures list { IfOk result (λ listed. IsList job.now self.now.options.limit listed.0) }
        ensures nowhere { IfOk result (λ listed. IsTrue listed.1 → AreNowhere job.now rows.now) }
    {
        let limit = self.options.limit as usize;
        self.finder
            .outcomes_with(self.alloc, job, rows, limit, watch)
    }

    /// A schedule of a job that shows these goals, if there is one. `watch` is told how far it is.
    ///
    /// # Errors
    ///
    /// `OutOfMemory` where a growth was refused.
    pub fn show<W: Watch>(
        &self,
        job: &Job,
        goals: &Goals,
        watch: &mut W,
    ) -> Result<Option<Told>, OutOfMemory>
        ensures { IfOk result (IsLook job.now goals.now self.now.options.is_brief self.now.options.limit) }
    {
        let query = Query {
            goals,
            is_brief: self.options.is_brief,
            limit: self.options.limit as usize,
        };
        self.finder.show(self.alloc, job, &query, watch)
    }
}
