//! Who finds outcomes.
//!
//! A schedule comes from it as a value, so that no function above lets go of a world, which is dear to prove. The definitions of
//! events and of keys stand in `ulfm_reduction_laws`, so that what is replied doesn't need `ulfm_outcomes`.
ghost use Rattle.std.specs.Prelude.{IfOk, IsTrue};
ghost use Rattle.ulfm_outcomes_spec.specs.Outcomes.{IsList};
ghost use Rattle.ulfm_outcomes_spec.specs.Told.{AreNowhere, IsLook};

use crate::query::Query;
use std::alloc::Global;
use ulfm_base::OutOfMemory;
use ulfm_job::Job;
use ulfm_outcomes_list::{Goals, Told};
use ulfm_reach::{Reach, Watch};

/// Finds what the steps of a job may be answered, and schedules that show answers. `ulfm_outcomes` has the one of the program. What is
/// replied rests on these three contracts alone, so it is proved beside that one.
pub trait Finder {
    /// What each step of a job may be answered, and which steps may be left open for ever, over every schedule. Or that worlds of more
    /// keys than the limit are there, and nothing of answers. `watch` is told how far it is.
    ///
    /// # Errors
    ///
    /// `OutOfMemory` where a growth was refused.
    fn outcomes<W: Watch>(
        &self,
        alloc: Global,
        job: &Job,
        limit: usize,
        watch: &mut W,
    ) -> Result<Reach, OutOfMemory>
        ensures { IfOk result (λ reach. IsList job.now limit reach) };

    /// The same list, and whether the search for it found that no schedule of the job shows any of these goals. No says nothing. Of goals by which a
    /// step is to stand open for ever it says nothing either way.
    ///
    /// # Errors
    ///
    /// `OutOfMemory` where a growth was refused.
    fn outcomes_with<W: Watch>(
        &self,
        alloc: Global,
        job: &Job,
        rows: &[Goals],
        limit: usize,
        watch: &mut W,
    ) -> Result<(Reach, bool), OutOfMemory>
        ensures list { IfOk result (λ listed. IsList job.now limit listed.0) }
        ensures nowhere { IfOk result (λ listed. IsTrue listed.1 → AreNowhere job.now rows.now) };

    /// A schedule of a job in which all that it is asked for holds: its events, the trace that it leaves, and what steps wait for that are to
    /// stand open for ever. Or that there are more worlds than the limit in which it doesn't hold; nothing where no schedule of the job has
    /// all of it. `watch` is told how far it is.
    ///
    /// # Errors
    ///
    /// `OutOfMemory` where a growth was refused.
    fn show<W: Watch>(
        &self,
        alloc: Global,
        job: &Job,
        query: &Query<'_>,
        watch: &mut W,
    ) -> Result<Option<Told>, OutOfMemory>
        ensures { IfOk result (IsLook job.now query.now.goals.now query.now.is_brief query.now.limit) };
}
