//! The answers that a line of text names, for a job that was read.
ghost use Rattle.std.specs.Prelude.{◌≡◌, ◌==◌, [], map, IfOk};
ghost use Rattle.std.specs.List.{slice_split};
ghost use Rattle.std.specs.Str.{trim};
ghost use Rattle.ulfm_reader.specs.Goals.{goals_of, goals_onto, goals_view};
ghost use Rattle.ulfm_reader.specs.JobText.{reading_view};

use crate::claim::goal_in;
use crate::reading::Reading;
use std::alloc::{AllocError, Global};
use ulfm_base::OutOfMemory;
use ulfm_job::{Clause, Text};

impl Reading {
    /// The answers of the job's steps that a text names, parted by semicolons, each as one of a row of `never`. A step may also be said
    /// to `never end`, where its answer may be `unfinished`. In each clause `at` is `step`. Or the first part that names no answer.
    ///
    /// # Errors
    ///
    /// `OutOfMemory` where a growth was refused.
    pub fn goals<'a>(
        &self,
        alloc: Global,
        text: &'a str,
    ) -> Result<Result<Vec<Clause>, &'a str>, OutOfMemory>
        ensures { IfOk result (λ goals. goals_view goals ≡ goals_of (reading_view self.now) text.now) }
    {
        let parts = parts_of(alloc, text)?;
        goals_of(alloc, self, parts.as_slice())
    }
}

/// The parts of a text between semicolons.
fn parts_of(alloc: Global, text: &str) -> Result<Vec<&str>, AllocError>
    ensures { IfOk result (λ parts. map (λ p. p.now) parts.items ≡ slice_split (λ b. b == 59) text.now) }
{
    text.split(';').collect(alloc)
}

/// The answers that texts name, without white space around them.
fn goals_of<'a>(
    alloc: Global,
    reading: &Reading,
    parts: &[&'a str],
) -> Result<Result<Vec<Clause>, &'a str>, OutOfMemory>
    ensures { IfOk result (λ goals. goals_view goals ≡ goals_onto (reading_view reading.now).plan.scripts reading.now.names.items [] (map trim (map (λ p. p.now) parts.now))) }
{
    let mut goals = Vec::new(alloc);
    for part in parts {
        let part = part.trim();
        let Ok(claim) = goal_in(&reading.job, reading.names.as_slice(), part) else {
            return Ok(Err(part));
        };
        let words = Text::new(alloc, claim.words)?;
        goals.push(Clause {
            rank: claim.rank,
            at: claim.step,
            step: claim.step,
            words,
        })?;
    }
    Ok(Ok(goals))
}
