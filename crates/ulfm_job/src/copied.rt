//! A job once more.
ghost use Rattle.std.specs.Prelude.{◌≡◌, IfOk};
ghost use Rattle.ulfm_job.specs.Job.{lists_of};
ghost use Rattle.ulfm_job.specs.Place.{expecting};

use crate::{Clause, Condition, Job, LeftStep, Naming, Step};
use std::alloc::Global;
use ulfm_base::OutOfMemory;

/// The same job once more.
pub fn copied_job(alloc: Global, job: &Job) -> Result<Job, OutOfMemory>
    ensures { IfOk result (λ copy. copy ≡ job.now) }
{
    let expected = copied_clauses(alloc, job.expected())?;
    expecting(alloc, job, expected)
}

/// The same job once more, of whose answers this is expected.
///
/// # Errors
///
/// `OutOfMemory` where a growth was refused.
pub fn expecting(alloc: Global, job: &Job, expected: Vec<Clause>) -> Result<Job, OutOfMemory>
    ensures { IfOk result (λ copy. copy ≡ expecting expected.items job.now) }
{
    let scripts = copied_scripts(alloc, job)?;
    let conditions = copied_conditions(alloc, job.conditions())?;
    let left = copied_left(alloc, job.left())?;
    let namings = copied_namings(alloc, job.namings())?;
    let copy = Job::new(job.capacity(), job.turns(), scripts, conditions, expected);
    Ok(copy.leaving(left).naming(namings))
}

/// The scripts of a job's ranks once more.
fn copied_scripts(alloc: Global, job: &Job) -> Result<Vec<Vec<Step>>, OutOfMemory>
    ensures { IfOk result (λ scripts. lists_of scripts.items ≡ job.now.scripts) }
{
    let mut scripts = Vec::new(alloc);
    for rank in 0..job.ranks() {
        scripts.push(copied_script(alloc, job.script(rank))?)?;
    }
    Ok(scripts)
}

/// The same script once more.
fn copied_script(alloc: Global, script: &[Step]) -> Result<Vec<Step>, OutOfMemory>
    ensures { IfOk result (λ steps. steps.items ≡ script.now) }
{
    let mut steps = Vec::new(alloc);
    for step in script {
        steps.push(step.copy(alloc)?)?;
    }
    Ok(steps)
}

/// The same steps that may be given up once more.
fn copied_left(alloc: Global, left: &[LeftStep]) -> Result<Vec<LeftStep>, OutOfMemory>
    ensures { IfOk result (λ copies. copies.items ≡ left.now) }
{
    let mut copies = Vec::new(alloc);
    for step in left {
        copies.push(*step)?;
    }
    Ok(copies)
}

/// The same namings once more.
fn copied_namings(alloc: Global, namings: &[Naming]) -> Result<Vec<Naming>, OutOfMemory>
    ensures { IfOk result (λ copies. copies.items ≡ namings.now) }
{
    let mut copies = Vec::new(alloc);
    for naming in namings {
        copies.push(naming.copy())?;
    }
    Ok(copies)
}

/// The same conditions once more.
fn copied_conditions(alloc: Global, conditions: &[Condition]) -> Result<Vec<Condition>, OutOfMemory>
    ensures { IfOk result (λ copies. copies.items ≡ conditions.now) }
{
    let mut copies = Vec::new(alloc);
    for condition in conditions {
        copies.push(condition.copy(alloc)?)?;
    }
    Ok(copies)
}

/// The same clauses once more.
fn copied_clauses(alloc: Global, clauses: &[Clause]) -> Result<Vec<Clause>, OutOfMemory>
    ensures { IfOk result (λ copies. copies.items ≡ clauses.now) }
{
    let mut copies = Vec::new(alloc);
    for clause in clauses {
        copies.push(clause.copy(alloc)?)?;
    }
    Ok(copies)
}
