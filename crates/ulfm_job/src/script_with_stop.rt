//! A script with one more stop.
ghost use Rattle.std.specs.Prelude.{◌≡◌, ◌≤◌, IfErr, IfOk, length, map};
ghost use Rattle.ulfm_job.specs.Job.{lists_of, moved_clause, moved_condition, moved_left, moved_naming, moved_number, moved_on, stopped_at};

use crate::clause::Clause;
use crate::condition::Condition;
use crate::fault::JobFault;
use crate::left_step::LeftStep;
use crate::naming::Naming;
use crate::step::Step;
use std::alloc::Global;
use ulfm_base::OutOfMemory;

/// A script with a stop before its step `at`, or after its last one.
pub(crate) fn stopped_at(alloc: Global, script: &[Step], at: u16) -> Result<Vec<Step>, JobFault>
    requires place { at ≤ length script.now }
    requires few { length script.now ≤ 256 }
    ensures exact { IfOk result (λ steps. steps.items ≡ stopped_at at script.now) }
    ensures memory { IfErr result (λ fault. fault ≡ JobFault.OutOfMemory) }
{
    let mut steps = Vec::new(alloc);
    for step in script {
        steps.push(moved_on(alloc, step, at, script.len())?)?;
    }
    steps.insert(at as usize, Step::Stop)?;
    Ok(steps)
}

/// A step of a script that had `len` steps, once there is one more before the step `at`.
fn moved_on(alloc: Global, step: &Step, at: u16, len: usize) -> Result<Step, OutOfMemory>
    requires { len ≤ 256 }
    ensures { IfOk result (λ moved. moved ≡ moved_on at len step.now) }
{
    match step {
        Step::Wait { req } => Ok(Step::Wait {
            req: moved_number(*req, at, len),
        }),
        Step::Mrecv { req, room } => Ok(Step::Mrecv {
            req: moved_number(*req, at, len),
            room: *room,
        }),
        Step::Cancel { req } => Ok(Step::Cancel {
            req: moved_number(*req, at, len),
        }),
        _ => step.copy(alloc),
    }
}

/// The number of a step of a script that had `len` steps, once there is one more before the step `at`.
fn moved_number(req: u16, at: u16, len: usize) -> u16
    requires { len ≤ 256 }
    ensures { result ≡ moved_number at len req }
{
    if at <= req && (req as usize) < len {
        req + 1
    } else {
        req
    }
}

/// Clauses, once a rank whose script had `len` steps has one more before the step `at`.
pub(crate) fn moved_clauses(
    alloc: Global,
    clauses: &[Clause],
    rank: u8,
    at: u16,
    len: usize,
) -> Result<Vec<Clause>, JobFault>
    requires { len ≤ 256 }
    ensures exact { IfOk result (λ moved. moved.items ≡ map (moved_clause rank at len) clauses.now) }
    ensures memory { IfErr result (λ fault. fault ≡ JobFault.OutOfMemory) }
{
    let mut moved = Vec::new(alloc);
    for clause in clauses {
        moved.push(moved_clause(alloc, clause, rank, at, len)?)?;
    }
    Ok(moved)
}

/// A clause, once a rank whose script had `len` steps has one more before the step `at`.
fn moved_clause(
    alloc: Global,
    clause: &Clause,
    rank: u8,
    at: u16,
    len: usize,
) -> Result<Clause, OutOfMemory>
    requires { len ≤ 256 }
    ensures { IfOk result (λ moved. moved ≡ moved_clause rank at len clause.now) }
{
    let mut moved = clause.copy(alloc)?;
    if moved.rank == rank {
        moved.at = moved_number(moved.at, at, len);
        moved.step = moved_number(moved.step, at, len);
    }
    Ok(moved)
}

/// Conditions, once a rank whose script had `len` steps has one more before the step `at`.
pub(crate) fn moved_conditions(
    alloc: Global,
    conditions: &[Condition],
    rank: u8,
    at: u16,
    len: usize,
) -> Result<Vec<Condition>, JobFault>
    requires { len ≤ 256 }
    ensures exact { IfOk result (λ moved. moved.items ≡ map (moved_condition rank at len) conditions.now) }
    ensures memory { IfErr result (λ fault. fault ≡ JobFault.OutOfMemory) }
{
    let mut moved = Vec::new(alloc);
    for condition in conditions {
        moved.push(moved_condition(alloc, condition, rank, at, len)?)?;
    }
    Ok(moved)
}

/// A condition, once a rank whose script had `len` steps has one more before the step `at`.
fn moved_condition(
    alloc: Global,
    condition: &Condition,
    rank: u8,
    at: u16,
    len: usize,
) -> Result<Condition, OutOfMemory>
    requires { len ≤ 256 }
    ensures { IfOk result (λ moved. moved ≡ moved_condition rank at len condition.now) }
{
    let mut moved = condition.copy(alloc)?;
    if moved.rank == rank {
        moved.at = moved_number(moved.at, at, len);
        moved.step = moved_number(moved.step, at, len);
    }
    Ok(moved)
}

/// Steps that may be given up, once a rank whose script had `len` steps has one more before the step `at`.
pub(crate) fn moved_left(
    alloc: Global,
    left: &[LeftStep],
    rank: u8,
    at: u16,
    len: usize,
) -> Result<Vec<LeftStep>, JobFault>
    requires { len ≤ 256 }
    ensures exact { IfOk result (λ moved. moved.items ≡ map (moved_left rank at len) left.now) }
    ensures memory { IfErr result (λ fault. fault ≡ JobFault.OutOfMemory) }
{
    let mut moved = Vec::new(alloc);
    for step in left {
        moved.push(one_moved(*step, rank, at, len))?;
    }
    Ok(moved)
}

/// One of these steps.
fn one_moved(step: LeftStep, rank: u8, at: u16, len: usize) -> LeftStep
    requires { len ≤ 256 }
    ensures { result ≡ moved_left rank at len step }
{
    let mut moved = step;
    if moved.rank == rank {
        moved.at = moved_number(moved.at, at, len);
    }
    moved
}

/// Namings, once a rank whose script had `len` steps has one more before the step `at`.
pub(crate) fn moved_namings(
    alloc: Global,
    namings: &[Naming],
    rank: u8,
    at: u16,
    len: usize,
) -> Result<Vec<Naming>, JobFault>
    requires { len ≤ 256 }
    ensures exact { IfOk result (λ moved. moved.items ≡ map (moved_naming rank at len) namings.now) }
    ensures memory { IfErr result (λ fault. fault ≡ JobFault.OutOfMemory) }
{
    let mut moved = Vec::new(alloc);
    for naming in namings {
        moved.push(moved_naming(naming, rank, at, len))?;
    }
    Ok(moved)
}

/// One of these namings.
fn moved_naming(naming: &Naming, rank: u8, at: u16, len: usize) -> Naming
    requires { len ≤ 256 }
    ensures { result ≡ moved_naming rank at len naming.now }
{
    let mut moved = naming.copy();
    if moved.rank == rank {
        moved.at = moved_number(moved.at, at, len);
        moved.step = moved_number(moved.step, at, len);
    }
    moved
}

/// The same scripts once more.
pub(crate) fn copied_scripts(
    alloc: Global,
    scripts: &[Vec<Step>],
) -> Result<Vec<Vec<Step>>, JobFault>
    ensures exact { IfOk result (λ copies. lists_of copies.items ≡ lists_of scripts.now) }
    ensures memory { IfErr result (λ fault. fault ≡ JobFault.OutOfMemory) }
{
    let mut copies = Vec::new(alloc);
    for script in scripts {
        copies.push(copied_script(alloc, script.as_slice())?)?;
    }
    Ok(copies)
}

/// The same script once more.
fn copied_script(alloc: Global, script: &[Step]) -> Result<Vec<Step>, JobFault>
    ensures exact { IfOk result (λ copy. copy.items ≡ script.now) }
    ensures memory { IfErr result (λ fault. fault ≡ JobFault.OutOfMemory) }
{
    let mut steps = Vec::new(alloc);
    for step in script {
        steps.push(step.copy(alloc)?)?;
    }
    Ok(steps)
}
