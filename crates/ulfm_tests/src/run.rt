//! Jobs that threads run.

mod closing;
mod foretold;
mod inventor;
mod laid;
mod meeting;
mod misfits;
mod polls;
mod resting;
mod room;
mod sweeps;
mod verdicts;

use ulfm_script::RunFault;

/// How many reports of a run show that it can't be true, 0 where none do.
fn untrue_reports<T>(run: &Result<T, RunFault>) -> usize {
    match run {
        Err(RunFault::Untrue(reports)) => reports.len(),
        _ => 0,
    }
}
